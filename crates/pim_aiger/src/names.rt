ghost use Rattle.std.specs.Prelude.{◌≡◌, ◌+◌, ◌<◌, ◌≤◌, length, replicate, None, OnOk, IfOk};
ghost use Rattle.pim_io.specs.Readings.{Gives};
ghost use Rattle.pim_aiger.specs.SymbolTable.{symbol_of, allowed, no_names, names_at};
ghost use Rattle.pim_aiger.specs.inner.Kept.{with_symbol, IsSized};
ghost use Rattle.pim_io.specs.declared.limits.TheConstants.{MAX_PROGRAM};
ghost use Rattle.pim_aiger.specs.inner.Views.{header_view};

use crate::fault::AigerFault;
use crate::header::Header;
use crate::symbol::{Port, is_comment, symbol_of};
use pim_io::{MAX_NAME, NoMemory, Scan, text_of};
use pim_net::Kind;
use std::alloc::Global;
use std::marker::Model;

/// A name of 1 to `MAX_NAME` bytes, as it stands in the file.
#[derive(Debug, Drop)]
pub(crate) struct GivenName<'a> {
    bytes: &'a [u8],
}

impl<'a> Model for GivenName<'a> {
    ghost use Rattle.std.specs.Prelude.{ℕ, ◌<◌, ◌≤◌, List, length};
    ghost use Rattle.pim_io.specs.declared.limits.TheConstants.{MAX_NAME};

    ghost Value = { List ℕ };

    ghost view = { λ n. n.bytes.now };

    ghost invariant = { λ n. (0 < length n.bytes.now) × (length n.bytes.now ≤ MAX_NAME) };
}

impl<'a> GivenName<'a> {
    /// The bytes of the name.
    pub(crate) fn bytes(&self) -> &'a [u8]
        ensures value { result.now ≡ self.now }
        ensures some { 0 < length self.now }
        ensures short { length self.now ≤ MAX_NAME }
    {
        self.bytes
    }
}

/// The names that symbols give to inputs and to outputs, by position.
#[derive(Debug, Drop)]
pub(crate) struct GivenNames<'a> {
    inputs: Vec<Option<GivenName<'a>>>,
    outputs: Vec<Option<GivenName<'a>>>,
}

impl<'a> Model for GivenNames<'a> {
    ghost use Rattle.pim_aiger.specs.SymbolTable.{NamesView};

    ghost Value = { NamesView };

    ghost view = { λ n. record { inputs = n.inputs.items; outputs = n.outputs.items } };
}

impl<'a> GivenNames<'a> {
    /// No names, for as many inputs and outputs as a header tells.
    fn new(alloc: Global, header: &Header) -> Result<GivenNames<'a>, NoMemory>
        ensures { IfOk result (λ names. names ≡ no_names (header_view header.now)) }
    {
        Ok(GivenNames {
            inputs: no_names(alloc, header.inputs)?,
            outputs: no_names(alloc, header.outputs)?,
        })
    }

    /// The names of inputs, by position.
    pub(crate) fn inputs(&self) -> &[Option<GivenName<'a>>]
        ensures { result.now ≡ self.now.inputs }
    {
        self.inputs.as_slice()
    }

    /// The names of outputs, by position.
    pub(crate) fn outputs(&self) -> &[Option<GivenName<'a>>]
        ensures { result.now ≡ self.now.outputs }
    {
        self.outputs.as_slice()
    }

    /// Takes the symbol of a line, which begins at `place`.
    fn add(&mut self, header: &Header, place: u32, text: &'a [u8]) -> Result<(), AigerFault>
        requires sized { IsSized (header_view header.now) self.old }
        ensures exact { Gives AigerFault.NoMemory (λ _. self.new) result
            (with_symbol self.old (allowed (header_view header.now) place (symbol_of text.now))) }
        ensures sized { OnOk result (IsSized (header_view header.now) self.new) }
    {
        let Some(symbol) = symbol_of(text) else {
            return Err(AigerFault::Symbol(place));
        };
        if symbol.position >= symbol.port.count(header) {
            return Err(AigerFault::Symbol(place));
        }
        if symbol.name.len() > MAX_NAME {
            return Err(AigerFault::TooLarge(Kind::Name));
        }
        let name = GivenName { bytes: symbol.name };
        match symbol.port {
            Port::Input => self.inputs[symbol.position as usize] = Some(name),
            Port::Output => self.outputs[symbol.position as usize] = Some(name),
        }
        Ok(())
    }
}

/// As many places as `count`, without names.
fn no_names<'a>(alloc: Global, count: u32) -> Result<Vec<Option<GivenName<'a>>>, NoMemory>
    ensures { IfOk result (λ names. names.items ≡ replicate count None) }
{
    let mut names = Vec::new(alloc);
    for _ in 0..count {
        names.push(None)?;
    }
    Ok(names)
}

/// The names that the last lines of a file give: its symbols, up to a line that begins with `c`. An empty line is passed
/// over. The first of the bytes has this place.
#[tactic(auto, unfolding(crate::specs::SymbolTable::names_at))]
pub(crate) fn names_at<'a>(
    alloc: Global,
    header: &Header,
    place: u32,
    bytes: &'a [u8],
) -> Result<GivenNames<'a>, AigerFault>
    requires { place + length bytes.now ≤ MAX_PROGRAM }
    ensures exact { Gives AigerFault.NoMemory (λ names. names) result (names_at (header_view header.now) (record { place = place; rest = bytes.now })) }
    ensures sized { IfOk result (IsSized (header_view header.now)) }
{
    let mut names = GivenNames::new(alloc, header)?;
    let mut scan = Scan::new(bytes);
    while let Some(line) = scan.line() {
        let text = text_of(&line);
        if is_comment(text) {
            return Ok(names);
        }
        if text.is_empty() {
            continue;
        }
        names.add(header, place + line.start, text)?;
    }
    Ok(names)
}
