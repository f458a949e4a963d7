ghost use Rattle.std.specs.Prelude.{◌≡◌, IfSome, option_map};
ghost use Rattle.pim_io.specs.Names.{IsLabel, label};
ghost use Rattle.pim_text.specs.LineForms.{target_of, counted_of, port_of};
ghost use Rattle.pim_text.specs.PortLines.{port_view};

use crate::fields::{behind, is_text, plain_number};
use pim_io::{first_space, is_label};
use pim_isa::Target;

/// The target that a line names.
pub fn target(line: &[u8]) -> Option<Target>
    ensures { result ≡ target_of line.now }
{
    if is_text(line, b"target magic") {
        Some(Target::Magic)
    } else if is_text(line, b"target plim") {
        Some(Target::Plim)
    } else {
        None
    }
}

/// The number of a line that is this word and a number.
pub fn counted(word: &[u8], line: &[u8]) -> Option<u32>
    ensures { result ≡ counted_of word.now line.now }
{
    plain_number(behind(word, line)?)
}

/// A port as a line spells it.
#[derive(Clone, Copy, Debug)]
pub struct PortLine<'a> {
    pub cell: u32,
    pub label: &'a [u8],
}

/// The port of a line that is this word, a cell, and a label to the end of the line.
pub fn port<'a>(word: &[u8], line: &'a [u8]) -> Option<PortLine<'a>>
    ensures port { option_map port_view result ≡ port_of word.now line.now }
    ensures label { IfSome result (λ port. IsLabel port.label.now) }
    ensures same { IfSome result (λ port. label port.label.now ≡ port.label.now) }
{
    let text = behind(word, line)?;
    let space = first_space(text)?;
    let cell = plain_number(&text[..space])?;
    let label = &text[space + 1..];
    if is_label(label) {
        Some(PortLine { cell, label })
    } else {
        None
    }
}
