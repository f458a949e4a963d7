ghost use Rattle.std.specs.Prelude.{◌≡◌, ◌==◌, ◌<◌, length, option_map, IfSome};
ghost use Rattle.std.specs.List.{position};
ghost use Rattle.pim_aiger.specs.SymbolTable.{count_of, is_comment, symbol_of, with_space};
ghost use Rattle.pim_aiger.specs.inner.Views.{header_view, port_view, symbol_view};

use crate::header::Header;
use pim_io::{first_space, number};

/// Whether a symbol names an input or an output.
#[derive(Clone, Copy, Debug, PartialEq, Eq)]
pub(crate) enum Port {
    Input,
    Output,
}

impl Port {
    /// How many ports of this kind a header tells.
    pub(crate) fn count(self, header: &Header) -> u32
        ensures { result ≡ count_of (header_view header.now) (port_view self) }
    {
        match self {
            Port::Input => header.inputs,
            Port::Output => header.outputs,
        }
    }
}

/// A name for the input or the output at a position.
#[derive(Clone, Copy, Debug)]
pub(crate) struct Symbol<'a> {
    pub(crate) port: Port,
    pub(crate) position: u32,
    pub(crate) name: &'a [u8],
}

/// Whether a line ends the table of symbols.
pub(crate) fn is_comment(text: &[u8]) -> bool
    ensures { result ≡ is_comment text.now }
{
    match text {
        [first, ..] => *first == b'c',
        [] => false,
    }
}

/// The symbol that a line spells: `i` or `o` and a position, up to the first space, and after it a name that is not empty.
pub(crate) fn symbol_of(text: &[u8]) -> Option<Symbol<'_>>
    ensures spelled { option_map symbol_view result ≡ symbol_of text.now }
    ensures named { IfSome result (λ symbol. 0 < length symbol.name.now) }
{
    match text {
        [b'i', text @ ..] => positioned(Port::Input, text),
        [b'o', text @ ..] => positioned(Port::Output, text),
        _ => None,
    }
}

/// The symbol of a port whose position and name are told by a text.
fn positioned(port: Port, text: &[u8]) -> Option<Symbol<'_>>
    ensures spelled { option_map symbol_view result ≡ with_space (port_view port) text.now (position (λ b. b == 32) text.now) }
    ensures named { IfSome result (λ symbol. 0 < length symbol.name.now) }
{
    let space = first_space(text)?;
    let position = number(&text[..space])?;
    let name = &text[space + 1..];
    if name.is_empty() {
        return None;
    }
    Some(Symbol {
        port,
        position,
        name,
    })
}
