ghost use Rattle.std.specs.Prelude.{◌≡◌, ◌++◌, ◌≤◌, ◌^◌, length, OnOk, IfOk, Ok};
ghost use Rattle.pim_asm.specs.Assembly.{asm_of};
ghost use Rattle.pim_asm.specs.Labels.{hex_digit, escaped, escaped_text};
ghost use Rattle.pim_asm.specs.Listing.{port_listing, ports_listing, instr_listing, instrs_listing, listing_of};
ghost use Rattle.std.specs.List.{AllByRecursion};
ghost use Rattle.pim_asm.specs.inner.Bytes.{AreBytes, HasByteLabel};

use crate::labels::is_clear;
use pim_io::NoMemory;
use pim_isa::{Instr, Port, Program};
use pim_text::{Text, line_laws, push_instr, target_name};
use std::alloc::Global;

/// The hexadecimal digit of a value below 16.
fn hex_digit(n: u8) -> u8
    requires { n ≤ 15 }
    ensures { result ≡ hex_digit n }
{
    if n < 10 { n + b'0' } else { n + 87 }
}

/// A byte as it is written between quotes.
fn push_byte(text: &mut Text, b: u8) -> Result<(), NoMemory>
    ensures { OnOk result (text.new ≡ text.old ++ escaped b) }
{
    if is_clear(b) {
        text.bytes(&[b])
    } else {
        text.bytes(&[b'\\', hex_digit(b / 16), hex_digit(b % 16)])
    }
}

/// Bytes as they are written between quotes.
fn push_escaped(text: &mut Text, bytes: &[u8]) -> Result<(), NoMemory>
    ensures text { OnOk result (text.new ≡ text.old ++ escaped_text bytes.now) }
    ensures small { OnOk result (AreBytes bytes.now) }
{
    for b in bytes {
        push_byte(text, *b)?;
    }
    Ok(())
}

/// The line of a port, after the word that says which kind it is.
fn push_port(text: &mut Text, word: &[u8], port: &Port) -> Result<(), NoMemory>
    ensures text { OnOk result (text.new ≡ text.old ++ port_listing word.now port.now) }
    ensures small { OnOk result (HasByteLabel port.now) }
{
    text.bytes(word)?;
    text.number(port.cell)?;
    text.bytes(b" \"")?;
    push_escaped(text, port.label.bytes())?;
    text.bytes(b"\"\n")
}

/// A line for each port, after the word that says which kind it is.
fn push_ports(text: &mut Text, word: &[u8], ports: &[Port]) -> Result<(), NoMemory>
    ensures text { OnOk result (text.new ≡ text.old ++ ports_listing word.now ports.now) }
    ensures small { OnOk result (AllByRecursion HasByteLabel ports.now) }
{
    for port in ports {
        push_port(text, word, port)?;
    }
    Ok(())
}

/// The line of the instruction with this number.
fn push_numbered(text: &mut Text, number: u32, instr: &Instr) -> Result<(), NoMemory>
    ensures { OnOk result (text.new ≡ text.old ++ instr_listing number instr.now) }
{
    push_instr(text, instr)?;
    text.counted(b" ; ", number)
}

/// A line for each instruction.
fn push_instrs(text: &mut Text, instrs: &[Instr]) -> Result<(), NoMemory>
    requires { length instrs.now ≤ 2 ^ 28 }
    ensures { OnOk result (text.new ≡ text.old ++ instrs_listing 0 instrs.now) }
{
    for (number, instr) in instrs.iter().enumerate() {
        push_numbered(text, number as u32, instr)?;
    }
    Ok(())
}

/// The listing of a program. Linear in the program.
pub fn listing(alloc: Global, program: &Program) -> Result<Vec<u8>, NoMemory>
    ensures text { IfOk result (λ bytes. bytes.items ≡ listing_of program.now) }

    // The listing is assembled to the program again.
    ensures again { IfOk result (λ bytes. asm_of bytes.items ≡ Ok program.now) }
{
    line_laws();
    let mut text = Text::new(alloc);
    text.bytes(b"target ")?;
    text.bytes(target_name(program.target()))?;
    text.counted(b"\ncells ", program.cells())?;
    push_ports(&mut text, b"input ", program.inputs())?;
    push_ports(&mut text, b"output ", program.outputs())?;
    push_instrs(&mut text, program.instrs())?;
    Ok(text.into_bytes())
}
