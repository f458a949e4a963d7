ghost use Rattle.std.specs.Prelude.{◌≡◌, ◌++◌, OnOk};
ghost use Rattle.pim_text.specs.Text.{instr_text, nor_text, operand_text, port_text, ports_text, target_word};

use crate::text::Text;
use pim_io::NoMemory;
use pim_isa::{Ins, Instr, Operand, Port, Target};

/// The word of a target.
pub fn target_name(target: Target) -> &'static [u8]
    ensures { result.now ≡ target_word target }
{
    match target {
        Target::Magic => b"magic",
        Target::Plim => b"plim",
    }
}

/// The line of a port, after the word that says which kind it is.
fn push_port(text: &mut Text, word: &[u8], port: &Port) -> Result<(), NoMemory>
    ensures { OnOk result (text.new ≡ text.old ++ port_text word.now port.now) }
{
    text.bytes(word)?;
    text.number(port.cell)?;
    text.bytes(b" ")?;
    text.bytes(port.label.bytes())?;
    text.bytes(b"\n")
}

/// A line for each port, after the word that says which kind it is.
pub fn push_ports(text: &mut Text, word: &[u8], ports: &[Port]) -> Result<(), NoMemory>
    ensures { OnOk result (text.new ≡ text.old ++ ports_text word.now ports.now) }
{
    for port in ports {
        push_port(text, word, port)?;
    }
    Ok(())
}

/// An operand of an RM3.
fn push_operand(text: &mut Text, operand: Operand) -> Result<(), NoMemory>
    ensures { OnOk result (text.new ≡ text.old ++ operand_text operand) }
{
    match operand {
        Operand::Zero => text.bytes(b"#0"),
        Operand::One => text.bytes(b"#1"),
        Operand::Cell(cell) => {
            text.bytes(b"@")?;
            text.number(cell)
        }
    }
}

/// A NOR, or a NOT where it has one operand.
fn push_nor(text: &mut Text, target: u32, ins: Ins) -> Result<(), NoMemory>
    ensures { OnOk result (text.new ≡ text.old ++ nor_text target ins) }
{
    match ins {
        Ins::One(a) => text.statement(b"not", &[target, a]),
        Ins::Two(a, b) => text.statement(b"nor", &[target, a, b]),
        Ins::Three(a, b, c) => text.statement(b"nor", &[target, a, b, c]),
        Ins::Four(a, b, c, d) => text.statement(b"nor", &[target, a, b, c, d]),
    }
}

/// An instruction, without its newline.
pub fn push_instr(text: &mut Text, instr: &Instr) -> Result<(), NoMemory>
    ensures { OnOk result (text.new ≡ text.old ++ instr_text instr.now) }
{
    match instr {
        Instr::Init(cells) => text.statement(b"init", cells.list()),
        Instr::Nor { t, ins } => push_nor(text, *t, *ins),
        Instr::Rm3 { p, q, z } => {
            text.bytes(b"rm3 ")?;
            push_operand(text, *p)?;
            text.bytes(b" ")?;
            push_operand(text, *q)?;
            text.bytes(b" @")?;
            text.number(*z)
        }
    }
}
