//! The one line that a refusal writes to the notes.
ghost use Rattle.std.specs.Prelude.{◌≡◌, ◌++◌, OnOk, codes, decimal};
ghost use Rattle.pim_io.specs.Outside.{Wrote};
ghost use Rattle.pim_top.specs.Calls.{IsNoted};
ghost use Rattle.pim_top.specs.Notes.{aiger_text, asm_text, bad, blif_line, blif_text, compiler_text, debug_line, debug_text, file_text, imply_file_text, imply_invalid_text, imply_text, instruction_text, invalid_text, judgement_text, kind_word, large, many_text, needed_text, net_text, note, origin_word, part_words, placed, prove_text, refusal_text, share_text, spaced, tree_text, turn_text, unequal_text, unset_text};
ghost use Rattle.pim_top.specs.Streams.{stream};
ghost use Rattle.pim_top.specs.inner.Writing.{WroteLine};

use crate::judgement::Judgement;
use crate::netlist::NetlistFault;
use crate::refusal::{Origin, Refusal};
use crate::vector::VectorText;
use itoa::Buffer;
use pim_aiger::AigerFault;
use pim_asm::AsmFault;
use pim_blif::BlifFault;
use pim_debug::DebugFault;
use pim_file::FileFault;
use pim_imply::{ImplyFault, ImplyInvalid, ImplyRefusal};
use pim_io::{Sink, SinkFault, tell_writes, write_all, write_pieces};
use pim_isa::Invalid;
use pim_life::TreeFault;
use pim_net::{Kind, Names, NetFault};
use pim_prove::{ProveFault, Unset};
use pim_share::{ManyFault, ShareFault};

/// Writes the note of an answer, as far as the sink takes it: none where all was done.
pub fn tell<E: Sink>(answer: &Result<(), Refusal>, notes: &mut E)
    ensures noted { IsNoted (stream E.taken E.faults notes.old notes.new) (note answer.now) }
    ensures silent { OnOk answer.now (notes.new ≡ notes.old) }
{
    if let Err(refusal) = answer {
        let _ = write_refusal(notes, refusal);
    }
}

/// Writes the note of a refusal, piece by piece and without memory: `pim: `, the text and a newline. It ends at the first piece
/// that the sink refuses.
fn write_refusal<E: Sink>(notes: &mut E, refusal: &Refusal) -> Result<(), SinkFault>
    ensures { WroteLine E.taken E.faults notes.old notes.new (refusal_text refusal.now) result }
{
    match refusal {
        Refusal::Usage => write_text(notes, b"usage"),
        Refusal::NoMemory => write_text(notes, b"no memory"),
        Refusal::ReadFault(origin) => write_two(notes, b"read fault: ", origin_word(*origin)),
        Refusal::TooLong(_) => write_large(notes, b"bytes"),
        Refusal::WriteFault => write_text(notes, b"write fault"),
        Refusal::Judged(judgement) => write_judgement(notes, judgement),
    }
}

/// Writes why bytes are refused.
fn write_judgement<E: Sink>(notes: &mut E, judgement: &Judgement) -> Result<(), SinkFault>
    ensures { WroteLine E.taken E.faults notes.old notes.new (judgement_text judgement.now) result }
{
    match judgement {
        Judgement::Netlist(NetlistFault::Aiger(fault)) => write_aiger(notes, fault),
        Judgement::Netlist(NetlistFault::Blif(fault)) => write_blif(notes, fault),
        Judgement::Compile(refusal) => write_compiler(notes, *refusal),
        Judgement::File(fault) => write_file(notes, None, *fault),
        Judgement::Assembly(fault) => write_assembly(notes, *fault),
        Judgement::Prove(fault) => write_prove(notes, *fault),
        Judgement::Unequal { vector, output } => write_unequal(notes, vector, *output),
        Judgement::Tree(fault) => write_tree(notes, *fault),
        Judgement::Imply(refusal) => write_imply(notes, *refusal),
        Judgement::ImplyFile(fault) => write_imply_file(notes, *fault),
        Judgement::Parts(fault) => write_many(notes, *fault),
        Judgement::Turn(line) => write_turn(notes, *line as u64),
        Judgement::Share(fault) => write_share(notes, *fault),
        Judgement::Vector(line) => write_bad_number(notes, b"vector line ", *line),
        Judgement::Command(line, fault) => write_command(notes, *line, *fault),
        Judgement::TooManyLines => write_large(notes, b"rows"),
        Judgement::NoMemory => write_text(notes, b"no memory"),
    }
}

/// Writes why a netlist is not compiled.
fn write_compiler<E: Sink>(notes: &mut E, refusal: pim_compile::Refusal) -> Result<(), SinkFault>
    ensures { WroteLine E.taken E.faults notes.old notes.new (compiler_text refusal) result }
{
    match refusal {
        pim_compile::Refusal::TooFewCells { needed } => write_needed(notes, needed as u64),
        pim_compile::Refusal::TooLarge => write_large(notes, b"nodes"),
        pim_compile::Refusal::NoMemory => write_text(notes, b"no memory"),
    }
}

/// Writes the fault of an AIGER file with its byte place, or that of its netlist with the signals' labels.
fn write_aiger<E: Sink>(notes: &mut E, fault: &AigerFault) -> Result<(), SinkFault>
    ensures { WroteLine E.taken E.faults notes.old notes.new (aiger_text fault.now) result }
{
    match fault {
        AigerFault::Header => write_bad(notes, b"aiger header"),
        AigerFault::Latches => write_bad(notes, b"aiger latches"),
        AigerFault::Number(at) => write_bad_number(notes, b"aiger number at byte ", *at),
        AigerFault::Literal(at) => write_bad_number(notes, b"aiger literal at byte ", *at),
        AigerFault::Truncated(at) => write_bad_number(notes, b"aiger truncated at byte ", *at),
        AigerFault::Delta(at) => write_bad_number(notes, b"aiger delta at byte ", *at),
        AigerFault::Symbol(at) => write_bad_number(notes, b"aiger symbol at byte ", *at),
        AigerFault::Net(fault, labels) => write_net(notes, fault, labels),
        AigerFault::TooLarge(kind) => write_large(notes, kind_word(*kind)),
        AigerFault::NoMemory => write_text(notes, b"no memory"),
    }
}

/// Writes the fault of a BLIF file with its line, or that of its netlist with the signals' labels.
fn write_blif<E: Sink>(notes: &mut E, fault: &BlifFault) -> Result<(), SinkFault>
    ensures { WroteLine E.taken E.faults notes.old notes.new (blif_text fault.now) result }
{
    match fault {
        BlifFault::Syntax(line) => write_blif_line(notes, *line, b": syntax", b""),
        BlifFault::Unsupported(line, name) => write_blif_line(
            notes,
            *line,
            b": unsupported ",
            name.bytes(),
        ),
        BlifFault::RowWidth(line) => write_blif_line(notes, *line, b": row width", b""),
        BlifFault::MixedPhase(line) => write_blif_line(notes, *line, b": mixed phase", b""),
        BlifFault::TwiceInput(line) => write_blif_line(notes, *line, b": input twice", b""),
        BlifFault::Net(fault, labels) => write_net(notes, fault, labels),
        BlifFault::TooLarge(kind) => write_large(notes, kind_word(*kind)),
        BlifFault::NoMemory => write_text(notes, b"no memory"),
    }
}

/// Writes what is wrong in a line of a BLIF file.
fn write_blif_line<E: Sink>(
    notes: &mut E,
    line: u32,
    text: &[u8],
    name: &[u8],
) -> Result<(), SinkFault>
    ensures { WroteLine E.taken E.faults notes.old notes.new (blif_line line text.now name.now) result }
{
    let mut digits = Buffer::new();
    let pieces = [
        b"pim: ".as_slice(),
        b"bad input: ",
        b"blif line ",
        digits.format(line).as_bytes(),
        text,
        name,
        b"\n",
    ];
    write_pieces(notes, &pieces)
}

/// Writes why a command is refused, with its line.
fn write_command<E: Sink>(notes: &mut E, line: u32, fault: DebugFault) -> Result<(), SinkFault>
    ensures { WroteLine E.taken E.faults notes.old notes.new (debug_text line fault) result }
{
    let mut digits = Buffer::new();
    match fault {
        DebugFault::BadCommand => write_debug_line(notes, line, b": bad command", b""),
        DebugFault::NoSuchBreak(number) => {
            let number = digits.format(number).as_bytes();
            write_debug_line(notes, line, b": no such break ", number)
        }
        DebugFault::OutOfProgram(at) => {
            let at = digits.format(at).as_bytes();
            write_debug_line(notes, line, b": out of program ", at)
        }
        DebugFault::NoSuchCell(cell) => {
            let cell = digits.format(cell).as_bytes();
            write_debug_line(notes, line, b": no such cell ", cell)
        }
        DebugFault::NoMemory => write_text(notes, b"no memory"),
    }
}

/// Writes what is wrong with the command in a line.
fn write_debug_line<E: Sink>(
    notes: &mut E,
    line: u32,
    text: &[u8],
    number: &[u8],
) -> Result<(), SinkFault>
    ensures { WroteLine E.taken E.faults notes.old notes.new (debug_line line text.now number.now) result }
{
    let mut digits = Buffer::new();
    let pieces = [
        b"pim: ".as_slice(),
        b"bad input: ",
        b"debug line ",
        digits.format(line).as_bytes(),
        text,
        number,
        b"\n",
    ];
    write_pieces(notes, &pieces)
}

/// Writes the fault of a netlist with the labels of the signals that it names.
fn write_net<E: Sink>(notes: &mut E, fault: &NetFault, labels: &Names) -> Result<(), SinkFault>
    ensures { WroteLine E.taken E.faults notes.old notes.new (net_text fault.now labels.now) result }
{
    match fault {
        NetFault::Twice(_) => write_labelled(notes, b"driven twice", labels),
        NetFault::Undriven(_) => write_labelled(notes, b"undriven", labels),
        NetFault::Cycle(_) => write_labelled(notes, b"cycle", labels),
        NetFault::NoMemory => write_text(notes, b"no memory"),
    }
}

/// Writes the fault of a program file, or of a part of one, with its line, or that of its program.
fn write_file<E: Sink>(notes: &mut E, part: Option<u32>, fault: FileFault) -> Result<(), SinkFault>
    ensures { WroteLine E.taken E.faults notes.old notes.new (file_text part fault) result }
{
    match fault {
        FileFault::Line(line) => write_placed(notes, part, b"program line ", line, b""),
        FileFault::Invalid(fault) => write_invalid(notes, part, fault),
        FileFault::Byte(place) => write_placed(notes, part, b"program byte ", place, b""),
        FileFault::Truncated => write_part(notes, part, b"program truncated"),
        FileFault::TooLarge => write_large(notes, b"cells"),
        FileFault::NoMemory => write_text(notes, b"no memory"),
    }
}

/// Writes the fault of assembly with its line, or that of its program.
fn write_assembly<E: Sink>(notes: &mut E, fault: AsmFault) -> Result<(), SinkFault>
    ensures { WroteLine E.taken E.faults notes.old notes.new (asm_text fault) result }
{
    match fault {
        AsmFault::Line(line) => write_bad_number(notes, b"assembly line ", line),
        AsmFault::Name(line) => write_bad_number(notes, b"assembly name in line ", line),
        AsmFault::Invalid(fault) => write_invalid(notes, None, fault),
        AsmFault::NoMemory => write_text(notes, b"no memory"),
    }
}

/// Writes why a program is not compared with a netlist.
fn write_prove<E: Sink>(notes: &mut E, fault: ProveFault) -> Result<(), SinkFault>
    ensures { WroteLine E.taken E.faults notes.old notes.new (prove_text fault) result }
{
    match fault {
        ProveFault::Ports => write_bad(notes, b"ports differ"),
        ProveFault::Inputs => write_large(notes, b"inputs"),
        ProveFault::Nodes => write_large(notes, b"nodes"),
        ProveFault::NotClean(unset) => write_unset(notes, unset),
        ProveFault::NoMemory => write_text(notes, b"no memory"),
    }
}

/// Writes which cell a program uses unset.
fn write_unset<E: Sink>(notes: &mut E, unset: Unset) -> Result<(), SinkFault>
    ensures { WroteLine E.taken E.faults notes.old notes.new (unset_text unset) result }
{
    let mut digits = Buffer::new();
    let mut number = Buffer::new();
    match unset {
        Unset::Used { instr, cell } => {
            let pieces = [
                b"pim: ".as_slice(),
                b"bad input: ",
                b"program instruction ",
                number.format(instr).as_bytes(),
                b" uses unset cell ",
                digits.format(cell).as_bytes(),
                b"\n",
            ];
            write_pieces(notes, &pieces)
        }
        Unset::Output(output) => {
            let pieces = [
                b"pim: ".as_slice(),
                b"bad input: ",
                b"program output ",
                digits.format(output).as_bytes(),
                b" is unset",
                b"\n",
            ];
            write_pieces(notes, &pieces)
        }
    }
}

/// Writes at which vector and output a program differs from a netlist.
fn write_unequal<E: Sink>(notes: &mut E, vector: &VectorText, output: u32) -> Result<(), SinkFault>
    ensures { WroteLine E.taken E.faults notes.old notes.new (unequal_text vector.now output) result }
{
    let mut digits = Buffer::new();
    let pieces = [
        b"pim: ".as_slice(),
        b"unequal ",
        vector.bytes(),
        b" output ",
        digits.format(output).as_bytes(),
        b"\n",
    ];
    write_pieces(notes, &pieces)
}

/// Writes why a program's NORs are not explained as a graph.
fn write_tree<E: Sink>(notes: &mut E, fault: TreeFault) -> Result<(), SinkFault>
    ensures { WroteLine E.taken E.faults notes.old notes.new (tree_text fault) result }
{
    match fault {
        TreeFault::NotMagic => write_bad(notes, b"program is not magic"),
        TreeFault::NoMemory => write_text(notes, b"no memory"),
    }
}

/// Writes why a netlist is not compiled to `false` and `imp`.
fn write_imply<E: Sink>(notes: &mut E, refusal: ImplyRefusal) -> Result<(), SinkFault>
    ensures { WroteLine E.taken E.faults notes.old notes.new (imply_text refusal) result }
{
    match refusal {
        ImplyRefusal::TooFewCells { needed } => write_needed(notes, needed as u64),
        ImplyRefusal::TooLarge => write_large(notes, b"nodes"),
        ImplyRefusal::NoMemory => write_text(notes, b"no memory"),
    }
}

/// Writes the fault of a program of `false` and `imp`.
fn write_imply_file<E: Sink>(notes: &mut E, fault: ImplyFault) -> Result<(), SinkFault>
    ensures { WroteLine E.taken E.faults notes.old notes.new (imply_file_text fault) result }
{
    match fault {
        ImplyFault::Line(line) => write_bad_number(notes, b"imply line ", line),
        ImplyFault::Invalid(fault) => write_imply_invalid(notes, fault),
        ImplyFault::TooLarge => write_large(notes, b"cells"),
        ImplyFault::Truncated => write_bad(notes, b"imply truncated"),
        ImplyFault::NoMemory => write_text(notes, b"no memory"),
    }
}

/// Writes why a program of `false` and `imp` is not valid, with the instruction or the port.
fn write_imply_invalid<E: Sink>(notes: &mut E, fault: ImplyInvalid) -> Result<(), SinkFault>
    ensures { WroteLine E.taken E.faults notes.old notes.new (imply_invalid_text fault) result }
{
    let text = b"imply instruction ";
    match fault {
        ImplyInvalid::Port(k) => write_bad_number(notes, b"imply port ", k),
        ImplyInvalid::CellRange(k) => write_placed(notes, None, text, k, b" cell range"),
        ImplyInvalid::SameCell(k) => write_placed(notes, None, text, k, b" same cell"),
    }
}

/// Writes the fault of a part of a file.
fn write_many<E: Sink>(notes: &mut E, fault: ManyFault) -> Result<(), SinkFault>
    ensures { WroteLine E.taken E.faults notes.old notes.new (many_text fault) result }
{
    match fault {
        ManyFault::Part { part, fault } => write_file(notes, Some(part), fault),
        ManyFault::NoMemory => write_text(notes, b"no memory"),
    }
}

/// Writes why programs don't share a row.
fn write_share<E: Sink>(notes: &mut E, fault: ShareFault) -> Result<(), SinkFault>
    ensures { WroteLine E.taken E.faults notes.old notes.new (share_text fault) result }
{
    match fault {
        ShareFault::OtherTarget(part) => write_part(notes, Some(part), b"other target"),
        ShareFault::TooFewCells { needed } => write_needed(notes, needed),
        ShareFault::Turn(turn) => write_turn(notes, turn as u64 + 1),
        ShareFault::Missing(part) => write_bad_number(notes, b"turns missing part ", part),
        ShareFault::NoMemory => write_text(notes, b"no memory"),
    }
}

/// Writes that the turn in a line is wrong.
fn write_turn<E: Sink>(notes: &mut E, line: u64) -> Result<(), SinkFault>
    ensures { WroteLine E.taken E.faults notes.old notes.new (turn_text line) result }
{
    let mut digits = Buffer::new();
    write_bad_two(notes, b"turn line ", digits.format(line).as_bytes())
}

/// Writes that there are too few cells, and how many are needed.
fn write_needed<E: Sink>(notes: &mut E, needed: u64) -> Result<(), SinkFault>
    ensures { WroteLine E.taken E.faults notes.old notes.new (needed_text needed) result }
{
    let mut digits = Buffer::new();
    write_two(
        notes,
        b"too few cells: needed ",
        digits.format(needed).as_bytes(),
    )
}

/// Writes why a program is not valid, with the instruction or the port.
fn write_invalid<E: Sink>(notes: &mut E, part: Option<u32>, fault: Invalid) -> Result<(), SinkFault>
    ensures { WroteLine E.taken E.faults notes.old notes.new (invalid_text part fault) result }
{
    match fault {
        Invalid::CellRange(k) => write_instruction(notes, part, k, b" cell range"),
        Invalid::TargetRead(k) => write_instruction(notes, part, k, b" reads its target"),
        Invalid::WrongTarget(k) => write_instruction(notes, part, k, b" wrong target"),
        Invalid::InitList(k) => write_instruction(notes, part, k, b" init list"),
        Invalid::Port(k) => write_placed(notes, part, b"program port ", k, b""),
    }
}

/// Writes what is wrong with an instruction.
fn write_instruction<E: Sink>(
    notes: &mut E,
    part: Option<u32>,
    number: u32,
    text: &[u8],
) -> Result<(), SinkFault>
    ensures { WroteLine E.taken E.faults notes.old notes.new (instruction_text part number text.now) result }
{
    write_placed(notes, part, b"program instruction ", number, text)
}

/// Writes a fault of a program file, or of a part of one, with a number.
fn write_placed<E: Sink>(
    notes: &mut E,
    part: Option<u32>,
    text: &[u8],
    number: u32,
    rest: &[u8],
) -> Result<(), SinkFault>
    ensures { WroteLine E.taken E.faults notes.old notes.new (placed part text.now number rest.now) result }
{
    let mut digits = Buffer::new();
    tell_writes();
    write_front(notes, part)?;
    let pieces = [text, digits.format(number).as_bytes(), rest, b"\n"];
    write_pieces(notes, &pieces)
}

/// Writes a fault of a program file, or of a part of one.
fn write_part<E: Sink>(notes: &mut E, part: Option<u32>, text: &[u8]) -> Result<(), SinkFault>
    ensures { WroteLine E.taken E.faults notes.old notes.new (bad (part_words part ++ text.now)) result }
{
    tell_writes();
    write_front(notes, part)?;
    write_pieces(notes, &[text, b"\n"])
}

/// Begins a line: the input is bad, and which part of the file is meant, if it has several.
fn write_front<E: Sink>(notes: &mut E, part: Option<u32>) -> Result<(), SinkFault>
    ensures { Wrote result (E.taken notes.old) (E.taken notes.new) (E.faults notes.old) (E.faults notes.new)
        (codes "pim: " ++ (codes "bad input: " ++ part_words part)) }
{
    match part {
        None => write_pieces(notes, &[b"pim: ".as_slice(), b"bad input: "]),
        Some(part) => {
            let mut digits = Buffer::new();
            let number = digits.format(part).as_bytes();
            let pieces = [b"pim: ".as_slice(), b"bad input: ", b"part ", number, b" "];
            write_pieces(notes, &pieces)
        }
    }
}

/// Writes that the input is bad, what is wrong, and labels.
fn write_labelled<E: Sink>(notes: &mut E, text: &[u8], labels: &Names) -> Result<(), SinkFault>
    ensures { WroteLine E.taken E.faults notes.old notes.new (bad (text.now ++ spaced labels.now)) result }
{
    tell_writes();
    write_pieces(notes, &[b"pim: ".as_slice(), b"bad input: ", text])?;
    write_labels(notes, labels)?;
    write_all(notes, b"\n")
}

/// Writes labels, each after a space.
fn write_labels<E: Sink>(notes: &mut E, labels: &Names) -> Result<(), SinkFault>
    ensures { Wrote result (E.taken notes.old) (E.taken notes.new) (E.faults notes.old) (E.faults notes.new) (spaced labels.now) }
{
    tell_writes();
    for label in labels.list() {
        write_pieces(notes, &[b" ".as_slice(), label.bytes()])?;
    }
    Ok(())
}

/// Writes that the input is bad, and what is wrong.
fn write_bad<E: Sink>(notes: &mut E, text: &[u8]) -> Result<(), SinkFault>
    ensures { WroteLine E.taken E.faults notes.old notes.new (bad text.now) result }
{
    write_two(notes, b"bad input: ", text)
}

/// The same, with a number behind it.
fn write_bad_number<E: Sink>(notes: &mut E, text: &[u8], number: u32) -> Result<(), SinkFault>
    ensures { WroteLine E.taken E.faults notes.old notes.new (bad (text.now ++ decimal number)) result }
{
    let mut digits = Buffer::new();
    write_bad_two(notes, text, digits.format(number).as_bytes())
}

/// The same, with a name behind it.
fn write_bad_two<E: Sink>(notes: &mut E, text: &[u8], name: &[u8]) -> Result<(), SinkFault>
    ensures { WroteLine E.taken E.faults notes.old notes.new (bad (text.now ++ name.now)) result }
{
    write_pieces(
        notes,
        &[b"pim: ".as_slice(), b"bad input: ", text, name, b"\n"],
    )
}

/// Writes that a limit is passed, and the word for it.
fn write_large<E: Sink>(notes: &mut E, word: &[u8]) -> Result<(), SinkFault>
    ensures { WroteLine E.taken E.faults notes.old notes.new (large word.now) result }
{
    write_two(notes, b"too large: ", word)
}

/// Writes a text.
fn write_text<E: Sink>(notes: &mut E, text: &[u8]) -> Result<(), SinkFault>
    ensures { WroteLine E.taken E.faults notes.old notes.new text.now result }
{
    write_pieces(notes, &[b"pim: ".as_slice(), text, b"\n"])
}

/// Writes two texts, one behind the other.
fn write_two<E: Sink>(notes: &mut E, first: &[u8], second: &[u8]) -> Result<(), SinkFault>
    ensures { WroteLine E.taken E.faults notes.old notes.new (first.now ++ second.now) result }
{
    write_pieces(notes, &[b"pim: ".as_slice(), first, second, b"\n"])
}

/// The name of a source.
fn origin_word(origin: Origin) -> &'static [u8]
    ensures { result.now ≡ origin_word origin }
{
    match origin {
        Origin::Program => b"program",
        Origin::Input => b"input",
    }
}

/// The word for a limit of a netlist.
fn kind_word(kind: Kind) -> &'static [u8]
    ensures { result.now ≡ kind_word kind }
{
    match kind {
        Kind::Signals => b"signals",
        Kind::Outputs => b"outputs",
        Kind::Name => b"name",
    }
}
