ghost use Rattle.std.specs.Prelude.{◌≡◌, ◌++◌, ◌∷◌, ◌^◌, ℕ, ◌<◌, ◌≤◌, length, take, OnOk, Ok, Err, IfOk};
ghost use Rattle.std.specs.List.{AllByRecursion};
ghost use Rattle.pim_io.specs.Codes.{code_of};
ghost use Rattle.pim_file.specs.declared.fault.FileFault.TheVariants as faults;
ghost use Rattle.pim_file.specs.Binary.{target_byte, each_bin, counted_bin, numbers_bin, port_bin, operand_number, nor_bin, instr_bin, bin};
ghost use Rattle.pim_file.specs.BinaryReading.{parse_of};
ghost use Rattle.pim_file.specs.BinarySpelled.{HasBytes};
ghost use Rattle.pim_isa.specs.Sound.{IsProgram};
ghost use Rattle.pim_isa.specs.declared.draft.TheConstants.{MAX_PORTS, MAX_INSTRS};

use pim_io::{NoMemory, put_code};
use pim_isa::{Ins, Instr, Operand, Port, Program, Target};
use std::alloc::Global;

/// The byte of a target.
fn target_byte(target: Target) -> u8
    ensures { result ≡ target_byte target }
{
    match target {
        Target::Magic => 0,
        Target::Plim => 1,
    }
}

/// Appends numbers, one after another.
fn push_numbers(bytes: &mut Vec<u8>, numbers: &[u32]) -> Result<(), NoMemory>
    ensures { OnOk result (bytes.new.items ≡ bytes.old.items ++ numbers_bin numbers.now) }
{
    for number in numbers {
        put_code(bytes, *number)?;
    }
    Ok(())
}

/// Appends a port: its cell, how long its label is, and the label.
fn push_port(bytes: &mut Vec<u8>, port: &Port) -> Result<(), NoMemory>
    ensures { OnOk result (bytes.new.items ≡ bytes.old.items ++ port_bin port.now) }
{
    put_code(bytes, port.cell)?;
    let label = port.label.bytes();
    put_code(bytes, label.len() as u32)?;
    bytes.extend_from_slice(label)?;
    Ok(())
}

/// Appends how many ports there are, and each.
fn push_ports(bytes: &mut Vec<u8>, ports: &[Port]) -> Result<(), NoMemory>
    requires { length ports.now ≤ MAX_PORTS }
    ensures { OnOk result (bytes.new.items ≡ bytes.old.items ++ counted_bin port_bin ports.now) }
{
    put_code(bytes, ports.len() as u32)?;
    for port in ports {
        push_port(bytes, port)?;
    }
    Ok(())
}

/// The number of an operand of an RM3.
fn operand_number(operand: Operand) -> u32
    requires { operand_number operand < 2 ^ 32 }
    ensures { result ≡ operand_number operand }
{
    match operand {
        Operand::Zero => 0,
        Operand::One => 1,
        Operand::Cell(cell) => cell + 2,
    }
}

/// Appends a byte and numbers.
fn push_statement(bytes: &mut Vec<u8>, first: u8, numbers: &[u32]) -> Result<(), NoMemory>
    ensures { OnOk result (bytes.new.items ≡ bytes.old.items ++ first ∷ numbers_bin numbers.now) }
{
    bytes.push(first)?;
    push_numbers(bytes, numbers)
}

/// Appends an Init: how many cells, and the cells.
fn push_init(bytes: &mut Vec<u8>, cells: &[u32]) -> Result<(), NoMemory>
    requires { length cells.now < 2 ^ 32 }
    ensures { OnOk result (bytes.new.items ≡ bytes.old.items ++ 0 ∷ counted_bin code_of cells.now) }
{
    bytes.push(0)?;
    put_code(bytes, cells.len() as u32)?;
    push_numbers(bytes, cells)
}

/// Appends a NOR.
fn push_nor(bytes: &mut Vec<u8>, target: u32, ins: Ins) -> Result<(), NoMemory>
    ensures { OnOk result (bytes.new.items ≡ bytes.old.items ++ nor_bin target ins) }
{
    match ins {
        Ins::One(a) => push_statement(bytes, 1, &[target, a]),
        Ins::Two(a, b) => push_statement(bytes, 2, &[target, a, b]),
        Ins::Three(a, b, c) => push_statement(bytes, 4, &[target, a, b, c]),
        Ins::Four(a, b, c, d) => push_statement(bytes, 5, &[target, a, b, c, d]),
    }
}

/// Appends an instruction: the byte of its kind, and its numbers.
fn push_instr(bytes: &mut Vec<u8>, instr: &Instr) -> Result<(), NoMemory>
    requires { HasBytes instr.now }
    ensures { OnOk result (bytes.new.items ≡ bytes.old.items ++ instr_bin instr.now) }
{
    match instr {
        Instr::Init(cells) => push_init(bytes, cells.list()),
        Instr::Nor { t, ins } => push_nor(bytes, *t, *ins),
        Instr::Rm3 { p, q, z } => {
            push_statement(bytes, 3, &[operand_number(*p), operand_number(*q), *z])
        }
    }
}

/// Appends how many instructions there are, and each.
fn push_instrs(bytes: &mut Vec<u8>, instrs: &[Instr]) -> Result<(), NoMemory>
    requires few { length instrs.now ≤ MAX_INSTRS }
    requires spelled { AllByRecursion HasBytes instrs.now }
    ensures { OnOk result (bytes.new.items ≡ bytes.old.items ++ counted_bin instr_bin instrs.now) }
{
    put_code(bytes, instrs.len() as u32)?;
    for instr in instrs {
        push_instr(bytes, instr)?;
    }
    Ok(())
}

/// The binary form of a program, form 2. Linear in the program.
pub fn print_binary(alloc: Global, program: &Program) -> Result<Vec<u8>, NoMemory>
    ensures binary { IfOk result (λ bytes. bytes.items ≡ bin program.now) }

    // The form is read as the program again, and a front of it as cut off.
    ensures again { IfOk result (λ bytes. parse_of bytes.items ≡ Ok program.now) }
    ensures cut { IfOk result (λ bytes. (k : ℕ) → k < length bytes.items → parse_of (take k bytes.items) ≡ Err faults.Truncated) }
{
    let bytes = form(alloc, program)?;
    Ok(bytes)
}

/// The bytes of a program, one part after another.
fn form(alloc: Global, program: &Program) -> Result<Vec<u8>, NoMemory>
    ensures binary { IfOk result (λ bytes. bytes.items ≡ bin program.now) }
    ensures valid { IfOk result (λ _. IsProgram program.now) }
{
    let mut bytes = Vec::new(alloc);
    bytes.extend_from_slice(b"pim2\n")?;
    bytes.push(target_byte(program.target()))?;
    put_code(&mut bytes, program.cells())?;
    push_ports(&mut bytes, program.inputs())?;
    push_ports(&mut bytes, program.outputs())?;
    push_instrs(&mut bytes, program.instrs())?;
    Ok(bytes)
}
