ghost use Rattle.std.specs.Prelude.{◌≡◌, ◌+◌, ◌≤◌, length};
ghost use Rattle.pim_isa.specs.Touches.{names};
ghost use Rattle.pim_isa.specs.Validity.{suits, is_rising, has_good_list, leaves, reads_target, instr_fault, first_instr_fault, bad_output};

use crate::draft::{MAX_INSTRS, MAX_PORTS};
use crate::instr::Instr;
use crate::invalid::Invalid;
use crate::port::Port;
use crate::target::Target;

/// The place of the first output that isn't below the cells, counted on from `first`.
pub(crate) fn bad_output(cells: u32, first: usize, outputs: &[Port]) -> Option<usize>
    requires { first + length outputs.now ≤ MAX_PORTS }
    ensures { result ≡ bad_output cells first outputs.now }
{
    for (k, port) in outputs.iter().enumerate() {
        if port.cell >= cells {
            return Some(first + k);
        }
    }
    None
}

/// The first fault of the instructions. Linear in the cells that they name.
pub(crate) fn first_instr_fault(target: Target, cells: u32, instrs: &[Instr]) -> Option<Invalid>
    requires { length instrs.now ≤ MAX_INSTRS }
    ensures { result ≡ first_instr_fault target cells 0 instrs.now }
{
    for (place, instr) in instrs.iter().enumerate() {
        if let Some(fault) = instr_fault(target, cells, place as u32, instr) {
            return Some(fault);
        }
    }
    None
}

/// The fault of the instruction at this place.
fn instr_fault(target: Target, cells: u32, place: u32, instr: &Instr) -> Option<Invalid>
    ensures { result ≡ instr_fault target cells place instr.now }
{
    if !suits(target, instr) {
        Some(Invalid::WrongTarget(place))
    } else if !has_good_list(instr) {
        Some(Invalid::InitList(place))
    } else if instr.leaves(cells) {
        Some(Invalid::CellRange(place))
    } else if instr.reads_target() {
        Some(Invalid::TargetRead(place))
    } else {
        None
    }
}

/// Whether the target runs this kind of instruction.
fn suits(target: Target, instr: &Instr) -> bool
    ensures { result ≡ suits target instr.now }
{
    match (target, instr) {
        (Target::Magic, Instr::Init(_) | Instr::Nor { .. }) => true,
        (Target::Plim, Instr::Rm3 { .. }) => true,
        _ => false,
    }
}

/// Whether the list of an Init is not empty and strictly rising.
fn has_good_list(instr: &Instr) -> bool
    ensures { result ≡ has_good_list instr.now }
{
    match instr {
        Instr::Init(cells) => is_rising(cells.list()),
        _ => true,
    }
}

/// Whether a list is not empty and each number is above the one before it.
fn is_rising(cells: &[u32]) -> bool
    ensures { result ≡ is_rising cells.now }
{
    let Some((first, rest)) = cells.split_first() else {
        return false;
    };
    let mut last = *first;
    for cell in rest {
        if *cell <= last {
            return false;
        }
        last = *cell;
    }
    true
}
