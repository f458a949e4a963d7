ghost use Rattle.std.specs.Prelude.{◌≡◌, ◌++◌, length, decimal, IfErr, IfOk, OnOk};
ghost use Rattle.std.specs.List.{range_with_len};
ghost use Rattle.pim_graph.specs.Peaks.{peak as peak_of};
ghost use Rattle.pim_isa.specs.declared.target.Target.TheVariants as targets;
ghost use Rattle.pim_life.specs.TreeLines.{IsRefusedTree, shape_text, tree_explanation, tree_line, tree_text};

use crate::drawing::nor_graph;
use crate::explanation::{explain, push_number};
use crate::tree_fault::TreeFault;
use pim_graph::{Graph, order, peak, tree};
use pim_io::NoMemory;
use pim_isa::Program;
use std::alloc::Global;

/// The explanation of a MAGIC program, and one more line: whether its NORs are a tree, how many there are, and how many values the order by
/// usage and the program's own order hold at once. It takes n log n for n NORs.
pub fn explain_tree(alloc: Global, program: &Program) -> Result<Vec<u8>, TreeFault>
    ensures text { IfOk result (λ text. text.items ≡ tree_explanation program.now) }
    ensures magic { OnOk result (program.now.target ≡ targets.Magic) }
    ensures refused { IfErr result (IsRefusedTree program.now) }
{
    let graph = nor_graph(alloc, program)?;
    let mut text = explain(alloc, program)?;
    push_line(alloc, &mut text, &graph)?;
    Ok(text)
}

/// The line of a graph.
fn push_line(alloc: Global, text: &mut Vec<u8>, graph: &Graph) -> Result<(), NoMemory>
    ensures { OnOk result (text.new.items ≡ text.old.items ++ tree_line graph.now) }
{
    let usage = tree(alloc, graph)?;
    let best = order(alloc, graph)?;
    let most = peak(alloc, graph, &best)?;
    let own = own_peak(alloc, graph)?;
    push_numbers(text, usage, graph.len(), most, own)
}

/// The peak of the order of the gates' numbers.
fn own_peak(alloc: Global, graph: &Graph) -> Result<u32, NoMemory>
    ensures { IfOk result (λ most. most ≡ peak_of graph.now (range_with_len 0 (length graph.now.kids))) }
{
    let gates = numbers(alloc, graph.len())?;
    peak(alloc, graph, &gates)
}

/// The numbers below this one, in order.
fn numbers(alloc: Global, count: u32) -> Result<Vec<u32>, NoMemory>
    ensures { IfOk result (λ numbers. numbers.items ≡ range_with_len 0 count) }
{
    let mut numbers = Vec::new(alloc);
    for number in 0..count {
        numbers.push(number)?;
    }
    Ok(numbers)
}

/// The line of these numbers.
fn push_numbers(
    text: &mut Vec<u8>,
    usage: Option<u32>,
    gates: u32,
    most: u32,
    own: u32,
) -> Result<(), NoMemory>
    ensures { OnOk result (text.new.items ≡ text.old.items ++ tree_text usage gates most own) }
{
    push_shape(text, usage, gates)?;
    text.extend_from_slice(b" peak ")?;
    push_number(text, most)?;
    text.extend_from_slice(b" own ")?;
    push_number(text, own)?;
    text.extend_from_slice(b"\n")?;
    Ok(())
}

/// Whether it is a tree, with its root's usage, and the number of gates.
fn push_shape(text: &mut Vec<u8>, usage: Option<u32>, gates: u32) -> Result<(), NoMemory>
    ensures { OnOk result (text.new.items ≡ text.old.items ++ shape_text usage gates) }
{
    match usage {
        None => push_counted(text, b"tree no gates ", gates),
        Some(usage) => {
            push_counted(text, b"tree yes gates ", gates)?;
            push_counted(text, b" cu ", usage)
        }
    }
}

/// Words and a number.
fn push_counted(text: &mut Vec<u8>, words: &[u8], number: u32) -> Result<(), NoMemory>
    ensures { OnOk result (text.new.items ≡ text.old.items ++ (words.now ++ decimal number)) }
{
    text.extend_from_slice(words)?;
    push_number(text, number)
}
