ghost use Rattle.std.specs.Prelude.{◌≡◌, ◌<◌, ◌≤◌, [], ◌++◌, ◌-◌, ℕ, All, length, slice_index, drop, IfOk, OnOk};
ghost use Rattle.std.specs.List.{range_with_len};
ghost use Rattle.pim_graph.specs.Graphs.{kids_of};
ghost use Rattle.pim_graph.specs.Peaks.{IsPlaced};
ghost use Rattle.pim_graph.specs.Readers.{CountsReads, occurrences};
ghost use Rattle.pim_isa.specs.PortLists.{input_ports};
ghost use Rattle.pim_isa.specs.declared.target.Target.TheVariants.{Magic};
ghost use Rattle.pim_nor.specs.GateGraphs.{graph_of};
ghost use Rattle.pim_nor.specs.Network.{AreInputsOrFirst, pins};
ghost use Rattle.pim_simpler.specs.inner.Runs.{Plan, Begins, Ran};
ghost use Rattle.pim_simpler.specs.inner.Kept.{Refills, placed, after_read, after_reads, cell_of, instrs_of, output_ports, with_instrs};

use crate::free_cells::FreeCells;
use crate::ports::{add_outputs, cell_of};
use pim_graph::Readers;
use pim_io::NoMemory;
use pim_isa::{Ins, Instr, MAX_CELLS, Ports, ProgramDraft, Target};
use pim_nor::{Gate, NorNet, Pin};
use std::alloc::Global;
use std::marker::Model;

/// A schedule in the making: the program so far, and what each work cell is. A cell is free, or it holds the value of a
/// gate that is still needed.
#[derive(Drop)]
pub(crate) struct Scheduler<'a> {
    alloc: Global,
    net: &'a NorNet,
    pub(crate) draft: ProgramDraft,
    free: FreeCells,
    /// The cell that each gate took.
    cells: Vec<u32>,
    readers: Readers,
}

impl<'a> Model for Scheduler<'a> {
    ghost use Rattle.std.specs.Prelude.{◌≡◌, length};
    ghost use Rattle.pim_simpler.specs.inner.Kept.{ScheduleView};

    ghost Value = { ScheduleView };

    ghost view = { λ s. record {
      net = s.net.now;
      draft = s.draft;
      free = s.free;
      cells = s.cells.items;
      left = s.readers;
    } };

    ghost invariant = { λ s. (length s.cells.items ≡ length s.net.now.gates) × (length s.readers ≡ length s.net.now.gates) };
}

impl<'a> Scheduler<'a> {
    /// The start, where all work cells are expired: they are the cells before `cells` that come after the inputs.
    pub(crate) fn new(
        alloc: Global,
        net: &'a NorNet,
        order: &[u32],
        cells: u32,
    ) -> Result<Scheduler<'a>, NoMemory>
        requires placed { IsPlaced (graph_of net.now) order.now }
        requires enough { net.now.inputs ≤ cells }
        requires few { cells ≤ MAX_CELLS }
        ensures net { IfOk result (λ s. s.net ≡ net.now) }
        ensures draft { IfOk result (λ s. s.draft ≡ record { target = Magic; cells = cells; inputs = []; outputs = []; instrs = [] }) }
        ensures free { IfOk result (λ s. s.free ≡ record { primed = []; expired = range_with_len net.now.inputs (cells - net.now.inputs) }) }
        ensures left { IfOk result (λ s. CountsReads (graph_of net.now) order.now s.left) }
        ensures cells { IfOk result (λ s. length s.cells ≡ length net.now.gates) }
    {
        Ok(Scheduler {
            alloc,
            net,
            draft: ProgramDraft::new(alloc, Target::Magic, cells),
            free: FreeCells::new(alloc, net.inputs(), cells)?,
            cells: vec![in alloc; 0u32; net.gates().len()]?,
            readers: Readers::new(alloc, net.graph(), order)?,
        })
    }

    /// Initialises all expired cells with one instruction, if no cell is primed.
    fn refill(&mut self) -> Result<(), NoMemory>
        ensures { OnOk result (Refills self.old self.new) }
    {
        if self.free.has_primed() {
            return Ok(());
        }
        let cells = self.free.prime(self.alloc)?;
        self.draft.add(Instr::Init(cells))
    }

    /// Executes a gate into the least primed cell.
    fn place(&mut self, gate: u32) -> Result<(), NoMemory>
        requires there { gate < length self.old.net.gates }
        requires primed { 0 < length self.old.free.primed }
        ensures { OnOk result (self.new ≡ placed gate self.old) }
    {
        let target = self.free.take();
        let net = self.net;
        self.execute(net.gates()[gate as usize], target)?;
        self.cells[gate as usize] = target;
        Ok(())
    }

    /// Adds the instruction that executes a gate into a cell. The constant one takes none, since its cell is primed.
    fn execute(&mut self, gate: Gate, target: u32) -> Result<(), NoMemory>
        requires { AreInputsOrFirst (length self.old.net.gates) (pins gate) }
        ensures { OnOk result (self.new ≡ record self.old {
          draft = with_instrs self.old.draft (instrs_of (cell_of self.old.cells) target gate);
        }) }
    {
        let ins = match gate {
            Gate::One => return Ok(()),
            Gate::Not(a) => Ins::One(cell_of(&self.cells, a)),
            Gate::Nor(a, b) => Ins::Two(cell_of(&self.cells, a), cell_of(&self.cells, b)),
            Gate::Nor3(a, b, c) => Ins::Three(
                cell_of(&self.cells, a),
                cell_of(&self.cells, b),
                cell_of(&self.cells, c),
            ),
            Gate::Nor4(a, b, c, d) => Ins::Four(
                cell_of(&self.cells, a),
                cell_of(&self.cells, b),
                cell_of(&self.cells, c),
                cell_of(&self.cells, d),
            ),
        };
        self.draft.add(Instr::Nor { t: target, ins })
    }

    /// Takes back the reads of a gate, and frees the cells of what is needed no longer.
    fn release(&mut self, gate: u32) -> Result<(), NoMemory>
        requires there { gate < length self.old.net.gates }
        requires children { All (λ x. x < length self.old.net.gates) (kids_of (graph_of self.old.net) gate) }
        requires read { (x : ℕ) → occurrences (kids_of (graph_of self.old.net) gate) x ≤ slice_index self.old.left x }
        ensures { OnOk result (self.new ≡ after_reads self.old gate) }
    {
        let graph = self.net.graph();
        for child in graph.children(gate) {
            self.take_read(*child)?;
        }
        Ok(())
    }

    /// Takes back one read of a gate. If it was the last one and the gate is no root, the gate's cell is free.
    fn take_read(&mut self, gate: u32) -> Result<(), NoMemory>
        requires there { gate < length self.old.net.gates }
        requires read { 0 < slice_index self.old.left gate }
        ensures { OnOk result (self.new ≡ after_read self.old gate) }
    {
        self.readers.take_back(gate);
        if !self.readers.is_spent(gate) || self.net.graph().is_root(gate) {
            return Ok(());
        }
        let cell = self.cells[gate as usize];
        match self.net.gates()[gate as usize] {
            Gate::One => self.free.give_back(cell),
            _ => self.free.expire(cell),
        }
    }

    /// Schedules the gates of an order, one after another.
    pub(crate) fn run(&mut self, order: &[u32]) -> Result<(), NoMemory>
        requires plan { Plan self.old.net order.now self.old.draft.cells }
        requires begins { Begins order.now self.old }
        ensures { OnOk result (Ran order.now self.old self.new) }
    {
        self.readers.tell_needed();
        for gate in order {
            self.refill()?;
            self.place(*gate)?;
            self.release(*gate)?;
        }
        Ok(())
    }

    /// The program with its ports: the inputs in the first cells, and the outputs in the cells of what they read.
    pub(crate) fn finish(self, ports: &Ports) -> Result<ProgramDraft, NoMemory>
        requires inputs { length ports.now.inputs ≡ self.net.inputs }
        requires outputs { length ports.now.outputs ≡ length self.net.outs }
        ensures { IfOk result (λ draft. draft ≡ record self.entry.draft {
          inputs = self.entry.draft.inputs ++ input_ports 0 ports.now.inputs;
          outputs = self.entry.draft.outputs ++ output_ports (cell_of self.entry.cells) self.entry.net.outs ports.now.outputs;
        }) }
    {
        let Scheduler {
            net,
            mut draft,
            cells,
            ..
        } = self;
        let outs = net.outs();
        draft.add_inputs(ports.inputs())?;
        add_outputs(&mut draft, &cells, outs, ports.outputs())?;
        Ok(draft)
    }
}
