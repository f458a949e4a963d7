ghost use Rattle.std.specs.Prelude.{◌≡◌, ◌⊎◌, ◌+◌, ◌-◌, ◌<◌, ◌≤◌, ◌↔◌, [], None, Some, length, slice_get, slice_set, IfOk, IfErr, OnOk, OnErr, IsNone};
ghost use Rattle.pim_isa.specs.Results.{load};
ghost use Rattle.pim_isa.specs.Steps.{bit};
ghost use Rattle.pim_debug.specs.Answers.{Answers, AnswersLine, IsSet, Moves, last_of, number_in, past, refusal_of, run_end, shown};
ghost use Rattle.pim_debug.specs.Commands.{command_of};
ghost use Rattle.pim_debug.specs.States.{cells_of, stops_from};
ghost use Rattle.pim_debug.specs.declared.command.Command.{Command};
ghost use Rattle.pim_debug.specs.declared.fault.DebugFault.{DebugFault};
ghost use Rattle.pim_debug.specs.declared.reply.Reply.{Reply};

use crate::bits::Bits;
use crate::command::Command;
use crate::fault::DebugFault;
use crate::history::History;
use crate::reply::Reply;
use crate::stop::Stop;
use crate::stops::Stops;
use pim_io::NoMemory;
use pim_isa::{Fill, Program};
use std::alloc::Global;
use std::marker::Model;

/// One run of a program on one row, which goes forward and back by commands and stops at breakpoints.
#[derive(Debug, Drop)]
pub struct Session<'a> {
    alloc: Global,
    history: History<'a>,
    stops: Stops,
}

impl<'a> Model for Session<'a> {
    ghost use Rattle.std.specs.Prelude.{◌≡◌, ◌+◌, length};
    ghost use Rattle.pim_debug.specs.States.{SessionView};

    ghost Value = { SessionView };

    ghost view = { λ s. record {
      program = s.history.program;
      start = s.history.start;
      state = record { at = s.history.at; stops = s.stops.stops };
    } };

    ghost invariant = { λ s. s.stops.positions ≡ length s.history.program.instrs + 1 };
}

impl<'a> Session<'a> {
    /// The session at position 0, without breakpoints: the bits lie in the input cells in order, and the filling in all other
    /// cells. Linear in the cells and in the instructions.
    pub fn new(
        alloc: Global,
        program: &'a Program,
        vector: &[bool],
        fill: Fill,
    ) -> Result<Session<'a>, NoMemory>
        requires { length vector.now ≡ length program.now.inputs }
        ensures { IfOk result (λ s. s ≡ record {
          program = program.now;
          start = load program.now fill vector.now;
          state = record { at = 0; stops = [] };
        }) }
    {
        let history = History::new(alloc, program, vector, fill)?;
        let stops = Stops::new(alloc, program.instrs().len() + 1)?;
        Ok(Session {
            alloc,
            history,
            stops,
        })
    }

    /// Obeys a line: what it gives, or why it is refused, and then nothing changes.
    ///
    /// Going forward or back takes as long as the cells that the instructions on the way name, and memory for a bit of each that they
    /// write. The rest takes as long as the line or the reply is.
    pub fn command(&mut self, line: &[u8]) -> Result<Reply, DebugFault>
        ensures answers { IfOk result (λ reply. AnswersLine self.old (command_of line.now) reply self.new.state) }
        ensures accepted { OnOk result (refusal_of self.old (command_of line.now) ≡ None) }
        ensures refused { IfErr result (λ fault. (fault ≡ DebugFault.NoMemory) ⊎ (refusal_of self.old (command_of line.now) ≡ Some fault)) }
        ensures stays { OnErr result (self.new ≡ self.old) }
        ensures same { self.new ≡ record self.old { state = self.new.state } }
    {
        match Command::of(line) {
            Some(command) => self.obey(command),
            None => Err(DebugFault::BadCommand),
        }
    }

    /// How many instructions are executed.
    pub fn position(&self) -> u32
        ensures value { result ≡ self.now.state.at }
        ensures within { self.now.state.at ≤ length self.now.program.instrs }
    {
        self.history.at()
    }

    /// The bit in a cell, and None exactly where the program has no such cell.
    pub fn cell(&self, c: u32) -> Option<bool>
        ensures value { result ≡ slice_get (cells_of self.now) c }
        ensures outside { IsNone result ↔ (self.now.program.cells ≤ c) }
    {
        self.history.cell(c)
    }

    /// The breakpoints, by rising number. Linear in the greatest number.
    pub fn breakpoints(&self) -> Result<Vec<Stop>, NoMemory>
        ensures { IfOk result (λ stops. stops.items ≡ stops_from 0 self.now.state.stops) }
    {
        self.stops.list(self.alloc)
    }

    /// Obeys a command.
    fn obey(&mut self, command: Command) -> Result<Reply, DebugFault>
        ensures answers { IfOk result (λ reply. Answers self.old command reply self.new.state) }
        ensures accepted { OnOk result (refusal_of self.old (Some command) ≡ None) }
        ensures refused { IfErr result (λ fault. (fault ≡ DebugFault.NoMemory) ⊎ (refusal_of self.old (Some command) ≡ Some fault)) }
        ensures stays { OnErr result (self.new ≡ self.old) }
        ensures same { self.new ≡ record self.old { state = self.new.state } }
    {
        match command {
            Command::Nothing => Ok(Reply::Nothing),
            Command::Step(n) => self.go_to(u64::from(self.position()) + u64::from(n)),
            Command::Back(n) => Ok(self.back(n)),
            Command::Goto(k) => self.go_to(u64::from(k)),
            Command::Run => self.run(),
            Command::Break(k) => self.set_break(k),
            Command::Delete(n) => self.delete(n),
            Command::Cell(c) => self.tell_cell(c),
            Command::Show => Ok(Reply::Show(self.show()?)),
            Command::Quit => Ok(Reply::Quit),
        }
    }

    /// To a position, if the program has it.
    fn go_to(&mut self, k: u64) -> Result<Reply, DebugFault>
        ensures moves { IfOk result (λ reply. Moves self.old.state k reply self.new.state) }
        ensures accepted { OnOk result (past (last_of self.old) k ≡ None) }
        ensures refused { IfErr result (λ fault. (fault ≡ DebugFault.NoMemory) ⊎ (past (last_of self.old) k ≡ Some fault)) }
        ensures stays { OnErr result (self.new ≡ self.old) }
        ensures same { self.new ≡ record self.old { state = self.new.state } }
    {
        if k > u64::from(self.history.last()) {
            return Err(DebugFault::OutOfProgram(k));
        }
        self.history.go_to(k as u32)?;
        Ok(Reply::At(k as u32))
    }

    /// So many instructions back, or to the start where there are fewer.
    fn back(&mut self, n: u32) -> Reply
        ensures moves { Moves self.old.state (self.old.state.at - n) result self.new.state }
        ensures same { self.new ≡ record self.old { state = self.new.state } }
    {
        let k = self.history.at().saturating_sub(n);
        self.history.back_to(k);
        Reply::At(k)
    }

    /// To the next position that has a breakpoint, or to the last one. Each instruction on the way looks at one count.
    fn run(&mut self) -> Result<Reply, DebugFault>
        ensures moves { IfOk result (λ reply. Moves self.old.state (run_end self.old) reply self.new.state) }
        ensures refused { IfErr result (λ fault. fault ≡ DebugFault.NoMemory) }
        ensures stays { OnErr result (self.new ≡ self.old) }
        ensures same { self.new ≡ record self.old { state = self.new.state } }
    {
        let before = self.history.at();
        let last = self.history.last();
        let mut is_there = before == last;
        while !is_there {
            if self.history.forward().is_err() {
                self.history.back_to(before);
                return Err(DebugFault::NoMemory);
            }
            let at = self.history.at();
            is_there = at == last || self.stops.is_at(at);
        }
        Ok(Reply::At(self.history.at()))
    }

    /// Sets a breakpoint at a position, if the program has it.
    fn set_break(&mut self, k: u32) -> Result<Reply, DebugFault>
        ensures set { IfOk result (λ reply. (reply ≡ Reply.Break (number_in reply) k) × IsSet self.old.state (number_in reply) k self.new.state) }
        ensures accepted { OnOk result (past (last_of self.old) k ≡ None) }
        ensures refused { IfErr result (λ fault. (fault ≡ DebugFault.NoMemory) ⊎ (past (last_of self.old) k ≡ Some fault)) }
        ensures stays { OnErr result (self.new ≡ self.old) }
        ensures same { self.new ≡ record self.old { state = self.new.state } }
    {
        if k > self.history.last() {
            return Err(DebugFault::OutOfProgram(u64::from(k)));
        }
        let number = self.stops.set(k)?;
        Ok(Reply::Break {
            number: number as u64,
            at: k,
        })
    }

    /// Takes the breakpoint of this number away, if it is set.
    fn delete(&mut self, n: u32) -> Result<Reply, DebugFault>
        ensures answers { IfOk result (λ reply. Answers self.old (Command.Delete n) reply self.new.state) }
        ensures accepted { OnOk result (refusal_of self.old (Some (Command.Delete n)) ≡ None) }
        ensures refused { IfErr result (λ fault. refusal_of self.old (Some (Command.Delete n)) ≡ Some fault) }
        ensures stays { OnErr result (self.new ≡ self.old) }
        ensures same { self.new ≡ record self.old { state = self.new.state } }
    {
        if self.stops.take_away(n) {
            Ok(Reply::Deleted(n))
        } else {
            Err(DebugFault::NoSuchBreak(n))
        }
    }

    /// The bit of a cell, if the program has it.
    fn tell_cell(&self, c: u32) -> Result<Reply, DebugFault>
        ensures told { IfOk result (λ reply. reply ≡ Reply.Cell c (bit (cells_of self.now) c)) }
        ensures accepted { OnOk result (refusal_of self.now (Some (Command.Cell c)) ≡ None) }
        ensures refused { IfErr result (λ fault. refusal_of self.now (Some (Command.Cell c)) ≡ Some fault) }
    {
        match self.history.cell(c) {
            Some(bit) => Ok(Reply::Cell(c, bit)),
            None => Err(DebugFault::NoSuchCell(c)),
        }
    }

    /// The bits of the output cells, in order.
    fn show(&self) -> Result<Bits, NoMemory>
        ensures { IfOk result (λ bits. bits ≡ shown self.now) }
    {
        let mut bits = Bits::new(self.alloc);
        let outputs = self.history.program().outputs();
        for port in outputs {
            bits.push(self.history.bit(port.cell))?;
        }
        Ok(bits)
    }
}
