ghost use Rattle.std.specs.Prelude.{◌≡◌};
ghost use Rattle.pim_io.specs.Readings.{Gives};
ghost use Rattle.pim_file.specs.Items.{number_at, many};
ghost use Rattle.pim_file.specs.BinaryReading.{init_at, nor1_at, nor2_at, nor3_at, nor4_at, operand_number_at, rm3_at, instr_behind, instr_at};

use crate::binary::items::Items;
use crate::fault::FileFault;
use pim_isa::{Cells, Ins, Instr, Operand};
use std::alloc::Global;

impl<'a> Items<'a> {
    /// That many cells. Linear in them.
    fn cells(&mut self, alloc: Global, count: u32) -> Result<Cells, FileFault>
        ensures { Gives FileFault.NoMemory (λ cells. (cells, self.new)) result (many number_at count self.old) }
    {
        let mut cells = Cells::new(alloc);
        for _ in 0..count {
            let cell = self.number()?;
            cells.push(cell)?;
        }
        Ok(cells)
    }

    /// An Init: how many cells, and the cells.
    #[tactic(auto, unfolding(crate::specs::BinaryReading::init_at, crate::specs::Items::counted))]
    fn init(&mut self, alloc: Global) -> Result<Instr, FileFault>
        ensures { Gives FileFault.NoMemory (λ instr. (instr, self.new)) result (init_at self.old) }
    {
        let count = self.number()?;
        let cells = self.cells(alloc, count)?;
        Ok(Instr::Init(cells))
    }

    /// A NOR of one operand.
    #[tactic(auto, unfolding(crate::specs::BinaryReading::nor1_at))]
    fn nor1(&mut self) -> Result<Instr, FileFault>
        ensures { Gives FileFault.NoMemory (λ instr. (instr, self.new)) result (nor1_at self.old) }
    {
        let t = self.number()?;
        let a = self.number()?;
        Ok(Instr::Nor {
            t,
            ins: Ins::One(a),
        })
    }

    /// A NOR of two operands.
    #[tactic(auto, unfolding(crate::specs::BinaryReading::nor2_at))]
    fn nor2(&mut self) -> Result<Instr, FileFault>
        ensures { Gives FileFault.NoMemory (λ instr. (instr, self.new)) result (nor2_at self.old) }
    {
        let t = self.number()?;
        let a = self.number()?;
        let b = self.number()?;
        Ok(Instr::Nor {
            t,
            ins: Ins::Two(a, b),
        })
    }

    /// A NOR of three operands.
    #[tactic(auto, unfolding(crate::specs::BinaryReading::nor3_at))]
    fn nor3(&mut self) -> Result<Instr, FileFault>
        ensures { Gives FileFault.NoMemory (λ instr. (instr, self.new)) result (nor3_at self.old) }
    {
        let t = self.number()?;
        let a = self.number()?;
        let b = self.number()?;
        let c = self.number()?;
        Ok(Instr::Nor {
            t,
            ins: Ins::Three(a, b, c),
        })
    }

    /// A NOR of four operands.
    #[tactic(auto, unfolding(crate::specs::BinaryReading::nor4_at))]
    fn nor4(&mut self) -> Result<Instr, FileFault>
        ensures { Gives FileFault.NoMemory (λ instr. (instr, self.new)) result (nor4_at self.old) }
    {
        let t = self.number()?;
        let a = self.number()?;
        let b = self.number()?;
        let c = self.number()?;
        let d = self.number()?;
        Ok(Instr::Nor {
            t,
            ins: Ins::Four(a, b, c, d),
        })
    }

    /// An operand of an RM3: 0 and 1 are the constants, and a greater number is two more than a cell.
    #[tactic(auto, unfolding(crate::specs::BinaryReading::operand_number_at))]
    fn operand(&mut self) -> Result<Operand, FileFault>
        ensures { Gives FileFault.NoMemory (λ operand. (operand, self.new)) result (operand_number_at self.old) }
    {
        match self.number()? {
            0 => Ok(Operand::Zero),
            1 => Ok(Operand::One),
            number => Ok(Operand::Cell(number - 2)),
        }
    }

    /// An RM3.
    #[tactic(auto, unfolding(crate::specs::BinaryReading::rm3_at))]
    fn rm3(&mut self) -> Result<Instr, FileFault>
        ensures { Gives FileFault.NoMemory (λ instr. (instr, self.new)) result (rm3_at self.old) }
    {
        let p = self.operand()?;
        let q = self.operand()?;
        let z = self.number()?;
        Ok(Instr::Rm3 { p, q, z })
    }

    /// An instruction: the byte of its kind, and its numbers. Linear in them.
    #[tactic(auto, unfolding(crate::specs::BinaryReading::instr_at))]
    pub(crate) fn instr(&mut self, alloc: Global) -> Result<Instr, FileFault>
        ensures { Gives FileFault.NoMemory (λ instr. (instr, self.new)) result (instr_at self.old) }
    {
        match self.byte()? {
            0 => self.init(alloc),
            1 => self.nor1(),
            2 => self.nor2(),
            3 => self.rm3(),
            4 => self.nor3(),
            5 => self.nor4(),
            _ => Err(self.wrong()),
        }
    }
}
