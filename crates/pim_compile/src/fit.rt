ghost use Rattle.std.specs.Prelude.{◌≡◌};
ghost use Rattle.pim_compile.specs.inner.Candidates.{shorter_of};
ghost use Rattle.pim_compile.specs.inner.Fits.{beside, joined, program_of};

use crate::shorter::shorter_of;
use pim_isa::Program;

/// What a budget gives.
#[derive(Debug, Drop)]
pub(crate) enum Fit {
    /// A program.
    Program(Program),
    /// None, since so many cells are needed for one.
    Needs(u32),
}

impl Fit {
    /// The program, if there is one.
    pub(crate) fn program(self) -> Option<Program>
        ensures { result ≡ program_of self }
    {
        match self {
            Fit::Program(program) => Some(program),
            Fit::Needs(_) => None,
        }
    }

    /// A program if it is there and has no more cycles, or else what this is.
    pub(crate) fn beside(self, program: Option<Program>) -> Fit
        ensures { result ≡ beside program self }
    {
        match (program, self) {
            (None, fit) => fit,
            (Some(program), Fit::Needs(_)) => Fit::Program(program),
            (Some(first), Fit::Program(second)) => Fit::Program(shorter_of(first, second)),
        }
    }

    /// Of two the program with fewer cycles, the first one if they have as many, or the lesser need.
    pub(crate) fn joined(self, other: Fit) -> Fit
        ensures { result ≡ joined self other }
    {
        match (self, other) {
            (Fit::Program(program), other) => other.beside(Some(program)),
            (Fit::Needs(_), Fit::Program(program)) => Fit::Program(program),
            (Fit::Needs(first), Fit::Needs(second)) => Fit::Needs(first.min(second)),
        }
    }
}
