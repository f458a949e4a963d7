ghost use Rattle.std.specs.Prelude.{◌≡◌};
ghost use Rattle.pim_compile.specs.inner.Candidates.{shorter, shorter_of};

use pim_isa::Program;

/// Of two programs the one with fewer cycles, and the first one if they have as many; either may be missing.
pub(crate) fn shorter(first: Option<Program>, second: Option<Program>) -> Option<Program>
    ensures { result ≡ shorter first second }
{
    match (first, second) {
        (Some(first), Some(second)) => Some(shorter_of(first, second)),
        (Some(first), None) => Some(first),
        (None, second) => second,
    }
}

/// The program with fewer cycles, and the first one if they have as many.
pub(crate) fn shorter_of(first: Program, second: Program) -> Program
    ensures { result ≡ shorter_of first second }
{
    if second.instrs().len() < first.instrs().len() {
        second
    } else {
        first
    }
}
