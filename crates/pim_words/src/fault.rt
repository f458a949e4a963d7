//! Why words are refused.
use clap::error::ErrorKind;
use std::alloc::AllocError;
use thiserror::Error;

/// Why [`read`](crate::read) gives no command.
#[derive(Debug, Drop, Error)]
pub enum WordsFault {
    /// There is no word, the first names no command, the file that the command takes is missing, or
    /// its command line refuses the other words. A wish for help is refused so too.
    #[error("usage")]
    Usage,
    /// There was no memory. It comes after `Usage` for a missing word, an unknown name and a missing
    /// file, and in place of it where `clap` ran out of memory.
    #[error("out of memory")]
    NoMemory,
}

impl From<AllocError> for WordsFault {
    ghost use Rattle.std.specs.Prelude.{◌≡◌};
    ghost use Rattle.pim_words.specs.declared.fault.WordsFault.TheVariants as fault;

    ghost from_gives = { λ _ e. e ≡ fault.NoMemory };

    fn from(_error: AllocError) -> WordsFault {
        WordsFault::NoMemory
    }
}

/// Whether `clap` ran out of memory or refused the words.
impl From<clap::Error> for WordsFault {
    ghost use Rattle.pim_words.specs.Refusal.{IsFaultOf};

    ghost from_gives = { IsFaultOf };

    fn from(error: clap::Error) -> WordsFault {
        match error.kind() {
            ErrorKind::OutOfMemory => WordsFault::NoMemory,
            _ => WordsFault::Usage,
        }
    }
}
