use std::alloc::{AllocError, AllocFailed};
use thiserror::Error;

/// What is wrong in a line: its first fault. Columns count bytes from 1.
#[derive(Clone, Copy, Debug, PartialEq, Eq, Error)]
pub enum LexFault {
    /// A byte that isn't allowed or begins no token, or a backslash that begins no escape.
    #[error("column {0}: a bad byte")]
    BadByte(usize),
    /// A number over 9223372036854775807, or with a letter or `_` behind it, at its first digit.
    #[error("column {0}: a bad number")]
    BadNumber(usize),
    /// A literal that isn't closed in its line, at its start.
    #[error("column {0}: a text isn't closed")]
    OpenText(usize),
    #[error("out of memory")]
    Memory,
}

impl From<AllocError> for LexFault {
    ghost use Rattle.std.specs.Prelude.{◌≡◌};
    ghost use Rattle.aio_lex.specs.declared.fault.LexFault.TheVariants.{Memory};

    ghost from_gives = { λ _ fault. fault ≡ Memory };

    fn from(_error: AllocError) -> LexFault {
        LexFault::Memory
    }
}

impl<T: Drop> From<AllocFailed<T>> for LexFault {
    ghost use Rattle.std.specs.Prelude.{◌≡◌};
    ghost use Rattle.aio_lex.specs.declared.fault.LexFault.TheVariants.{Memory};

    ghost from_gives = { λ _ fault. fault ≡ Memory };

    fn from(_error: AllocFailed<T>) -> LexFault {
        LexFault::Memory
    }
}
