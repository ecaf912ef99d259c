//! Faults of texts.
ghost use Rattle.std.specs.Prelude.{◌≡◌};
ghost use Rattle.model_text.specs.Causes.{cause_number};
ghost use Rattle.script_fault.specs.declared.script_fault.ScriptFault.TheVariants.{Memory};

use model_text::Cause;
use std::alloc::{AllocError, AllocFailed};
use thiserror::Error;

/// Why a text is refused.
#[derive(Clone, Copy, Debug, PartialEq, Eq, Error)]
pub enum ScriptFault {
    /// The least faulty line, counted from 1, and its cause. What is missing at the end of the text
    /// is missed in the line after the last.
    ///
    /// The causes: 1, the line has no tokens for a byte, a number or a literal that is wrong; 2, it
    /// is no form, or its form may not stand there; 3, blocks don't fit or are nested too deep, or
    /// an expression is too high; 4, a name is unknown or may not be used so; 5, a wrong number of
    /// arguments or parameters; 6, the text is too long; 7, there is no `main` without parameters;
    /// 8, the profile is none that there is.
    #[error("script refused at line {line}, cause {cause}")]
    Refused { line: u64, cause: u8 },
    #[error("out of memory")]
    Memory,
}

/// The number by which a cause is told.
pub fn cause_number(cause: Cause) -> u8
    ensures { result ≡ cause_number cause }
{
    match cause {
        Cause::Token => 1,
        Cause::Form => 2,
        Cause::Nesting => 3,
        Cause::Name => 4,
        Cause::Arity => 5,
        Cause::TooLong => 6,
        Cause::NoMain => 7,
        Cause::Profile => 8,
    }
}

impl From<AllocError> for ScriptFault {
    ghost from_gives = { λ _ fault. fault ≡ Memory };

    fn from(_error: AllocError) -> ScriptFault {
        ScriptFault::Memory
    }
}

impl<T: Drop> From<AllocFailed<T>> for ScriptFault {
    ghost from_gives = { λ _ fault. fault ≡ Memory };

    fn from(_error: AllocFailed<T>) -> ScriptFault {
        ScriptFault::Memory
    }
}
