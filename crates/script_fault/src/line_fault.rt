//! Faults of lines.
ghost use Rattle.std.specs.Prelude.{◌≡◌};
ghost use Rattle.script_fault.specs.declared.line_fault.LineFault.TheVariants.{Memory};
ghost use Rattle.script_fault.specs.Faults.{at_line};

use crate::script_fault::{ScriptFault, cause_number};
use model_text::Cause;
use std::alloc::{AllocError, AllocFailed};

/// Why a line is refused, or a part of it, by whoever needn't know its number.
#[derive(Clone, Copy)]
pub enum LineFault {
    Refused(Cause),
    Memory,
}

impl LineFault {
    /// The fault of a text whose least faulty line this is.
    pub fn at(self, line: u64) -> ScriptFault
        ensures { result ≡ at_line line self }
    {
        match self {
            LineFault::Refused(cause) => ScriptFault::Refused {
                line,
                cause: cause_number(cause),
            },
            LineFault::Memory => ScriptFault::Memory,
        }
    }
}

impl From<AllocError> for LineFault {
    ghost from_gives = { λ _ fault. fault ≡ Memory };

    fn from(_error: AllocError) -> LineFault {
        LineFault::Memory
    }
}

impl<T: Drop> From<AllocFailed<T>> for LineFault {
    ghost from_gives = { λ _ fault. fault ≡ Memory };

    fn from(_error: AllocFailed<T>) -> LineFault {
        LineFault::Memory
    }
}
