//! Why a run that may be recorded is cut short.
ghost use Rattle.std.specs.Prelude.{◌≡◌};
ghost use Rattle.aio_drive.specs.declared.cut.Cut.TheVariants.{Halted};
ghost use Rattle.aio_drive.specs.declared.halt.Halt.TheVariants.{Memory as OutOfMemory};

use crate::halt::Halt;
use aio_base::Memory;

/// Why a run that may be recorded is cut short.
#[derive(Clone, Copy, PartialEq, Eq)]
pub enum Cut {
    /// Memory was refused, or the sink failed.
    Halted(Halt),
    /// The file failed in which the answers are recorded.
    Unrecorded,
}

impl From<Memory> for Cut {
    ghost from_gives = { λ _ cut. cut ≡ Halted OutOfMemory };

    fn from(_cause: Memory) -> Cut {
        Cut::Halted(Halt::Memory)
    }
}
