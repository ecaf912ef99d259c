//! Why writing stops before all is written.
ghost use Rattle.std.specs.Prelude.{◌≡◌};
ghost use Rattle.aio_drive.specs.declared.halt.Halt.TheVariants.{Memory as OutOfMemory};

use aio_base::Memory;
use std::alloc::AllocError;

/// Why writing stops before all is written.
#[derive(Clone, Copy, PartialEq, Eq)]
pub enum Halt {
    /// Memory was refused.
    Memory,
    /// The sink failed.
    Sink,
}

impl From<Memory> for Halt {
    ghost from_gives = { λ _ halt. halt ≡ OutOfMemory };

    fn from(_cause: Memory) -> Halt {
        Halt::Memory
    }
}

impl From<AllocError> for Halt {
    ghost from_gives = { λ _ halt. halt ≡ OutOfMemory };

    fn from(_cause: AllocError) -> Halt {
        Halt::Memory
    }
}
