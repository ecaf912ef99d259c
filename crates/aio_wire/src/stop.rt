//! Why a call has no answer that fits.
ghost use Rattle.std.specs.Prelude.{◌≡◌};
ghost use Rattle.aio_wire.specs.declared.stop.Stop.TheVariants.{Memory as OutOfMemory};

use crate::call::Call;
use crate::wire::JournalFault;
use aio_base::Memory;
use std::alloc::AllocError;

/// Why a call has no answer that fits, and why the run stops there.
#[derive(Drop)]
pub enum Stop {
    /// No answer was left for this call.
    Over(Call),
    /// The next answer was a line that is no entry.
    Bad(JournalFault),
    /// The answer with this number, from 1 over the whole run, doesn't fit this call.
    Mismatch(u64, Call),
    /// The wire failed at this call: its count of faults rose.
    Failed(Call),
    /// Memory was refused.
    Memory,
}

impl From<Memory> for Stop {
    ghost from_gives = { λ _ stop. stop ≡ OutOfMemory };

    fn from(_cause: Memory) -> Stop {
        Stop::Memory
    }
}

impl From<AllocError> for Stop {
    ghost from_gives = { λ _ stop. stop ≡ OutOfMemory };

    fn from(_cause: AllocError) -> Stop {
        Stop::Memory
    }
}
