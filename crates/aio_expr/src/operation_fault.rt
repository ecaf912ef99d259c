//! Why an expression has no value.
ghost use Rattle.std.specs.Prelude.{◌≡◌};
ghost use Rattle.aio_expr.specs.declared.operation_fault.OperationFault.TheVariants.{Memory};

use aio_base::Memory as WantOfMemory;
use std::alloc::{AllocError, AllocFailed};

/// Why an operation has no value: the exception that it raises, or want of memory.
#[derive(Clone, Copy, PartialEq, Eq)]
pub enum OperationFault {
    BadOperand,
    OutOfRange,
    DivisionByZero,
    IndexOutOfRange,
    NotUtf8,
    Memory,
}

impl From<AllocError> for OperationFault {
    ghost from_gives = { λ _ cause. cause ≡ Memory };

    fn from(_cause: AllocError) -> OperationFault {
        OperationFault::Memory
    }
}

impl<T: Drop> From<AllocFailed<T>> for OperationFault {
    ghost from_gives = { λ _ cause. cause ≡ Memory };

    fn from(_cause: AllocFailed<T>) -> OperationFault {
        OperationFault::Memory
    }
}

impl From<WantOfMemory> for OperationFault {
    ghost from_gives = { λ _ cause. cause ≡ Memory };

    fn from(_cause: WantOfMemory) -> OperationFault {
        OperationFault::Memory
    }
}
