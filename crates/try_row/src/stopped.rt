//! Why worked cases were not run to their end.
use aio_base::Memory;
use std::alloc::AllocError;
use std::io;

/// A file could not be read, a line not printed, or memory was refused; or what was read is no case.
#[derive(Clone, Copy)]
pub struct RowsStopped;

impl From<Memory> for RowsStopped {
    fn from(_: Memory) -> RowsStopped {
        RowsStopped
    }
}

impl From<AllocError> for RowsStopped {
    fn from(_: AllocError) -> RowsStopped {
        RowsStopped
    }
}

impl From<io::Error> for RowsStopped {
    fn from(_: io::Error) -> RowsStopped {
        RowsStopped
    }
}
