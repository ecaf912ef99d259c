//! Copies for worked cases.
use aio_base::Blob;
use std::alloc::Global;

/// A copy of these bytes; none where memory is refused, so that a case of them comes out otherwise.
pub fn bytes_of(alloc: Global, bytes: &[u8]) -> Vec<u8> {
    match Vec::from_slice(alloc, bytes) {
        Ok(held) => held,
        Err(_) => Vec::new(alloc),
    }
}

/// The same as bytes that are shared.
pub fn blob_of(alloc: Global, bytes: &[u8]) -> Blob {
    Blob::of(bytes_of(alloc, bytes))
}

/// A copy of these numbers; none where memory is refused.
pub fn numbers_of(alloc: Global, numbers: &[u64]) -> Vec<u64> {
    match Vec::from_slice(alloc, numbers) {
        Ok(held) => held,
        Err(_) => Vec::new(alloc),
    }
}
