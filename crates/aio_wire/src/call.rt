//! What the loop asks of the outside, and what it answers.
use crate::lists::{ItemList, WatchList, WordList};
use aio_base::Blob;

/// What the loop asks of the outside.
pub type Call = model_wire::Call<Blob, WatchList, WordList>;

/// What the outside answers.
pub type Answer = model_wire::Answer<Blob, ItemList>;
