//! The enumerations that definitions and code share, over the values and exceptions of the code. Contracts see them over
//! plain data, as the definitions have them.
use crate::blob::Blob;
use crate::exc::Exc;
use crate::value::{Value, ValueList};

/// What a coroutine is resumed with.
pub type Input = model_value::Input<Value, Exc>;

/// How a future ends.
pub type Outcome = model_value::Outcome<Value, Exc>;

/// What a coroutine asks of the loop.
pub type Request = model_value::Request<Value, ValueList, Exc>;

/// What a handle runs.
pub type Action = model_value::Action<Blob>;

/// What a child or one of its pipes tells.
pub type ChildItem = model_value::ChildItem<Blob>;
