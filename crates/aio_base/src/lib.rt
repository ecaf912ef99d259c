//! Values and exceptions of scripts, as code holds them.
#![tactic(auto)]

mod blob;
mod equality;
mod exc;
mod kinds;
mod literal;
mod memory;
mod nesting;
mod shared;
mod text;
mod value;
mod weigh;

pub use blob::Blob;
pub use equality::{equal, equal_excs};
pub use exc::{Exc, ExcList, exception};
pub use kinds::{kind_matches, name_of};
pub use literal::{push_bytes_literal, push_escaped, push_text_literal};
pub use memory::Memory;
pub use model_pump::Stream;
pub use model_value::{CycleKind, Kind, Place};
pub use nesting::{depth, depth_of_exc};
pub use shared::{Action, ChildItem, Input, Outcome, Request};
pub use text::{show, show_exc};
pub use value::{Value, ValueCase, ValueList};
pub use weigh::{weight, weight_of_exc};
