//! What the arguments of requests name among listeners, connections and children, and the words of a
//! program.
#![tactic(auto)]

mod opened;
mod texts;

pub use opened::{Closable, as_bytes, as_child, as_closable, as_conn, as_reader, as_writer};
pub use texts::as_words;
