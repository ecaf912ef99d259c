//! The outside as traits: where bytes come from and go to, the files of a shelf, and the wire that answers the loop's
//! calls; and each of them in memory.
#![tactic(auto)]

mod apart;
mod awaited;
mod call;
mod copying;
mod event;
mod fitting;
mod lists;
mod mem_shelf;
mod mem_sink;
mod mem_source;
mod port;
mod shelf;
mod sink;
mod source;
mod stop;
mod window;
mod wire;

pub use aio_base::ChildItem;
pub use call::{Answer, Call};
pub use copying::{copy_of_answer, copy_of_bytes, copy_of_call, copy_of_news, copy_of_words};
pub use event::{Event, Events};
pub use fitting::{bytes_in, clashes, fits, is_awaited, turn_fits};
pub use lists::{Item, ItemList, Watch, WatchList, WordList};
pub use mem_shelf::MemShelf;
pub use mem_sink::MemSink;
pub use mem_source::MemSource;
pub use model_wire::Readiness;
pub use port::Port;
pub use shelf::Shelf;
pub use sink::{Sink, SinkTook};
pub use source::{Source, SourceGot};
pub use stop::Stop;
pub use wire::{JournalFault, Reply, Wire};
