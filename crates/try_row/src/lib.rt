//! Files of rows: what a program is called with, and what it must write. And what all worked cases are counted by.
#![tactic(auto)]

mod difference;
mod held;
mod line;
mod reader;
mod row;
mod row_count;
mod stopped;
mod wanted;

pub use difference::first_difference;
pub use held::{blob_of, bytes_of, numbers_of};
pub use line::RowLine;
pub use reader::{RowRunner, run_files, run_words};
pub use row::Row;
pub use row_count::RowCount;
pub use stopped::RowsStopped;
pub use wanted::Wanted;
