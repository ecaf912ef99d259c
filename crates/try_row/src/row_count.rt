//! How many rows there were, and how many came out otherwise.
use std::io;

#[derive(Clone, Copy)]
pub struct RowCount {
    pub rows: u64,
    pub differ: u64,
}

impl RowCount {
    /// No rows so far.
    pub fn new() -> RowCount {
        RowCount { rows: 0, differ: 0 }
    }

    /// Counts a row, and prints its name where it came out otherwise.
    pub fn count<R: Print>(&mut self, rt: &R, name: &str, is_right: bool) -> Result<(), io::Error> {
        self.rows = self.rows.saturating_add(1);
        if is_right {
            return Ok(());
        }
        self.differ = self.differ.saturating_add(1);
        println!(rt; "{name}")
    }

    /// Prints how many there were: how many differed.
    pub fn print<R: Print>(self, rt: &R) -> Result<u64, io::Error> {
        println!(rt; "{} rows, {} differ", self.rows, self.differ)?;
        Ok(self.differ)
    }
}
