//! A row: words, files, and what must come of them.
use crate::line::RowLine;
use aio_base::Memory;
use aio_memwire::FailAt;
use aio_text::number;
use aio_wire::{MemShelf, MemSink, Shelf};
use std::alloc::Global;

/// Which text a line adds to.
#[derive(Clone, Copy)]
enum Into {
    Nowhere,
    File,
    Written,
}

/// The words of one call of the program, its files and its output, each with the calls that fail, what it must write, and
/// how it must end, in digits.
#[derive(Drop)]
pub struct Row {
    pub name: String,
    pub words: Vec<String>,
    pub shelf: FailAt<MemShelf>,
    pub out: FailAt<MemSink>,
    pub written: Vec<u8>,
    status: Vec<u8>,
    file: String,
    into: Into,
}

impl Row {
    /// A row without words, files or text.
    pub fn new(alloc: Global, name: &str) -> Result<Row, Memory> {
        Ok(Row {
            name: String::from_str(alloc, name)?,
            words: Vec::new(alloc),
            shelf: FailAt::new(MemShelf::new(alloc), Vec::new(alloc)),
            out: FailAt::new(MemSink::new(alloc), Vec::new(alloc)),
            written: Vec::new(alloc),
            status: Vec::new(alloc),
            file: String::new(alloc),
            into: Into::Nowhere,
        })
    }

    /// Takes a line of the row.
    pub fn add(&mut self, alloc: Global, line: &RowLine<'_>) -> Result<(), Memory> {
        match line {
            RowLine::Word(word) => {
                self.words.push(String::from_str(alloc, word)?)?;
                Ok(())
            }
            RowLine::Status(number) => {
                self.status = Vec::from_slice(alloc, number.as_bytes())?;
                Ok(())
            }
            RowLine::File(name) => {
                self.file = String::from_str(alloc, name)?;
                self.into = Into::File;
                self.add_text(alloc, b"")
            }
            RowLine::Written => {
                self.into = Into::Written;
                Ok(())
            }
            RowLine::Fails(call) => self.add_failing(call),
            RowLine::Text(text) => {
                self.add_text(alloc, text)?;
                self.add_text(alloc, b"\n")
            }
            RowLine::End(text) => self.add_text(alloc, text),
            RowLine::Times(words) => self.add_times(alloc, words, b""),
            RowLine::Lines(words) => self.add_times(alloc, words, b"\n"),
            RowLine::Row(_) | RowLine::Comment => Ok(()),
        }
    }

    /// Whether the program must end with this status.
    pub fn ends_with(&self, status: u8) -> bool {
        number(&self.status) == Some(u64::from(status))
    }

    /// Notes a call that fails: of the shelf or of the sink, counted from 1 over all calls that the program makes on it.
    fn add_failing(&mut self, call: &str) -> Result<(), Memory> {
        let Some((of, words)) = call.split_once(' ') else {
            return Ok(());
        };
        let Some(number) = number(words.as_bytes()) else {
            return Ok(());
        };
        match of {
            "shelf" => self.shelf.calls.push(number)?,
            "sink" => self.out.calls.push(number)?,
            _ => {}
        }
        Ok(())
    }

    /// Adds a text with this end so many times, as `12 x` says.
    fn add_times(&mut self, alloc: Global, words: &str, end: &[u8]) -> Result<(), Memory> {
        let Some((count, text)) = words.split_once(' ') else {
            return Ok(());
        };
        let Some(count) = number(count.as_bytes()) else {
            return Ok(());
        };
        for _ in 0..count {
            self.add_text(alloc, text.as_bytes())?;
            self.add_text(alloc, end)?;
        }
        Ok(())
    }

    fn add_text(&mut self, alloc: Global, text: &[u8]) -> Result<(), Memory> {
        match self.into {
            Into::Nowhere => Ok(()),
            Into::Written => {
                self.written.extend_from_slice(text)?;
                Ok(())
            }
            Into::File => {
                self.shelf.inner.append(alloc, self.file.as_str(), text)?;
                Ok(())
            }
        }
    }
}
