//! Tapes, one after another: how many there were, and along how many a coroutine said something else.
use crate::line::{GivenInput, TapeLine};
use crate::running::RunningGen;
use aio_base::Memory;
use std::alloc::Global;
use std::mem;
use try_row::RowsStopped;

#[derive(Drop)]
pub struct Tapes {
    pub count: u64,
    pub differ: u64,
    name: String,
    script: Vec<u8>,
    /// The coroutine of the tape that goes on.
    running: Option<RunningGen>,
    /// Whether it said all that it must so far.
    is_right: bool,
}

impl Tapes {
    /// No tapes yet.
    pub fn new(alloc: Global) -> Tapes {
        Tapes {
            count: 0,
            differ: 0,
            name: String::new(alloc),
            script: Vec::new(alloc),
            running: None,
            is_right: true,
        }
    }

    /// Takes a line: of an input it prints a line where the first thing is said that must not be.
    pub fn take<R: Print>(
        &mut self,
        rt: &R,
        alloc: Global,
        line: &TapeLine<'_>,
    ) -> Result<(), RowsStopped> {
        match line {
            TapeLine::Script(name) => Ok(self.begin(alloc, name)?),
            TapeLine::Text(text) => Ok(self.add(text)?),
            TapeLine::Tape => self.start(alloc),
            TapeLine::Input(given, wanted) => self.resume(rt, alloc, *given, wanted),
            TapeLine::Comment => Ok(()),
        }
    }

    fn begin(&mut self, alloc: Global, name: &str) -> Result<(), Memory> {
        let name = String::from_str(alloc, name)?;
        drop(mem::replace(&mut self.name, name));
        drop(mem::replace(&mut self.script, Vec::new(alloc)));
        Ok(())
    }

    fn add(&mut self, line: &[u8]) -> Result<(), Memory> {
        self.script.extend_from_slice(line)?;
        self.script.push(b'\n')?;
        Ok(())
    }

    fn start(&mut self, alloc: Global) -> Result<(), RowsStopped> {
        self.count = self.count.saturating_add(1);
        self.is_right = true;
        let running = RunningGen::new(alloc, self.script.as_slice())?;
        // What was assigned to would be laid out field by field.
        drop(self.running.replace(running));
        Ok(())
    }

    fn resume<R: Print>(
        &mut self,
        rt: &R,
        alloc: Global,
        given: GivenInput,
        wanted: &str,
    ) -> Result<(), RowsStopped> {
        let Some(running) = &mut self.running else {
            return Ok(());
        };
        let said = running.resume(alloc, given)?;
        let inputs = running.inputs;
        let told = self.compare(rt, said.as_slice(), wanted, inputs);
        drop(said);
        told
    }

    fn compare<R: Print>(
        &mut self,
        rt: &R,
        said: &[u8],
        wanted: &str,
        inputs: u32,
    ) -> Result<(), RowsStopped> {
        if !self.is_right || said == wanted.as_bytes() {
            return Ok(());
        }
        self.is_right = false;
        self.differ = self.differ.saturating_add(1);
        let said = str::from_utf8(said).unwrap_or("no text");
        println!(rt;
            "{}, tape {}: says {said} after input {inputs}",
            self.name, self.count
        )?;
        Ok(())
    }
}
