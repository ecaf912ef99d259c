//! A script.
use std::alloc::Global;
use std::fs;
use std::rt::Files;
use try_row::RowsStopped;

/// A script, the answers that it gets, and what it writes where no call fails.
#[derive(Drop)]
pub struct Script {
    pub name: String,
    pub text: Vec<u8>,
    pub journal: Vec<u8>,
    pub transcript: Vec<u8>,
}

impl Script {
    /// Reads the files of this name.
    pub fn read<R: Files + AllocGlobal>(
        rt: &R,
        alloc: Global,
        name: &str,
    ) -> Result<Script, RowsStopped> {
        let mut script = Script {
            name: String::from_str(alloc, name)?,
            text: Vec::new(alloc),
            journal: Vec::new(alloc),
            transcript: Vec::new(alloc),
        };
        match script.fill(rt, alloc) {
            Ok(()) => Ok(script),
            Err(RowsStopped) => {
                drop(script);
                Err(RowsStopped)
            }
        }
    }

    fn fill<R: Files + AllocGlobal>(&mut self, rt: &R, alloc: Global) -> Result<(), RowsStopped> {
        self.text = self.read_file(rt, alloc, "aio")?;
        self.journal = self.read_file(rt, alloc, "journal")?;
        self.transcript = self.read_file(rt, alloc, "transcript")?;
        Ok(())
    }

    fn read_file<R: Files + AllocGlobal>(
        &self,
        rt: &R,
        alloc: Global,
        ending: &str,
    ) -> Result<Vec<u8>, RowsStopped> {
        let path = format!(in alloc; "{}.{ending}", self.name)?;
        Ok(fs::read(rt, path.as_str())?)
    }
}
