//! How many scripts there were, how many calls failed, and how many runs came out otherwise.
use crate::faults::fault::{Fault, Part};
use crate::faults::script::Script;
use crate::faults::whole::Whole;
use std::alloc::Global;
use try_row::RowsStopped;

#[derive(Clone, Copy)]
pub struct Tally {
    pub scripts: u64,
    pub calls: u64,
    pub differ: u64,
}

static PARTS: [Part; 3] = [Part::Wire, Part::Shelf, Part::Sink];

impl Tally {
    /// No scripts so far.
    pub fn new() -> Tally {
        Tally {
            scripts: 0,
            calls: 0,
            differ: 0,
        }
    }

    /// Makes each call of a script fail in turn, of one part of the outside after the other.
    pub fn fail_script<R: Print>(
        &mut self,
        rt: &R,
        alloc: Global,
        script: &Script,
    ) -> Result<(), RowsStopped> {
        let whole = Whole::new(alloc, script)?;
        let failed = self.fail_whole(rt, alloc, &whole);
        drop(whole);
        failed
    }

    fn fail_whole<R: Print>(
        &mut self,
        rt: &R,
        alloc: Global,
        whole: &Whole<'_>,
    ) -> Result<(), RowsStopped> {
        self.scripts = self.scripts.saturating_add(1);
        if !whole.is_told() {
            self.differ = self.differ.saturating_add(1);
            println!(rt;
                "{}: with the trace it tells another transcript",
                whole.script.name
            )?;
        }
        for part in &PARTS {
            self.fail_part(rt, alloc, whole, *part)?;
        }
        Ok(())
    }

    /// Makes each call of a part fail in turn, until there is no such call.
    fn fail_part<R: Print>(
        &mut self,
        rt: &R,
        alloc: Global,
        whole: &Whole<'_>,
        part: Part,
    ) -> Result<(), RowsStopped> {
        let differed = self.differ;
        let mut calls = 0u64;
        for number in 1..u64::MAX {
            if !self.fail_call(rt, alloc, whole, Fault { part, number })? {
                break;
            }
            calls = number;
        }
        self.calls = self.calls.saturating_add(calls);
        let verdict = if self.differ == differed {
            "each a front"
        } else {
            "not each a front"
        };
        println!(rt;
            "{} {} {calls} calls: {verdict}",
            whole.script.name,
            part.word()
        )?;
        Ok(())
    }

    /// Makes a call fail, with the trace, and without it too where as many calls are made then.
    /// Whether there was such a call.
    fn fail_call<R: Print>(
        &mut self,
        rt: &R,
        alloc: Global,
        whole: &Whole<'_>,
        fault: Fault,
    ) -> Result<bool, RowsStopped> {
        if !matches!(fault.part, Part::Sink) {
            self.compare_run(rt, alloc, whole, fault, false)?;
        }
        self.compare_run(rt, alloc, whole, fault, true)
    }

    /// Runs a script of which a call fails, and prints a line where it comes out otherwise.
    fn compare_run<R: Print>(
        &mut self,
        rt: &R,
        alloc: Global,
        whole: &Whole<'_>,
        fault: Fault,
        trace: bool,
    ) -> Result<bool, RowsStopped> {
        let (is_made, difference) = whole.compare(alloc, fault, trace)?;
        if let Some(difference) = difference {
            self.differ = self.differ.saturating_add(1);
            println!(rt;
                "{} {} call {}: {difference}",
                whole.script.name,
                fault.part.word(),
                fault.number
            )?;
        }
        Ok(is_made)
    }
}
