//! The run of a script in which no call fails, and what one comes to in which a call does.
use crate::faults::fault::{Fault, NONE, Part};
use crate::faults::lines::{count_of, lines_before, say_untraced};
use crate::faults::running::Running;
use crate::faults::script::Script;
use std::alloc::Global;
use try_row::{RowsStopped, Wanted};

/// How a traced transcript tells of the call with which a turn begins.
const SELECT: &[u8] = b"> select";

/// How the answer to it begins.
const TURN: &[u8] = b"turn";

/// A script, and what its whole run wrote with the trace.
#[derive(Drop)]
pub struct Whole<'a> {
    pub script: &'a Script,
    traced: Vec<u8>,
}

/// What a run must come to: its status; the events that it must tell, from which the trace is left out where none is asked,
/// and what must stand behind them; what it must record; how many calls it must make, of the wire and of the part of which one
/// fails.
#[derive(Clone, Copy)]
struct Outcome<'a> {
    status: u8,
    events: &'a [u8],
    end: &'a [u8],
    recorded: &'a [u8],
    asked: u64,
    made: u64,
}

impl<'a> Whole<'a> {
    /// Runs a script.
    pub fn new(alloc: Global, script: &'a Script) -> Result<Whole<'a>, RowsStopped> {
        let mut ran = Running::new(alloc, script, NONE);
        ran.run_script(alloc, true)?;
        Ok(Whole {
            script,
            traced: Vec::from_slice(alloc, &ran.written)?,
        })
    }

    /// Whether the run tells the script's transcript.
    pub fn is_told(&self) -> bool {
        let mut wanted = Wanted::new(&self.script.transcript);
        say_untraced(&self.traced, &mut wanted);
        wanted.is_told()
    }

    /// Runs the script again, and a call of it fails: whether there was such a call, and where it comes to something else than
    /// it must.
    pub fn compare(
        &self,
        alloc: Global,
        fault: Fault,
        trace: bool,
    ) -> Result<(bool, Option<&'static str>), RowsStopped> {
        let mut ran = Running::new(alloc, self.script, fault);
        ran.run_script(alloc, trace)?;
        let is_made = fault.number <= ran.made;
        let outcome = if is_made {
            self.cut(fault)
        } else {
            self.all(fault.number.saturating_sub(1), trace)
        };
        Ok((is_made, outcome.difference(&ran, trace)))
    }

    /// All but the last line.
    fn events(&self) -> &[u8] {
        lines_before(lines_before(&self.traced, b"= ", 1), b"! ", 1)
    }

    /// All of it, with so many calls of the part that is looked at.
    fn all(&self, made: u64, trace: bool) -> Outcome<'_> {
        Outcome {
            status: status_of(&self.script.transcript),
            events: if trace {
                &self.traced
            } else {
                &self.script.transcript
            },
            end: b"",
            recorded: &self.script.journal,
            asked: count_of(self.events(), b"> "),
            made,
        }
    }

    fn cut(&self, fault: Fault) -> Outcome<'_> {
        match fault.part {
            Part::Wire => self.cut_by_wire(fault.number),
            Part::Shelf => self.cut_by_shelf(fault.number),
            Part::Sink => self.cut_by_sink(fault.number),
        }
    }

    /// All up to the call that failed, and the fault's line. The answers that were had are recorded,
    /// those of the last turn too.
    fn cut_by_wire(&self, number: u64) -> Outcome<'_> {
        Outcome {
            status: 9,
            events: lines_before(self.events(), b"< ", number),
            end: b"! fault wire\n",
            recorded: lines_before(&self.script.journal, b"", number),
            asked: number,
            made: number,
        }
    }

    /// The shelf is asked twice for the script, and then once a turn to record its answers. Where
    /// that fails, the lines of the turns before stand, and the fault's line.
    fn cut_by_shelf(&self, number: u64) -> Outcome<'_> {
        let turn = number.saturating_sub(2);
        Outcome {
            status: 9,
            events: lines_before(self.events(), SELECT, turn),
            end: b"! fault shelf\n",
            recorded: lines_before(&self.script.journal, TURN, turn),
            asked: self.asked_until(turn),
            made: number,
        }
    }

    /// The sink is asked once a turn where all calls are told. Where it fails, the answers of that
    /// turn are recorded, and nothing is written of it.
    fn cut_by_sink(&self, turn: u64) -> Outcome<'_> {
        let next = turn.saturating_add(1);
        Outcome {
            status: 9,
            events: lines_before(self.events(), SELECT, turn),
            end: b"",
            recorded: lines_before(&self.script.journal, TURN, next),
            asked: self.asked_until(turn),
            made: turn,
        }
    }

    /// How many calls of the wire are made up to a turn's end.
    fn asked_until(&self, turn: u64) -> u64 {
        count_of(
            lines_before(self.events(), SELECT, turn.saturating_add(1)),
            b"> ",
        )
    }
}

impl<'a> Outcome<'a> {
    /// Where a run comes to something else first.
    fn difference(self, ran: &Running<'_>, trace: bool) -> Option<&'static str> {
        if ran.status != self.status {
            Some("ended with another status")
        } else if !self.is_written(&ran.written, trace) {
            Some("wrote something else")
        } else if ran.recorded.as_slice() != self.recorded {
            Some("recorded something else")
        } else if ran.asked != self.asked {
            Some("made another number of calls of the wire")
        } else if ran.made != self.made {
            Some("made another number of calls of what failed")
        } else {
            None
        }
    }

    fn is_written(self, written: &[u8], trace: bool) -> bool {
        let mut wanted = Wanted::new(written);
        if trace {
            wanted.say(self.events);
        } else {
            say_untraced(self.events, &mut wanted);
        }
        wanted.say(self.end);
        wanted.is_told()
    }
}

/// The status of a run with this transcript.
fn status_of(transcript: &[u8]) -> u8 {
    if count_of(transcript, b"= returned") > 0 {
        0
    } else if count_of(transcript, b"! over") > 0 {
        6
    } else if count_of(transcript, b"= stalled") > 0 {
        7
    } else if count_of(transcript, b"= runaway") > 0 {
        8
    } else {
        1
    }
}
