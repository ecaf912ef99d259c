//! The lines of a turn, and those of a run's end.
ghost use Rattle.std.specs.Prelude.{◌≡◌, ◌++◌, true, false, IfOk, IfErr, OnOk};
ghost use Rattle.std.specs.Option.{option_copied};
ghost use Rattle.model_wire.specs.Told.{took};
ghost use Rattle.model_wire.specs.Trace.{end_text, line, lines_of_events};
ghost use Rattle.model_program.specs.Transcript.{status_of};
ghost use Rattle.model_commands.specs.Recorded.{Records, recorded};
ghost use Rattle.aio_drive.specs.Ending.{StopsLast, StopsTurn, WroteLast, WroteTurn};
ghost use Rattle.aio_drive.specs.Recording.{CutsTurn, is_refused, telling};
ghost use Rattle.aio_drive.specs.Writing.{StopsWriting};

use crate::cut::Cut;
use crate::ending::{end_of, status_of};
use crate::halt::Halt;
use crate::recording::record_events;
use crate::writing::write_all;
use aio_core::Went;
use aio_trace::{End, last_line, lines};
use aio_wire::{Events, JournalFault, Shelf, Sink, Stop};
use std::alloc::Global;

/// Writes the lines of events.
pub fn write_events<K: Sink>(
    alloc: Global,
    events: &Events,
    trace: bool,
    out: &mut K,
) -> Result<(), Halt>
    ensures ok { OnOk result
        (K.seen out.new ≡ took (K.seen out.old) (lines_of_events trace events.now.events)) }
    ensures err { IfErr result
        (StopsWriting (lines_of_events trace events.now.events) (K.seen out.old) (K.seen out.new)) }
{
    let mut text = Vec::new(alloc);
    lines(alloc, events, trace, &mut text)?;
    write_all(alloc, out, text.as_slice())
}

/// Writes the lines of events and a run's last line, and answers its status.
pub fn write_end<K: Sink>(
    alloc: Global,
    events: &Events,
    trace: bool,
    end: &End,
    out: &mut K,
) -> Result<u8, Halt>
    ensures ok { IfOk result (λ status. (status ≡ status_of end.now)
        × (K.seen out.new
        ≡ took (K.seen out.old)
        (lines_of_events trace events.now.events ++ line (end_text end.now)))) }
    ensures err { IfErr result
        (StopsWriting (lines_of_events trace events.now.events ++ line (end_text end.now))
        (K.seen out.old) (K.seen out.new)) }
{
    let mut text = Vec::new(alloc);
    lines(alloc, events, trace, &mut text)?;
    last_line(alloc, end, &mut text)?;
    write_all(alloc, out, text.as_slice())?;
    Ok(status_of(end))
}

/// Records the answers of a turn, and then writes its lines. Where memory was refused in the turn,
/// nothing is recorded; nor where the number of a misfit isn't held.
pub fn tell_turn<F: Shelf, K: Sink>(
    alloc: Global,
    went: Went,
    events: &Events,
    trace: bool,
    fault: &End,
    journal: Option<&str>,
    shelf: &mut F,
    out: &mut K,
) -> Result<Option<u8>, Cut>
    ensures noted { OnOk result (Records (option_copied journal.entry)
        (recorded events.now.events) (F.seen shelf.old) (F.seen shelf.new)) }
    ensures ok { IfOk result (λ status. WroteTurn fault.now
        (lines_of_events trace events.now.events) (K.seen out.old) (K.seen out.new) status went) }
    ensures err { IfErr result (λ cut. CutsTurn
        (record {
          name = option_copied journal.entry;
          old = F.seen shelf.old;
          new = F.seen shelf.new;
        })
        (telling trace fault.now events.now.events) (K.seen out.old) (K.seen out.new) cut went) }
    ensures told { OnOk result (is_refused went ≡ false) }
    ensures refused { is_refused went ≡ true → shelf.new ≡ shelf.old }
{
    if is_refused(&went) {
        drop(went);
        return Err(Cut::Halted(Halt::Memory));
    }
    match record_events(alloc, events, journal, shelf) {
        Ok(()) => match write_turn(alloc, went, events, trace, fault, out) {
            Ok(status) => Ok(status),
            Err(halt) => Err(Cut::Halted(halt)),
        },
        Err(cut) => {
            drop(went);
            Err(cut)
        }
    }
}

/// Whether memory was refused in a turn. A run that had more answers than a number holds would have
/// none left to tell of a misfit.
fn is_refused(went: &Went) -> bool
    ensures { result ≡ is_refused went.now }
{
    match went {
        Went::Stopped(stop) => match stop {
            Stop::Memory => true,
            Stop::Over(_) => false,
            Stop::Bad(_) => false,
            Stop::Mismatch(count, _) => *count == u64::MAX,
            Stop::Failed(_) => false,
        },
        Went::Went => false,
        Went::Finished(_) => false,
        Went::Stalled => false,
        Went::Runaway(_) => false,
    }
}

/// Writes the lines of a turn's events, and where the run ended with that turn its last line too, which
/// is `fault` where the wire failed. It answers the status of a run that ended.
pub fn write_turn<K: Sink>(
    alloc: Global,
    went: Went,
    events: &Events,
    trace: bool,
    fault: &End,
    out: &mut K,
) -> Result<Option<u8>, Halt>
    ensures ok { IfOk result (λ status. WroteTurn fault.now
        (lines_of_events trace events.now.events) (K.seen out.old) (K.seen out.new) status went) }
    ensures err { IfErr result (λ halt. StopsTurn fault.now
        (lines_of_events trace events.now.events) (K.seen out.old) (K.seen out.new) halt went) }
{
    match went {
        Went::Went => match write_events(alloc, events, trace, out) {
            Ok(()) => Ok(None),
            Err(halt) => Err(halt),
        },
        Went::Finished(outcome) => write_last(alloc, events, trace, end_of(outcome), out),
        Went::Stalled => write_last(alloc, events, trace, End::Stalled, out),
        Went::Runaway(task) => write_last(alloc, events, trace, End::Runaway(task), out),
        Went::Stopped(stop) => write_stop(alloc, stop, events, trace, fault, out),
    }
}

fn write_stop<K: Sink>(
    alloc: Global,
    stop: Stop,
    events: &Events,
    trace: bool,
    fault: &End,
    out: &mut K,
) -> Result<Option<u8>, Halt>
    ensures ok { IfOk result (λ status. WroteTurn fault.now
        (lines_of_events trace events.now.events) (K.seen out.old) (K.seen out.new) status
        (Went.Stopped stop)) }
    ensures err { IfErr result (λ halt. StopsTurn fault.now
        (lines_of_events trace events.now.events) (K.seen out.old) (K.seen out.new) halt
        (Went.Stopped stop)) }
{
    match stop {
        Stop::Over(call) => write_last(alloc, events, trace, End::Over(call), out),
        Stop::Bad(JournalFault { line, cause }) => {
            let end = End::JournalRefused { line, cause };
            write_last(alloc, events, trace, end, out)
        }
        Stop::Mismatch(count, call) => {
            write_last(alloc, events, trace, End::Mismatch { count, call }, out)
        }
        Stop::Failed(call) => {
            drop(call);
            write_ending(alloc, events, trace, fault, out)
        }
        Stop::Memory => Err(Halt::Memory),
    }
}

// The lines of the last turn, and the last line, which is let go here alone.
fn write_last<K: Sink>(
    alloc: Global,
    events: &Events,
    trace: bool,
    end: End,
    out: &mut K,
) -> Result<Option<u8>, Halt>
    ensures ok { IfOk result (λ status. WroteLast end
        (lines_of_events trace events.now.events) (K.seen out.old) (K.seen out.new) status) }
    ensures err { IfErr result (λ halt. StopsLast end
        (lines_of_events trace events.now.events) (K.seen out.old) (K.seen out.new) halt) }
{
    let told = write_ending(alloc, events, trace, &end, out);
    drop(end);
    told
}

fn write_ending<K: Sink>(
    alloc: Global,
    events: &Events,
    trace: bool,
    end: &End,
    out: &mut K,
) -> Result<Option<u8>, Halt>
    ensures ok { IfOk result (λ status. WroteLast end.now
        (lines_of_events trace events.now.events) (K.seen out.old) (K.seen out.new) status) }
    ensures err { IfErr result (λ halt. StopsLast end.now
        (lines_of_events trace events.now.events) (K.seen out.old) (K.seen out.new) halt) }
{
    match write_end(alloc, events, trace, end, out) {
        Ok(status) => Ok(Some(status)),
        Err(halt) => Err(halt),
    }
}
