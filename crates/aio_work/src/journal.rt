//! The journal, which is the same for every seed. Each call appends, and on `Memory` leaves a front
//! of its text.
ghost use Rattle.std.specs.Prelude.{◌≡◌, ◌++◌, flat_map, replicate, codes, OnOk};
ghost use Rattle.std.specs.Fmt.{decimal};
ghost use Rattle.model_work.specs.Work.{journal, arrival_text, quiet_text, numbers_from};

use aio_base::Memory;
use std::alloc::Global;

/// The connection is up at time 0.
const CONNECTING: &[u8] = b"turn 0
conn
turn 0 C0 up
turn 0
";

/// The first turns, in each of which a line comes.
const ARRIVALS: u64 = 300;

/// The turns after them, in which nothing comes.
const QUIET: u64 = 1200;

/// Appends the journal.
pub fn push_journal(alloc: Global, out: &mut Vec<u8>) -> Result<(), Memory>
    ensures { OnOk result (out.new.items ≡ out.old.items ++ journal) }
{
    out.extend_from_slice(CONNECTING)?;
    push_arrivals(alloc, out)?;
    push_quiet_turns(alloc, out)
}

/// Appends the turns in which a line comes.
fn push_arrivals(alloc: Global, out: &mut Vec<u8>) -> Result<(), Memory>
    ensures { OnOk result
        (out.new.items ≡ out.old.items ++ flat_map arrival_text (numbers_from 1 300)) }
{
    for past in 0..ARRIVALS {
        push_arrival(alloc, past + 1, out)?;
    }
    Ok(())
}

/// Appends the turns in which nothing comes.
fn push_quiet_turns(alloc: Global, out: &mut Vec<u8>) -> Result<(), Memory>
    ensures { OnOk result
        (out.new.items ≡ out.old.items ++ flat_map quiet_text (numbers_from 301 1200)) }
{
    for past in 0..QUIET {
        push_quiet_turn(alloc, ARRIVALS + 1 + past, out)?;
    }
    Ok(())
}

/// Appends a turn at this time, and the line that comes with it.
fn push_arrival(alloc: Global, time: u64, out: &mut Vec<u8>) -> Result<(), Memory>
    ensures { OnOk result (out.new.items ≡ out.old.items ++ arrival_text time) }
{
    push_turn(alloc, time, out)?;
    out.extend_from_slice(b" C0 r\ndata b\"")?;
    push_letters(time % 61, out)?;
    out.extend_from_slice(b"\\n\"\n")?;
    Ok(())
}

/// Appends a turn at this time, in which nothing comes.
fn push_quiet_turn(alloc: Global, time: u64, out: &mut Vec<u8>) -> Result<(), Memory>
    ensures { OnOk result (out.new.items ≡ out.old.items ++ quiet_text time) }
{
    push_turn(alloc, time, out)?;
    out.push(b'\n')?;
    Ok(())
}

/// Appends the word of a turn, and its time.
fn push_turn(alloc: Global, time: u64, out: &mut Vec<u8>) -> Result<(), Memory>
    ensures { OnOk result (out.new.items ≡ out.old.items ++ (codes "turn " ++ decimal time)) }
{
    out.extend_from_slice(b"turn ")?;
    out.extend_from_slice(time.to_string(alloc)?.as_bytes())?;
    Ok(())
}

/// Appends so many letters x.
fn push_letters(count: u64, out: &mut Vec<u8>) -> Result<(), Memory>
    ensures { OnOk result (out.new.items ≡ out.old.items ++ replicate count 120) }
{
    for letter in 0..count {
        out.push(b'x')?;
    }
    Ok(())
}
