//! Recording what a turn's calls were answered.
ghost use Rattle.std.specs.Prelude.{None, OnOk, IfErr};
ghost use Rattle.std.specs.Option.{option_copied};
ghost use Rattle.model_commands.specs.Recorded.{Records, recorded};
ghost use Rattle.aio_drive.specs.Recording.{StopsRecords};

use crate::cut::Cut;
use crate::halt::Halt;
use aio_base::Memory;
use aio_record::{Unrecorded, record};
use aio_wire::{Events, Shelf, SinkTook, SourceGot};
use std::alloc::Global;

/// Records the answers of events in the file of this name, if one is named.
pub fn record_events<F: Shelf>(
    alloc: Global,
    events: &Events,
    journal: Option<&str>,
    shelf: &mut F,
) -> Result<(), Cut>
    ensures ok { OnOk result (Records (option_copied journal.entry) (recorded events.now.events)
        (F.seen shelf.old) (F.seen shelf.new)) }
    ensures err { IfErr result (StopsRecords (option_copied journal.entry)
        (recorded events.now.events) (F.seen shelf.old) (F.seen shelf.new)) }
{
    match journal {
        None => Ok(()),
        Some(name) => match record(alloc, events, name, shelf) {
            Ok(()) => Ok(()),
            Err(Unrecorded::Memory) => Err(Cut::Halted(Halt::Memory)),
            Err(Unrecorded::File) => Err(Cut::Unrecorded),
        },
    }
}

/// The shelf of a run that isn't recorded. It is asked nothing.
#[derive(Drop)]
pub struct NoShelf;

impl Shelf for NoShelf {
    ghost seen = { λ _. record { file = λ _. None; faults = λ _. 0 } };

    fn read(
        &mut self,
        _alloc: Global,
        _name: &str,
        _from: u64,
        _max: usize,
    ) -> Result<SourceGot, Memory> {
        Err(Memory)
    }

    fn append(&mut self, _alloc: Global, _name: &str, _piece: &[u8]) -> Result<SinkTook, Memory> {
        Err(Memory)
    }
}
