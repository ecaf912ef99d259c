//! How a run's end is kept.
ghost use Rattle.std.specs.Prelude.{◌≡◌, Some};
ghost use Rattle.aio_core.specs.Again.{Again, IsKept};

use crate::went::Went;
use aio_base::Memory;
use aio_wire::Stop;
use std::alloc::Global;

/// The end of a run is kept and answered. Where its copy is refused memory, that is kept and
/// answered.
pub fn end(alloc: Global, kept: &mut Option<Went>, went: Went) -> Went
    ensures answer { Again went result }
    ensures kept { kept.new ≡ Some result }
{
    match went.copy(alloc) {
        Ok(copy) => {
            *kept = Some(went);
            copy
        }
        Err(Memory) => {
            *kept = Some(Went::Stopped(Stop::Memory));
            Went::Stopped(Stop::Memory)
        }
    }
}

/// The end of a run is kept, where a turn says that it ended.
pub fn keep(alloc: Global, kept: &mut Option<Went>, went: Went) -> Went
    ensures { IsKept went kept.old kept.new result }
{
    match went {
        Went::Went => Went::Went,
        Went::Finished(outcome) => end(alloc, kept, Went::Finished(outcome)),
        Went::Stalled => end(alloc, kept, Went::Stalled),
        Went::Runaway(task) => end(alloc, kept, Went::Runaway(task)),
        Went::Stopped(stop) => end(alloc, kept, Went::Stopped(stop)),
    }
}
