//! What is added to the loop's own requests where the program runs a script. No other code names
//! it.
ghost use Rattle.model_program.specs.Added.{first_added};
ghost use Rattle.aio_drive.specs.Added.{KeepsNothing};
ghost use Rattle.aio_reach.specs.Routed.{routed};

use aio_reach::Reach;
use std::alloc::Global;

/// What is added, as a run begins: nothing was asked of it.
pub fn added(alloc: Global) -> Reach
    ensures { KeepsNothing routed result first_added }
{
    Reach::new(alloc)
}
