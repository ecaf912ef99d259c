//! Answers that always fit.
ghost use Rattle.std.specs.Prelude.{◌≡◌, ◌≤◌, true, IfOk};
ghost use Rattle.model_value.specs.Number.{most};
ghost use Rattle.model_wire.specs.declared.answer.Answer.TheVariants as answer;
ghost use Rattle.model_wire.specs.Fits.{fits};
ghost use Rattle.aio_simwire.specs.Seen.{IsTurn};

use aio_base::Memory;
use aio_wire::{Answer, Call, Item, ItemList, WatchList, fits, turn_fits};
use std::alloc::Global;

/// The greatest time that an answer has.
pub(crate) const MOST_TIME: u64 = 0x7FFF_FFFF_FFFF_FFFF;

/// An answer that says of nothing that it came.
fn spare_answer(alloc: Global, call: &Call) -> Answer
    ensures { fits call.now result ≡ true }
{
    match call {
        Call::Select { .. } => Answer::Turn {
            now: 0,
            items: ItemList::of(Vec::new(alloc)),
        },
        Call::Listen(_) | Call::Connect(_) | Call::Launch(_) | Call::Extra { .. } => {
            Answer::Refused
        }
        Call::Accept(_) | Call::Recv(_) | Call::Send { .. } | Call::Feed { .. } => Answer::Again,
        Call::Shut(_) | Call::Close(_) | Call::CloseServer(_) | Call::End(_) | Call::Kill(_) => {
            Answer::Done
        }
    }
}

/// An answer where it fits its call, and else one that says of nothing that it came.
pub(crate) fn fitted(alloc: Global, call: &Call, answer: Answer) -> Result<Answer, Memory>
    ensures { IfOk result (λ answer. fits call.now answer ≡ true) }
{
    if fits(alloc, call, &answer)? {
        Ok(answer)
    } else {
        Ok(spare_answer(alloc, call))
    }
}

/// A turn at a time with these items where they fit a select, and else without any: a select that watches something twice gets
/// none.
pub(crate) fn fitted_turn(
    alloc: Global,
    watch: &WatchList,
    now: u64,
    items: Vec<Item>,
) -> Result<Answer, Memory>
    requires { now ≤ most }
    ensures { IfOk result (IsTurn watch.now now) }
{
    if turn_fits(alloc, watch.items(), now, items.as_slice())? {
        Ok(turn_of(now, items))
    } else {
        Ok(turn_of(now, Vec::new(alloc)))
    }
}

fn turn_of(now: u64, items: Vec<Item>) -> Answer
    ensures { result ≡ answer.Turn now items.items }
{
    Answer::Turn {
        now,
        items: ItemList::of(items),
    }
}
