//! Takes posts, and makes their items.
ghost use Rattle.std.specs.Prelude.{◌≡◌, ℕ, true, IfOk};
ghost use Rattle.model_wire.specs.Fits.{turn_fits};
ghost use Rattle.model_hub.specs.declared.halt.Halt.TheVariants as is;
ghost use Rattle.model_hub.specs.Gathering.{is_halted};
ghost use Rattle.aio_select.specs.Answered.{gathering, Gathered, OffersAll, Notes};
ghost use Rattle.aio_select.specs.Takes.{list_of};

use crate::answering::Answering;
use crate::pumps::{Noted, Pumps};
use aio_base::Memory;
use aio_interest::Watching;
use aio_wire::Item;
use model_hub::Halt;
use std::sync::Wait;

/// How many posts one call takes at most.
const MOST_POSTS: usize = 4_096;

fn is_halted(halt: Halt) -> bool
    ensures { result ≡ is_halted halt }
{
    match halt {
        Halt::Going => false,
        Halt::Faulted | Halt::Starving => true,
    }
}

// Offers what a post tells, if anything.
fn offer_told(watch: &Watching, item: Option<Item>, answering: &mut Answering) -> Result<(), Memory>
    requires { turn_fits watch.now 0 answering.old.items.items ≡ true }
    ensures offered { IfOk result (λ _. OffersAll watch.now answering.old.items.items
        answering.old.kept.items (list_of item) answering.new.items.items
        answering.new.kept.items) }
    ensures fits { turn_fits watch.now 0 answering.new.items.items ≡ true }
{
    match item {
        Some(item) => answering.offer(watch, item),
        None => Ok(()),
    }
}

/// Takes posts until the answer has enough or there are none, and makes their items. It may wait, but
/// for no post.
pub fn gather<R: Wait, P: Pumps>(
    rt: &R,
    watch: &Watching,
    pumps: &mut P,
    answering: &mut Answering,
) -> Result<Halt, Memory>
    requires { turn_fits watch.now 0 answering.old.items.items ≡ true }
    ensures gathered { IfOk result (λ halt. (count : ℕ) × Gathered watch.now
        (gathering answering.old.items.items answering.old.kept.items (P.children pumps.old)
        (P.taken pumps.old) 0 is.Going)
        (gathering answering.new.items.items answering.new.kept.items (P.children pumps.new)
        (P.taken pumps.new) count halt) (P.nones pumps.old) (P.nones pumps.new)) }
    ensures noted { Notes (P.children pumps.old) (P.taken pumps.old) (P.children pumps.new)
        (P.taken pumps.new) }
    ensures fits { turn_fits watch.now 0 answering.new.items.items ≡ true }
{
    for count in 0..MOST_POSTS {
        if answering.is_full() {
            return Ok(Halt::Going);
        }
        let Some(Noted { halt, item }) = pumps.take(rt) else {
            return Ok(Halt::Going);
        };
        offer_told(watch, item, answering)?;
        if is_halted(halt) {
            return Ok(halt);
        }
    }
    Ok(Halt::Going)
}
