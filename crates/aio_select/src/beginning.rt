//! The answer of a select before it takes posts.
ghost use Rattle.std.specs.Prelude.{◌≡◌, true, IfOk};
ghost use Rattle.model_wire.specs.Fits.{turn_fits};
ghost use Rattle.std.specs.List.{flat_map};
ghost use Rattle.model_hub.specs.Gathering.{stdin_items};
ghost use Rattle.aio_select.specs.Answered.{OffersAll, AddsAll};

use crate::answering::Answering;
use crate::pumps::Pumps;
use aio_base::{ChildItem, Memory};
use aio_interest::Watching;
use aio_wire::{Item, Watch};

/// Offers items in order: what fits goes into the answer, the rest is kept.
pub fn offer_all(
    watch: &Watching,
    items: Vec<Item>,
    answering: &mut Answering,
) -> Result<(), Memory>
    requires { turn_fits watch.now 0 answering.old.items.items ≡ true }
    ensures offered { IfOk result (λ _. OffersAll watch.now answering.old.items.items
        answering.old.kept.items items.items answering.new.items.items answering.new.kept.items) }
    ensures fits { turn_fits watch.now 0 answering.new.items.items ≡ true }
{
    let rest = items.into_iter();
    for item in rest {
        answering.offer(watch, item)?;
    }
    Ok(())
}

// What is so of the standard input of one that is watched.
fn add_stdin<P: Pumps>(
    watch: &Watching,
    pumps: &P,
    entry: &Watch,
    answering: &mut Answering,
) -> Result<(), Memory>
    requires { turn_fits watch.now 0 answering.old.items.items ≡ true }
    ensures added { IfOk result (λ _. AddsAll watch.now answering.old.items.items
        answering.old.kept.items (stdin_items (P.children pumps.now) entry.now)
        answering.new.items.items answering.new.kept.items) }
    ensures fits { turn_fits watch.now 0 answering.new.items.items ≡ true }
{
    let Watch::Child { child, .. } = entry else {
        return Ok(());
    };
    let can_be_fed = pumps.can_be_fed(*child);
    answering.add_if(watch, can_be_fed, Item::WritableChild(*child))?;
    let broken = Item::Child {
        child: *child,
        item: ChildItem::Broken,
    };
    let is_broken = pumps.is_broken(*child);
    answering.add_if(watch, is_broken, broken)?;
    Ok(())
}

/// Adds what is so of each standard input that is watched.
pub fn add_stdins<P: Pumps>(
    watch: &Watching,
    pumps: &P,
    answering: &mut Answering,
) -> Result<(), Memory>
    requires { turn_fits watch.now 0 answering.old.items.items ≡ true }
    ensures added { IfOk result (λ _. AddsAll watch.now answering.old.items.items
        answering.old.kept.items (flat_map (stdin_items (P.children pumps.now)) watch.now)
        answering.new.items.items answering.new.kept.items) }
    ensures fits { turn_fits watch.now 0 answering.new.items.items ≡ true }
{
    for entry in watch.entries() {
        add_stdin(watch, pumps, entry, answering)?;
    }
    Ok(())
}
