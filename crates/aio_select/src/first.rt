//! Whether a select has an item before its poller answers, so that the poll needn't wait.
ghost use Rattle.std.specs.Prelude.{◌≡◌, ℕ, ◌∷◌, [], ◌&&◌, ◌||◌, not, IfOk};
ghost use Rattle.std.specs.List.{list_any};
ghost use Rattle.model_hub.specs.Gathering.{kept_of};
ghost use Rattle.aio_select.specs.Answered.{first_items, has_any};
ghost use Rattle.aio_select.specs.First.{fits_alone, has_kept_item, has_stdin_item, tells_stdin};
ghost use Rattle.aio_interest.specs.Keys.{has, has_key, is_marked_in};

use crate::answering::is_kept;
use crate::pumps::Pumps;
use aio_base::{ChildItem, Memory};
use aio_interest::{Watching, is_marked, mark};
use aio_wire::{Item, Watch, bytes_in};
use std::alloc::Global;
use std::collections::HashSet;

/// The greatest number of bytes that one turn has.
const MOST_BYTES: u64 = 262_144;

// Whether an answer of this item alone fits.
fn fits_alone(watch: &Watching, item: &Item) -> bool
    ensures { result ≡ fits_alone watch.now item.now }
{
    watch.awaits(item) && bytes_in(item) <= MOST_BYTES
}

// Whether an item isn't behind a kept one, and an answer of it alone fits.
fn goes_first(watch: &Watching, behind: &HashSet<u64>, item: &Item) -> bool
    ensures { result ≡ (not (is_marked_in behind.now item.now) && fits_alone watch.now item.now) }
{
    !is_marked(behind, item) && fits_alone(watch, item)
}

// Adds what an item takes up, where the item is kept.
fn mark_kept(behind: &mut HashSet<u64>, item: &Item) -> Result<(), Memory>
    ensures { IfOk result (λ _. (k : ℕ) → has behind.new k
        ≡ (list_any (has_key k) (kept_of item.now) || has behind.old k)) }
{
    if is_kept(item) {
        mark(behind, item)?;
    }
    Ok(())
}

// Whether an item that is kept goes into an answer that has none, and isn't behind another.
fn has_kept_item(alloc: Global, watch: &Watching, kept: &[Item]) -> Result<bool, Memory>
    ensures { IfOk result (λ has. has ≡ has_kept_item watch.now [] kept.now) }
{
    let mut behind = HashSet::new(alloc);
    for item in kept {
        if goes_first(watch, &behind, item) {
            return Ok(true);
        }
        mark_kept(&mut behind, item)?;
    }
    Ok(false)
}

// Whether there is an item of the standard input that is watched here.
fn tells_stdin<P: Pumps>(watch: &Watching, pumps: &P, entry: &Watch) -> bool
    ensures { result ≡ tells_stdin watch.now (P.children pumps.now) entry.now }
{
    let Watch::Child { child, .. } = entry else {
        return false;
    };
    if pumps.can_be_fed(*child) && fits_alone(watch, &Item::WritableChild(*child)) {
        return true;
    }
    let broken = Item::Child {
        child: *child,
        item: ChildItem::Broken,
    };
    pumps.is_broken(*child) && fits_alone(watch, &broken)
}

// Whether there is an item of a standard input that is watched.
fn has_stdin_item<P: Pumps>(watch: &Watching, pumps: &P) -> bool
    ensures { result ≡ has_stdin_item watch.now (P.children pumps.now) watch.now }
{
    watch
        .entries()
        .iter()
        .any(|entry| tells_stdin(watch, pumps, entry))
}

/// Whether an answer has an item before posts are taken, where nothing came of the poller: one that was
/// kept, or what is so of a standard input. It goes over what is kept and what is watched once.
pub fn has_item<P: Pumps>(
    alloc: Global,
    watch: &Watching,
    pumps: &P,
    kept: &[Item],
) -> Result<bool, Memory>
    ensures { IfOk result (λ has. has ≡ has_any (first_items watch.now (P.children pumps.now)
        kept.now)) }
{
    if has_kept_item(alloc, watch, kept)? {
        return Ok(true);
    }
    Ok(has_stdin_item(watch, pumps))
}
