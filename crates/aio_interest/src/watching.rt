//! What a select watches.
ghost use Rattle.std.specs.Prelude.{◌≡◌, ℕ, ◌||◌, IfOk};
ghost use Rattle.model_wire.specs.Fits.{is_awaited, is_piece, is_some_within, most_piece};
ghost use Rattle.aio_interest.specs.Keys.{has, awaits};

use crate::keys::{is_marked, key_at, mark_if};
use aio_base::{ChildItem, Memory};
use aio_wire::{Item, Watch, is_awaited};
use model_wire::Interest;
use std::alloc::Global;
use std::collections::HashSet;
use std::marker::Model;

/// The greatest number of bytes in one piece of a child's output.
const MOST_PIECE: usize = 65_536;

/// The entries that a select watches, with the letters of children that are among them. Contracts see
/// the entries.
#[derive(Drop)]
pub struct Watching {
    entries: Vec<Watch>,
    awaited: HashSet<u64>,
}

impl Model for Watching {
    ghost use Rattle.std.specs.Prelude.{List};
    ghost use Rattle.model_wire.specs.declared.watch.Watch.{Watch as PlainWatch};
    ghost use Rattle.aio_interest.specs.Keys.{Awaits};

    ghost Value = { List PlainWatch };

    ghost view = { λ watching. watching.entries.items };

    ghost invariant = { λ watching. Awaits watching.awaited watching.entries.items };
}

impl Watching {
    /// It goes over the entries once.
    pub fn new(alloc: Global, watch: &[Watch]) -> Result<Watching, Memory>
        ensures { IfOk result (λ watching. watching ≡ watch.now) }
    {
        let entries = Vec::from_slice(alloc, watch)?;
        let mut awaited = HashSet::new(alloc);
        for entry in watch {
            mark_entry(&mut awaited, entry)?;
        }
        Ok(Watching { entries, awaited })
    }

    /// The entries in order.
    pub fn entries(&self) -> &[Watch]
        ensures { result.now ≡ self.now }
    {
        self.entries.as_slice()
    }

    /// Whether these entries await an item: it is watched, and brings as much as it may. News of
    /// children are looked up, others are looked for.
    pub fn awaits(&self, item: &Item) -> bool
        ensures { result ≡ is_awaited self.now item.now }
    {
        match item {
            Item::WritableChild(_) => is_marked(&self.awaited, item),
            Item::Child { item: news, .. } => is_marked(&self.awaited, item) && is_piece(news),
            Item::ReadableServer(_)
            | Item::Ready { .. }
            | Item::Up(_)
            | Item::Down(_)
            | Item::Extra { .. } => is_awaited(self.entries.as_slice(), item),
        }
    }
}

// Adds the letters of a child that are watched here.
fn mark_entry(awaited: &mut HashSet<u64>, entry: &Watch) -> Result<(), Memory>
    ensures { IfOk result (λ _. (k : ℕ) → has awaited.new k ≡ (awaits k entry.now || has
        awaited.old k)) }
{
    let Watch::Child {
        child,
        feeds,
        stdin,
        out,
        errs,
        exit,
    } = entry
    else {
        return Ok(());
    };
    mark_if(awaited, *exit, key_at(Interest::Exit, *child))?;
    mark_if(awaited, *errs, key_at(Interest::Errs, *child))?;
    mark_if(awaited, *out, key_at(Interest::Out, *child))?;
    mark_if(awaited, *stdin, key_at(Interest::Stdin, *child))?;
    mark_if(awaited, *feeds, key_at(Interest::Feed, *child))
}

// A piece of a child's output has a byte, and not too many.
fn is_piece(news: &ChildItem) -> bool
    ensures { result ≡ is_piece news.now }
{
    match news {
        ChildItem::Out(bytes) => is_some_within(bytes.items().len()),
        ChildItem::Errs(bytes) => is_some_within(bytes.items().len()),
        ChildItem::Broken | ChildItem::OutEnd | ChildItem::ErrsEnd | ChildItem::Exit(_) => true,
    }
}

fn is_some_within(count: usize) -> bool
    ensures { result ≡ is_some_within most_piece count }
{
    0 < count && count <= MOST_PIECE
}
