//! The answer of a select while it grows, and what is kept.
ghost use Rattle.std.specs.Prelude.{◌≡◌, ◌≤◌, ◌++◌, ◌∷◌, [], true, map, sum, IfOk, OnOk, OnErr, if◌then◌else◌};
ghost use Rattle.model_wire.specs.Fits.{turn_fits, bytes_in, most_bytes};
ghost use Rattle.model_hub.specs.Gathering.{is_full, is_kept};
ghost use Rattle.aio_select.specs.Answered.{Offers, AddsAll};
ghost use Rattle.aio_interest.specs.Keys.{Marks, is_marked_in};
ghost use Rattle.aio_select.specs.Room.{is_apart, has_room, Grown};

use aio_base::{ChildItem, Memory};
use aio_interest::{Watching, is_marked, mark};
use aio_wire::{Item, bytes_in};
use std::alloc::Global;
use std::collections::HashSet;

/// The greatest number of bytes that one turn has.
const MOST_BYTES: u64 = 262_144;

/// The greatest number of bytes in one piece of a child's output.
const MOST_PIECE: u64 = 65_536;

/// The greatest number of items in one turn.
const MOST_ITEMS: usize = 4_096;

/// The items of the answer with the bytes that they bring, the items that are kept, and the numbers of
/// what either take up.
#[derive(Drop)]
pub struct Answering {
    pub items: Vec<Item>,
    pub bytes: u64,
    pub kept: Vec<Item>,
    pub taken: HashSet<u64>,
    pub behind: HashSet<u64>,
    pub ghost counted: { bytes ≡ sum (map bytes_in items.items) },
    pub ghost marked: { Marks taken items.items },
    pub ghost held: { Marks behind kept.items },
}

impl Answering {
    /// These items, which bring 262,144 bytes at most; nothing is kept.
    pub fn new(alloc: Global, items: Vec<Item>) -> Result<Answering, Memory>
        requires { sum (map bytes_in items.items) ≤ most_bytes }
        ensures items { IfOk result (λ answering. answering.items.items ≡ items.items) }
        ensures kept { IfOk result (λ answering. answering.kept.items ≡ []) }
    {
        let mut taken = HashSet::new(alloc);
        let mut bytes = 0u64;
        for item in &items {
            mark(&mut taken, item)?;
            bytes = bytes.saturating_add(bytes_in(item));
        }
        Ok(Answering {
            items,
            bytes,
            kept: Vec::new(alloc),
            taken,
            behind: HashSet::new(alloc),
        })
    }

    /// No more posts are to be taken.
    pub fn is_full(&self) -> bool
        ensures { result ≡ is_full self.now.items.items }
    {
        self.items.len() >= MOST_ITEMS || MOST_BYTES.saturating_sub(self.bytes) < MOST_PIECE
    }

    fn has_room_for(&self, item: &Item) -> bool
        ensures { result ≡ has_room self.now.items.items item.now }
    {
        self.items.len() < MOST_ITEMS && self.bytes.saturating_add(bytes_in(item)) <= MOST_BYTES
    }

    // It is awaited, and nothing like it is there.
    fn is_apart(&self, watch: &Watching, item: &Item) -> bool
        ensures { result ≡ is_apart watch.now self.now.items.items item.now }
    {
        watch.awaits(item) && !is_marked(&self.taken, item)
    }

    /// Whether the answer with this item fits.
    fn has_place_for(&self, watch: &Watching, item: &Item) -> bool
        requires { turn_fits watch.now 0 self.now.items.items ≡ true }
        ensures { result ≡ turn_fits watch.now 0 (self.now.items.items ++ item.now ∷ []) }
    {
        self.is_apart(watch, item) && self.has_room_for(item)
    }

    // Takes an item into the answer.
    fn add(&mut self, item: Item) -> Result<(), Memory>
        requires { has_room self.old.items.items item ≡ true }
        ensures added { OnOk result (Grown self.old.items.items item self.new.items.items) }
        ensures err { OnErr result (self.new.items.items ≡ self.old.items.items) }
        ensures kept { self.new.kept.items ≡ self.old.kept.items }
    {
        let bytes = bytes_in(&item);
        self.items.reserve(1)?;
        mark(&mut self.taken, &item)?;
        self.items.push_reserved(item);
        self.bytes = self.bytes.saturating_add(bytes);
        Ok(())
    }

    // Keeps an item.
    fn keep(&mut self, item: Item) -> Result<(), Memory>
        ensures kept { OnOk result (Grown self.old.kept.items item self.new.kept.items) }
        ensures items { self.new.items.items ≡ self.old.items.items }
    {
        self.kept.reserve(1)?;
        mark(&mut self.behind, &item)?;
        self.kept.push_reserved(item);
        Ok(())
    }

    /// Takes an item into the answer where it fits; else keeps it.
    pub fn offer(&mut self, watch: &Watching, item: Item) -> Result<(), Memory>
        requires { turn_fits watch.now 0 self.old.items.items ≡ true }
        ensures offered { IfOk result (λ _. Offers watch.now self.old.items.items
            self.old.kept.items item self.new.items.items self.new.kept.items) }
        ensures fits { turn_fits watch.now 0 self.new.items.items ≡ true }
    {
        if !is_marked(&self.behind, &item) && self.has_place_for(watch, &item) {
            self.add(item)?;
        } else if is_kept(&item) {
            self.keep(item)?;
        }
        Ok(())
    }

    /// Takes an item into the answer where it is so and fits.
    pub fn add_if(&mut self, watch: &Watching, holds: bool, item: Item) -> Result<(), Memory>
        requires { turn_fits watch.now 0 self.old.items.items ≡ true }
        ensures added { IfOk result (λ _. AddsAll watch.now self.old.items.items
            self.old.kept.items (if holds then item ∷ [] else []) self.new.items.items
            self.new.kept.items) }
        ensures fits { turn_fits watch.now 0 self.new.items.items ≡ true }
    {
        if holds && self.has_place_for(watch, &item) {
            self.add(item)?;
        }
        Ok(())
    }
}

/// A break isn't kept: it is told as long as it is so.
pub(crate) fn is_kept(item: &Item) -> bool
    ensures { result ≡ is_kept item.now }
{
    match item {
        Item::Child { item, .. } => match item {
            ChildItem::Broken => false,
            ChildItem::Out(_)
            | ChildItem::OutEnd
            | ChildItem::Errs(_)
            | ChildItem::ErrsEnd
            | ChildItem::Exit(_) => true,
        },
        Item::ReadableServer(_)
        | Item::Ready { .. }
        | Item::Up(_)
        | Item::Down(_)
        | Item::WritableChild(_)
        | Item::Extra { .. } => true,
    }
}
