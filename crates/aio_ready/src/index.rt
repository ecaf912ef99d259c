//! Truths under numbers, each in memory of its own.
ghost use Rattle.std.specs.Prelude.{◌≡◌, [], None, IfSome, IfNone, OnOk, OnErr};
ghost use Rattle.std.specs.Option.{option_map};
ghost use Rattle.aio_ready.specs.Found.{found, begins_with, IsMarked, IsPut, IsTaken, Lifted};

use aio_base::Memory;
use std::alloc::Global;
use std::marker::Model;
use std::mem;

/// The memory of one number.
#[derive(Drop)]
pub struct Leaf {
    room: Box<(Index, Index)>,
}

/// A truth under each of some numbers. The halves of even numbers stand on the first side of a
/// fork, those of odd ones on the other, so that no number lies below more than 64 others. Contracts
/// see the numbers, each with what is said of it.
#[cycle(index)]
#[derive(Drop)]
pub struct Index {
    top: Fork,
}

#[cycle(index)]
#[derive(Drop)]
pub enum Fork {
    Tip,
    More(u64, bool, Box<(Index, Index)>),
}

impl Model for Index {
    ghost use Rattle.std.specs.Prelude.{ℕ, Bool, List, length};

    ghost Value = { List (ℕ × Bool) };

    ghost use Rattle.aio_ready.specs.Sides.{entries_of, AreHalves};

    ghost view = { λ a. entries_of a.top };

    ghost invariant = { λ a. AreHalves a.top };

    ghost size = { length };

    ghost use Rattle.aio_ready.specs.Falls.{depth_le-length};

    ghost size_decreases = { λ a h. depth_le-length a.top };
}

impl Leaf {
    /// A leaf that is in no index. It is taken ahead of the name that it will hold.
    pub fn new(alloc: Global) -> Result<Leaf, Memory> {
        let room = Box::new(alloc, (Index::new(), Index::new()))?;
        Ok(Leaf { room })
    }
}

impl Index {
    /// Nothing; takes no memory.
    pub fn new() -> Index
        ensures { result ≡ [] }
    {
        Index { top: Fork::Tip }
    }

    /// False under a number where nothing stands. Where something does, the leaf comes back.
    pub fn put(&mut self, number: u64, leaf: Leaf) -> Result<(), Leaf>
        ensures free { OnOk result (found number self.old ≡ None) }
        ensures after { OnOk result (IsPut number self.old self.new) }
        ensures err { OnErr result (self.new ≡ self.old) }
    {
        match &mut self.top {
            Fork::Tip => {
                let mut room = leaf.room;
                *room = (Index::new(), Index::new());
                self.top = Fork::More(number, false, room);
                Ok(())
            }
            Fork::More(own, _, sides) => {
                if *own == number {
                    Err(leaf)
                } else if number % 2 == 0 {
                    sides.0.put(number / 2, leaf)
                } else {
                    sides.1.put(number / 2, leaf)
                }
            }
        }
    }

    /// True under a number where something stands.
    pub fn mark(&mut self, number: u64)
        ensures { IsMarked number self.old self.new }
    {
        match &mut self.top {
            Fork::Tip => {}
            Fork::More(own, said, sides) => {
                if *own == number {
                    *said = true;
                } else if number % 2 == 0 {
                    sides.0.mark(number / 2);
                } else {
                    sides.1.mark(number / 2);
                }
            }
        }
    }

    /// What stands under a number leaves, with its leaf.
    pub fn take(&mut self, number: u64) -> Option<(bool, Leaf)>
        ensures said { option_map (λ taken. taken.0) result ≡ found number self.old }
        ensures after { IsTaken number self.old self.new }
    {
        if self.begins_with(number) {
            return match self.lift() {
                Some((_, said, leaf)) => Some((said, leaf)),
                None => None,
            };
        }
        match &mut self.top {
            Fork::Tip => None,
            Fork::More(_, _, sides) => {
                if number % 2 == 0 {
                    sides.0.take(number / 2)
                } else {
                    sides.1.take(number / 2)
                }
            }
        }
    }

    // Whether the first entry has this number.
    fn begins_with(&self, number: u64) -> bool
        ensures { result ≡ begins_with number self.now }
    {
        match &self.top {
            Fork::Tip => false,
            Fork::More(own, _, _) => *own == number,
        }
    }

    // The first entry leaves, and another one takes its place.
    fn lift(&mut self) -> Option<(u64, bool, Leaf)>
        ensures some { IfSome result (λ first. Lifted first.0 first.1 self.old self.new) }
        ensures none { IfNone result ((self.old ≡ []) × (self.new ≡ [])) }
    {
        match mem::replace(&mut self.top, Fork::Tip) {
            Fork::Tip => None,
            Fork::More(own, said, mut sides) => {
                if let Some((half, other, leaf)) = sides.0.lift() {
                    self.top = Fork::More(2 * half, other, sides);
                    Some((own, said, leaf))
                } else if let Some((half, other, leaf)) = sides.1.lift() {
                    self.top = Fork::More(2 * half + 1, other, sides);
                    Some((own, said, leaf))
                } else {
                    Some((own, said, Leaf { room: sides }))
                }
            }
        }
    }
}
