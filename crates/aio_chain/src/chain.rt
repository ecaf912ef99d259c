//! A chain of values, first to last.
ghost use Rattle.std.specs.Prelude.{◌≡◌, [], ◌∷◌, ◌++◌, MatchOption};
ghost use Rattle.aio_chain.specs.Links.{is_empty};

use crate::nodes::Nodes;
use crate::spare::Spare;
use std::alloc::Global;
use std::marker::Model;
use std::mem::swap;

/// Values, each in the memory of its spare. Contracts see them first to last.
pub struct Chain<T> {
    nodes: Nodes<T, Global>,
    empty: bool,
}

impl<T> Model for Chain<T> {
    ghost use Rattle.std.specs.Prelude.{◌≡◌, List};
    ghost use Rattle.aio_chain.specs.Links.{is_empty};

    ghost Value = { List T };

    ghost view = { λ a. a.nodes.items };

    ghost invariant = { λ a. a.empty ≡ is_empty a.nodes.items };
}

impl<T: Drop> Drop for Chain<T> {
    fn drop(mut self) {
        while let Some((value, spare)) = self.pop() {
            drop(value);
            drop(spare);
        }
        self.end();
    }
}

impl<T> Chain<T> {
    /// No values; takes no memory.
    pub fn new() -> Chain<T>
        ensures { result ≡ [] }
    {
        Chain {
            nodes: Nodes::new(),
            empty: true,
        }
    }

    /// Whether it holds nothing.
    pub fn is_empty(&self) -> bool
        ensures { result ≡ is_empty self.now }
    {
        self.empty
    }

    /// A value after all others.
    pub fn push(&mut self, spare: Spare<T>, value: T)
        ensures { self.new ≡ self.old ++ value ∷ [] }
    {
        let room = spare.into_room();
        if self.empty {
            self.nodes.link_first(room, value);
            self.empty = false;
        } else {
            self.nodes.link_back(room, value);
        }
    }

    /// Takes the first value, with its memory; None exactly where it is empty.
    pub fn pop(&mut self) -> Option<(T, Spare<T>)>
        ensures { MatchOption result ((self.old ≡ []) × (self.new ≡ []))
            (λ first. self.old ≡ first.0 ∷ self.new) }
    {
        if self.empty {
            return None;
        }
        let (last, (value, room)) = self.nodes.unlink_front();
        self.empty = last;
        Some((value, Spare::of_room(room)))
    }

    /// All values of another chain come after those of this one, in constant time.
    pub fn append(&mut self, other: &mut Chain<T>)
        ensures after { self.new ≡ self.old ++ other.old }
        ensures other { other.new ≡ [] }
    {
        if other.empty {
            return;
        }
        if self.empty {
            swap(&mut self.nodes, &mut other.nodes);
            self.empty = false;
        } else {
            self.nodes.join(&mut other.nodes);
        }
        other.empty = true;
    }

    fn end(self)
        requires { self ≡ [] }
    {
        let Chain { nodes, empty: _ } = self;
        nodes.end();
    }
}
