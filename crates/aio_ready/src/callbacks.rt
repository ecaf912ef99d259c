//! What a future calls once it is done.
ghost use Rattle.std.specs.Prelude.{◌≡◌, [], ◌∷◌, ◌++◌, MatchOption};

use crate::entry::Entry;
use crate::handle::{Handle, HandleName};
use crate::ticket::Ticket;
use aio_base::Action;
use aio_chain::Chain;
use std::marker::Model;

/// Callbacks that wait, each in the memory of its ticket. Contracts see what they run, in order.
#[derive(Drop)]
pub struct Callbacks {
    waiting: Chain<Entry>,
}

impl Model for Callbacks {
    ghost use Rattle.std.specs.Prelude.{◌≡◌, List, true};
    ghost use Rattle.model_value.specs.Action.{Action};
    ghost use Rattle.aio_ready.specs.Entries.{entry_actions, all_loose};

    ghost Value = { List Action };

    ghost view = { λ a. entry_actions a.waiting };

    ghost invariant = { λ a. all_loose a.waiting ≡ true };
}

impl Callbacks {
    /// No callbacks.
    pub fn new() -> Callbacks
        ensures { result ≡ [] }
    {
        Callbacks {
            waiting: Chain::new(),
        }
    }

    /// A callback after all others.
    pub fn add(&mut self, ticket: Ticket, action: Action)
        ensures { self.new ≡ self.old ++ action ∷ [] }
    {
        let Ticket { spare, leaf } = ticket;
        let (name, dead) = (HandleName::Nameless, false);
        let handle = Handle { name, action, dead };
        self.waiting.push(spare, Entry::Loose(handle, leaf));
    }

    /// Takes the first callback, with its ticket; None exactly where there is none.
    pub(crate) fn pop(&mut self) -> Option<(Action, Ticket)>
        ensures { MatchOption result ((self.old ≡ []) × (self.new ≡ []))
            (λ first. self.old ≡ first.0 ∷ self.new) }
    {
        match self.waiting.pop() {
            None => None,
            Some((entry, spare)) => match entry {
                Entry::Loose(handle, leaf) => Some((handle.action, Ticket { spare, leaf })),
                Entry::Registered(_, _) => unreachable!(),
            },
        }
    }
}
