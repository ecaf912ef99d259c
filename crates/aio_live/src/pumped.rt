//! The pumps of all children: where their posts are taken, and what the children's records keep of them.
ghost use Rattle.std.specs.Prelude.{◌≡◌, ◌≤◌, ◌^◌, length};

use aio_inbox::InboxName;
use aio_postbox::Postbox;
use aio_roster::Roster;
use aio_select::{Noted, Pumps};
use std::sync::Wait;

/// The children of a hub, with where the posts of their pumps are taken: each post that was taken was
/// noted.
#[derive(Drop)]
pub struct Pumped<N: InboxName> {
    pub roster: Roster,
    pub postbox: Postbox<N>,
    pub ghost noted: { roster.noted ≡ length postbox.taken },
    pub ghost few: { length postbox.taken ≤ 2 ^ 61 },
}

impl<N: InboxName> Pumps for Pumped<N> {
    ghost children = { λ pumped. pumped.roster.children };

    ghost taken = { λ pumped. pumped.postbox.taken };

    ghost nones = { λ pumped. pumped.postbox.nones };

    fn can_be_fed(&self, child: u32) -> bool {
        self.roster.can_be_fed(child)
    }

    fn is_broken(&self, child: u32) -> bool {
        self.roster.is_broken(child)
    }

    fn take<R: Wait>(&mut self, rt: &R) -> Option<Noted> {
        match self.postbox.take(rt) {
            Some(post) => Some(self.roster.note(post)),
            None => None,
        }
    }
}
