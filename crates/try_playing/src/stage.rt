//! The pumps of the children that run, shared by the poller, whose polls have them post, and the launcher, which gives
//! and takes them.
ghost use Rattle.std.specs.Prelude.{◌<◌, length, IfSome};

use crate::pumps::{post_news, post_room};
use aio_base::Memory;
use aio_hub::PumpKit;
use aio_inbox::{Inbox, InboxName, Poster};
use aio_wire::Item;
use std::alloc::Global;
use std::sync::{Mutex, Wait};

/// What the four pumps of a child work with.
pub type Pumps<N> = PumpKit<Inbox<N>, Poster<N>>;

/// The pumps of each child that runs.
#[derive(Drop)]
pub struct Stage<N: InboxName> {
    pumps: Mutex<Vec<Pumps<N>>>,
}

impl<N: InboxName> Stage<N> {
    /// No child runs.
    pub fn new(alloc: Global) -> Stage<N> {
        Stage {
            pumps: Mutex::new(Vec::new(alloc)),
        }
    }

    /// A child runs.
    pub fn enter<R: Wait>(&self, rt: &R, pumps: Pumps<N>) -> Result<(), Memory> {
        self.pumps.lock(rt).push(pumps)?;
        Ok(())
    }

    /// The pumps of a child, which runs no more. It waits until they are there.
    pub fn leave<R: Wait>(&self, rt: &R, child: u32) -> Pumps<N> {
        for _ in rt.forever() {
            let mut all = self.pumps.lock(rt);
            let found = take_from(&mut *all, child);
            drop(all);
            if let Some(pumps) = found {
                return pumps;
            }
        }
        unreachable!()
    }

    /// Has pumps post, in order: a Room where an item tells that a child may be fed, and else what becomes the item. Those of a
    /// child that doesn't run post nothing.
    pub fn post_all<R: Wait>(&self, rt: &R, alloc: Global, items: &[Item]) {
        let mut all = self.pumps.lock(rt);
        for item in items {
            post_in(rt, alloc, &mut *all, item);
        }
    }
}

fn place_of<N: InboxName>(all: &[Pumps<N>], child: u32) -> Option<usize>
    ensures { IfSome result (λ at. at < length all.now) }
{
    all.iter().position(|pumps| pumps.child == child)
}

fn take_from<N: InboxName>(all: &mut Vec<Pumps<N>>, child: u32) -> Option<Pumps<N>> {
    let at = place_of(all.as_slice(), child)?;
    Some(all.remove(at))
}

fn post_in<N: InboxName, R: Wait>(rt: &R, alloc: Global, all: &mut Vec<Pumps<N>>, item: &Item) {
    match item {
        Item::WritableChild(child) => {
            if let Some(at) = place_of(all.as_slice(), *child) {
                post_room(rt, &mut all[at]);
            }
        }
        Item::Child { child, item } => {
            if let Some(at) = place_of(all.as_slice(), *child) {
                post_news(rt, alloc, &mut all[at], item);
            }
        }
        Item::ReadableServer(_)
        | Item::Ready { .. }
        | Item::Up(_)
        | Item::Down(_)
        | Item::Extra { .. } => {}
    }
}
