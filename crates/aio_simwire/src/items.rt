//! What is ready, and the items that tell it.
use crate::child::{Child, has_come};
use crate::children::Children;
use crate::outside::Outside;
use aio_base::{ChildItem, Memory};
use aio_wire::{Item, Watch};
use std::alloc::Global;

/// The most bytes that a turn brings, and that a piece of it has.
const MOST_IN_TURN: usize = 262_144;

const MOST_IN_PIECE: usize = 65_536;

/// No entry is told after so many items, since one of a child has six at most.
const MANY_ITEMS: usize = 4_090;

/// The items of a turn while it is gathered, and how many bytes it may bring besides.
#[derive(Drop)]
pub(crate) struct Gathered {
    pub items: Vec<Item>,
    pub room: usize,
}

impl Outside {
    /// When something of a watch entry is ready, as far as is known now; 0 where it is.
    pub fn ready_at(&self, entry: &Watch, now: u64) -> Option<u64> {
        match entry {
            Watch::Server(server) => self.net.listener_ready_at(*server),
            Watch::Making(conn) => self.net.made_at(*conn),
            Watch::Conn {
                conn,
                reads,
                writes,
            } => self.net.conn_ready_at(*conn, *reads, *writes, now),
            Watch::Child {
                child,
                feeds,
                stdin,
                out,
                errs,
                exit,
            } => {
                if *feeds && self.children.is_fed(*child, now) {
                    return Some(0);
                }
                let told = self.children.get(*child)?;
                child_ready_at(told, *stdin, *out, *errs, *exit)
            }
            Watch::Extra => None,
        }
    }

    /// What is ready of what is watched, or some of it, in this order or another.
    pub fn gather(
        &mut self,
        alloc: Global,
        now: u64,
        watch: &[Watch],
    ) -> Result<Vec<Item>, Memory> {
        let mut gathered = Gathered {
            items: Vec::new(alloc),
            room: MOST_IN_TURN,
        };
        for entry in watch {
            if gathered.items.len() < MANY_ITEMS && !self.is_held(&gathered, entry, now) {
                self.tell(alloc, now, entry, &mut gathered)?;
            }
        }
        if gathered.items.len() > 1 && self.odds.chance.happens(self.odds.rates.shuffle) {
            self.shuffle(&mut gathered.items);
        }
        Ok(gathered.items)
    }

    /// Whether an entry isn't told in this turn: nothing of it is ready, or something else is told and this is held back.
    fn is_held(&mut self, gathered: &Gathered, entry: &Watch, now: u64) -> bool {
        if !has_come(self.ready_at(entry, now), now) {
            return true;
        }
        !gathered.items.is_empty() && self.odds.chance.happens(self.odds.rates.hold)
    }

    /// Puts the items into any order.
    fn shuffle(&mut self, items: &mut Vec<Item>) {
        let count = items.len();
        if count > MANY_ITEMS + 6 {
            return;
        }
        for at in 0..count {
            let left = count - at;
            let other = at + self.odds.chance.below(left as u32) as usize;
            if at < items.len() && other < items.len() {
                items.swap(at, other);
            }
        }
    }

    /// Adds what is ready of an entry.
    fn tell(
        &mut self,
        alloc: Global,
        now: u64,
        entry: &Watch,
        gathered: &mut Gathered,
    ) -> Result<(), Memory> {
        match entry {
            Watch::Server(server) => gathered.items.push(Item::ReadableServer(*server))?,
            Watch::Making(conn) => {
                let is_up = self.net.is_up(*conn);
                let item = if is_up {
                    Item::Up(*conn)
                } else {
                    Item::Down(*conn)
                };
                gathered.items.push(item)?;
            }
            Watch::Conn {
                conn,
                reads,
                writes,
            } => {
                if let Some(ready) = self.net.conn_ready(*conn, *reads, *writes, now) {
                    gathered.items.push(Item::Ready { conn: *conn, ready })?;
                }
            }
            Watch::Child {
                child,
                feeds,
                stdin,
                out,
                errs,
                exit,
            } => {
                if *feeds && self.children.is_fed(*child, now) {
                    gathered.items.push(Item::WritableChild(*child))?;
                }
                self.tell_child(now, *child, *stdin, *exit, gathered)?;
                if *out {
                    self.tell_out(alloc, now, *child, gathered)?;
                }
                if *errs {
                    self.tell_errs(alloc, now, *child, gathered)?;
                }
            }
            Watch::Extra => (),
        }
        Ok(())
    }

    /// Adds what is to be told of a child itself: that its standard input is broken, and its exit.
    fn tell_child(
        &mut self,
        now: u64,
        number: u32,
        stdin: bool,
        exit: bool,
        gathered: &mut Gathered,
    ) -> Result<(), Memory> {
        let Some(child) = self.children.get_mut(number) else {
            return Ok(());
        };
        if stdin && child.tell_broken(now) {
            gathered.items.push(news(number, ChildItem::Broken))?;
        }
        if exit {
            if let Some(code) = child.tell_exit(now) {
                gathered.items.push(news(number, ChildItem::Exit(code)))?;
            }
        }
        Ok(())
    }

    /// Adds a piece of a child's standard output, or its end.
    fn tell_out(
        &mut self,
        alloc: Global,
        now: u64,
        number: u32,
        gathered: &mut Gathered,
    ) -> Result<(), Memory> {
        let percent = self.odds.rates.cut;
        let Some(child) = self.children.get_mut(number) else {
            return Ok(());
        };
        let here = child.out.here(now).min(MOST_IN_PIECE);
        if here > 0 {
            if gathered.room < MOST_IN_PIECE {
                return Ok(());
            }
            let count = self.odds.part(here, percent).min(child.out.unheard());
            gathered.room = gathered.room.saturating_sub(count);
            let piece = child.out.hear(alloc, count)?;
            gathered.items.push(news(number, ChildItem::Out(piece)))?;
        } else if child.tell_out_end(now) {
            gathered.items.push(news(number, ChildItem::OutEnd))?;
        }
        Ok(())
    }

    /// Adds a piece of a child's standard error, or its end.
    fn tell_errs(
        &mut self,
        alloc: Global,
        now: u64,
        number: u32,
        gathered: &mut Gathered,
    ) -> Result<(), Memory> {
        let percent = self.odds.rates.cut;
        let Some(child) = self.children.get_mut(number) else {
            return Ok(());
        };
        let here = child.errs.here(now).min(MOST_IN_PIECE);
        if here > 0 {
            if gathered.room < MOST_IN_PIECE {
                return Ok(());
            }
            let count = self.odds.part(here, percent).min(child.errs.unheard());
            gathered.room = gathered.room.saturating_sub(count);
            let piece = child.errs.hear(alloc, count)?;
            gathered.items.push(news(number, ChildItem::Errs(piece)))?;
        } else if child.tell_errs_end(now) {
            gathered.items.push(news(number, ChildItem::ErrsEnd))?;
        }
        Ok(())
    }
}

/// When something of a child is ready that is no want of food.
fn child_ready_at(child: &Child, stdin: bool, out: bool, errs: bool, exit: bool) -> Option<u64> {
    let mut first = None;
    if stdin {
        first = soonest(first, child.breaks_at());
    }
    if out {
        first = soonest(first, child.out_at());
    }
    if errs {
        first = soonest(first, child.errs_at());
    }
    if exit {
        first = soonest(first, child.exit_at());
    }
    first
}

/// News of a child.
fn news(child: u32, item: ChildItem) -> Item {
    Item::Child { child, item }
}

/// The sooner of two times, where there is one.
pub(crate) fn soonest(first: Option<u64>, second: Option<u64>) -> Option<u64> {
    match (first, second) {
        (Some(one), Some(other)) => Some(one.min(other)),
        (Some(one), None) => Some(one),
        (None, other) => other,
    }
}
