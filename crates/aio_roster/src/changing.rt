//! How the children of a roster change: one is replaced, launched or taken in.
ghost use Rattle.std.specs.Prelude.{◌≡◌, ◌∷◌, ◌++◌, [], ◌<◌, ◌≤◌, ◌-◌, ◌^◌, true, false, length, slice_set, OnOk};
ghost use Rattle.std.specs.List.{remove};
ghost use Rattle.model_hub.specs.declared.child.Seats.{Seats};
ghost use Rattle.model_hub.specs.Children.{new_child, runs};
ghost use Rattle.aio_roster.specs.Rosters.{Numbered, running_of};
ghost use Rattle.aio_roster.specs.Changes.{IsKth, IsFound, Replaces, MayBeLent, AreSeats, AreApart, LeavesFree, GivesBack, lend_to, RosterLeaves};

use crate::roster::Roster;
use aio_base::Memory;
use model_hub::{Child, Closing, Flow, Seats, Stay};

impl Roster {
    /// How many children run.
    pub fn count_running(&self) -> usize
        ensures count { result ≡ length (running_of self.now.children) }
        ensures numbered { Numbered self.now.children }
    {
        self.running.len()
    }

    /// The child with the k-th of the numbers of those that run.
    pub fn running_child(&self, k: usize) -> Child
        requires { k < length (running_of self.now.children) }
        ensures { IsKth k self.now result }
    {
        let number = self.running[k];
        let child = self.children[number as usize];
        child
    }

    /// The child with this number, where it was launched.
    pub fn child(&self, number: u32) -> Option<Child>
        ensures found { IsFound number self.now result }
        ensures numbered { Numbered self.now.children }
    {
        match self.children.get(number as usize) {
            Some(child) => Some(*child),
            None => None,
        }
    }

    /// Takes this in place of the child with its number.
    pub fn replace(&mut self, child: Child)
        requires { Replaces child self.old }
        ensures children { self.new.children ≡ slice_set self.old.children child.number child }
        ensures numbered { Numbered self.new.children }
        ensures lent { LeavesFree self.old.children self.new.children }
        ensures noted { self.new.noted ≡ self.old.noted }
    {
        self.children[child.number as usize] = child;
    }

    /// How many children were launched.
    pub fn count(&self) -> usize
        ensures count { result ≡ length self.now.children }
        ensures few { result ≤ 2 ^ 32 - 1 }
    {
        self.children.len()
    }

    /// Makes room for a child more.
    pub fn reserve(&mut self) -> Result<(), Memory>
        ensures room { OnOk result (self.new.room ≡ true) }
        ensures children { self.new.children ≡ self.old.children }
        ensures noted { self.new.noted ≡ self.old.noted }
    {
        self.children.reserve(1)?;
        self.running.reserve(1)?;
        Ok(())
    }

    /// Adds a child that runs, and lends these seats to it. Room was made for it.
    pub fn admit(&mut self, seats: Seats)
        requires room { self.old.room ≡ true }
        requires few { length self.old.children < 2 ^ 32 - 1 }
        requires lent { MayBeLent self.old.children seats }
        ensures added { self.new.children
            ≡ self.old.children ++ new_child (length self.old.children) seats ∷ [] }
        ensures lent { (other : Seats) → AreApart other seats → MayBeLent self.old.children other
            → MayBeLent self.new.children other }
        ensures numbered_now { Numbered self.new.children }
        ensures noted { self.new.noted ≡ self.old.noted }
    {
        let number = self.children.len() as u32;
        self.running.push_reserved(number);
        self.children.push_reserved(new_child(number, seats));
        lend(&mut self.holders, number, &seats);
    }

    /// The child with the k-th of the numbers of those that run does so no longer, but holds its seats
    /// or is gone.
    pub fn leave(&mut self, k: usize, stay: Stay)
        requires running { k < length (running_of self.old.children) }
        requires over { runs stay ≡ false }
        ensures left { RosterLeaves k stay self.old.children self.new.children }
        ensures lent { LeavesFree self.old.children self.new.children }
        ensures back { GivesBack k stay self.old.children self.new.children }
        ensures noted { self.new.noted ≡ self.old.noted }
    {
        let number = self.running.remove(k);
        let mut child = self.children[number as usize];
        child.stay = stay;
        self.children[number as usize] = child;
    }
}

// A child that was just launched.
fn new_child(number: u32, seats: Seats) -> Child
    ensures { result ≡ new_child number seats }
{
    let flow = Flow {
        gos: 0,
        pieces: 0,
        ended: false,
        owes: false,
    };
    Child {
        number,
        seats,
        stay: Stay::Running,
        out: flow,
        errs: flow,
        writes: 0,
        rooms: 0,
        broken: false,
        closing: Closing::Open,
        exited: false,
    }
}

// Names a child for each of its four seats.
fn lend(holders: &mut Vec<Option<u32>>, number: u32, seats: &Seats)
    requires { AreSeats (length holders.old.items) seats.now }
    ensures { holders.new.items ≡ lend_to number seats.now holders.old.items }
{
    holders[seats.stdin as usize] = Some(number);
    holders[seats.out as usize] = Some(number);
    holders[seats.errs as usize] = Some(number);
    holders[seats.exit as usize] = Some(number);
}
