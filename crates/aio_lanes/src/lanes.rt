//! The lanes of all children.
ghost use Rattle.std.specs.Prelude.{◌≡◌, ◌<◌, [], Some, None, length, slice_set, OnOk};
ghost use Rattle.aio_lanes.specs.Given.{lanes_at, HaveSameLanes};

use crate::child_lanes::ChildLanes;
use aio_base::Memory;
use aio_serving::{Command, Heads};
use model_hub::{Giving, Pump};
use std::alloc::Global;
use std::marker::Model;
use std::sync::Wait;

/// The lanes and the run of each child, by the children's numbers, as long as it runs. Contracts see
/// them as a list.
#[derive(Drop)]
pub struct Lanes<Run> {
    children: Vec<Option<ChildLanes<Run>>>,
}

impl<Run> Model for Lanes<Run> {
    ghost use Rattle.std.specs.Prelude.{List, Option};
    ghost use Rattle.aio_lanes.specs.declared.child_lanes.ChildLanes.{ChildLanes};

    ghost Value = { List (Option (ChildLanes Run)) };

    ghost view = { λ lanes. lanes.children.items };
}

impl<Run: Drop> Lanes<Run> {
    /// Of no child.
    pub fn new(alloc: Global) -> Lanes<Run>
        ensures { result ≡ [] }
    {
        Lanes {
            children: Vec::new(alloc),
        }
    }

    /// Makes a place for the lanes of the child with this number. What the others have stays.
    pub fn place(&mut self, number: u32) -> Result<(), Memory>
        ensures placed { OnOk result (number < length self.new) }
        ensures same { HaveSameLanes self.old self.new }
    {
        while self.children.len() <= number as usize {
            self.children.push(None)?;
        }
        Ok(())
    }

    /// The lanes and the run of the child with this number, which has a place.
    pub fn put(&mut self, number: u32, lanes: ChildLanes<Run>)
        requires { number < length self.old }
        ensures { self.new ≡ slice_set self.old number (Some lanes) }
    {
        self.children[number as usize] = Some(lanes);
    }

    /// Gives up the lanes of a child, and gives back its run.
    pub fn remove(&mut self, number: u32) -> Option<ChildLanes<Run>>
        ensures was { result ≡ lanes_at self.old number }
        ensures left { self.new ≡ slice_set self.old number None }
    {
        match self.children.get_mut(number as usize) {
            Some(lanes) => lanes.take(),
            None => None,
        }
    }
}

impl<Run> Heads for Lanes<Run> {
    ghost use Rattle.aio_lanes.specs.Given.{seen_of};

    ghost seen = { λ lanes. seen_of lanes };

    fn give<R: Wait>(&mut self, rt: &R, child: u32, pump: Pump, command: Command) -> Giving {
        let Some(slot) = self.children.get_mut(child as usize) else {
            unreachable!();
        };
        let Some(lanes) = slot else {
            unreachable!();
        };
        lanes.give(rt, pump, command)
    }
}
