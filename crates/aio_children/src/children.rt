//! All children of a run.
mod callbacks;
mod known;
mod launching;
mod reading;
mod requests;

use aio_child::Child;
use std::marker::Model;

/// Children by number, in order of launching.
#[derive(Drop)]
pub struct Children {
    children: Vec<Child>,
    // how many can be numbered
    most: u32,
}

impl Model for Children {
    ghost use Rattle.aio_children.specs.Kept.{Kept};
    ghost use Rattle.aio_children.specs.Code.{coded_kept};

    ghost Value = { Kept };

    ghost coded = { coded_kept };

    ghost view = { λ k. record { children = k.children.items; most = k.most } };
}
