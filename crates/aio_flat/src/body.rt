//! Code of bodies: the operations and ranges of `algorithm_flat`, over types that own what they
//! name. Variables go by their numbers.
ghost use Rattle.std.specs.Prelude.{◌≡◌};

use aio_expr::{FlatExpr, FlatExprList, Local};
use std::marker::Model;

/// An operation of flat code.
pub type Op = algorithm_flat::Op<Local, FlatExpr, FlatExprList>;

/// An `except` clause.
pub type Clause = algorithm_flat::Clause<Local>;

/// What handles the ways out of a `try` or a `with`.
pub type Range = algorithm_flat::Range<ClauseList>;

/// Clauses in order. Contracts see them as a list.
#[derive(Drop)]
pub struct ClauseList {
    items: Vec<Clause>,
}

impl Model for ClauseList {
    ghost use Rattle.std.specs.Prelude.{List};
    ghost use Rattle.algorithm_flat.specs.Ops as plain;

    ghost Value = { List plain.Clause };

    ghost view = { λ a. a.items.items };
}

impl ClauseList {
    /// The clauses of a vector; nothing is copied.
    pub fn of(items: Vec<Clause>) -> ClauseList
        ensures { result ≡ items.items }
    {
        ClauseList { items }
    }

    /// The clauses in order.
    pub fn items(&self) -> &[Clause]
        ensures { result.now ≡ self.now }
    {
        self.items.as_slice()
    }
}
