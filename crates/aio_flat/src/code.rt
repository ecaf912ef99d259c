//! The code of a program.
ghost use Rattle.algorithm_flat.specs.Nearer.{JumpsForward};
ghost use Rattle.algorithm_locals.specs.Numbered.{locals};

use crate::body::{Op, Range};
use crate::name::Name;

/// The code of a coroutine.
#[derive(Drop)]
pub struct FlatBody {
    pub name: Name,
    /// How many variables it has. They are numbered from 0: the parameters, and then the others.
    pub variables: usize,
    pub ops: Vec<Op>,
    pub ranges: Vec<Range>,
    ghost forward: { JumpsForward
        (record { ops = ops.items; ranges = ranges.items; variables = locals 0 variables }) },
}

/// The code of a program: that of each coroutine, in their order.
#[derive(Drop)]
pub struct Code {
    pub bodies: Vec<FlatBody>,
}
