//! Expressions of flat code.

use crate::local::Local;
use aio_syntax::{ExprListOver, ExprOver};

/// An expression of flat code. Its variables go by their numbers, so that none is looked up as code
/// runs.
pub type FlatExpr = ExprOver<Local>;

/// Expressions of flat code, in order.
pub type FlatExprList = ExprListOver<Local>;
