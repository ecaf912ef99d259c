//! What stands for itself in an expression.
use std::rc::{RcSlice, RcStr};

/// A literal, `True`, `False` or `None`.
#[derive(Drop)]
pub enum Constant {
    Nothing,
    Bool(bool),
    /// A number that a script spells has no sign: its unary `-` is an operation.
    Int(i64),
    Text(RcStr),
    Bytes(RcSlice<u8>),
}
