//! How an expression is read from left to right, with a stack of open brackets, and that this gives
//! what cutting at operators gives.
#![tactic(auto)]

mod reading;

pub use reading::{
    arguments_are_read_between_commas, expressions_are_read_from_left_to_right,
    items_are_read_between_commas, operands_fit_where_they_are_not_too_high,
};
