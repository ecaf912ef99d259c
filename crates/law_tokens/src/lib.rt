//! Laws of the tokens of a line: what the definition computes is what is told
//! without a way to find it.
#![tactic(auto)]

mod laws;

pub use laws::{
    a_line_has_one_cut, accepted_lines_are_tokens, refusals_are_first_faults,
    spans_give_the_line_back, values_are_in_range,
};
