//! Laws of what coroutines say: longer tapes ask the same first, and blocks nest along a tape.
#![tactic(auto)]

pub mod blocks;
mod tapes;

pub use tapes::{
    a_loop_is_its_body_and_then_the_loop, longer_tapes_ask_the_same_first, requests_are_bounded,
    requests_take_the_inputs_in_order, what_is_over_stays_over,
};
