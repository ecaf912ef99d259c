//! Worked cases of an inbox, and of lanes and pumps over it, some on threads of their own.
#![tactic(auto)]

mod carry;
mod cases;
mod exchange;
mod full;
mod log;
mod meeting;
mod narrow;
mod posting;
mod pump_row;
mod pump_rows;
mod pumped;
mod putting;
mod seats;
mod shown;

pub use cases::{carry_pieces, carry_posts, run_inbox, run_pumps};
