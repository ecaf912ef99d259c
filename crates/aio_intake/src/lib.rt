//! The children of a hub that are over are taken in: their lanes are given up, their pumps' reports are had, and their
//! seats may be lent again where all four posters came home.
#![tactic(auto)]

mod homing;
mod taking;

pub use taking::take_in;
