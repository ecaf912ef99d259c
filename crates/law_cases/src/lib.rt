//! Which handles streams append and which futures they settle, and what each request comes to, by
//! cases.
#![tactic(auto)]

pub mod callbacks;
pub mod opened;
pub mod requests;
pub mod settling;
