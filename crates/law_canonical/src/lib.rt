//! Laws of whole texts: lines that spell statements are read as these, they nest, and the canonical
//! text of a program spells it.
#![tactic(auto)]

pub mod nesting;
pub mod programs;
pub mod spelling;
