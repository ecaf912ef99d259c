//! What a call of listeners, connections and children in code is for the machine: the kernel's body
//! goes on standing for its state.
#![tactic(auto)]

pub mod bodies;
pub mod events;
pub mod futures;
pub mod machine;
pub mod parts;
pub mod serving;
