//! What goes on with each small thing that the machine does holds of every state of every run: the
//! walk through the whole machine, once for all. Each function has no body: its clauses are the law.
#![tactic(auto)]

pub mod walk;
