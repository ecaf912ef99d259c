//! The run of a program, its transcript, and what a check and a replay may write. Definitions alone.
#![tactic(auto)]
