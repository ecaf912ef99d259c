//! The reference machine: its state, a task's step, a turn and a run. Definitions alone.
#![tactic(auto)]
