//! The parts of the event loop: pending handles, timers, futures, tasks, cancel requests, timeouts and task groups.
//! Definitions alone.
#![tactic(auto)]
