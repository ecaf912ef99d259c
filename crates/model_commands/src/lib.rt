//! What each command may write, and what the program promises. Definitions alone.
#![tactic(auto)]
