//! The words behind the program's name, and the command that they ask for. Definitions alone.
#![tactic(auto)]
