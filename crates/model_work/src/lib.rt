//! The work that a number makes: a script and the journal that it runs over. Definitions alone.
#![tactic(auto)]
