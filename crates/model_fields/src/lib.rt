//! Texts that begin with a number and a space, as the outside hears and tells them. Definitions alone.
#![tactic(auto)]
