//! What the loop does as rows of small changes; numbers are given once, and the ledger's balance is
//! kept.
#![tactic(auto)]

pub mod ledgers;
pub mod numbers;
pub mod rows;
