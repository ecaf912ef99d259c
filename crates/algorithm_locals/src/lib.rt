#![tactic(auto)]

mod numbers;

pub use numbers::numbers_say_what_names_say;
