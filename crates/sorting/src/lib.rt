// Sorting words in place.
#![tactic(auto)]

pub mod sort;
