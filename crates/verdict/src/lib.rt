// The verdict on one field.
#![tactic(auto)]

pub mod verdict;
