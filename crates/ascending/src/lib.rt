// Ascending words: whether they are, the search in them, and each of them once.
#![tactic(auto)]

pub mod dedup;
pub mod search;
