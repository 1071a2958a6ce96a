// Counts: the number that the value of a count field declares. Ported from walk.rs.
#![tactic(auto)]

pub mod count;
