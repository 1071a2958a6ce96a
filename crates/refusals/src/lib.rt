// The refusals of every call: document 01's table, with the number and the place of each.
#![tactic(auto)]

pub mod refusal;
