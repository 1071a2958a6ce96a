// The walk of a group, its nested groups and its entries.
#![tactic(auto)]

pub mod group_walk;
