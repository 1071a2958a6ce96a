// The call `walk_group`: the walk of a group on lent words.
#![tactic(auto)]

pub mod walk_call;
