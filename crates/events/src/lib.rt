// The events of a walk: what they are, and their words in lent space.
#![tactic(auto)]

pub mod event;
