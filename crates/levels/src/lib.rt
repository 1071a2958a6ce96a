// The levels of a layout in lent words, by the count tags that lead there, and their members.
#![tactic(auto)]

pub mod members;
