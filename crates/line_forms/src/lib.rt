// The forms of the lines of dictionary and layout texts.
#![tactic(auto)]

pub mod line;
