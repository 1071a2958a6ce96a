// The seven rules of a layout text: the first group that breaks one, and which.
#![tactic(auto)]

pub mod layout_rules;
pub mod stack;
