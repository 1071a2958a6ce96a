// Whether lent words are a layout.
#![tactic(auto)]

pub mod layout_check;
