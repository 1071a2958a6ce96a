// The parts of a layout, gathered from the lines of its text.
#![tactic(auto)]

pub mod layout_parts;
