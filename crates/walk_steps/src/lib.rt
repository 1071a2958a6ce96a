// What a group walk decides at one field, the events that it writes at one place, and the numbers of groups in layout words.
#![tactic(auto)]

pub mod group_events;
pub mod group_steps;
pub mod layout_input;
