// The bodies of a dictionary's words, added to the layout of a message type: `add_group` and `add_component`.
#![tactic(auto)]

pub mod add_body;
pub mod body_line;
