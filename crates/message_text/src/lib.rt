// A message text, one tag=value line a field, read into a field table; the type of a message (document 01, 'One list in full').
#![tactic(auto)]

pub mod message_text;
pub mod message_type;
