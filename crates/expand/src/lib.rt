// The call `expand`: from a dictionary's words to the words of a message type's layout.
#![tactic(auto)]

pub mod expand_call;
