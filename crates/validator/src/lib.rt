// The walk of a message on lent words: the loop over its fields, then what is missing. Ported from validator.rs.
#![tactic(auto)]

pub mod message_call;
