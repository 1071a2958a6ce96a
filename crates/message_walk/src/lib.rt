// The loop over the fields of a message at its own level: groups, and tags that repeat or have no place there. Ported from validator.rs.
#![tactic(auto)]

pub mod message_walk;
