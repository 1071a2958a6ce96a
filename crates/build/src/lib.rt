// The expansion of a message type: header and trailer, then the message's body.
#![tactic(auto)]

pub mod build;
