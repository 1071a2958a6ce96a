// The verdicts on the values of a message.
#![tactic(auto)]

pub mod verdicts_call;
