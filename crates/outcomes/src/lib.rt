// What the gate's calls answer, as numbers for C and Rust.
#![tactic(auto)]

pub mod answers;
pub mod outcome;
