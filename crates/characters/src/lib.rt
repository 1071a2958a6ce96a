// Characters of values, counted as after the Rust's String::from_utf8_lossy.
#![tactic(auto)]

pub mod characters;
