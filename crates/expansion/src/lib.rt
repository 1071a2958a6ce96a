// What an expansion adds, a step at a time: the Rust's `ScopeBuilder` and `Level`.
#![tactic(auto)]

pub mod builder;
pub mod required;
pub mod step;
