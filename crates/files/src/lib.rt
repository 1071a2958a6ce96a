// Files, read whole into lent space.
#![tactic(auto)]

pub mod file;
