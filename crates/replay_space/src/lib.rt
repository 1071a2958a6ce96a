// The space that a replayed call is lent, and the call beside its recorded answer.
#![tactic(auto)]

pub mod in_space;
pub mod space;
#[cfg(test)]
mod tests;
