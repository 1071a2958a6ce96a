// Recorded walks and verdicts: the cases of the calls that write words of 64 bits.
#![tactic(auto)]

pub mod calls;
pub mod message_cases;
#[cfg(test)]
mod tests;
pub mod walk_cases;
