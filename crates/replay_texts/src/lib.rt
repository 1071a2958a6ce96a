// Recorded values, counts and texts: the cases of the calls that write no words.
#![tactic(auto)]

pub mod count_cases;
pub mod recorded_text;
#[cfg(test)]
mod tests;
pub mod text_cases;
pub mod value_cases;
