// Recorded dictionaries, layouts and expansions: the cases of the calls that write words of 32
// bits.
#![tactic(auto)]

pub mod dictionary_cases;
pub mod dictionary_line;
pub mod expand_cases;
pub mod layout_cases;
pub mod recorded_words;
#[cfg(test)]
mod tests;
