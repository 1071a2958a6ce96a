// The words of a dictionary: a record for each line of its text, and the index of what it defines;
// their check.
#![tactic(auto)]

pub mod dictionary;
pub mod dictionary_check;
pub mod line_order;
pub mod line_runs;
