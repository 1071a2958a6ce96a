// A line of a dictionary text as a record of ten words, and how long its text is.
#![tactic(auto)]

pub mod line_texts;
pub mod record_kind;
pub mod records;
