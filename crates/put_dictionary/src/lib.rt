// The words of a dictionary, written: the record of a line, the index of a kind.
#![tactic(auto)]

pub mod index_words;
pub mod record_words;
