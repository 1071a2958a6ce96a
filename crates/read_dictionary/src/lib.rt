// Reading a dictionary text into the words of a dictionary.
#![tactic(auto)]

pub mod read_dictionary;
pub mod text_check;
