// Layouts of message types: the repeating groups of a message with the tags of each level, as lent words.
#![tactic(auto)]

pub mod layout_words;
pub mod put_layout;
