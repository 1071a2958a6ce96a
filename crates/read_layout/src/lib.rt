// Reading a hand-made layout text into lent words.
#![tactic(auto)]

pub mod read_layout;
