// The list that `gatelist` prints, line by line (document 01, 'One list in full').
#![tactic(auto)]

pub mod list_text;
