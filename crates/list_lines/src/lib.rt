// The lines of a list: its parts, put into lent bytes.
#![tactic(auto)]

pub mod list_lines;
