// The field table of a message, and what it holds.
#![tactic(auto)]

pub mod field_table;
