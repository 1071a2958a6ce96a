// Whole and decimal numbers, and days of a month. Ported from schema.rs.
#![tactic(auto)]

pub mod number;
