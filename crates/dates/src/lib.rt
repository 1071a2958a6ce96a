// Dates and times of FIX fields. Ported from schema.rs.
#![tactic(auto)]

pub mod date;
