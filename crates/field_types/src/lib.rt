// The data types of FIX fields, their numbers, and the form that a value of each must have. Ported from schema.rs.
#![tactic(auto)]

pub mod field_type;
