// Values of FIX fields: which bytes a value of each data type may have. Ported from schema.rs.
#![tactic(auto)]

pub mod boolean;
pub mod field_value;
