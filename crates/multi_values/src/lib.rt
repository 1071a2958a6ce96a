// Lists of values in one field, with single spaces between them. Ported from schema.rs.
#![tactic(auto)]

pub mod multi_value;
