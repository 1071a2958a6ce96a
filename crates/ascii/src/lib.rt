// Bytes of values: digits, letters, and a search for a separator. Ported from schema.rs.
#![tactic(auto)]

pub mod digits;
pub mod letters;
pub mod split;
