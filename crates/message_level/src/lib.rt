// The message level: the tags seen there, and what is required there and missing. Ported from
// validator.rs.
#![tactic(auto)]

pub mod missing;
pub mod seen_tags;
