// From the trace of an expansion to the parts of its layout, level by level.
#![tactic(auto)]

pub mod arrange;
