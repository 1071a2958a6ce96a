// One level of an expansion: read from its trace, its groups put in order.
#![tactic(auto)]

pub mod arrange_groups;
pub mod arrange_level;
