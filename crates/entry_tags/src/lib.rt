// The tags seen in an entry of a group, as ranks in a set: what every width does, and the two widths.
#![tactic(auto)]

pub mod entry_tags;
pub mod ranks;
