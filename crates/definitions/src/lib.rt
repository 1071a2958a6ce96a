// What the words of a dictionary define: a tag's definition and values, components, messages, the defined tags.
#![tactic(auto)]

pub mod defined_tags;
pub mod definitions;
