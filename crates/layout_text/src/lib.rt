// Hand-made layout texts: the order of their lines, and the layout that a text tells.
#![tactic(auto)]

pub mod layout_text;
pub mod level_line;
