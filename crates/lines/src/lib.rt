// The lines of a text and the parts of a line: numbers, flags, type names, message types, values.
#![tactic(auto)]

pub mod line_parts;
pub mod lines;
pub mod text;
pub mod text_lines;
