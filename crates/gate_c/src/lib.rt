// The seven calls of the crate `gate`, exported to C with the same clauses: one static library. include/gate.h declares them.
#![tactic(auto)]

pub mod check_values;
pub mod expand_type;
pub mod level;
pub mod read_dictionary_text;
pub mod read_layout_text;
pub mod walk_group;
pub mod walk_message;
