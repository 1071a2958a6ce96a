// The seven calls of the gate, on numbers and lent words. The crate `gate_c` exports them to C.
#![tactic(auto)]

pub mod check_values;
pub mod expand_type;
pub mod level;
pub mod read_dictionary_text;
pub mod read_layout_text;
pub mod walk_group;
pub mod walk_message;
