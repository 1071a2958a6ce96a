// The order of the lines of a dictionary text: what one line does to the state of the reading.
#![tactic(auto)]

pub mod dictionary_order;
