// The dictionary text: read in order, and what its lines define.
#![tactic(auto)]

pub mod dictionary_text;
