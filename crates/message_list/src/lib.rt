// The list of one message in full: the calls of the gate, one after the other (document 01, 'One list in full').
#![tactic(auto)]

pub mod list;
