// Lists from files: a dictionary text and a message text are read, and the list that the gate makes
// of them is printed (document 01, 'One list in full').
#![tactic(auto)]

pub mod print;
