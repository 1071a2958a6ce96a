// What the recorded lists share: a list, replayed line by line, the values and numbers on its
// lines, what cases run on, and how they went.
#![tactic(auto)]

pub mod block;
pub mod cases;
pub mod given;
pub mod lines;
pub mod recorded_files;
pub mod recorded_values;
#[cfg(test)]
mod tests;
