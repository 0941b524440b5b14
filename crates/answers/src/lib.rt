// The lines of the console: what it reads and writes, as bytes.
#![tactic(auto)]

pub mod input;
pub mod lines;
pub mod theorems;
