// What the console writes, by definition.
#![tactic(auto)]

mod answer;
mod fault;
pub mod reply;
pub mod run;
