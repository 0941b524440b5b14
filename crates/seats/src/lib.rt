// The hall: four seats, the words standing at each, and their tables.
#![tactic(auto)]

pub mod calls;
pub mod hearing;
mod seat;
pub mod theorems;
