// Reading a seat, and whole runs: calls in order on one hall, and then a reading.
#![tactic(auto)]

pub mod mixed;
pub mod performing;
pub mod read;
