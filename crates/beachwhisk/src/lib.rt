// The calls of a server that is not written in Rattle: include/beachwhisk.h says the same to C.
// A sheet crosses as its text, and each call loads it, so no memory is ever taken for a sheet.
#![tactic(auto)]

pub mod answer;
pub mod hall;
pub mod reading;
pub mod theorems;
