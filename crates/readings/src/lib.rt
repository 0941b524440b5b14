// Scales of prices, and the cheapest reading of words on a sheet.
#![tactic(auto)]

mod cells;
mod columns;
mod cut;
mod ends;
mod fill;
mod ground;
mod offers;
mod options;
pub mod read;
pub mod scale;
mod spot;
mod walk;
