// The text of a command sheet.
#![tactic(auto)]

mod adding;
mod drafts;
mod fields;
mod lines;
pub mod load;
mod refusals;
mod rules;
mod spellings;
pub mod theorems;
mod weights;
