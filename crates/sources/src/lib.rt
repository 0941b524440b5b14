// Word sources: what is heard, word by word, through layers over one another.
#![tactic(auto)]

pub mod alias;
pub mod codes;
pub mod filler;
pub mod pile;
pub mod source;
pub mod text;
