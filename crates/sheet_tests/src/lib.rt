// Tests of the loader: each limit at its edge and one past it, each refusal with its number and place.
#![tactic(auto)]

use grammar::sheet::Sheet;
use sheets::load::load;
use std::alloc::{AllocError, Global};

#[cfg(test)]
mod expecting;
#[cfg(test)]
mod limits;
#[cfg(test)]
mod refusals;
#[cfg(test)]
mod says;

// The refusal's number and place, or two zeros.
pub(crate) fn verdict(text: &[u8]) -> (u8, usize) {
    let mut sheet = Sheet::blank();
    match load(text, &mut sheet) {
        Ok(()) => (0, 0),
        Err(fault) => (fault.refusal.number(), fault.place),
    }
}

// A text of many lines, each made of two parts and its number between them.
pub(crate) fn lines(
    heap: Global,
    count: usize,
    before: &str,
    after: &str,
) -> Result<String, AllocError> {
    let mut text = String::new(heap);
    for i in 0..count {
        writeln!(text, "{before}{i}{after}")?;
    }
    Ok(text)
}
