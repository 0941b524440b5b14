// Tests of the word sources on odd messages.
#![tactic(auto)]

use faults::Fault;
use grammar::sheet::Sheet;
use sheets::load::sheet_of;
use sources::pile::pile;
use sources::source::Source;
use std::alloc::{AllocError, Global};

#[cfg(test)]
mod messages;

// Each name and word appears in this order: hold, the, lathe, please, grab, thanks, spare.
pub const TEXT: &[u8] =
    b"rule\t0\tGo\thold\tthe\tlathe\nfiller\tplease\nalias\tgrab\thold\nalias\tthanks\tplease\nalias\tplease\tspare\n";

// A sheet with aliases and fillers; the blank one where the text were refused.
pub(crate) fn sample() -> Sheet {
    sheet_of(TEXT).unwrap_or_else(|_| Sheet::blank())
}

// How a source ends: one way more than a Result has.
#[derive(Clone, Copy, PartialEq, Eq, Debug)]
pub enum Ending {
    End,
    Fault(u8, usize, u8),
    TooMany,
}

fn faulty(fault: Fault) -> Ending {
    Ending::Fault(fault.refusal.number(), fault.place, fault.layer.number())
}

// The words and places of a source, and its ending; a message has fewer words than bytes, so a count ends the loop.
pub(crate) fn drain<S: Source + Drop>(
    heap: Global,
    mut source: S,
) -> Result<(Vec<(u8, usize)>, Ending), AllocError> {
    let mut words = Vec::new(heap);
    for _ in 0..513 {
        match source.next() {
            Ok(Some(heard)) => words.push((heard.word, heard.place))?,
            Ok(None) => return Ok((words, Ending::End)),
            Err(fault) => return Ok((words, faulty(fault))),
        }
    }
    Ok((words, Ending::TooMany))
}

// What the server hears of a message.
pub(crate) fn heard<'a>(
    heap: Global,
    sheet: &'a Sheet,
    message: &'a [u8],
) -> Result<(Vec<(u8, usize)>, Ending), AllocError> {
    match pile(sheet, message) {
        Ok(source) => drain(heap, source),
        Err(fault) => Ok((Vec::new(heap), faulty(fault))),
    }
}
