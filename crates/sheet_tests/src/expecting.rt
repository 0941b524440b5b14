// What each test expects of a text: its refusal, or none.
use super::verdict;
use std::process::Abort;

pub(crate) fn expect(rt: &impl Abort, text: &[u8], number: u8, place: usize) {
    assert_eq!(rt; verdict(text), (number, place));
}
