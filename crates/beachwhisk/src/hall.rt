// The calls at a hall. Each loads the sheet from its text first: its refusals come before all others.
// Calls that differ only in the call they make stay apart: each is a name and a list of parameters for C.
ghost use Rattle.std.specs.Prelude.{◌≡◌, ℕ, Result};
ghost use Rattle.faults.specs.Faults.{Told};
ghost use Rattle.beachwhisk.specs.Told.{answer_of};
ghost use Rattle.beachwhisk.specs.Calls.{Load, Open, Clear, Say, Back, Hear, Offer, CountHeld};

use crate::answer::Answer;
use seats::calls::{back, clear, held, offer, open, say};
use seats::hearing::hear_message;
use sheets::load::sheet_of;

// How many words the sheet has.
#[unsafe(no_mangle)]
pub extern "C" fn beachwhisk_load(text: &[u8]) -> Answer
    ensures { (a : Result ℕ Told) × (result ≡ answer_of a) × Load text.now a }
{
    sheet_of(text)
        .map(|sheet| u64::from(sheet.word_count()))
        .into()
}

// Empties all four seats. A call that writes to the hall stands in a match: of what a closure writes there a proof learns nothing.
#[unsafe(no_mangle)]
pub extern "C" fn beachwhisk_open(text: &[u8], hall: &mut [u64]) -> Answer
    ensures { (a : Result ℕ Told) × (result ≡ answer_of a) × Open text.now hall.old a hall.new }
{
    match sheet_of(text) {
        Ok(sheet) => open(&sheet, hall).into(),
        Err(fault) => fault.into(),
    }
}

// Empties one seat.
#[unsafe(no_mangle)]
pub extern "C" fn beachwhisk_clear(text: &[u8], hall: &mut [u64], seat: usize) -> Answer
    ensures { (a : Result ℕ Told) × (result ≡ answer_of a) × Clear text.now seat hall.old a hall.new }
{
    match sheet_of(text) {
        Ok(sheet) => clear(&sheet, hall, seat).into(),
        Err(fault) => fault.into(),
    }
}

// Adds a word at the end of those that stand.
#[unsafe(no_mangle)]
pub extern "C" fn beachwhisk_say(text: &[u8], hall: &mut [u64], seat: usize, word: u8) -> Answer
    ensures { (a : Result ℕ Told) × (result ≡ answer_of a) × Say text.now seat word hall.old a hall.new }
{
    match sheet_of(text) {
        Ok(sheet) => say(&sheet, hall, seat, word).into(),
        Err(fault) => fault.into(),
    }
}

// Takes the last word off.
#[unsafe(no_mangle)]
pub extern "C" fn beachwhisk_back(text: &[u8], hall: &mut [u64], seat: usize) -> Answer
    ensures { (a : Result ℕ Told) × (result ≡ answer_of a) × Back text.now seat hall.old a hall.new }
{
    match sheet_of(text) {
        Ok(sheet) => back(&sheet, hall, seat).into(),
        Err(fault) => fault.into(),
    }
}

// Hears a message through the server's pile: filler over alias over text.
#[unsafe(no_mangle)]
pub extern "C" fn beachwhisk_hear(
    text: &[u8],
    hall: &mut [u64],
    seat: usize,
    message: &[u8],
) -> Answer
    ensures { (a : Result ℕ Told) × (result ≡ answer_of a) × Hear text.now seat message.now hall.old a hall.new }
{
    match sheet_of(text) {
        Ok(sheet) => hear_message(&sheet, hall, seat, message).into(),
        Err(fault) => fault.into(),
    }
}

// The words with which some command goes on, a bit for each.
#[unsafe(no_mangle)]
pub extern "C" fn beachwhisk_offer(text: &[u8], hall: &[u64], seat: usize) -> Answer
    ensures { (a : Result ℕ Told) × (result ≡ answer_of a) × Offer text.now seat hall.now a }
{
    sheet_of(text)
        .and_then(|sheet| offer(&sheet, hall, seat))
        .into()
}

// How many bits of the seat's table are set.
#[unsafe(no_mangle)]
pub extern "C" fn beachwhisk_held(text: &[u8], hall: &[u64], seat: usize) -> Answer
    ensures { (a : Result ℕ Told) × (result ≡ answer_of a) × CountHeld text.now seat hall.now a }
{
    sheet_of(text)
        .and_then(|sheet| held(&sheet, hall, seat))
        .into()
}
