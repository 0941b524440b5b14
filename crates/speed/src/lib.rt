// Rounds of calls for the benchmark, over memory that the caller owns. A refusal is answered by the largest number:
// C takes one number. Rounds that differ only in the scale are two exports, each a name and a list of parameters for C.
#![tactic(auto)]

use faults::Fault;
use grammar::sheet::Sheet;
use reader::read::read;
use readings::read::Reading;
use readings::scale::{Points, Scale, Worst};
use seats::calls::{open, say};
use seats::hearing::hear_message;
use sheets::load::sheet_of;

fn answered(res: Result<usize, Fault>) -> u64 {
    res.map_or(u64::MAX, |count| count as u64)
}

// Loads the sheet many times over; how many words it has.
#[unsafe(no_mangle)]
pub extern "C" fn load_rounds(text: &[u8], rounds: u32) -> u64 {
    let mut words = 0;
    for _ in 0..rounds {
        let Ok(sheet) = sheet_of(text) else {
            return u64::MAX;
        };
        words = u64::from(sheet.word_count());
    }
    words
}

// Says a word where `standing` words are to stand, whatever came after them.
fn say_at(sheet: &Sheet, hall: &mut [u64], standing: u64, word: u8) -> u64 {
    if let Some(count) = hall.first_mut() {
        *count = standing;
    }
    answered(say(sheet, hall, 0, word))
}

// Says the words at the first seat, and then the last of them many times over in its place; how many stand.
#[unsafe(no_mangle)]
pub extern "C" fn say_rounds(text: &[u8], words: &[u8], hall: &mut [u64], rounds: u32) -> u64 {
    let Ok(sheet) = sheet_of(text) else {
        return u64::MAX;
    };
    if open(&sheet, hall).is_err() {
        return u64::MAX;
    }
    let mut standing = 0;
    let mut before = 0;
    let mut last = 0;
    for word in words {
        before = standing;
        last = *word;
        standing = say_at(&sheet, hall, before, last);
    }
    for _ in 0..rounds {
        standing = say_at(&sheet, hall, before, last);
    }
    standing
}

// Hears a message many times over; how many words stand.
#[unsafe(no_mangle)]
pub extern "C" fn hear_rounds(text: &[u8], message: &[u8], hall: &mut [u64], rounds: u32) -> u64 {
    let Ok(sheet) = sheet_of(text) else {
        return u64::MAX;
    };
    let mut standing = 0;
    for _ in 0..rounds {
        standing = answered(hear_message(&sheet, hall, 0, message));
    }
    standing
}

// The form's length and the price as one number.
fn packed<P: Into<u32>>(reading: Reading<P>) -> u64 {
    (reading.length as u64 % 65536) << 32 | u64::from(reading.price.into())
}

// Hears a message many times over and reads it on a scale; the form's length and the price.
fn read_rounds<C: Scale>(
    text: &[u8],
    message: &[u8],
    hall: &mut [u64],
    list: &mut [u8],
    prices: &mut [C::Price],
    numbers: &mut [u32],
    rounds: u32,
) -> u64
where
    C::Price: Into<u32>,
{
    let Ok(sheet) = sheet_of(text) else {
        return u64::MAX;
    };
    let mut answer = 0;
    for _ in 0..rounds {
        let _ = hear_message(&sheet, hall, 0, message);
        answer = read::<C>(&sheet, hall, 0, list, prices, numbers).map_or(u64::MAX, packed);
    }
    answer
}

// Reads on points.
#[unsafe(no_mangle)]
pub extern "C" fn points_rounds(
    text: &[u8],
    message: &[u8],
    hall: &mut [u64],
    list: &mut [u8],
    prices: &mut [u32],
    numbers: &mut [u32],
    rounds: u32,
) -> u64 {
    read_rounds::<Points>(text, message, hall, list, prices, numbers, rounds)
}

// Reads on worst.
#[unsafe(no_mangle)]
pub extern "C" fn worst_rounds(
    text: &[u8],
    message: &[u8],
    hall: &mut [u64],
    list: &mut [u8],
    prices: &mut [u16],
    numbers: &mut [u32],
    rounds: u32,
) -> u64 {
    read_rounds::<Worst>(text, message, hall, list, prices, numbers, rounds)
}
