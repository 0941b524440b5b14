// The calls at a hall of four seats, but for hearing a source.
// Each splits its seat off by itself: a seat that a function returned would not be followed back to the hall.
// Sheet, hall and seat stay three: a hall is lent for change or for a look, and a server hands over each by itself.
ghost use Rattle.std.specs.Prelude.{◌≡◌, [], ◌∷◌, length};
ghost use Rattle.faults.specs.Faults.{telling};
ghost use Rattle.seats.specs.Standing.{Kept, open_all, clear_at, say_at, back_at};
ghost use Rattle.seats.specs.Calls.{Seated, Barred, Opened, Changed, Anew, Keeps, Looked, Held, Offers};

use crate::seat::{add, count_held, is_whole, offers, refused, take_off, vacate};
use faults::{Fault, Refusal};
use grammar::sheet::Sheet;

// Refuses a hall of another length, and a seat that is none of its four.
pub(crate) fn find(hall: &[u64], seat: usize) -> Result<(), Fault>
    ensures { Seated hall.now seat result }
{
    if hall.len() == 3780 && seat < 4 {
        Ok(())
    } else {
        Err(refused(Refusal::NoSuchSeat, 0))
    }
}

// The record of a seat, or why a call that looks at it is refused.
pub fn record<'a>(sheet: &Sheet, hall: &'a [u64], seat: usize) -> Result<&'a [u64; 945], Fault>
    ensures { Barred sheet.now hall.now seat result }
{
    find(hall, seat)?;
    let own = hall[945 * seat..].first_chunk().unwrap();
    if is_whole(sheet, own) {
        Ok(own)
    } else {
        Err(refused(Refusal::BrokenRecord, 0))
    }
}

// Empties all four seats, whatever they held.
pub fn open(sheet: &Sheet, hall: &mut [u64]) -> Result<usize, Fault>
    ensures opened { Opened sheet.now hall.old (telling result) hall.new }
    ensures first { length hall.old ≡ 3780 → Kept sheet.now (open_all ∷ []) hall.new }
    ensures kept { Keeps sheet.now open_all hall.old hall.new }
{
    find(hall, 0)?;
    // By number: nothing is said of what a hall ends as after `chunks_exact_mut` or `as_chunks_mut`.
    for k in 0..4 {
        let (_, rest) = hall.split_at_mut(945 * k);
        vacate(sheet, rest.first_chunk_mut().unwrap());
    }
    Ok(0)
}

// Empties one seat, whatever it held.
pub fn clear(sheet: &Sheet, hall: &mut [u64], seat: usize) -> Result<usize, Fault>
    ensures made { Anew sheet.now seat (clear_at seat) hall.old (telling result) hall.new (clear_at seat) }
    ensures kept { Keeps sheet.now (clear_at seat) hall.old hall.new }
{
    find(hall, seat)?;
    let (_, cleared) = hall.split_at_mut(945 * seat);
    vacate(sheet, cleared.first_chunk_mut().unwrap());
    Ok(0)
}

// Adds a word at the end of those that stand.
pub fn say(sheet: &Sheet, hall: &mut [u64], seat: usize, word: u8) -> Result<usize, Fault>
    ensures made { Changed sheet.now seat (say_at seat word) hall.old (telling result) hall.new }
    ensures kept { Keeps sheet.now (say_at seat word) hall.old hall.new }
{
    record(sheet, hall, seat)?;
    let (_, rest) = hall.split_at_mut(945 * seat);
    add(sheet, rest.first_chunk_mut().unwrap(), word)
}

// Takes the last word off.
pub fn back(sheet: &Sheet, hall: &mut [u64], seat: usize) -> Result<usize, Fault>
    ensures made { Changed sheet.now seat (back_at seat) hall.old (telling result) hall.new }
    ensures kept { Keeps sheet.now (back_at seat) hall.old hall.new }
{
    record(sheet, hall, seat)?;
    let (_, rest) = hall.split_at_mut(945 * seat);
    take_off(sheet, rest.first_chunk_mut().unwrap())
}

// The words with which some command goes on from those that stand, a bit for each.
pub fn offer(sheet: &Sheet, hall: &[u64], seat: usize) -> Result<u64, Fault>
    ensures { Looked sheet.now seat hall.now (telling result) (Offers sheet.now) }
{
    Ok(offers(sheet, record(sheet, hall, seat)?))
}

// How many bits of the seat's table are set.
pub fn held(sheet: &Sheet, hall: &[u64], seat: usize) -> Result<usize, Fault>
    ensures { Looked sheet.now seat hall.now (telling result) (Held hall.now seat) }
{
    Ok(count_held(record(sheet, hall, seat)?))
}
