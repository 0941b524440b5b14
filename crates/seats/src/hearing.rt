// Hears a source or a message at a seat: clear, then say for each word, until the ending or a word not added.
ghost use Rattle.std.specs.Prelude.{◌≡◌, ℕ, List, length};
ghost use Rattle.faults.specs.Faults.{told, telling, met};
ghost use Rattle.seats.specs.Seats.{Seat};
ghost use Rattle.seats.specs.Standing.{hear_at};
ghost use Rattle.seats.specs.Answers.{HeardOut};
ghost use Rattle.seats.specs.Calls.{Anew, Keeps, MessageHeard};

use crate::calls::find;
use crate::seat::{add, vacate};
use faults::Fault;
use grammar::sheet::Sheet;
use sources::alias::Alias;
use sources::filler::Filler;
use sources::pile::pile;
use sources::source::Source;
use sources::text::Text;

// The same refusal, told of another place.
fn moved(fault: Fault, place: usize) -> Fault
    ensures { told result ≡ met fault.refusal place fault.layer }
{
    Fault::new(fault.refusal, place, fault.layer)
}

// Hears at the seat's own numbers, whatever they were.
fn listen<S: Source>(sheet: &Sheet, seat: &mut [u64; 945], source: &mut S) -> Result<usize, Fault>
    ensures { (vs : List ℕ) × HeardOut sheet.now (S.meaning source.old) (telling result) vs (S.meaning source.new) × Seat sheet.now vs seat.new }
{
    vacate(sheet, seat);
    let mut n = 0;
    while let Some(heard) = source.next()? {
        n = add(sheet, seat, heard.word).map_err(|fault| moved(fault, heard.place))?;
    }
    Ok(n)
}

// A source's own fault ends it, and the words before it stand.
pub fn hear<S: Source>(
    sheet: &Sheet,
    hall: &mut [u64],
    seat: usize,
    source: &mut S,
) -> Result<usize, Fault>
    ensures made { Anew sheet.now seat (hear_at seat (S.meaning source.old)) hall.old (telling result) hall.new (hear_at seat (S.meaning source.new)) }
    ensures kept { Keeps sheet.now (hear_at seat (S.meaning source.old)) hall.old hall.new }
{
    find(hall, seat)?;
    let (_, rest) = hall.split_at_mut(945 * seat);
    listen(sheet, rest.first_chunk_mut().unwrap(), source)
}

// Hears a message through the server's pile; one that is too long has no source, and nothing is cleared.
pub fn hear_message<'a>(
    sheet: &'a Sheet,
    hall: &mut [u64],
    seat: usize,
    message: &'a [u8],
) -> Result<usize, Fault>
    ensures { MessageHeard sheet.now seat message.now hall.old (telling result) hall.new }
{
    let mut source = pile(sheet, message)?;
    hear(sheet, hall, seat, &mut source)
}
