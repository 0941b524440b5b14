// One seat by its own numbers: the count, twenty words, and the table.
ghost use Rattle.std.specs.Prelude.{◌≡◌, ℕ, ◌≤◌, List, [], length, drop, Err, Decides};
ghost use Rattle.faults.specs.Faults.{Told, told, telling};
ghost use Rattle.seats.specs.Seats.{Seat, Whole};
ghost use Rattle.seats.specs.Answers.{fault, Said, Taken};
ghost use Rattle.seats.specs.Calls.{ones_of, Offers};
ghost use Rattle.seats.specs.inner.Cleared.{Cleared};

use faults::{Fault, Layer, Refusal};
use grammar::sheet::Sheet;
use items::few::holds;
use tables::{fill_column, offer};

// A fault of the seats' layer; `Fault::new` is for any.
pub(crate) fn refused(refusal: Refusal, place: usize) -> Fault
    ensures { told result ≡ fault refusal place }
{
    Fault::new(refusal, place, Layer::Seat)
}

// Whether the count is at most 20 and each counted word is on the sheet.
pub(crate) fn is_whole(sheet: &Sheet, seat: &[u64; 945]) -> bool
    ensures { Decides result (Whole sheet.now seat.now) }
{
    // A number of a record may be any of 64 bits, so it is compared as it stands.
    let words = sheet.word_count() as u64;
    seat[0] <= 20
        && seat[1..1 + seat[0] as usize]
            .iter()
            .all(|word| *word < words)
}

// No word stands, whatever stood before.
pub(crate) fn vacate(sheet: &Sheet, seat: &mut [u64; 945])
    ensures { Seat sheet.now [] seat.new }
{
    seat.fill(0);
    // Column 0 comes before the first word, so the word given is not looked at.
    fill_column(sheet, seat.last_chunk_mut().unwrap(), 0, 0);
}

// Adds a word at the end, or refuses it.
pub(crate) fn add(sheet: &Sheet, seat: &mut [u64; 945], word: u8) -> Result<usize, Fault>
    requires { Whole sheet.now seat.old }
    ensures said { (ws : List ℕ) → Seat sheet.now ws seat.old → (vs : List ℕ) × Said sheet.now ws word (telling result) vs × Seat sheet.now vs seat.new }
    ensures untouched { (f : Told) → telling result ≡ Err f → seat.new ≡ seat.old }
    ensures size { length seat.new ≡ 945 }
{
    let n = seat[0] as usize;
    if word >= sheet.word_count() {
        return Err(refused(Refusal::UnlistedWord, n));
    }
    if n == 20 {
        return Err(refused(Refusal::Full, n));
    }
    if !holds(offers(sheet, seat), word) {
        return Err(refused(Refusal::LeadsNowhere, n));
    }
    seat[n + 1] = word as u64;
    seat[0] = n as u64 + 1;
    fill_column(sheet, seat.last_chunk_mut().unwrap(), n + 1, word);
    Ok(n + 1)
}

// Clears column j of a table.
fn clear_column(table: &mut [u64; 924], j: usize)
    requires { j ≤ 20 }
    ensures { Cleared table.old table.new j }
{
    let from = 4 * (j * (j + 1) / 2);
    table[from..from + 4 * (j + 1)].fill(0);
}

// Takes the last word off, or refuses.
pub(crate) fn take_off(sheet: &Sheet, seat: &mut [u64; 945]) -> Result<usize, Fault>
    requires { Whole sheet.now seat.old }
    ensures taken { (ws : List ℕ) → Seat sheet.now ws seat.old → (vs : List ℕ) × Taken ws (telling result) vs × Seat sheet.now vs seat.new }
    ensures untouched { (f : Told) → telling result ≡ Err f → seat.new ≡ seat.old }
    ensures size { length seat.new ≡ 945 }
{
    let n = seat[0] as usize;
    if n == 0 {
        return Err(refused(Refusal::NothingToTakeBack, 0));
    }
    seat[n] = 0;
    seat[0] = n as u64 - 1;
    clear_column(seat.last_chunk_mut().unwrap(), n);
    Ok(n - 1)
}

// The words with which some command goes on, a bit for each.
pub(crate) fn offers(sheet: &Sheet, seat: &[u64; 945]) -> u64
    requires { Whole sheet.now seat.now }
    ensures { (ws : List ℕ) → Seat sheet.now ws seat.now → Offers sheet.now ws result }
{
    offer(sheet, seat.last_chunk().unwrap(), seat[0] as usize)
}

// How many bits of the table are set.
pub(crate) fn count_held(seat: &[u64; 945]) -> usize
    ensures { result ≡ ones_of (drop 21 seat.now) }
{
    // A loop: of `map` and `sum` over the slice, the bound of the sum was not proved.
    let mut held = 0;
    for number in &seat[21..945] {
        held += number.count_ones() as usize;
    }
    held
}
