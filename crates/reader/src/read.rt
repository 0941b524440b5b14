// Reads the words standing at a seat: a cheapest derivation of them, or why there is none.
ghost use Rattle.std.specs.Prelude.{◌≡◌, ℕ, ◌+◌, ◌%◌, ◌<◌, List, Decides, slice_index};
ghost use Rattle.faults.specs.Faults.{telling};
ghost use Rattle.seats.specs.Seats.{Seat, Whole};
ghost use Rattle.reader.specs.Reads.{Room, Reads, Read};
ghost use Rattle.reader.specs.inner.Settled.{settled};

use faults::{Fault, Layer, Refusal};
use grammar::sheet::Sheet;
use readings::read::{Reading, write_reading};
use readings::scale::Scale;
use seats::calls::record;
use std::array::from_fn;
use tables::is_command;

// Whether what is lent is long enough.
fn has_room<P>(list: &[u8], prices: &[P], numbers: &[u32]) -> bool
    ensures { Decides result (Room (record { list = list.now; prices = prices.now; numbers = numbers.now })) }
{
    list.len() >= 10240 && prices.len() >= 8192 && numbers.len() >= 8192
}

// The words of a record, which are below 64 where they are counted and the record is whole.
fn copy_words(seat: &[u64; 945]) -> [u8; 20]
    ensures { (k : ℕ) → k < 20 → slice_index result k ≡ slice_index seat.now (1 + k) % 256 }
{
    from_fn(|k| (seat[1 + k] % 256) as u8)
}

// Reads at the seat's own numbers.
fn read_seat<C: Scale>(
    sheet: &Sheet,
    seat: &[u64; 945],
    list: &mut [u8],
    prices: &mut [C::Price],
    numbers: &mut [u32],
) -> Option<Reading<C::Price>>
    requires whole { Whole sheet.now seat.now }
    requires room { Room (record { list = list.old; prices = prices.old; numbers = numbers.old }) }
    ensures { (ws : List ℕ) → Seat sheet.now ws seat.now → Reads sheet.now C.Scale.measure ws (record { list = list.old; prices = prices.old; numbers = numbers.old }) (settled result) (record { list = list.new; prices = prices.new; numbers = numbers.new }) }
{
    let count = seat[0] as usize;
    if !is_command(sheet, seat.last_chunk().unwrap(), count) {
        return None;
    }
    let words = copy_words(seat);
    write_reading::<C>(sheet, &words[..count], list, prices, numbers)
}

// Words that have no reading are no command.
fn answer<C: Scale>(reading: Option<Reading<C::Price>>) -> Result<Reading<C::Price>, Fault>
    ensures { telling result ≡ settled reading }
{
    reading.ok_or(Fault::new(Refusal::NoCommand, 0, Layer::Seat))
}

// Where the record is one of words, every refusal comes before any write.
// Three slices: of a struct of them by `&mut` two fields cannot go into one call yet, and by value a clause would say `lent.exit.1.1.0.now`.
pub fn read<C: Scale>(
    sheet: &Sheet,
    hall: &[u64],
    seat: usize,
    list: &mut [u8],
    prices: &mut [C::Price],
    numbers: &mut [u32],
) -> Result<Reading<C::Price>, Fault>
    ensures { Read sheet.now C.Scale.measure seat hall.now (record { list = list.old; prices = prices.old; numbers = numbers.old }) (telling result) (record { list = list.new; prices = prices.new; numbers = numbers.new }) }
{
    let own = record(sheet, hall, seat)?;
    if !has_room(list, prices, numbers) {
        return Err(Fault::new(Refusal::BufferTooShort, 0, Layer::Seat));
    }
    answer::<C>(read_seat::<C>(sheet, own, list, prices, numbers))
}
