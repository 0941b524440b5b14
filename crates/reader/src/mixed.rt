// Two kinds of source on one hall.
ghost use Rattle.std.specs.Prelude.{◌≡◌, ◌∷◌, length};
ghost use Rattle.faults.specs.Faults.{telling};
ghost use Rattle.seats.specs.Standing.{Kept, hear_at};
ghost use Rattle.seats.specs.Answers.{Answered};
ghost use Rattle.reader.specs.Runs.{calls_of};
ghost use Rattle.reader.specs.Mixed.{Joined};

use crate::performing::{Turn, perform};
use faults::Fault;
use grammar::sheet::Sheet;
use readings::read::Reading;
use readings::scale::Scale;
use seats::hearing::hear;
use sources::source::Source;

// A run with sources of one kind, then one of another kind heard on the same hall: what a call keeps joins any runs.
pub fn perform_then_hear<T: Source, U: Source, C: Scale>(
    sheet: &Sheet,
    hall: &mut [u64],
    turns: &mut [Turn<T>],
    seat: usize,
    list: &mut [u8],
    prices: &mut [C::Price],
    numbers: &mut [u32],
    source: &mut U,
) -> Result<usize, Fault>
    ensures kept { length hall.old ≡ 3780 → Kept sheet.now (hear_at seat (U.Source.meaning source.old) ∷ calls_of T.Source.meaning turns.old) hall.new }
    ensures heard { length hall.old ≡ 3780 → Answered sheet.now (calls_of T.Source.meaning turns.old) (hear_at seat (U.Source.meaning source.old)) (telling result) (hear_at seat (U.Source.meaning source.new)) }
{
    perform_and_hear::<T, U, C>(sheet, hall, turns, seat, list, prices, numbers, source).1
}

// The same, with both answers: the run as it is by itself, its reading, and what hear answers after it.
pub fn perform_and_hear<T: Source, U: Source, C: Scale>(
    sheet: &Sheet,
    hall: &mut [u64],
    turns: &mut [Turn<T>],
    seat: usize,
    list: &mut [u8],
    prices: &mut [C::Price],
    numbers: &mut [u32],
    source: &mut U,
) -> (Result<Reading<C::Price>, Fault>, Result<usize, Fault>)
    ensures { Joined T.Source.meaning sheet.now C.Scale.measure seat hall.old turns.old (record { list = list.old; prices = prices.old; numbers = numbers.old }) (U.Source.meaning source.old) (telling result.0) (telling result.1) hall.new turns.new (record { list = list.new; prices = prices.new; numbers = numbers.new }) (U.Source.meaning source.new) }
{
    let reading = perform::<T, C>(sheet, hall, turns, seat, list, prices, numbers);
    let answer = hear(sheet, hall, seat, source);
    (reading, answer)
}
