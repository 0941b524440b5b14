// Whole runs: a list of calls made in order on one hall, each answer kept, and then a reading.
ghost use Rattle.faults.specs.Faults.{telling};
ghost use Rattle.seats.specs.Standing.{Kept};
ghost use Rattle.seats.specs.Answers.{Answered};
ghost use Rattle.seats.specs.Calls.{Keeps};
ghost use Rattle.reader.specs.Runs.{called, Performed};
ghost use Rattle.reader.specs.inner.Turned.{Turned};

use crate::read::read;
use faults::Fault;
use grammar::sheet::Sheet;
use readings::read::Reading;
use readings::scale::Scale;
use seats::calls::{back, clear, open, say};
use seats::hearing::hear;
use sources::source::Source;

// A call by its arguments.
#[derive(Drop)]
pub enum Call<T> {
    Open,
    Clear { seat: usize },
    Say { seat: usize, word: u8 },
    Back { seat: usize },
    Hear { seat: usize, source: T },
}

// A call, and what it answered when it was made.
#[derive(Drop)]
pub struct Turn<T> {
    pub call: Call<T>,
    pub answer: Result<usize, Fault>,
}

// Makes one call.
fn make<T: Source>(sheet: &Sheet, hall: &mut [u64], call: &mut Call<T>) -> Result<usize, Fault>
    ensures kept { Keeps sheet.now (called T.meaning call.old) hall.old hall.new }
    ensures answer { (cs : _) → Kept sheet.now cs hall.old → Answered sheet.now cs (called T.meaning call.old) (telling result) (called T.meaning call.new) }
{
    match call {
        Call::Open => open(sheet, hall),
        Call::Clear { seat } => clear(sheet, hall, *seat),
        Call::Say { seat, word } => say(sheet, hall, *seat, *word),
        Call::Back { seat } => back(sheet, hall, *seat),
        Call::Hear { seat, source } => hear(sheet, hall, *seat, source),
    }
}

// Makes a turn's call and keeps the answer.
fn take_turn<T: Source>(sheet: &Sheet, hall: &mut [u64], turn: &mut Turn<T>)
    ensures { (cs : _) → Kept sheet.now cs hall.old → Turned T.meaning sheet.now cs turn.old turn.new hall.new }
{
    turn.answer = make(sheet, hall, &mut turn.call);
}

// Opens the hall, makes the calls in order, keeps each one's answer, then reads a seat.
pub fn perform<T: Source, C: Scale>(
    sheet: &Sheet,
    hall: &mut [u64],
    turns: &mut [Turn<T>],
    seat: usize,
    list: &mut [u8],
    prices: &mut [C::Price],
    numbers: &mut [u32],
) -> Result<Reading<C::Price>, Fault>
    ensures { Performed T.Source.meaning sheet.now C.Scale.measure seat hall.old turns.old (record { list = list.old; prices = prices.old; numbers = numbers.old }) (telling result) hall.new turns.new (record { list = list.new; prices = prices.new; numbers = numbers.new }) }
{
    open(sheet, hall)?;
    for turn in turns.iter_mut() {
        take_turn(sheet, hall, turn);
    }
    read::<C>(sheet, hall, seat, list, prices, numbers)
}
