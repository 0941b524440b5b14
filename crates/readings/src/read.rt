// A cheapest reading of words on a sheet.
ghost use Rattle.std.specs.Prelude.{◌+◌, ◌<◌, ◌≤◌, length, Some, None};
ghost use Rattle.grammar.specs.View.{grammar_of};
ghost use Rattle.readings.specs.Cheapest.{Cheapest, Unread};
ghost use Rattle.readings.specs.inner.Tables.{Filled};
ghost use Rattle.readings.specs.inner.Cells.{shown};
ghost use Rattle.readings.specs.inner.Stages.{started};

use super::columns::Column;
use super::fill::fill_table;
use super::ground::{Ground, Lent, Rules, Stretch};
use super::scale::Scale;
use super::spot::Spot;
use super::walk::{Progress, write_form};
use grammar::sheet::Sheet;

// A written form's length, and its tree's price: the form stands in memory that the caller lends, so its length goes by itself.
#[derive(Clone, Copy)]
pub struct Reading<P> {
    pub length: usize,
    pub price: P,
}

// Reads the words off their table.
fn read_table<S: Scale>(
    rules: Rules,
    ground: &Ground<S::Price>,
    start: usize,
    stack: &mut [u32; 640],
    list: &mut [u8; 9984],
    column: &mut Column<S::Price, 21>,
) -> Option<Reading<S::Price>>
    requires start { start < 32 }
    requires filled { Filled rules.list.now S.Scale.measure ground.now.words.now (shown S.Scale.measure ground.now) (length ground.now.words.now + 2) (length ground.now.words.now + 1) }
    ensures { elim result [ Some d ↦ Cheapest (started rules.entry.list.now start) S.Scale.measure ground.now.words.now list.old list.new d.length d.price | None ↦ Unread (started rules.entry.list.now start) ground.now.words.now list.old list.new ] }
{
    let n = ground.words.len();
    let whole = Stretch { ground, i: 0, j: n };
    let price = whole.price_of(start)?;
    if n == 0 {
        list[0] = 0;
        return Some(Reading { length: 1, price });
    }
    list[0] = (whole.rule_of(start) + 1) as u8;
    stack[0] = u32::from(Spot {
        i: 0,
        j: n,
        a: start,
        d: 0,
        m: 0,
    });
    let from = Progress {
        name: start,
        height: 1,
        written: 1,
    };
    let length = write_form::<S>(rules, ground, stack, list, from, column);
    Some(Reading { length, price })
}

// Writes a cheapest reading of the words to the list, if they have one.
pub fn write_reading<S: Scale>(
    sheet: &Sheet,
    words: &[u8],
    list: &mut [u8],
    prices: &mut [S::Price],
    numbers: &mut [u32],
) -> Option<Reading<S::Price>>
    requires { (length words.now ≤ 20) × (8192 ≤ length prices.old) × (8192 ≤ length numbers.old) × (10240 ≤ length list.old) }
    ensures { elim result [ Some d ↦ Cheapest (grammar_of sheet.now) S.Scale.measure words.now list.old list.new d.length d.price | None ↦ Unread (grammar_of sheet.now) words.now list.old list.new ] }
{
    let rules = Rules {
        list: sheet.rules(),
    };
    let start = rules.list[0].left as usize;
    let (prices, rest) = prices.split_at_mut(7392);
    let (column, offers) = rest.split_at_mut(21);
    let (numbers, stack) = numbers.split_at_mut(7392);
    let mut lent = Lent {
        words,
        prices,
        numbers,
    };
    let mut column = Column {
        prices: column,
        marks: [false; 21],
    };
    let mut offers = Column {
        prices: offers,
        marks: [false; 128],
    };
    fill_table::<S>(rules, &mut lent, &mut column, &mut offers);
    let ground = lent.ground();
    let stack = stack.first_chunk_mut().unwrap();
    let Some(list) = list.first_chunk_mut() else {
        unreachable!()
    };
    read_table::<S>(rules, &ground, start, stack, list, &mut column)
}
