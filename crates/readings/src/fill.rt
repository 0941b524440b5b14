// The table is filled, cell after cell.
ghost use Rattle.std.specs.Prelude.{◌≡◌, ◌+◌, ◌<◌, ◌≤◌, true, false, length};
ghost use Rattle.readings.specs.inner.Tables.{Filled};
ghost use Rattle.readings.specs.inner.Columns.{marked};
ghost use Rattle.readings.specs.inner.Candidates.{Offered};
ghost use Rattle.readings.specs.inner.Filling.{Filling};
ghost use Rattle.readings.specs.inner.Places.{table};

use super::columns::Column;
use super::ground::{Cell, Lent, Rules, Stretch};
use super::offers::{cheapest_offer, offer_all, reprice};
use super::scale::Scale;

// The name of the cheapest offer gets its price over (i, j), as the k-th there; false if no offer is left, which ends a cell and is no error.
fn price_next<S: Scale>(
    rules: Rules,
    lent: &mut Lent<S::Price>,
    i: usize,
    j: usize,
    k: usize,
    column: &mut Column<S::Price, 21>,
    offers: &mut Column<S::Price, 128>,
) -> bool
    requires bounds { (i ≤ j) × (j ≤ length lent.old.words.now) × (k < 32) }
    requires filling { Filling rules.list.now S.Scale.measure lent.old.words.now (table S.Scale.measure lent.old.prices.now lent.old.numbers.now) i j k }
    requires gathered { Offered rules.list.now S.Scale.measure lent.old.words.now (table S.Scale.measure lent.old.prices.now lent.old.numbers.now) i j k (marked S.Scale.measure offers.old.prices.now offers.old.marks) }
    ensures same { lent.new.words.now ≡ lent.old.words.now }
    ensures last { result ≡ false → Filled rules.entry.list.now S.Scale.measure lent.old.words.now (table S.Scale.measure lent.new.prices.now lent.new.numbers.now) i j }
    ensures filling { result ≡ true → Filling rules.entry.list.now S.Scale.measure lent.old.words.now (table S.Scale.measure lent.new.prices.now lent.new.numbers.now) i j (k + 1) }
    ensures gathered { result ≡ true → Offered rules.entry.list.now S.Scale.measure lent.old.words.now (table S.Scale.measure lent.new.prices.now lent.new.numbers.now) i j (k + 1) (marked S.Scale.measure offers.new.prices.now offers.new.marks) }
{
    let Some(pick) = cheapest_offer::<S>(offers, rules.list.len()) else {
        return false;
    };
    let left = rules.list[pick.rule].left as usize;
    lent.put(i, j, left, pick.price, k, pick.rule);
    let ground = lent.ground();
    let cell = Cell {
        over: Stretch {
            ground: &ground,
            i,
            j,
        },
        k: k + 1,
    };
    reprice::<S>(rules, &cell, left, column, offers);
    true
}

// The cell (i, j): its names from the cheapest on, each with its rule and its rank.
fn fill_cell<S: Scale>(
    rules: Rules,
    lent: &mut Lent<S::Price>,
    i: usize,
    j: usize,
    column: &mut Column<S::Price, 21>,
    offers: &mut Column<S::Price, 128>,
)
    requires bounds { (i ≤ j) × (j ≤ length lent.old.words.now) }
    requires filled { Filled rules.list.now S.Scale.measure lent.old.words.now (table S.Scale.measure lent.old.prices.now lent.old.numbers.now) (i + 1) j }
    ensures same { lent.new.words.now ≡ lent.old.words.now }
    ensures filled { Filled rules.entry.list.now S.Scale.measure lent.old.words.now (table S.Scale.measure lent.new.prices.now lent.new.numbers.now) i j }
{
    let ground = lent.ground();
    let cell = Cell {
        over: Stretch {
            ground: &ground,
            i,
            j,
        },
        k: 0,
    };
    offer_all::<S>(rules, &cell, column, offers);
    for k in 0..32 {
        if !price_next::<S>(rules, lent, i, j, k, column, offers) {
            return;
        }
    }
}

// The column j of the table, from its shortest stretch on.
fn fill_column<S: Scale>(
    rules: Rules,
    lent: &mut Lent<S::Price>,
    j: usize,
    column: &mut Column<S::Price, 21>,
    offers: &mut Column<S::Price, 128>,
)
    requires bounds { j ≤ length lent.old.words.now }
    requires filled { Filled rules.list.now S.Scale.measure lent.old.words.now (table S.Scale.measure lent.old.prices.now lent.old.numbers.now) (j + 1) j }
    ensures same { lent.new.words.now ≡ lent.old.words.now }
    ensures filled { Filled rules.entry.list.now S.Scale.measure lent.old.words.now (table S.Scale.measure lent.new.prices.now lent.new.numbers.now) 0 j }
{
    for i in (0..=j).rev() {
        fill_cell::<S>(rules, lent, i, j, column, offers);
    }
}

// The table of the words.
pub(crate) fn fill_table<S: Scale>(
    rules: Rules,
    lent: &mut Lent<S::Price>,
    column: &mut Column<S::Price, 21>,
    offers: &mut Column<S::Price, 128>,
)
    ensures same { lent.new.words.now ≡ lent.old.words.now }
    ensures filled { Filled rules.entry.list.now S.Scale.measure lent.old.words.now (table S.Scale.measure lent.new.prices.now lent.new.numbers.now) (length lent.old.words.now + 2) (length lent.old.words.now + 1) }
{
    lent.numbers.fill(0);
    for j in 0..=lent.words.len() {
        fill_column::<S>(rules, lent, j, column, offers);
    }
}
