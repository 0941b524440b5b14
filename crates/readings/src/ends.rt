// Where the stretch of a symbol ends in a cheapest cut.
ghost use Rattle.std.specs.Prelude.{◌≡◌, ◌<◌, ◌≤◌, ◌∷◌, List, length, Some};
ghost use Rattle.readings.specs.inner.Columns.{marked};
ghost use Rattle.readings.specs.inner.Cells.{AllCounted, CutIn, ColumnIn, ChosenIn};

use super::columns::Column;
use super::cut::{cut_all, symbol_price};
use super::ground::{Cell, Known};
use super::options::{improves, join_both};
use super::scale::Scale;
use grammar::Symbol;

// Where the stretch of the symbol ends in a cheapest cut of it and those after it, from m to j, where the column has the cheapest cuts of those after it.
fn choose<S: Scale>(
    cell: &Cell<S::Price>,
    x: Known,
    m: usize,
    column: &Column<S::Price, 21>,
) -> usize
    requires { m ≤ cell.now.over.j }
    ensures { (s : List Symbol) (c : _) → ColumnIn S.Scale.measure cell.now s m (marked S.Scale.measure column.now.prices.now column.now.marks)
        → CutIn S.Scale.measure cell.now (x.symbol ∷ s) m (Some c) → ChosenIn S.Scale.measure cell.now m x.symbol s result }
{
    let mut best = None;
    let mut to = m;
    for n in m..=cell.over.j {
        let first = symbol_price::<S>(cell, x, m, n);
        let both = join_both::<S>(first, column.get(n));
        if improves::<S>(best, both) {
            best = both;
            to = n;
        }
    }
    to
}

// Where the stretch of the first symbol ends in a cheapest cut of the symbols from m to j.
pub(crate) fn find_end<S: Scale>(
    cell: &Cell<S::Price>,
    symbols: &[Symbol],
    m: usize,
    column: &mut Column<S::Price, 21>,
) -> usize
    requires within { (cell.now.over.i ≤ m) × (m ≤ cell.now.over.j) × (0 < length symbols.now) }
    requires counted { AllCounted symbols.now }
    ensures { (s : List Symbol) (x : Symbol) (c : _) → symbols.now ≡ x ∷ s → CutIn S.Scale.measure cell.now symbols.now m (Some c) → ChosenIn S.Scale.measure cell.now m x s result }
{
    cut_all::<S>(cell, &symbols[1..], column);
    let x = Known { symbol: symbols[0] };
    choose::<S>(cell, x, m, column)
}
