// The cheapest cuts of a rule's symbols over a stretch.
ghost use Rattle.std.specs.Prelude.{◌≡◌, ℕ, ◌+◌, ◌<◌, ◌≤◌, ◌∷◌, List, length, if◌then◌else◌, Some, None, nat_eq, slice_index_or};
ghost use Rattle.readings.specs.inner.Columns.{marked};
ghost use Rattle.readings.specs.inner.Cells.{AllCounted, child_in, CutIn, ColumnIn};

use super::columns::Column;
use super::ground::{Cell, Known, Stretch};
use super::options::{join_both, pick_cheaper};
use super::scale::Scale;
use grammar::Symbol;

// The price of a symbol from m to n, where over (i, j) itself only names of a rank below k count.
pub(crate) fn symbol_price<S: Scale>(
    cell: &Cell<S::Price>,
    x: Known,
    m: usize,
    n: usize,
) -> Option<S::Price>
    requires { (m ≤ n) × (n ≤ cell.now.over.j) }
    ensures { result ≡ child_in S.Scale.measure cell.now x.symbol m n }
{
    let ground = cell.over.ground;
    match x.symbol {
        Symbol::Word(v) => {
            if n == m + 1 && ground.words[m] == v {
                Some(S::unit())
            } else {
                None
            }
        }
        Symbol::Name(b) => {
            let part = Stretch { ground, i: m, j: n };
            let own = m == cell.over.i && n == cell.over.j;
            if own && part.rank_of(b as usize) >= cell.k {
                None
            } else {
                part.price_of(b as usize)
            }
        }
    }
}

// The cheapest cut of the symbol and those after it from m to j, where the column has the cheapest cuts of those after it.
fn extend<S: Scale>(
    cell: &Cell<S::Price>,
    x: Known,
    m: usize,
    column: &Column<S::Price, 21>,
) -> Option<S::Price>
    requires { m ≤ cell.now.over.j }
    ensures { (s : List Symbol) → ColumnIn S.Scale.measure cell.now s m (marked S.Scale.measure column.now.prices.now column.now.marks) → CutIn S.Scale.measure cell.now (x.symbol ∷ s) m result }
{
    let mut best = None;
    for n in m..=cell.over.j {
        let first = symbol_price::<S>(cell, x, m, n);
        best = pick_cheaper::<S>(best, join_both::<S>(first, column.get(n)));
    }
    best
}

// One symbol more before those whose cheapest cuts the column has, at every position from i to j.
fn prepend<S: Scale>(cell: &Cell<S::Price>, x: Known, column: &mut Column<S::Price, 21>)
    ensures { (s : List Symbol) → ColumnIn S.Scale.measure cell.now s cell.now.over.i (marked S.Scale.measure column.old.prices.now column.old.marks)
        → ColumnIn S.Scale.measure cell.now (x.symbol ∷ s) cell.now.over.i (marked S.Scale.measure column.new.prices.now column.new.marks) }
{
    for m in cell.over.i..=cell.over.j {
        let best = extend::<S>(cell, x, m, column);
        column.set(m, best);
    }
}

// The price of no symbols from n to j.
fn end_price<S: Scale>(n: usize, j: usize) -> Option<S::Price>
    ensures { result ≡ (if nat_eq n j then Some S.Scale.measure.unit else None) }
{
    if n == j { Some(S::unit()) } else { None }
}

// The cuts of no symbols: only from j to j.
fn end_column<S: Scale>(i: usize, j: usize, column: &mut Column<S::Price, 21>)
    requires { (i ≤ j) × (j ≤ 20) }
    ensures { (n : ℕ) → i ≤ n → n ≤ j → marked S.Scale.measure column.new.prices.now column.new.marks n ≡ (if nat_eq n j then Some S.Scale.measure.unit else None) }
{
    for n in i..=j {
        column.set(n, end_price::<S>(n, j));
    }
}

// The cheapest cuts of the symbols, from every position from i to j.
pub(crate) fn cut_all<S: Scale>(
    cell: &Cell<S::Price>,
    symbols: &[Symbol],
    column: &mut Column<S::Price, 21>,
)
    requires { AllCounted symbols.now }
    ensures { ColumnIn S.Scale.measure cell.now symbols.now cell.now.over.i (marked S.Scale.measure column.new.prices.now column.new.marks) }
{
    match symbols {
        [] => end_column::<S>(cell.over.i, cell.over.j, column),
        [symbol, after @ ..] => {
            cut_all::<S>(cell, after, column);
            prepend::<S>(cell, Known { symbol: *symbol }, column);
        }
    }
}
