// What rules offer the names of a cell: candidates for their prices.
ghost use Rattle.std.specs.Prelude.{◌≡◌, ◌≤◌, false, ◌≢◌};
ghost use Rattle.grammar.specs.Grammar.{Formed};
ghost use Rattle.readings.specs.inner.Columns.{marked};
ghost use Rattle.readings.specs.inner.Candidates.{Untouched};
ghost use Rattle.readings.specs.inner.Cells.{OffersIn, OfferedIn, RepricedIn, Picking};

use super::columns::Column;
use super::cut::cut_all;
use super::ground::{Cell, Rules};
use super::options::{improves, join_both};
use super::scale::Scale;
use grammar::{Rule, Symbol};

// What the rule offers its left name over the cell.
fn offer_of<S: Scale>(
    cell: &Cell<S::Price>,
    rule: &Rule,
    column: &mut Column<S::Price, 21>,
) -> Option<S::Price>
    requires { Formed 32 64 rule.now }
    ensures { OffersIn S.Scale.measure cell.now rule.now result }
{
    if cell.over.price_of(rule.left as usize).is_some() {
        return None;
    }
    cut_all::<S>(cell, &rule.symbols[..rule.len as usize], column);
    join_both::<S>(Some(S::weigh(rule.weight)), column.get(cell.over.i))
}

// Every rule's offer, each at the rule's number.
pub(crate) fn offer_all<S: Scale>(
    rules: Rules,
    cell: &Cell<S::Price>,
    column: &mut Column<S::Price, 21>,
    offers: &mut Column<S::Price, 128>,
)
    ensures { OfferedIn rules.entry.list.now S.Scale.measure cell.now (marked S.Scale.measure offers.new.prices.now offers.new.marks) }
{
    for (r, rule) in rules.list.iter().enumerate() {
        let offer = offer_of::<S>(cell, rule, column);
        offers.set(r, offer);
    }
}

// Whether the symbol is the name a.
fn is_name(x: Symbol, a: usize) -> bool
    ensures { result ≡ false → x ≢ Symbol.Name a }
{
    matches!(x, Symbol::Name(b) if b as usize == a)
}

// Whether the name a stands on a side of the rule, so that its price may change what the rule offers.
fn touches(rule: &Rule, a: usize) -> bool
    requires { rule.now.len ≤ 8 }
    ensures { result ≡ false → Untouched rule.now a }
{
    let right = &rule.symbols[..rule.len as usize];
    rule.left as usize == a || right.iter().any(|x| is_name(*x, a))
}

// Prices the rules anew that the name a touches, after it has got its price over the cell.
pub(crate) fn reprice<S: Scale>(
    rules: Rules,
    cell: &Cell<S::Price>,
    a: usize,
    column: &mut Column<S::Price, 21>,
    offers: &mut Column<S::Price, 128>,
)
    requires { RepricedIn rules.list.now S.Scale.measure cell.now a 0 (marked S.Scale.measure offers.old.prices.now offers.old.marks) }
    ensures { OfferedIn rules.entry.list.now S.Scale.measure cell.now (marked S.Scale.measure offers.new.prices.now offers.new.marks) }
{
    for (r, rule) in rules.list.iter().enumerate() {
        if touches(rule, a) {
            let offer = offer_of::<S>(cell, rule, column);
            offers.set(r, offer);
        }
    }
}

// A rule, and its price as a candidate.
#[derive(Clone, Copy)]
pub struct Pick<P> {
    pub rule: usize,
    pub price: P,
}

// The cheapest of the first n offers.
pub(crate) fn cheapest_offer<S: Scale>(
    offers: &Column<S::Price, 128>,
    n: usize,
) -> Option<Pick<S::Price>>
    requires { n ≤ 128 }
    ensures { Picking S.Scale.measure (marked S.Scale.measure offers.now.prices.now offers.now.marks) n result }
{
    let mut best: Option<Pick<S::Price>> = None;
    // No iterator: a column's prices and marks are apart, and `get` joins them.
    for r in 0..n {
        let offer = offers.get(r);
        if improves::<S>(best.map(|pick| pick.price), offer) {
            best = offer.map(|price| Pick { rule: r, price });
        }
    }
    best
}
