// What the last column shows.
ghost use Rattle.std.specs.Prelude.{◌+◌, ◌≤◌};
ghost use Rattle.tables.specs.inner.Cells.{Joint, Expects};

use super::cells::load;
use grammar::masks::Masks;
use items::Items;

// The union of the cells of column n, each loaded by its two numbers.
pub(crate) fn joint(table: &[u64; 924], n: usize) -> Items
    requires { n ≤ 20 }
    ensures { Joint table.now n (n + 1) result.words }
{
    let mut set = Items::none();
    for i in 0..n + 1 {
        set = set.or(load(table, i, n));
    }
    set
}

// The words before which the set has a dot, a bit for each.
pub(crate) fn expected(masks: &Masks, items: Items) -> u64
    ensures { Expects masks.now.before_word items.words 64 result }
{
    let mut mask = 0;
    for (w, set) in masks.before_word.iter().enumerate() {
        if items.meets(*set) {
            mask |= 1 << w;
        }
    }
    mask
}
