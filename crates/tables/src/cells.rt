// The cells of a table: four numbers each, column after column.
// A cell's two numbers stay two: a struct of them would be made for each call and taken apart in it.
ghost use Rattle.std.specs.Prelude.{◌≡◌, ◌<◌};
ghost use Rattle.tables.specs.Columns.{cell, cell_of};
ghost use Rattle.tables.specs.inner.Cells.{InTable, Stored};

use items::Items;

// Which of the cells cell (i, j) is.
fn position(i: usize, j: usize) -> usize
    requires { InTable i j }
    ensures is { result ≡ cell i j }
    ensures small { result < 231 }
{
    j * (j + 1) / 2 + i
}

// The set of cell (i, j).
pub(crate) fn load(table: &[u64; 924], i: usize, j: usize) -> Items
    requires cell { InTable i j }
    ensures { result.words ≡ cell_of table.now i j }
{
    let (cells, _) = table.as_chunks();
    Items {
        words: cells[position(i, j)],
    }
}

// Puts the set into cell (i, j).
pub(crate) fn store(table: &mut [u64; 924], i: usize, j: usize, items: Items)
    requires cell { InTable i j }
    ensures { Stored table.old table.new i j items.words }
{
    let p = 4 * position(i, j);
    table[p..p + 4].copy_from_slice(&items.words);
}
