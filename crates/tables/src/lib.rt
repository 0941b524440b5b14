// The table of dotted rules: the fill of a column, the words that can come next, and whether the words are a command.
#![tactic(auto)]

ghost use Rattle.std.specs.Prelude.{◌≡◌, ℕ, ◌<◌, ◌≤◌, true, ◌↔◌, List, length};
ghost use Rattle.items.specs.Members.{bit};
ghost use Rattle.grammar.specs.Trees.{Command};
ghost use Rattle.grammar.specs.View.{grammar_of, words_in};
ghost use Rattle.tables.specs.Table.{Offered};
ghost use Rattle.tables.specs.Columns.{Column, Next, Beside, cell_of};

mod cells;
mod column;
mod offers;
mod sets;
pub mod theorems;

use cells::load;
use column::NextColumn;
use grammar::sheet::Sheet;
use items::Items;
use offers::{expected, joint};

// What these calls require is kept by the crates above, which hold the table.

// Fills column j, where w is word j.
pub fn fill_column(sheet: &Sheet, table: &mut [u64; 924], j: usize, w: u8)
    requires low { j ≤ 20 }
    requires listed { w < 64 }
    ensures exact { (ws : List ℕ) → Next (grammar_of sheet.now) ws table.old j w → (m : ℕ) → m ≤ j → Column (grammar_of sheet.now) ws table.new m }
    ensures others { Beside table.old table.new j }
{
    NextColumn { sheet, j, w }.fill(table);
}

// The words that can come next, where column n is the last: a bit for each.
pub fn offer(sheet: &Sheet, table: &[u64; 924], n: usize) -> u64
    requires { n ≤ 20 }
    ensures exact { (ws : List ℕ) (w : ℕ) → n ≡ length ws → Column (grammar_of sheet.now) ws table.now n → (bit result w ≡ true) ↔ Offered (grammar_of sheet.now) ws w }
    ensures listed { (w : ℕ) → bit result w ≡ true → w < length (words_in sheet.now) }
{
    expected(sheet.masks(), joint(table, n))
}

// The dotted places of cell (i, j).
pub fn cell_items(table: &[u64; 924], i: usize, j: usize) -> Items
    requires { (i ≤ j) × (j ≤ 20) }
    ensures { result.words ≡ cell_of table.now i j }
{
    load(table, i, j)
}

// Whether the words are a command, where column n is the last.
pub fn is_command(sheet: &Sheet, table: &[u64; 924], n: usize) -> bool
    requires { n ≤ 20 }
    ensures { (ws : List ℕ) → n ≡ length ws → Column (grammar_of sheet.now) ws table.now n → (result ≡ true) ↔ Command (grammar_of sheet.now) ws }
{
    let start = sheet.start() as usize;
    load(table, 0, n).meets(sheet.masks().last[start])
}
