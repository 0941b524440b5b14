// One column of the table, filled by whole sets of dotted places, from its last cell to its first.
ghost use Rattle.std.specs.Prelude.{◌≡◌, ℕ, ◌<◌, ◌≤◌, List};
ghost use Rattle.grammar.specs.View.{grammar_of};
ghost use Rattle.tables.specs.Columns.{Column, Next, Beside};
ghost use Rattle.tables.specs.inner.Cells.{Ready, Gathered, Made, Wanting};

use super::cells::{load, store};
use super::sets::{asked, chain, open, over};
use grammar::sheet::Sheet;
use items::Items;

// Column j, where w is word j.
#[derive(Clone, Copy)]
pub(crate) struct NextColumn<'a> {
    pub sheet: &'a Sheet,
    pub j: usize,
    pub w: u8,
    ghost low: { j ≤ 20 },
    ghost listed: { w < 64 },
}

impl<'a> NextColumn<'a> {
    // What comes to cell (i, j) by word j, and by names that begin after word i and before word j.
    fn gather(&self, table: &[u64; 924], overs: &[Items; 21], i: usize) -> Items
        requires { i < self.now.j }
        ensures { (ws : List ℕ) → Ready (grammar_of self.now.sheet.now) ws table.now overs.now i self.now.j self.now.w → Gathered (grammar_of self.now.sheet.now) ws table.now i self.now.j self.now.j result.words }
    {
        let word = self.sheet.masks().before_word[self.w as usize];
        let mut set = load(table, i, self.j - 1).step(word);
        // By number: m picks a cell of the table and what stands over it.
        for m in i + 1..self.j {
            set = set.or(load(table, i, m).step(overs[m]));
        }
        set
    }

    // What cell (i, j) should have.
    fn cell(&self, table: &[u64; 924], overs: &[Items; 21], i: usize) -> Items
        requires { i < self.now.j }
        ensures { (ws : List ℕ) → Ready (grammar_of self.now.sheet.now) ws table.now overs.now i self.now.j self.now.w → Made (grammar_of self.now.sheet.now) ws table.now i self.now.j result.words }
    {
        let gathered = self.gather(table, overs, i);
        chain(self.sheet, load(table, i, i), gathered)
    }

    // What the start wants in cell (j, j).
    fn starting(&self) -> Items
        ensures { (ws table : List ℕ) → Wanting (grammar_of self.now.sheet.now) ws table self.now.j self.now.j result.words }
    {
        if self.j == 0 {
            self.sheet.masks().first[self.sheet.start() as usize]
        } else {
            Items::none()
        }
    }

    // Fills the column.
    pub(crate) fn fill(&self, table: &mut [u64; 924])
        ensures exact { (ws : List ℕ) → Next (grammar_of self.now.sheet.now) ws table.old self.now.j self.now.w → (m : ℕ) → m ≤ self.now.j → Column (grammar_of self.now.sheet.now) ws table.new m }
        ensures others { Beside table.old table.new self.now.j }
    {
        let mut overs = [Items::none(); 21];
        let mut wants = self.starting();
        // By number: i picks a cell of the table and what stands over it.
        for i in (0..self.j).rev() {
            let set = self.cell(table, &overs, i);
            store(table, i, self.j, set);
            overs[i] = over(self.sheet, set);
            wants = wants.or(asked(self.sheet, set));
        }
        store(table, self.j, self.j, open(self.sheet, wants));
    }
}
