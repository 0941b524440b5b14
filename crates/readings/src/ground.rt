// What prices are read off: the rules, the words with their table, and a place in it.
ghost use Rattle.std.specs.Prelude.{◌≡◌, ◌≤◌, length};
ghost use Rattle.grammar.specs.Grammar.{Counted};
ghost use Rattle.grammar.specs.Closure.{AllFormed};

use grammar::{Rule, Symbol};

// The rules of a sheet.
#[derive(Clone, Copy)]
pub struct Rules<'a> {
    pub list: &'a [Rule],
    ghost formed: { AllFormed 32 64 list.now },
    ghost few: { length list.now ≤ 128 },
}

// A symbol of a sheet, with a number that is in the sheet's limits.
#[derive(Clone, Copy)]
pub struct Known {
    pub symbol: Symbol,
    ghost counted: { Counted 32 64 symbol },
}

// The words, and of their table the prices and the numbers.
#[derive(Drop)]
pub struct Ground<'a, P> {
    pub words: &'a [u8],
    pub prices: &'a [P],
    pub numbers: &'a [u32],
    ghost brief: { length words.now ≤ 20 },
    ghost priced: { 7392 ≤ length prices.now },
    ghost numbered: { 7392 ≤ length numbers.now },
}

// The stretch from i to j.
#[derive(Drop)]
pub struct Stretch<'a, P> {
    pub ground: &'a Ground<'a, P>,
    pub i: usize,
    pub j: usize,
    ghost ordered: { i ≤ j },
    ghost within: { j ≤ length ground.now.words.now },
}

// A stretch, of whose own names those of a rank below k count.
#[derive(Drop)]
pub struct Cell<'a, P> {
    pub over: Stretch<'a, P>,
    pub k: usize,
}

// The words with their table while it is filled, which stays two slices, since the caller lends its memory.
#[derive(Drop)]
pub struct Lent<'a, P> {
    pub words: &'a [u8],
    pub prices: &'a mut [P],
    pub numbers: &'a mut [u32],
    ghost brief: { length words.now ≤ 20 },
    ghost priced: { 7392 ≤ length prices.now },
    ghost numbered: { 7392 ≤ length numbers.now },
}

impl<P> Lent<'_, P> {
    // The same, to read.
    pub(crate) fn ground(&self) -> Ground<'_, P>
        ensures words { result.words.now ≡ self.now.words.now }
        ensures prices { result.prices.now ≡ self.now.prices.now }
        ensures numbers { result.numbers.now ≡ self.now.numbers.now }
    {
        Ground {
            words: self.words,
            prices: self.prices,
            numbers: self.numbers,
        }
    }
}
