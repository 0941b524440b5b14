// Each word said becomes the word meant, once.
ghost use Rattle.std.specs.Prelude.{◌≡◌, take};
ghost use Rattle.grammar.specs.View.{aliases_in};
ghost use Rattle.sources.specs.Meanings.{meant_by, renamed};

use super::source::{Heard, Source};
use faults::Fault;
use grammar::sheet::Sheet;
use grammar::shelf::Shelf;

// The pairs are a copy, so that the sheet need not be lent as long as the source lives.
#[derive(Drop)]
pub struct Alias<S> {
    pairs: Shelf<grammar::Alias, 16>,
    below: S,
}

impl<S> Alias<S> {
    // With the sheet's aliases, copied.
    pub fn over(sheet: &Sheet, below: S) -> Self
        ensures pairs { take result.pairs.len result.pairs.items ≡ aliases_in sheet.now }
        ensures below { result.below ≡ below }
    {
        let pairs = sheet.alias_table();
        Alias { pairs, below }
    }

    // The word meant by a word said.
    fn meant(&self, word: u8) -> u8
        ensures { result ≡ meant_by (take self.now.pairs.len self.now.pairs.items) word }
    {
        let mut pairs = self.pairs.as_slice().iter();
        let pair = pairs.find(|pair| pair.said == word);
        pair.map_or(word, |pair| pair.meant)
    }
}

impl<S: Source> Source for Alias<S> {
    ghost meaning = { λ a. renamed (take a.pairs.len a.pairs.items) (S.Source.meaning a.below) };

    fn next(&mut self) -> Result<Option<Heard>, Fault> {
        let heard = self.below.next()?;
        Ok(heard.map(|heard| Heard {
            word: self.meant(heard.word),
            ..heard
        }))
    }
}
