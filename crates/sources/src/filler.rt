// Filler words are left out.
ghost use Rattle.std.specs.Prelude.{◌≡◌};
ghost use Rattle.grammar.specs.View.{fillers_in};
ghost use Rattle.sources.specs.Meanings.{without};
ghost use Rattle.sources.specs.Laws.{FillersOnly};

use super::source::{Heard, Source};
use faults::Fault;
use grammar::sheet::Sheet;
use items::few::holds;

#[derive(Drop)]
pub struct Filler<S> {
    fillers: u64,
    below: S,
}

impl<S> Filler<S> {
    // With the sheet's fillers, copied.
    pub fn over(sheet: &Sheet, below: S) -> Self
        ensures fillers { result.fillers ≡ fillers_in sheet.now }
        ensures below { result.below ≡ below }
    {
        let fillers = sheet.fillers();
        Filler { fillers, below }
    }
}

impl<S: Source> Source for Filler<S> {
    ghost meaning = { λ f. without f.fillers (S.Source.meaning f.below) };

    fn next(&mut self) -> Result<Option<Heard>, Fault> {
        while let Some(heard) = self.below.next()? {
            if !holds(self.fillers, heard.word) {
                return Ok(Some(heard));
            }
        }
        Ok(None)
    }
}

// The layer changes nothing exactly where no word is a filler.
pub fn fillers_alone_are_left_out()
    ensures { FillersOnly }
{}
