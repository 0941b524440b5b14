// Word numbers as they come, each byte's index its place.
ghost use Rattle.std.specs.Prelude.{◌≡◌, ℕ, length};
ghost use Rattle.grammar.specs.View.{words_in};
ghost use Rattle.sources.specs.Codings.{coded};
ghost use Rattle.sources.specs.Values.{codes_mean};

use super::source::{Heard, Source};
use faults::{Fault, Layer, Refusal};
use grammar::sheet::Sheet;

#[derive(Clone, Copy)]
pub struct Codes<'a> {
    codes: &'a [u8],
    count: u8,
    at: usize,
}

impl<'a> Codes<'a> {
    // Over bytes that are word numbers of the sheet.
    pub fn over(sheet: &Sheet, codes: &'a [u8]) -> Self
        ensures { codes_mean result ≡ coded (length (words_in sheet.now)) 0 codes.now }
    {
        Codes {
            codes,
            count: sheet.word_count(),
            at: 0,
        }
    }
}

impl<'a> Source for Codes<'a> {
    ghost meaning = { codes_mean };

    fn next(&mut self) -> Result<Option<Heard>, Fault> {
        let at = self.at;
        let Some(&word) = self.codes.get(at) else {
            return Ok(None);
        };
        if word >= self.count {
            return Err(Fault::new(Refusal::UnlistedWord, at, Layer::Codes));
        }
        self.at = at + 1;
        Ok(Some(Heard { word, place: at }))
    }
}
