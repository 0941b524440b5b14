// A message's words: runs of bytes other than a space.
ghost use Rattle.std.specs.Prelude.{◌≡◌, ℕ, Bool, ◌+◌, ◌^◌, ◌<◌, ◌≤◌, map, length, drop, Ok, Err};
ghost use Rattle.std.specs.List.{prefix_len};
ghost use Rattle.std.specs.Str.{bytes_eq};
ghost use Rattle.faults.specs.declared.Layer.TheVariants.{Text as TextLayer};
ghost use Rattle.faults.specs.declared.Refusal.TheVariants.{MessageTooLong};
ghost use Rattle.faults.specs.Faults.{told, telling, met};
ghost use Rattle.grammar.specs.View.{words_in};
ghost use Rattle.grammar.specs.Limits.{text};
ghost use Rattle.sources.specs.Messages.{space, other, allowed, lower, numbered, verdict, spoken};
ghost use Rattle.sources.specs.Laws.{RunsByBegins};
ghost use Rattle.sources.specs.Values.{text_means};

use super::source::{Heard, Source};
use faults::{Fault, Layer, Refusal};
use grammar::Spelling;
use grammar::letters::{is_capital, is_in_word};
use grammar::sheet::Sheet;

// The longest message.
const LONGEST: usize = 512;

#[derive(Clone, Copy)]
pub struct Text<'a> {
    sheet: &'a Sheet,
    message: &'a [u8],
    at: usize,
}

// The bytes from a place on, none past the end.
fn tail(bytes: &[u8], from: usize) -> &[u8]
    ensures { result.now ≡ drop from bytes.now }
{
    bytes.get(from..).unwrap_or(&[])
}

// The place after the bytes from a place on that pass a test.
fn past<P: Fn(u8) -> bool>(bytes: &[u8], from: usize, passes: P) -> usize
    requires { (state : P) (b : ℕ) → P.pre state b }
    ensures { (test : ℕ → Bool) → ((b : ℕ) (r : Bool) → P.post passes b r → r ≡ test b) → result ≡ from + prefix_len test (drop from bytes.now) }
{
    let rest = tail(bytes, from).iter();
    from + rest.take_while(|b| passes(**b)).count()
}

fn is_allowed(b: u8) -> bool
    ensures { result ≡ allowed b }
{
    is_in_word(b) || is_capital(b)
}

// Whether the run, in small letters, is this word.
fn spells(spelling: &Spelling, run: &[u8]) -> bool
    ensures { result ≡ bytes_eq (text spelling.now) (map lower run.now) }
{
    let letters = spelling.as_bytes();
    // Lengths first: words that begin alike would be compared letter by letter.
    letters.len() == run.len()
        && (letters.iter().copied()).eq(run.iter().map(|b| b.to_ascii_lowercase()))
}

fn find(words: &[Spelling], run: &[u8]) -> Option<u8>
    requires { length words.now ≤ 64 }
    ensures { result ≡ numbered 0 (map text words.now) (map lower run.now) }
{
    let place = words.iter().position(|word| spells(word, run));
    place.map(|i| i as u8)
}

// A fault of the text's layer; `Fault::new` is for any.
fn refused(refusal: Refusal, place: usize) -> Fault
    ensures { told result ≡ met refusal place TextLayer }
{
    Fault::new(refusal, place, Layer::Text)
}

fn read_word(words: &[Spelling], run: &[u8], place: usize) -> Result<u8, Fault>
    requires words_len_bound { length words.now ≤ 64 }
    requires run_bound { place + length run.now < 2 ^ 64 }
    ensures { telling result ≡ verdict (map text words.now) (record { place = place; bytes = run.now }) }
{
    let n = past(run, 0, is_allowed);
    if n < run.len() {
        return Err(refused(Refusal::ByteNotAllowed, place + n));
    }
    if run.len() > 15 {
        return Err(refused(Refusal::WordTooLong, place));
    }
    find(words, run).ok_or_else(|| refused(Refusal::UnlistedWord, place))
}

impl<'a> Text<'a> {
    // Over a message of at most 512 bytes.
    pub fn over(sheet: &'a Sheet, message: &'a [u8]) -> Result<Self, Fault>
        ensures { elim result [ Ok t ↦ (length message.now ≤ 512) × (text_means t ≡ spoken (words_in sheet.now) 0 message.now) | Err f ↦ (512 < length message.now) × (told f ≡ met MessageTooLong 0 TextLayer) ] }
    {
        if message.len() > LONGEST {
            return Err(refused(Refusal::MessageTooLong, 0));
        }
        Ok(Text {
            sheet,
            message,
            at: 0,
        })
    }
}

impl<'a> Source for Text<'a> {
    ghost meaning = { text_means };

    fn next(&mut self) -> Result<Option<Heard>, Fault> {
        let message = self.message;
        let start = past(message, self.at, |b| b == b' ');
        if start >= message.len() {
            return Ok(None);
        }
        let end = past(message, start, |b| b != b' ');
        let word = read_word(self.sheet.words(), &message[start..end], start)?;
        self.at = end;
        Ok(Some(Heard { word, place: start }))
    }
}

// The runs are the stretches that begin at a byte other than a space, after a space or at the start.
pub fn runs_begin_after_spaces()
    ensures { RunsByBegins }
{}
