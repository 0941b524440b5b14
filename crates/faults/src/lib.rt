// Why a call is refused: the closed list of refusals, the place, and the layer that met it.
#![tactic(auto)]

ghost use Rattle.std.specs.Prelude.{◌≡◌, Some};
ghost use Rattle.faults.specs.Faults.{number_of, depth, told, met};
ghost use Rattle.faults.specs.Texts.{reason_of, text_of};

use std::error::Error;
use std::fmt;

// In the order of their printed numbers.
#[derive(Clone, Copy, PartialEq, Eq, Debug)]
pub enum Refusal {
    SheetTooLong = 1,
    LineShape,
    LineLimit,
    SecondAlias,
    NoRule,
    NoTree,
    MessageTooLong,
    ByteNotAllowed,
    WordTooLong,
    UnlistedWord,
    NoSuchSeat,
    BrokenRecord,
    Full,
    LeadsNowhere,
    NothingToTakeBack,
    NoCommand,
    BufferTooShort,
}

impl Refusal {
    // The number that programs print.
    pub fn number(self) -> u8
        ensures { result ≡ number_of self }
    {
        self as u8
    }
}

// What is refused, in words.
impl fmt::Display for Refusal {
    ghost output = { λ refusal. Some (reason_of refusal) };

    fn fmt<W: fmt::Write>(&self, f: &mut fmt::Formatter<W>) -> fmt::Result {
        f.write_str(match self {
            Refusal::SheetTooLong => "the sheet is over 16,384 bytes",
            Refusal::LineShape => "the line has no listed shape",
            Refusal::LineLimit => "the line passes a limit",
            Refusal::SecondAlias => "the word has an alias already",
            Refusal::NoRule => "the sheet has no rule",
            Refusal::NoTree => "the name can never be spelled out in words",
            Refusal::MessageTooLong => "the message is over 512 bytes",
            Refusal::ByteNotAllowed => "the byte is not allowed in a word",
            Refusal::WordTooLong => "the word is over 15 bytes",
            Refusal::UnlistedWord => "the word is not on the sheet",
            Refusal::NoSuchSeat => "the hall has no such seat",
            Refusal::BrokenRecord => "the seat's record is broken",
            Refusal::Full => "twenty words stand",
            Refusal::LeadsNowhere => "no command begins so",
            Refusal::NothingToTakeBack => "there is no word to take back",
            Refusal::NoCommand => "the words are no command",
            Refusal::BufferTooShort => "a buffer is too short",
        })
    }
}

// What met the refusal: the loader, a word source over text or over codes, or a seat.
#[derive(Clone, Copy, PartialEq, Eq, Debug)]
pub enum Layer {
    Load,
    Text,
    Codes,
    Seat,
}

impl Layer {
    // The number that programs print.
    pub fn number(self) -> u8
        ensures { result ≡ depth self }
    {
        self as u8
    }
}

// The place is a line, a name, a byte or a count; each refusal says which, and has 0 where it has none.
#[derive(Clone, Copy, PartialEq, Eq, Debug)]
pub struct Fault {
    pub refusal: Refusal,
    pub place: usize,
    pub layer: Layer,
}

impl Fault {
    pub fn new(refusal: Refusal, place: usize, layer: Layer) -> Fault
        ensures { told result ≡ met refusal place layer }
    {
        Fault {
            refusal,
            place,
            layer,
        }
    }
}

impl fmt::Display for Fault {
    ghost output = { λ fault. Some (text_of fault) };

    fn fmt<W: fmt::Write>(&self, f: &mut fmt::Formatter<W>) -> fmt::Result {
        let refusal = self.refusal;
        let number = refusal.number();
        let place = self.place;
        let layer = self.layer.number();
        write!(f, "refused {number} at {place} by layer {layer}: {refusal}")
    }
}

impl Error for Fault {}
