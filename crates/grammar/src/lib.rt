// What a command sheet holds: rules over names and words, and the sheet type that keeps them in order.
#![tactic(auto)]

ghost use Rattle.std.specs.Prelude.{◌≡◌, take};

mod closure;
pub mod draft;
pub mod letters;
pub mod masks;
pub mod sheet;
pub mod shelf;

// A name stands for other symbols, a word for itself; each by its number.
#[derive(Clone, Copy)]
pub enum Symbol {
    Name(u8),
    Word(u8),
}

// The left name may be replaced by the first `len` symbols. With no heap, a rule is copied whole, so it has its array inside.
// What a sheet's rules keep is no fact of this type: the definitions speak of rules of any length.
#[derive(Clone, Copy)]
pub struct Rule {
    pub weight: u16,
    pub left: u8,
    pub len: u8,
    pub symbols: [Symbol; 8],
}

impl Rule {
    // Weight 0, name 0, no symbols.
    pub const EMPTY: Rule = Rule {
        weight: 0,
        left: 0,
        len: 0,
        symbols: [Symbol::Name(0); 8],
    };
}

// The bytes of a name or a word: the first `len`. With no heap, it is copied whole.
#[derive(Clone, Copy)]
pub struct Spelling {
    pub len: u8,
    pub bytes: [u8; 15],
}

impl Spelling {
    pub const EMPTY: Spelling = Spelling {
        len: 0,
        bytes: [0; 15],
    };

    // The bytes in use.
    pub fn as_bytes(&self) -> &[u8]
        ensures { result.now ≡ take self.now.len self.now.bytes }
    {
        &self.bytes[..self.len.min(15) as usize]
    }
}

// A word said stands for the word meant.
#[derive(Clone, Copy)]
pub struct Alias {
    pub said: u8,
    pub meant: u8,
}
