// What a word source is: words still to come, and then an ending.
ghost use Rattle.std.specs.Prelude.{◌≡◌};
ghost use Rattle.faults.specs.Faults.{telling};
ghost use Rattle.sources.specs.Meanings.{Meaning, answered, past};

use faults::Fault;

// A word by its number, and where it stood.
#[derive(Clone, Copy)]
pub struct Heard {
    pub word: u8,
    pub place: usize,
}

pub trait Source {
    // The words still to come, and the ending.
    ghost meaning: { Self → Meaning };

    // The first word, which is then taken off; or the ending, as often as it is asked.
    fn next(&mut self) -> Result<Option<Heard>, Fault>
        ensures answer { telling result ≡ answered (meaning self.old) }
        ensures left { meaning self.new ≡ past 1 (meaning self.old) };
}
