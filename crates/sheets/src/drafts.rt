// The names and words of a draft.
// Names and words have a function each only to lend another shelf of the draft: what they do is `intern`.
ghost use Rattle.std.specs.Prelude.{◌≡◌, ℕ, ◌≤◌, true, length, Ok, Err};
ghost use Rattle.grammar.specs.Letters.{name_spelled, word_spelled};
ghost use Rattle.sheets.specs.inner.Fields.{symbol_spelled};
ghost use Rattle.sheets.specs.inner.Interns.{Named, Unnamed, Worded, Unworded, Entered, Barred, said_among};

use super::spellings::intern;
use grammar::draft::Draft;
use grammar::letters::is_name;
use grammar::shelf::Full;
use grammar::{Alias, Symbol};

// The number of the name, which may be new.
pub(crate) fn name_number(draft: &mut Draft, bytes: &[u8]) -> Result<u8, Full>
    requires { name_spelled bytes.now ≡ true }
    ensures { elim result [ Ok k ↦ Named draft.old bytes.now k draft.new × (length bytes.now ≤ 15) | Err e ↦ Unnamed draft.old bytes.now ] }
{
    intern(&mut draft.names, bytes)
}

// The number of the word, which may be new.
pub(crate) fn word_number(draft: &mut Draft, bytes: &[u8]) -> Result<u8, Full>
    requires { word_spelled bytes.now ≡ true }
    ensures { elim result [ Ok k ↦ Worded draft.old bytes.now k draft.new × (length bytes.now ≤ 15) | Err e ↦ Unworded draft.old bytes.now ] }
{
    intern(&mut draft.words, bytes)
}

// The name or the word that the bytes spell.
pub(crate) fn symbol_number(draft: &mut Draft, bytes: &[u8]) -> Result<Symbol, Full>
    requires { symbol_spelled bytes.now ≡ true }
    ensures { elim result [ Ok k ↦ Entered draft.old bytes.now k draft.new | Err e ↦ Barred draft.old bytes.now ] }
{
    if is_name(bytes) {
        let number = name_number(draft, bytes)?;
        return Ok(Symbol::Name(number));
    }
    let number = word_number(draft, bytes)?;
    Ok(Symbol::Word(number))
}

// Whether one of the aliases is for the word with the number.
pub(crate) fn is_said(aliases: &[Alias], number: u8) -> bool
    ensures { result ≡ said_among number aliases.now }
{
    aliases.iter().any(|alias| alias.said == number)
}
