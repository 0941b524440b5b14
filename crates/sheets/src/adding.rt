// A line goes into the draft of the lines before it.
ghost use Rattle.std.specs.Prelude.{◌≡◌, ℕ, ◌+◌, ◌<◌, ◌≤◌, true, List, [], ◌∷◌, ◌++◌, map};
ghost use Rattle.grammar.specs.Letters.{name_spelled, word_spelled};
ghost use Rattle.sheets.specs.Lines.{Spelled, Line, rule, alias, filler, spelling, tabbed, weight_spelled, Well, Means};
ghost use Rattle.sheets.specs.inner.Fields.{Symbols};
ghost use Rattle.sheets.specs.inner.Parses.{Tells};
ghost use Rattle.sheets.specs.inner.Drafting.{Drafted, Outcome};

use super::drafts::{is_said, name_number, word_number};
use super::lines::Parsed;
use super::refusals::Bar;
use super::rules::read_rule;
use super::weights;
use grammar::Alias;
use grammar::draft::Draft;
use items::few::with;

// A filler line more.
fn add_filler(draft: &mut Draft, word: &[u8]) -> Result<(), Bar>
    requires { word_spelled word.now ≡ true }
    ensures { (before : List Line) → Drafted before draft.old → Outcome before (filler word.now) result draft.new }
{
    let number = word_number(draft, word)?;
    draft.fillers = with(draft.fillers, number);
    Ok(())
}

// An alias line more.
fn add_alias(draft: &mut Draft, said: &[u8], meant: &[u8]) -> Result<(), Bar>
    requires { (word_spelled said.now ≡ true) × (word_spelled meant.now ≡ true) }
    ensures { (before : List Line) → Drafted before draft.old → Outcome before (alias said.now meant.now) result draft.new }
{
    let from = word_number(draft, said)?;
    let to = word_number(draft, meant)?;
    let again = is_said(draft.aliases.as_slice(), from);
    let alias = Alias {
        said: from,
        meant: to,
    };
    draft.push_alias(alias)?;
    if again {
        return Err(Bar::Second);
    }
    Ok(())
}

// A rule line more.
fn add_rule(draft: &mut Draft, weight: &[u8], left: &[u8], symbols: &[u8]) -> Result<(), Bar>
    requires { (weight_spelled weight.now ≡ true) × (name_spelled left.now ≡ true) × Symbols symbols.now }
    ensures { (before : List Line) (ss : List Spelled) → Drafted before draft.old → symbols.now ≡ tabbed (map spelling ss) → Well (rule weight.now left.now ss) → Outcome before (rule weight.now left.now ss) result draft.new }
{
    let number = weights::weight(weight)?;
    let name = name_number(draft, left)?;
    let rule = read_rule(draft, number, name, symbols)?;
    draft.push_rule(rule)?;
    Ok(())
}

// One line more; the draft of a refused line is let go.
pub(crate) fn add_line(draft: &mut Draft, parsed: Parsed<'_>) -> Result<(), Bar>
    requires { (line : List ℕ) × Tells parsed line }
    ensures { (before : List Line) (ℓ : Line) (line : List ℕ) → Drafted before draft.old → Tells parsed.entry line → Means line ℓ → Outcome before ℓ result draft.new }
{
    match parsed {
        Parsed::Rule(weight, left, symbols) => add_rule(draft, weight, left, symbols),
        Parsed::Alias(said, meant) => add_alias(draft, said, meant),
        Parsed::Filler(word) => add_filler(draft, word),
    }
}
