// The rule of a rule line.
ghost use Rattle.std.specs.Prelude.{◌≡◌, ℕ, ◌+◌, ◌<◌, ◌≤◌, true, List, map, Ok, Err};
ghost use Rattle.std.specs.List.{AllByRecursion};
ghost use Rattle.grammar.specs.Grammar.{Formed};
ghost use Rattle.sheets.specs.Lines.{Spelled, Line, spelling, tabbed, well};
ghost use Rattle.sheets.specs.Spellings.{words_of};
ghost use Rattle.sheets.specs.inner.Fields.{Symbols};
ghost use Rattle.sheets.specs.inner.Drafting.{Holding, Righted, Fitting};

use super::drafts::symbol_number;
use super::fields::next_field;
use grammar::draft::Draft;
use grammar::shelf::Full;
use grammar::{Rule, Symbol};

// The rule with the symbols of these fields on its right.
pub(crate) fn read_rule(
    draft: &mut Draft,
    weight: u16,
    left: u8,
    fields: &[u8],
) -> Result<Rule, Full>
    requires { (left < draft.old.names.len) × Symbols fields.now }
    ensures formed { elim result [ Ok p ↦ Formed draft.new.names.len draft.new.words.len p × (p.weight ≡ weight) × (p.left ≡ left) | Err e ↦ Unit {0} ] }
    ensures read { (before : List Line) (N : List (List ℕ)) (ss : List Spelled) → Holding before N (words_of before) draft.old → fields.now ≡ tabbed (map spelling ss) → AllByRecursion (λ s. well s ≡ true) ss → elim result [ Ok p ↦ Righted before N (words_of before) ss draft.new p | Err e ↦ (Fitting N (words_of before) ss → ⊥) ] }
{
    let mut rule = Rule {
        weight,
        left,
        len: 0,
        symbols: [Symbol::Name(0); 8],
    };
    let mut rest = fields;
    while let Some((field, after)) = next_field(rest) {
        if rule.len == 8 {
            return Err(Full);
        }
        let symbol = symbol_number(draft, field)?;
        // A rule has its array inside, and how much of it is used.
        rule.symbols[rule.len as usize] = symbol;
        rule.len += 1;
        rest = after;
    }
    Ok(rule)
}
