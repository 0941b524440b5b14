// One line of a sheet, taken apart.
ghost use Rattle.std.specs.Prelude.{◌≡◌, ℕ, ◌+◌, ◌<◌, ◌≤◌, true, false, List, [], ◌∷◌, ◌++◌, map, Some, None, ◌≢◌};
ghost use Rattle.sheets.specs.Lines.{Spelled, Line, spelling, rule, alias, filler, tabbed, written, Well, Means, OneMeaning};
ghost use Rattle.sheets.specs.inner.Parses.{Tells, keyword};
ghost use Rattle.sheets.specs.declared.lines.Kind.{Kind};
ghost use Rattle.sheets.specs.inner.Fields.{Holds, Symbols, symbol_spelled};

use super::fields::{cut, next_field};
use super::weights::is_weight;
use grammar::letters::{is_name, is_word};

fn is_symbol(field: &[u8]) -> bool
    ensures { result ≡ symbol_spelled field.now }
{
    is_name(field) || is_word(field)
}

// Whether the fields are symbols.
fn are_symbols(fields: &[u8]) -> bool
    ensures found { result ≡ true → Symbols fields.now }
    ensures passed { Symbols fields.now → result ≡ true }
{
    // Fields are cut as they come: splitting at tabs would also cut before the first.
    let mut rest = fields;
    while let Some((field, after)) = next_field(rest) {
        if !is_symbol(field) {
            return false;
        }
        rest = after;
    }
    rest.is_empty()
}

// The word of a filler line.
fn filler_fields(fields: &[u8]) -> Option<&[u8]>
    ensures { elim result [ Some w ↦ Holds fields.now (filler w.now) | None ↦ ((w : List ℕ) → Holds fields.now (filler w) → ⊥) ] }
{
    let (word, rest) = next_field(fields)?;
    if !is_word(word) {
        return None;
    }
    if !rest.is_empty() {
        return None;
    }
    Some(word)
}

// The word said and the word meant of an alias line.
fn alias_fields(fields: &[u8]) -> Option<(&[u8], &[u8])>
    ensures { elim result [ Some p ↦ Holds fields.now (alias p.0.now p.1.now) | None ↦ ((s m : List ℕ) → Holds fields.now (alias s m) → ⊥) ] }
{
    let (said, rest) = next_field(fields)?;
    if !is_word(said) {
        return None;
    }
    let meant = filler_fields(rest)?;
    Some((said, meant))
}

// The weight, the left name and the fields of the symbols of a rule line.
fn rule_fields(fields: &[u8]) -> Option<(&[u8], &[u8], &[u8])>
    ensures { elim result [ Some p ↦ ((ss : List Spelled) × Holds fields.now (rule p.0.now p.1.now ss) × (p.2.now ≡ tabbed (map spelling ss))) | None ↦ ((w a : List ℕ) (ss : List Spelled) → Holds fields.now (rule w a ss) → ⊥) ] }
{
    let (weight, rest) = next_field(fields)?;
    if !is_weight(weight) {
        return None;
    }
    let (left, symbols) = next_field(rest)?;
    if !is_name(left) {
        return None;
    }
    if !are_symbols(symbols) {
        return None;
    }
    Some((weight, left, symbols))
}

#[derive(Clone, Copy)]
pub enum Kind {
    Rule,
    Alias,
    Filler,
}

// The kind of line that the first field names.
fn kind_of(field: &[u8]) -> Option<Kind>
    ensures { elim result [ Some k ↦ field.now ≡ keyword k | None ↦ ((k : Kind) → field.now ≢ keyword k) ] }
{
    match field {
        b"rule" => Some(Kind::Rule),
        b"alias" => Some(Kind::Alias),
        b"filler" => Some(Kind::Filler),
        _ => None,
    }
}

// A line by its kind and its fields; the symbols are still parted by tabs.
#[derive(Clone, Copy)]
pub enum Parsed<'a> {
    Rule(&'a [u8], &'a [u8], &'a [u8]),
    Alias(&'a [u8], &'a [u8]),
    Filler(&'a [u8]),
}

// The line that the bytes mean, or none.
pub(crate) fn read_line(bytes: &[u8]) -> Option<Parsed<'_>>
    ensures { elim result [ Some p ↦ Tells p bytes.now | None ↦ ((ℓ : Line) → Means bytes.now ℓ → ⊥) ] }
{
    let (first, fields) = cut(bytes, b'\t');
    match kind_of(first)? {
        Kind::Rule => {
            let (weight, left, symbols) = rule_fields(fields)?;
            Some(Parsed::Rule(weight, left, symbols))
        }
        Kind::Alias => {
            let (said, meant) = alias_fields(fields)?;
            Some(Parsed::Alias(said, meant))
        }
        Kind::Filler => {
            let word = filler_fields(fields)?;
            Some(Parsed::Filler(word))
        }
    }
}

// The first line of the text and what follows its end; none where no line stands there.
pub(crate) fn next_line(text: &[u8]) -> Option<(Parsed<'_>, &[u8])>
    ensures line { elim result [ Some q ↦ ((line : List ℕ) × (text.now ≡ line ++ (10 ∷ q.1.now)) × Tells q.0 line) | None ↦ ((ℓ : Line) (after : List ℕ) → text.now ≡ written ℓ ++ (10 ∷ after) → Well ℓ → ⊥) ] }
    ensures unique { OneMeaning }
{
    let (line, rest) = cut(text, b'\n');
    let (_, after) = rest.split_first()?;
    let parsed = read_line(line)?;
    Some((parsed, after))
}
