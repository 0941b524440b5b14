// What a sheet holds, by its meaning.
ghost use Rattle.std.specs.Prelude.{◌≡◌, ℕ, ◌+◌, ◌^◌, ◌<◌, ◌≤◌, true, ◌↔◌, length, take, slice_index};
ghost use Rattle.grammar.specs.Grammar.{places};
ghost use Rattle.grammar.specs.Closure.{Empties, HasTree};
ghost use Rattle.grammar.specs.Masked.{Masked};
ghost use Rattle.grammar.specs.View.{rules_of, grammar_of, names_in, words_in, aliases_in, fillers_in};

use super::super::masks::Masks;
use super::super::shelf::Shelf;
use super::super::{Alias, Rule, Spelling};
use super::Sheet;
use items::few::holds;

impl Sheet {
    // The rules, in their order.
    pub fn rules(&self) -> &[Rule]
        ensures { result.now ≡ rules_of self.now }
    {
        self.draft.rules.as_slice()
    }

    // The names, by their numbers.
    pub fn names(&self) -> &[Spelling]
        ensures { result.now ≡ take self.now.draft.names.len self.now.draft.names.items }
    {
        self.draft.names.as_slice()
    }

    // How many names there are.
    pub fn name_count(&self) -> u8
        ensures is { result ≡ self.now.draft.names.len }
        ensures few { result ≤ 32 }
    {
        self.draft.names.len as u8
    }

    // The name that commands start from.
    pub fn start(&self) -> u8
        ensures is { result ≡ (grammar_of self.now).start }
        ensures low { result < 32 }
    {
        self.draft.rules.items[0].left
    }

    // The words, by their numbers.
    pub fn words(&self) -> &[Spelling]
        ensures { result.now ≡ take self.now.draft.words.len self.now.draft.words.items }
    {
        self.draft.words.as_slice()
    }

    // How many words there are.
    pub fn word_count(&self) -> u8
        ensures { result ≡ length (words_in self.now) }
    {
        self.draft.words.len as u8
    }

    // The aliases, in their order.
    pub fn aliases(&self) -> &[Alias]
        ensures { result.now ≡ aliases_in self.now }
    {
        self.draft.aliases.as_slice()
    }

    // The aliases, copied.
    pub fn alias_table(&self) -> Shelf<Alias, 16>
        ensures { take result.len result.items ≡ aliases_in self.now }
    {
        self.draft.aliases
    }

    // The filler words, a bit for each.
    pub fn fillers(&self) -> u64
        ensures { result ≡ fillers_in self.now }
    {
        self.draft.fillers
    }

    // Whether the name can yield no words.
    pub fn is_nullable(&self, a: u8) -> bool
        ensures { (result ≡ true) ↔ Empties (rules_of self.now) a }
    {
        holds(self.nullable, a)
    }

    // The sets of dotted places.
    pub fn masks(&self) -> &Masks
        ensures { Masked (rules_of self.now) self.now.nullable result.now }
    {
        &self.masks
    }

    // Every name of a sheet has a tree: what the type keeps, for callers to cite.
    pub fn every_name_has_a_tree(&self)
        ensures { (a : ℕ) → a < length (names_in self.now) → HasTree (rules_of self.now) a }
    {}

    // The first dotted place of each rule, and after them how many places there are.
    pub fn first_places(&self) -> &[u16]
        ensures count { length result.now ≡ length (rules_of self.now) + 1 }
        ensures places { (k : ℕ) → k ≤ length (rules_of self.now) → slice_index result.now k ≡ places (take k (rules_of self.now)) }
    {
        &self.draft.starts[0..self.draft.rules.len + 1]
    }
}
