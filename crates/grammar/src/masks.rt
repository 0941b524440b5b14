// Sets of dotted places, which the table code meets with whole columns at once.
ghost use Rattle.std.specs.Prelude.{◌≡◌, ℕ, ◌+◌, ◌<◌, ◌≤◌, List, [], ◌∷◌, ◌++◌, length, Some};
ghost use Rattle.grammar.specs.Grammar.{right, places, Counted, Formed};
ghost use Rattle.grammar.specs.Closure.{AllFormed};
ghost use Rattle.grammar.specs.Dotted.{Place, dots, dotted, leading_name, leading_word, among};
ghost use Rattle.grammar.specs.Masked.{Masked};
ghost use Rattle.grammar.specs.inner.Marking.{Held, Joins, Marked, Grown, spot};

use super::{Rule, Symbol};
use items::Items;
use items::few::holds;

#[derive(Clone, Copy)]
pub struct Masks {
    // the dot stands before the name
    pub before_name: [Items; 32],
    // before the word
    pub before_word: [Items; 64],
    // the first places of the name's rules
    pub first: [Items; 32],
    // the last places of the name's rules
    pub last: [Items; 32],
    // the dot stands before a name that can yield nothing
    pub before_nullable: Items,
}

// The place goes into the key's set.
fn mark(sets: &mut [Items], key: u8, place: u8)
    requires { key < length sets.old }
    ensures { Marked (Some key) place sets.old sets.new }
{
    sets[key as usize] = sets[key as usize].with(place);
}

impl Masks {
    // The masks of no rules.
    fn none() -> Masks
        ensures { (names : ℕ) → Held [] names result }
    {
        let none = Items::none();
        Masks {
            before_name: [none; 32],
            before_word: [none; 64],
            first: [none; 32],
            last: [none; 32],
            before_nullable: none,
        }
    }

    // Marks a place with the dot before the symbol.
    fn add_symbol(&mut self, symbol: Symbol, place: u8, nullable: u64)
        requires { Counted 32 64 symbol }
        ensures names { Marked (leading_name (symbol ∷ [])) place self.old.before_name self.new.before_name }
        ensures words { Marked (leading_word (symbol ∷ [])) place self.old.before_word self.new.before_word }
        ensures nullable { Joins (among nullable (leading_name (symbol ∷ []))) place self.old.before_nullable self.new.before_nullable }
        ensures first { self.new.first ≡ self.old.first }
        ensures last { self.new.last ≡ self.old.last }
    {
        match symbol {
            Symbol::Name(a) => {
                mark(&mut self.before_name, a, place);
                if holds(nullable, a) {
                    self.before_nullable = self.before_nullable.with(place);
                }
            }
            Symbol::Word(w) => mark(&mut self.before_word, w, place),
        }
    }

    // Marks the place after k symbols of the rule.
    fn add_place(&mut self, rule: &Rule, k: usize, place: u8, nullable: u64)
        requires formed { Formed 32 64 rule.now }
        requires k_le_len { k ≤ rule.now.len }
        ensures whole { length (right rule.now) ≡ rule.now.len }
        ensures grown { Grown (spot rule.now k) place nullable self.old self.new }
    {
        if k == 0 {
            mark(&mut self.first, rule.left, place);
        }
        if k == rule.len as usize {
            mark(&mut self.last, rule.left, place);
        } else {
            self.add_symbol(rule.symbols[k], place, nullable);
        }
    }

    // Marks the places of one rule more, numbered from `start` on.
    fn add_rule(&mut self, rule: &Rule, start: usize, nullable: u64)
        requires formed { Formed 32 64 rule.now }
        requires len_bound { start + rule.now.len < 256 }
        ensures whole { length (right rule.now) ≡ rule.now.len }
        ensures added { (before : List Place) → length before ≡ start → Held before nullable self.old → Held (before ++ dots rule.now.left [] (right rule.now)) nullable self.new }
    {
        for k in 0..rule.len as usize + 1 {
            self.add_place(rule, k, (start + k) as u8, nullable);
        }
    }

    // The masks of the rules, where these names can yield nothing.
    pub(crate) fn of(rules: &[Rule], nullable: u64) -> Masks
        requires all_formed { AllFormed 32 64 rules.now }
        requires rules_bound { places rules.now ≤ 256 }
        ensures masked { Masked rules.now nullable result }
        ensures fitting { length (dotted rules.now) ≤ 256 }
    {
        let mut masks = Masks::none();
        let mut start = 0;
        for rule in rules {
            masks.add_rule(rule, start, nullable);
            start += rule.len as usize + 1;
        }
        masks
    }
}
