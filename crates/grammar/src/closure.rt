// Which names have trees: a closure over the rules.
ghost use Rattle.std.specs.Prelude.{◌≡◌, ℕ, ◌+◌, ◌^◌, ◌<◌, ◌≤◌, length};
ghost use Rattle.grammar.specs.Grammar.{right};
ghost use Rattle.grammar.specs.Closure.{AllFormed, Nullables};
ghost use Rattle.grammar.specs.inner.Closing.{known, all_known, Closed, Backed, Exactly, Treeless};

use super::{Rule, Symbol};
use items::few::{holds, with};

// Whether the name is in the set; words are known or not, all alike.
fn is_known(symbol: Symbol, set: u64, words: bool) -> bool
    ensures { result ≡ known set words symbol }
{
    match symbol {
        Symbol::Name(a) => holds(set, a),
        Symbol::Word(_) => words,
    }
}

// Whether every symbol on the rule's right side is known.
fn is_ready(rule: &Rule, set: u64, words: bool) -> bool
    ensures { result ≡ all_known set words (right rule.now) }
{
    rule.symbols
        .iter()
        .take(rule.len as usize)
        .all(|symbol| is_known(*symbol, set, words))
}

// The set and the left name of each rule whose right side is known.
fn expand(rules: &[Rule], set: u64, words: bool) -> u64
    requires { AllFormed 32 64 rules.now }
    ensures grown { set ≤ result }
    ensures closed { Closed words rules.now set result }
    ensures backed { Backed words rules.now set result }
{
    let mut next = set;
    for rule in rules {
        if is_ready(rule, set, words) {
            next = with(next, rule.left);
        }
    }
    next
}

// The names that have a tree: of any words, or of none.
fn close(rules: &[Rule], words: bool) -> u64
    requires { AllFormed 32 64 rules.now }
    ensures { Exactly words rules.now result }
{
    let mut set = 0;
    loop {
        let next = expand(rules, set, words);
        if next == set {
            return set;
        }
        set = next;
    }
}

// The names that can yield no words.
pub(crate) fn nullable_names(rules: &[Rule]) -> u64
    requires { AllFormed 32 64 rules.now }
    ensures { Nullables rules.now result }
{
    close(rules, false)
}

// The lowest of the first names that has no tree.
pub(crate) fn treeless_name(rules: &[Rule], names: u8) -> Option<u8>
    requires { AllFormed 32 64 rules.now }
    ensures { Treeless rules.now names result }
{
    let set = close(rules, true);
    // Tried as a `find`: the proof does not follow a range's items by their numbers.
    for a in 0..names {
        if !holds(set, a) {
            return Some(a);
        }
    }
    None
}
