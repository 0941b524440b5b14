// A command sheet.
ghost use Rattle.std.specs.Prelude.{◌≡◌, ℕ, ◌+◌, ◌^◌, ◌<◌, ◌≤◌, length, take};
ghost use Rattle.grammar.specs.Closure.{Nullables};
ghost use Rattle.grammar.specs.Dotted.{dotted, next_name, next_word, first_of, last_of, Marks, Skips};
ghost use Rattle.grammar.specs.Limits.{Treed};

mod make;
mod read;

use super::draft::Draft;
use super::masks::Masks;
pub use make::NoTree;

// A draft that has a rule and whose names have trees, with what the table code asks of it.
#[derive(Drop)]
pub struct Sheet {
    draft: Draft,
    nullable: u64,
    masks: Masks,
    ghost some: { 0 < draft.rules.len },
    ghost treed: { Treed draft.names.len (take draft.rules.len draft.rules.items) },
    ghost nulls: { Nullables (take draft.rules.len draft.rules.items) nullable },
    ghost named: { Marks next_name (take draft.rules.len draft.rules.items) masks.before_name },
    ghost worded: { Marks next_word (take draft.rules.len draft.rules.items) masks.before_word },
    ghost firsts: { Marks first_of (take draft.rules.len draft.rules.items) masks.first },
    ghost lasts: { Marks last_of (take draft.rules.len draft.rules.items) masks.last },
    ghost skips: { Skips (take draft.rules.len draft.rules.items) nullable masks.before_nullable },
    ghost fitting: { length (dotted (take draft.rules.len draft.rules.items)) ≤ 256 },
}
