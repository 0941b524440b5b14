// The blank sheet, and the sheet that a draft becomes.
ghost use Rattle.std.specs.Prelude.{◌≡◌, ℕ, ◌+◌, ◌^◌, ◌<◌, ◌≤◌, Ok, Err};
ghost use Rattle.grammar.specs.inner.Drafts.{Kept, Lowest};
ghost use Rattle.grammar.specs.View.{Blank};

use super::super::closure::{nullable_names, treeless_name};
use super::super::draft::Draft;
use super::super::masks::Masks;
use super::super::shelf::Shelf;
use super::super::{Alias, Rule, Spelling};
use super::Sheet;

// The lowest name that has no tree.
#[derive(Clone, Copy, PartialEq, Eq, Debug)]
pub struct NoTree {
    pub name: u8,
}

impl Sheet {
    // One rule, weight 0, name `A`, no symbols.
    pub fn blank() -> Self
        ensures { Blank result }
    {
        let mut names = [Spelling::EMPTY; 32];
        names[0] = Spelling {
            len: 1,
            bytes: [65, 0, 0, 0, 0, 0, 0, 0, 0, 0, 0, 0, 0, 0, 0],
        };
        let mut starts = [0; 129];
        starts[1] = 1;
        let rules = [Rule::EMPTY; 128];
        let masks = Masks::of(&rules[0..1], 1);
        Sheet {
            draft: Draft {
                rules: Shelf {
                    items: rules,
                    len: 1,
                },
                names: Shelf {
                    items: names,
                    len: 1,
                },
                words: Shelf::new(Spelling::EMPTY),
                aliases: Shelf::new(Alias { said: 0, meant: 0 }),
                starts,
                fillers: 0,
            },
            nullable: 1,
            masks,
        }
    }

    // The draft's sheet, or the lowest name without a tree.
    pub fn of(draft: Draft) -> Result<Sheet, NoTree>
        requires { 0 < draft.rules.len }
        ensures { elim result [ Ok s ↦ Kept draft s | Err e ↦ Lowest draft e.name ] }
    {
        let rules = draft.rules.as_slice();
        if let Some(name) = treeless_name(rules, draft.names.len as u8) {
            return Err(NoTree { name });
        }
        let nullable = nullable_names(rules);
        let masks = Masks::of(rules, nullable);
        Ok(Sheet {
            draft,
            nullable,
            masks,
        })
    }

    // The draft's sheet takes this one's place; a refusal leaves it.
    pub fn replace(&mut self, draft: Draft) -> Result<(), NoTree>
        requires { 0 < draft.rules.len }
        ensures { elim result [ Ok u ↦ Kept draft self.new | Err e ↦ Lowest draft e.name × (self.new ≡ self.old) ] }
    {
        *self = Sheet::of(draft)?;
        Ok(())
    }
}
