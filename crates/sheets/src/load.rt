// A text becomes a sheet.
ghost use Rattle.std.specs.Prelude.{◌≡◌, ℕ, ◌+◌, ◌<◌, ◌≤◌, List, length, Ok, Err};
ghost use Rattle.faults.specs.Faults.{told, met};
ghost use Rattle.faults.specs.declared.Layer.TheVariants.{Load};
ghost use Rattle.faults.specs.declared.Refusal.TheVariants.{NoTree as NoTreeRefusal};
ghost use Rattle.sheets.specs.Lines.{Line};
ghost use Rattle.sheets.specs.Texts.{Ordered, Refused, Loaded};
ghost use Rattle.sheets.specs.inner.Drafting.{Drafted};

use super::adding::add_line;
use super::lines::next_line;
use faults::{Fault, Layer, Refusal};
use grammar::draft::Draft;
use grammar::sheet::{NoTree, Sheet};

// The longest text of a sheet.
const LONGEST: usize = 16384;

// A fault of the loader; `Fault::new` is for any layer.
fn refused(refusal: Refusal, place: usize) -> Fault
    ensures { told result ≡ met refusal place Load }
{
    Fault::new(refusal, place, Layer::Load)
}

// The draft of all lines.
fn read_lines(text: &[u8]) -> Result<Draft, Fault>
    requires { length text.now ≤ 16384 }
    ensures { elim result [ Ok d ↦ ((ls : List Line) × Ordered text.now ls × Drafted ls d) | Err f ↦ Refused text.now (told f) ] }
{
    let mut draft = Draft::new();
    let mut rest = text;
    // Counted beside the rest: what is left after a line is known only once the line is read.
    let mut number = 0;
    while !rest.is_empty() {
        number += 1;
        let (parsed, after) = next_line(rest).ok_or(refused(Refusal::LineShape, number))?;
        add_line(&mut draft, parsed).map_err(|bar| refused(bar.into(), number))?;
        rest = after;
    }
    Ok(draft)
}

// The draft of a text that has a rule.
fn draft_of(text: &[u8]) -> Result<Draft, Fault>
    ensures { elim result [ Ok d ↦ (0 < d.rules.len) × (length text.now ≤ 16384) × ((ls : List Line) × Ordered text.now ls × Drafted ls d) | Err f ↦ Refused text.now (told f) ] }
{
    if text.len() > LONGEST {
        return Err(refused(Refusal::SheetTooLong, 0));
    }
    let draft = read_lines(text)?;
    if draft.rules.len == 0 {
        return Err(refused(Refusal::NoRule, 0));
    }
    Ok(draft)
}

// The refusal of a draft with a name that has no tree.
fn treeless(lowest: NoTree) -> Fault
    ensures { told result ≡ met NoTreeRefusal lowest.name Load }
{
    refused(Refusal::NoTree, lowest.name as usize)
}

// The sheet that the text means. Made from its draft: a blank one to load into would stand on the stack beside it.
pub fn sheet_of(text: &[u8]) -> Result<Sheet, Fault>
    ensures { elim result [ Ok sheet ↦ Loaded text.now sheet | Err fault ↦ Refused text.now (told fault) ] }
{
    Sheet::of(draft_of(text)?).map_err(treeless)
}

// The sheet that the text means takes this one's place; a refusal leaves it.
pub fn load(text: &[u8], sheet: &mut Sheet) -> Result<(), Fault>
    ensures { elim result [ Ok u ↦ Loaded text.now sheet.new | Err f ↦ Refused text.now (told f) × (sheet.new ≡ sheet.old) ] }
{
    sheet.replace(draft_of(text)?).map_err(treeless)
}
