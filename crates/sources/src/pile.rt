// The server's pile: filler over alias over text.
ghost use Rattle.std.specs.Prelude.{◌≡◌, ◌<◌, ◌≤◌, length, Ok, Err};
ghost use Rattle.faults.specs.declared.Layer.TheVariants.{Text as TextLayer};
ghost use Rattle.faults.specs.declared.Refusal.TheVariants.{MessageTooLong};
ghost use Rattle.faults.specs.Faults.{told, met};
ghost use Rattle.sources.specs.Values.{pile_means};
ghost use Rattle.sources.specs.Piles.{piled};

use super::alias::Alias;
use super::filler::Filler;
use super::text::Text;
use faults::Fault;
use grammar::sheet::Sheet;

// The words of the message that the server hears.
pub fn pile<'a>(sheet: &'a Sheet, message: &'a [u8]) -> Result<Filler<Alias<Text<'a>>>, Fault>
    ensures { elim result [ Ok p ↦ (length message.now ≤ 512) × (pile_means p ≡ piled sheet.now message.now) | Err f ↦ (512 < length message.now) × (told f ≡ met MessageTooLong 0 TextLayer) ] }
{
    let text = Text::over(sheet, message)?;
    Ok(Filler::over(sheet, Alias::over(sheet, text)))
}
