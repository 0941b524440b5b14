// The line for one message.
ghost use Rattle.std.specs.Prelude.{◌≡◌, ℕ, ◌≤◌, List, ◌++◌, length, Ok, Err, OnOk};
ghost use Rattle.faults.specs.Faults.{told};
ghost use Rattle.seats.specs.Seats.{Seat, seat};
ghost use Rattle.answers.specs.Lines.{refused_line};
ghost use Rattle.replies.specs.Replies.{Reply};
ghost use Rattle.replies.specs.inner.Answering.{ReadBy, AnswerLine, line_of};

use crate::answer::Answer;
use crate::fault::push_fault;
use answers::lines::push_read;
use faults::Fault;
use grammar::sheet::Sheet;
use reader::read::read;
use readings::read::Reading;
use readings::scale::{Points, Scale, Worst};
use seats::hearing::hear;
use sources::pile::pile;
use std::alloc::AllocError;

// Reads the words at the first seat by a scale.
fn read_by<C: Scale>(
    sheet: &Sheet,
    hall: &[u64],
    list: &mut [u8; 10240],
    prices: &mut [C::Price; 8192],
) -> Result<Reading<C::Price>, Fault>
    requires { length hall.now ≡ 3780 }
    ensures { (ws : List ℕ) → Seat sheet.now ws (seat hall.now 0) → ReadBy sheet.now C.Scale.measure ws list.new result }
{
    read::<C>(sheet, hall, 0, list, prices, &mut [0; 8192])
}

// Both readings of the words at the first seat, which answer or refuse together; the form by points is left in the list.
fn read_both(sheet: &Sheet, hall: &[u64], list: &mut [u8; 10240]) -> Result<Answer, Fault>
    requires long { length hall.now ≡ 3780 }
    requires seated { (ws : List ℕ) × Seat sheet.now ws (seat hall.now 0) }
    ensures { (ws : List ℕ) → Seat sheet.now ws (seat hall.now 0) → AnswerLine sheet.now ws (line_of list.new result) }
{
    let worst = read_by::<Worst>(sheet, hall, list, &mut [0; 8192])?;
    let points = read_by::<Points>(sheet, hall, list, &mut [0; 8192])?;
    Ok(Answer {
        points: points.price,
        worst: worst.price,
        length: points.length,
    })
}

// The line for a message that is answered, heard at a hall that nothing else sees; or why it is refused, with nothing written.
fn push_answer<'a>(
    sheet: &'a Sheet,
    message: &'a [u8],
    out: &mut Vec<u8>,
) -> Result<Result<(), AllocError>, Fault>
    ensures { elim result [ Ok pushed ↦ OnOk pushed ((line : List ℕ) × Reply sheet.now message.now line × (out.new.items ≡ out.old.items ++ line)) | Err f ↦ Reply sheet.now message.now (refused_line (told f).number (told f).place) × (out.new ≡ out.old) ] }
{
    let mut pile = pile(sheet, message)?;
    let mut hall = [0u64; 3780];
    hear(sheet, &mut hall, 0, &mut pile)?;
    // Only now: most of the work for a refused message would be to clear it.
    let mut list = [0u8; 10240];
    let answer = read_both(sheet, &hall, &mut list)?;
    let form = &list[..answer.length];
    Ok(push_read(out, answer.points, answer.worst, form))
}

// The line for a message.
pub fn reply<'a>(sheet: &'a Sheet, message: &'a [u8], out: &mut Vec<u8>) -> Result<(), AllocError>
    ensures { OnOk result ((line : List ℕ) × Reply sheet.now message.now line × (out.new.items ≡ out.old.items ++ line)) }
{
    match push_answer(sheet, message, out) {
        Ok(pushed) => pushed,
        Err(fault) => push_fault(out, fault),
    }
}
