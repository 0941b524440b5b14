// All that the console writes for an input.
ghost use Rattle.std.specs.Prelude.{◌≡◌, ℕ, List, ◌++◌, OnOk};
ghost use Rattle.faults.specs.declared.Refusal.TheVariants.{SheetTooLong};
ghost use Rattle.faults.specs.Faults.{number_of};
ghost use Rattle.answers.specs.Lines.{refused_line};
ghost use Rattle.replies.specs.Replies.{Output};
ghost use Rattle.replies.specs.inner.Answering.{Replied};

use crate::fault::push_fault;
use crate::reply::reply;
use answers::input::{next_message, split_input};
use answers::lines::push_refused;
use faults::Refusal;
use grammar::sheet::Sheet;
use sheets::load::load;
use std::alloc::AllocError;

// The longest input.
const LONGEST: usize = 32768;

// The line of an input that is too long.
fn push_too_long(out: &mut Vec<u8>) -> Result<(), AllocError>
    ensures { OnOk result (out.new.items ≡ out.old.items ++ refused_line (number_of SheetTooLong) 0) }
{
    push_refused(out, Refusal::SheetTooLong.number(), 0)
}

// The lines of the messages, in their order.
fn push_replies(sheet: &Sheet, messages: &[u8], out: &mut Vec<u8>) -> Result<(), AllocError>
    ensures { OnOk result (Replied sheet.now messages.now out.old.items out.new.items) }
{
    let mut rest = messages;
    while let Some((message, after)) = next_message(rest) {
        reply(sheet, message, out)?;
        rest = after;
    }
    Ok(())
}

// A refused sheet has one line, and no message is then answered.
pub fn run(input: &[u8], out: &mut Vec<u8>) -> Result<(), AllocError>
    ensures { OnOk result ((output : List ℕ) × Output input.now output × (out.new.items ≡ out.old.items ++ output)) }
{
    if input.len() > LONGEST {
        return push_too_long(out);
    }
    let (text, messages) = split_input(input);
    let mut sheet = Sheet::blank();
    match load(text, &mut sheet) {
        Ok(()) => push_replies(&sheet, messages, out),
        Err(fault) => push_fault(out, fault),
    }
}
