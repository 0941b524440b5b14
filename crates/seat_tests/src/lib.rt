// Tests of the hall: the worked example, the refusals, and halls of any numbers.
#![tactic(auto)]

use faults::Fault;
use grammar::sheet::Sheet;
use seats::hearing::hear_message;
use sheets::load;

#[cfg(test)]
mod garbage;
#[cfg(test)]
mod limits;
#[cfg(test)]
mod worked;

// hold is word 0, the is word 1, lathe is word 2.
pub const LATHE: &[u8] =
    b"rule\t0\tGo\thold\tOpt\tTool\nrule\t0\tOpt\nrule\t1\tOpt\tthe\nrule\t2\tOpt\tOpt\nrule\t0\tTool\tlathe\nrule\t3\tTool\tOpt\tlathe\n";

// Any number of x.
pub const ROW: &[u8] = b"rule\t0\tA\tA\tx\nrule\t0\tA\tx\nfiller\tplease\n";

// The sheet of a text that loads; the blank one of any other.
pub(crate) fn sheet_of(text: &[u8]) -> Sheet {
    load::sheet_of(text).unwrap_or_else(|_| Sheet::blank())
}

// An answer by its number and place, or the count with the number 0.
pub(crate) fn told(answer: Result<usize, Fault>) -> (u8, usize, u8) {
    match answer {
        Ok(count) => (0, count, 0),
        Err(fault) => (fault.refusal.number(), fault.place, fault.layer.number()),
    }
}

// What hearing a message at a seat answers.
pub(crate) fn heard<'a>(
    sheet: &'a Sheet,
    hall: &mut [u64],
    seat: usize,
    message: &'a [u8],
) -> (u8, usize, u8) {
    told(hear_message(sheet, hall, seat, message))
}
