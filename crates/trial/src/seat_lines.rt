// The lines of a seat after a hearing: its answer, the words standing, the table, and what is held and offered.
use super::reading_lines::push_readings;
use super::sheet_lines::push_fault;
use super::views::View;
use faults::Fault;
use grammar::sheet::Sheet;
use seats::calls::{held, offer};
use seats::hearing::hear;
use sources::codes::Codes;
use std::alloc::{AllocError, Global};

fn push_words(out: &mut String, words: &[u64]) -> Result<(), AllocError> {
    write!(out, "standing")?;
    for word in words {
        write!(out, " {word}")?;
    }
    writeln!(out)
}

// The numbers of the table that are not 0, by their positions.
fn push_table(out: &mut String, table: &[u64]) -> Result<(), AllocError> {
    write!(out, "table")?;
    for (position, number) in table.iter().enumerate() {
        if *number != 0 {
            write!(out, " {position}:{:x}", *number)?;
        }
    }
    writeln!(out)
}

fn push_held(out: &mut String, view: View<'_>) -> Result<(), AllocError> {
    match held(view.sheet, view.hall, view.seat) {
        Ok(bits) => write!(out, "held {bits} ")?,
        Err(fault) => push_fault(out, fault)?,
    }
    match offer(view.sheet, view.hall, view.seat) {
        Ok(words) => writeln!(out, "offer {words}"),
        Err(fault) => push_fault(out, fault),
    }
}

fn push_answer(out: &mut String, answer: Result<usize, Fault>) -> Result<(), AllocError> {
    match answer {
        Ok(count) => writeln!(out, "heard {count}"),
        Err(fault) => push_fault(out, fault),
    }
}

pub(crate) fn hear_codes(
    sheet: &Sheet,
    hall: &mut [u64],
    seat: usize,
    numbers: &[u8],
) -> Result<usize, Fault> {
    let mut codes = Codes::over(sheet, numbers);
    hear(sheet, hall, seat, &mut codes)
}

pub(crate) fn push_heard(
    heap: Global,
    out: &mut String,
    view: View<'_>,
    answer: Result<usize, Fault>,
) -> Result<(), AllocError> {
    push_answer(out, answer)?;
    push_words(out, view.words())?;
    push_table(out, view.numbers(21, 924))?;
    push_held(out, view)?;
    push_readings(heap, out, view)
}
