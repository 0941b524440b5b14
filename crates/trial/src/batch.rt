// A batch of cases: each is answered anew by the library, and compared with what is written.
use super::decoding::decoded;
use super::seat_lines::{hear_codes, push_heard};
use super::sheet_lines::{push_fault, push_sheet};
use super::views::View;
use faults::Fault;
use grammar::sheet::Sheet;
use seats::calls::open;
use seats::hearing::hear_message;
use sheets::load::load;
use std::alloc::{AllocError, Global};
use std::io;

// The case at hand: what is written, and what the library answers to its sheets and messages.
#[derive(Drop)]
struct Case {
    heap: Global,
    sheet: Sheet,
    hall: Vec<u64>,
    heard: usize,
    written: String,
    found: String,
}

impl Case {
    // A case begins with the blank sheet and an open hall.
    fn new(heap: Global) -> Result<Case, AllocError> {
        let sheet = Sheet::blank();
        let mut hall = vec![in heap; 0u64; 3780]?;
        let _ = open(&sheet, hall.as_mut_slice());
        Ok(Case {
            heap,
            sheet,
            hall,
            heard: 0,
            written: String::new(heap),
            found: String::new(heap),
        })
    }

    // A refused text leaves the sheet that was there; the hall is opened either way.
    fn answer_sheet(&mut self, text: &str) -> Result<(), AllocError> {
        let bytes = decoded(self.heap, text)?;
        match load(bytes.as_slice(), &mut self.sheet) {
            Ok(()) => push_sheet(&mut self.found, &self.sheet)?,
            Err(fault) => push_fault(&mut self.found, fault)?,
        }
        let _ = open(&self.sheet, self.hall.as_mut_slice());
        Ok(())
    }

    // The four seats hear in turn.
    fn answer_hearing<F>(&mut self, text: &str, hear: F) -> Result<(), AllocError>
    where
        F: FnOnce(&Sheet, &mut [u64], usize, &[u8]) -> Result<usize, Fault>,
        requires { F.IsAlwaysCallable hear }
    {
        let bytes = decoded(self.heap, text)?;
        let seat = self.heard % 4;
        let answer = hear(
            &self.sheet,
            self.hall.as_mut_slice(),
            seat,
            bytes.as_slice(),
        );
        let view = View {
            sheet: &self.sheet,
            hall: self.hall.as_slice(),
            seat,
        };
        push_heard(self.heap, &mut self.found, view, answer)?;
        self.heard = self.heard.wrapping_add(1);
        Ok(())
    }

    // What is loaded or heard is copied and answered; the answers written after it are only kept.
    fn take_line(&mut self, line: &str) -> Result<(), AllocError> {
        writeln!(self.written, "{line}")?;
        match line.split_once(' ') {
            Some(("sheet", text)) => {
                writeln!(self.found, "{line}")?;
                self.answer_sheet(text)
            }
            Some(("message", text)) => {
                writeln!(self.found, "{line}")?;
                self.answer_hearing(text, |sheet, hall, seat, message| {
                    hear_message(sheet, hall, seat, message)
                })
            }
            Some(("codes", text)) => {
                writeln!(self.found, "{line}")?;
                self.answer_hearing(text, hear_codes)
            }
            _ => Ok(()),
        }
    }
}

fn show_difference(rt: &HostRuntime, number: u64, case: &Case) -> io::Result<()> {
    println!(rt; "case {number} differs; it says")?;
    print!(rt; "{}", case.written)?;
    println!(rt; "and the library answers")?;
    print!(rt; "{}", case.found)
}

// A case ends with an empty line. Two counts that go up at different lines are no enumerate, and no bound is known of them.
pub(crate) fn show_batch(rt: &HostRuntime, title: &str, text: &str) -> io::Result<()> {
    let mut case = Case::new(rt.alloc())?;
    let mut count = 0u64;
    let mut agreeing = 0u64;
    for line in text.lines() {
        if !line.is_empty() {
            case.take_line(line)?;
            continue;
        }
        count = count.wrapping_add(1);
        if case.written == case.found {
            agreeing = agreeing.wrapping_add(1);
        } else {
            show_difference(rt, count, &case)?;
        }
        case = Case::new(rt.alloc())?;
    }
    println!(rt; "{title}: {agreeing} of {count} cases agree")
}
