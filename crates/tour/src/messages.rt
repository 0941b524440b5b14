// What is printed of messages: their runs, their words after each layer, their table at a seat, and their reading.
use super::columns::show_filling;
use super::overview::{show_bytes, show_numbered};
use super::runs::{codes_of, show_run};
use answers::input::next_message;
use grammar::sheet::Sheet;
use sources::alias::Alias;
use sources::filler::Filler;
use sources::pile::pile;
use sources::source::Source;
use sources::text::Text;
use std::io;

// A run is what stands between spaces; those between two spaces, or at an end, are empty.
fn show_runs(rt: &impl Print, message: &[u8]) -> io::Result<()> {
    let mut place = 0usize;
    for run in message.split(|b| *b == b' ') {
        if !run.is_empty() {
            print!(rt; "\n  run at {place}: ")?;
            show_bytes(rt, run)?;
        }
        place = place.saturating_add(run.len()).saturating_add(1);
    }
    println!(rt; "")
}

fn show_source<S: Source + Drop>(rt: &impl Print, sheet: &Sheet, mut source: S) -> io::Result<()> {
    loop {
        match source.next() {
            Ok(Some(heard)) => {
                print!(rt; " {}:", heard.place)?;
                show_numbered(rt, sheet.words(), heard.word)?;
            }
            Ok(None) => return println!(rt; " end"),
            Err(fault) => return println!(rt; " {fault}"),
        }
    }
}

fn show_layers<'a>(rt: &impl Print, sheet: &'a Sheet, message: &'a [u8]) -> io::Result<()> {
    let text = match Text::over(sheet, message) {
        Ok(text) => text,
        Err(fault) => return println!(rt; "{fault}"),
    };
    print!(rt; "  words:")?;
    show_source(rt, sheet, text)?;
    print!(rt; "  meant:")?;
    show_source(rt, sheet, Alias::over(sheet, text))?;
    print!(rt; "  heard:")?;
    match pile(sheet, message) {
        Ok(pile) => show_source(rt, sheet, pile),
        Err(fault) => println!(rt; "{fault}"),
    }
}

// A message that is too long has been refused above.
fn show_seat<'a>(
    rt: &(impl Print + AllocGlobal),
    sheet: &'a Sheet,
    hall: &mut [u64],
    message: &'a [u8],
) -> io::Result<()> {
    if let Ok(pile) = pile(sheet, message) {
        show_filling(rt, sheet, hall, pile)?;
    }
    if let Ok(pile) = pile(sheet, message) {
        let codes = codes_of(rt.alloc(), pile)?;
        show_run(rt, sheet, hall, codes.as_slice())?;
    }
    Ok(())
}

fn show_message(
    rt: &(impl Print + AllocGlobal),
    sheet: &Sheet,
    hall: &mut [u64],
    message: &[u8],
) -> io::Result<()> {
    print!(rt; "message \"")?;
    show_bytes(rt, message)?;
    print!(rt; "\"")?;
    show_runs(rt, message)?;
    show_layers(rt, sheet, message)?;
    show_seat(rt, sheet, hall, message)
}

pub(crate) fn show_messages(
    rt: &(impl Print + AllocGlobal),
    sheet: &Sheet,
    hall: &mut [u64],
    messages: &[u8],
) -> io::Result<()> {
    let mut rest = messages;
    while let Some((message, after)) = next_message(rest) {
        show_message(rt, sheet, hall, message)?;
        rest = after;
    }
    Ok(())
}
