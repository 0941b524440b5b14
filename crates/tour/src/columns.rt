// What is printed of a seat as its table fills.
// The hall is lent for change in some functions and for a look in others, so it goes beside the sheet and in no struct.
use super::overview::{show_dotted, show_numbered};
use grammar::Rule;
use grammar::sheet::Sheet;
use items::Items;
use items::few::holds;
use seats::calls::{clear, held, offer, record, say};
use sources::source::Source;
use std::io;
use tables::cell_items;

// The dotted places of cell (i, j).
#[derive(Clone, Copy)]
struct Cell {
    i: usize,
    j: usize,
    items: Items,
}

// The rule's dotted places that stand in the cell.
fn show_rule_in(
    rt: &impl Print,
    sheet: &Sheet,
    rule: &Rule,
    first: u16,
    cell: Cell,
) -> io::Result<()> {
    for dot in 0..rule.len as usize + 1 {
        let place = u8::try_from(first as usize + dot);
        if place.is_ok_and(|place| cell.items.has(place)) {
            print!(rt; "    cell ({}, {}): ", cell.i, cell.j)?;
            show_dotted(rt, sheet, rule, dot)?;
            println!(rt; "")?;
        }
    }
    Ok(())
}

fn show_cell(rt: &impl Print, sheet: &Sheet, cell: Cell) -> io::Result<()> {
    for (rule, first) in sheet.rules().iter().zip(sheet.first_places()) {
        show_rule_in(rt, sheet, rule, *first, cell)?;
    }
    Ok(())
}

// The cells of the last column; the seat is the hall's first, and its record ends with the table.
fn show_cells(rt: &impl Print, sheet: &Sheet, hall: &[u64], count: usize) -> io::Result<()> {
    let own = match record(sheet, hall, 0) {
        Ok(own) => own,
        Err(fault) => return println!(rt; "{fault}"),
    };
    let table = own.last_chunk().unwrap();
    let j = count.min(20);
    for i in 0..j + 1 {
        let items = cell_items(table, i, j);
        show_cell(rt, sheet, Cell { i, j, items })?;
    }
    Ok(())
}

// The last column, and what is held and offered.
fn show_column(rt: &impl Print, sheet: &Sheet, hall: &[u64], count: usize) -> io::Result<()> {
    show_cells(rt, sheet, hall, count)?;
    match held(sheet, hall, 0) {
        Ok(bits) => print!(rt; "    held {bits}, offered:")?,
        Err(fault) => return println!(rt; "{fault}"),
    }
    match offer(sheet, hall, 0) {
        Ok(words) => show_offer(rt, sheet, words),
        Err(fault) => println!(rt; "{fault}"),
    }
}

fn show_offer(rt: &impl Print, sheet: &Sheet, words: u64) -> io::Result<()> {
    for w in (0..64u8).filter(|w| holds(words, *w)) {
        print!(rt; " ")?;
        show_numbered(rt, sheet.words(), w)?;
    }
    println!(rt; "")
}

fn show_say(rt: &impl Print, sheet: &Sheet, hall: &mut [u64], word: u8) -> io::Result<bool> {
    print!(rt; "  say ")?;
    show_numbered(rt, sheet.words(), word)?;
    print!(rt; ": ")?;
    match say(sheet, hall, 0, word) {
        Ok(count) => {
            println!(rt; "{count} standing")?;
            show_column(rt, sheet, hall, count)?;
            Ok(true)
        }
        Err(fault) => {
            println!(rt; "{fault}")?;
            Ok(false)
        }
    }
}

// Says the source's words at the first seat, one by one, and shows each column.
pub(crate) fn show_filling<S: Source + Drop>(
    rt: &impl Print,
    sheet: &Sheet,
    hall: &mut [u64],
    mut source: S,
) -> io::Result<()> {
    if let Err(fault) = clear(sheet, hall, 0) {
        return println!(rt; "{fault}");
    }
    println!(rt; "  nothing said")?;
    show_column(rt, sheet, hall, 0)?;
    while let Ok(Some(heard)) = source.next() {
        if !show_say(rt, sheet, hall, heard.word)? {
            return Ok(());
        }
    }
    Ok(())
}
