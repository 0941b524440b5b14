// What is printed of a sheet: its names, words and rules by their numbers, and its dotted places.
use grammar::sheet::Sheet;
use grammar::{Rule, Spelling, Symbol};
use items::few::holds;
use std::io;

// Each byte as the character of its number.
pub(crate) fn show_bytes(rt: &impl Print, bytes: &[u8]) -> io::Result<()> {
    for b in bytes {
        print!(rt; "{}", char::from(*b))?;
    }
    Ok(())
}

fn show_spelling(rt: &impl Print, spelling: &Spelling) -> io::Result<()> {
    show_bytes(rt, spelling.as_bytes())
}

// A name or a word by its number; the sheet lists every number that it holds.
pub(crate) fn show_numbered(rt: &impl Print, spellings: &[Spelling], number: u8) -> io::Result<()> {
    match spellings.get(number as usize) {
        Some(spelling) => show_spelling(rt, spelling),
        None => Ok(()),
    }
}

fn show_symbol(rt: &impl Print, sheet: &Sheet, symbol: Symbol) -> io::Result<()> {
    match symbol {
        Symbol::Name(a) => show_numbered(rt, sheet.names(), a),
        Symbol::Word(w) => show_numbered(rt, sheet.words(), w),
    }
}

// The rule with a dot before symbol `dot`; past the last symbol the dot stands at the end.
pub(crate) fn show_dotted(
    rt: &impl Print,
    sheet: &Sheet,
    rule: &Rule,
    dot: usize,
) -> io::Result<()> {
    show_numbered(rt, sheet.names(), rule.left)?;
    print!(rt; " ->")?;
    for (k, symbol) in rule.symbols.iter().take(rule.len as usize).enumerate() {
        if k == dot {
            print!(rt; " .")?;
        }
        print!(rt; " ")?;
        show_symbol(rt, sheet, *symbol)?;
    }
    if dot == rule.len as usize {
        print!(rt; " .")?;
    }
    Ok(())
}

fn show_names(rt: &impl Print, sheet: &Sheet) -> io::Result<()> {
    for (a, name) in (0..32u8).zip(sheet.names()) {
        print!(rt; "name {a}: ")?;
        show_spelling(rt, name)?;
        if sheet.is_nullable(a) {
            print!(rt; ", which can stand for no words")?;
        }
        println!(rt; "")?;
    }
    Ok(())
}

fn show_words(rt: &impl Print, sheet: &Sheet) -> io::Result<()> {
    let fillers = sheet.fillers();
    for (w, word) in (0u8..64).zip(sheet.words()) {
        print!(rt; "word {w}: ")?;
        show_spelling(rt, word)?;
        if holds(fillers, w) {
            print!(rt; ", a filler")?;
        }
        println!(rt; "")?;
    }
    Ok(())
}

fn show_aliases(rt: &impl Print, sheet: &Sheet) -> io::Result<()> {
    for alias in sheet.aliases() {
        print!(rt; "alias: ")?;
        show_numbered(rt, sheet.words(), alias.said)?;
        print!(rt; " means ")?;
        show_numbered(rt, sheet.words(), alias.meant)?;
        println!(rt; "")?;
    }
    Ok(())
}

// The rule and its dotted places, by their numbers.
fn show_rule(rt: &impl Print, sheet: &Sheet, rule: &Rule, first: u16) -> io::Result<()> {
    for dot in 0..rule.len as usize + 1 {
        print!(rt; "  place {}: ", first as usize + dot)?;
        show_dotted(rt, sheet, rule, dot)?;
        println!(rt; "")?;
    }
    Ok(())
}

fn show_rules(rt: &impl Print, sheet: &Sheet) -> io::Result<()> {
    let placed = sheet.rules().iter().zip(sheet.first_places());
    for (number, (rule, first)) in (1..129u8).zip(placed) {
        println!(rt; "rule {number}, weight {}", rule.weight)?;
        show_rule(rt, sheet, rule, *first)?;
    }
    Ok(())
}

pub(crate) fn show_sheet(rt: &impl Print, sheet: &Sheet) -> io::Result<()> {
    show_names(rt, sheet)?;
    show_words(rt, sheet)?;
    show_aliases(rt, sheet)?;
    show_rules(rt, sheet)
}
