// The lines that a sheet has in a case: names, words, rules, aliases and sets, by number.
use faults::Fault;
use grammar::sheet::Sheet;
use grammar::{Rule, Spelling, Symbol};
use std::alloc::AllocError;

pub(crate) fn push_fault(out: &mut String, fault: Fault) -> Result<(), AllocError> {
    let number = fault.refusal.number();
    let place = fault.place;
    let layer = fault.layer.number();
    writeln!(out, "refused {number} {place} {layer}")
}

// Byte by byte, as bytes of any kind are written.
fn push_spelling(out: &mut String, spelling: &Spelling) -> Result<(), AllocError> {
    write!(out, " ")?;
    for b in spelling.as_bytes() {
        write!(out, "{}", char::from(*b))?;
    }
    Ok(())
}

fn push_spellings(out: &mut String, title: &str, spellings: &[Spelling]) -> Result<(), AllocError> {
    write!(out, "{title}")?;
    for spelling in spellings {
        push_spelling(out, spelling)?;
    }
    writeln!(out)
}

fn push_rule(out: &mut String, rule: &Rule) -> Result<(), AllocError> {
    write!(out, "rule {} N{}", rule.weight, rule.left)?;
    for symbol in rule.symbols.iter().take(rule.len as usize) {
        match *symbol {
            Symbol::Name(name) => write!(out, " N{name}")?,
            Symbol::Word(word) => write!(out, " w{word}")?,
        }
    }
    writeln!(out)
}

fn push_rules(out: &mut String, sheet: &Sheet) -> Result<(), AllocError> {
    for rule in sheet.rules() {
        push_rule(out, rule)?;
    }
    Ok(())
}

fn push_aliases(out: &mut String, sheet: &Sheet) -> Result<(), AllocError> {
    for alias in sheet.aliases() {
        writeln!(out, "alias {} {}", alias.said, alias.meant)?;
    }
    Ok(())
}

// A bit for each name that can yield nothing.
fn nullable_bits(sheet: &Sheet) -> u32 {
    (0..32u8)
        .filter(|name| sheet.is_nullable(*name))
        .fold(0, |bits, name| bits | 1u32.wrapping_shl(u32::from(name)))
}

pub(crate) fn push_sheet(out: &mut String, sheet: &Sheet) -> Result<(), AllocError> {
    push_spellings(out, "names", sheet.names())?;
    push_spellings(out, "words", sheet.words())?;
    push_rules(out, sheet)?;
    push_aliases(out, sheet)?;
    writeln!(
        out,
        "fillers {} nullable {}",
        sheet.fillers(),
        nullable_bits(sheet)
    )
}
