// What a sheet holds after its text is read, and that a refused text leaves it.
use grammar::sheet::Sheet;
use grammar::{Spelling, Symbol};
use sheets::load::load;

const TEXT: &[u8] =
    b"filler\tplease\nrule\t3\tGo\thold\tOpt\tTool\nrule\t0\tOpt\nalias\tkeep\thold\nrule\t65535\tTool\tlathe\n";

// Whether the list has a spelling at its place `a`, of these bytes.
fn spells(spellings: &[Spelling], a: usize, bytes: &[u8]) -> bool {
    spellings
        .get(a)
        .is_some_and(|spelling| spelling.as_bytes() == bytes)
}

#[test]
fn numbers_by_first_appearance(rt: HostRuntime) {
    let mut sheet = Sheet::blank();
    assert!(rt; load(TEXT, &mut sheet).is_ok());
    assert_eq!(rt; sheet.names().len(), 3);
    assert!(rt; spells(sheet.names(), 0, b"Go"));
    assert!(rt; spells(sheet.names(), 1, b"Opt"));
    assert!(rt; spells(sheet.names(), 2, b"Tool"));
    assert_eq!(rt; sheet.words().len(), 4);
    assert!(rt; spells(sheet.words(), 0, b"please"));
    assert!(rt; spells(sheet.words(), 1, b"hold"));
    assert!(rt; spells(sheet.words(), 2, b"keep"));
    assert!(rt; spells(sheet.words(), 3, b"lathe"));
}

#[test]
fn rules_aliases_and_fillers(rt: HostRuntime) {
    let mut sheet = Sheet::blank();
    assert!(rt; load(TEXT, &mut sheet).is_ok());
    assert_eq!(rt; sheet.fillers(), 1);
    assert_eq!(rt; sheet.rules().len(), 3);
    assert_eq!(rt; sheet.aliases().len(), 1);
    assert!(rt; sheet.is_nullable(1));
    assert!(rt; !sheet.is_nullable(0));
    assert!(rt; !sheet.is_nullable(200));
    let weights = sheet.rules().iter().fold(
        0u32,
        |sum, rule| sum.saturating_add(u32::from(rule.weight)),
    );
    assert_eq!(rt; weights, 65538);
    for alias in sheet.aliases() {
        assert_eq!(rt; (alias.said, alias.meant), (2, 1));
    }
}

#[test]
fn symbols_of_the_first_rule(rt: HostRuntime) {
    let mut sheet = Sheet::blank();
    assert!(rt; load(TEXT, &mut sheet).is_ok());
    assert_eq!(rt; sheet.rules().first().map(|rule| rule.len), Some(3));
    assert!(rt;
        sheet.rules().first().is_some_and(|rule| {
            matches!(
                rule.symbols,
                [Symbol::Word(1), Symbol::Name(1), Symbol::Name(2), ..]
            )
        })
    );
}

#[test]
fn a_refused_text_leaves_the_sheet(rt: HostRuntime) {
    let mut sheet = Sheet::blank();
    assert!(rt; load(TEXT, &mut sheet).is_ok());
    assert!(rt; load(b"rule\t0\tA\nfoo\n", &mut sheet).is_err());
    assert_eq!(rt; sheet.rules().len(), 3);
    assert!(rt; spells(sheet.names(), 0, b"Go"));
}

#[test]
fn the_blank_sheet(rt: HostRuntime) {
    let sheet = Sheet::blank();
    assert_eq!(rt; sheet.rules().len(), 1);
    assert_eq!(rt; sheet.words().len(), 0);
    assert!(rt; spells(sheet.names(), 0, b"A"));
    assert!(rt; sheet.is_nullable(0));
}
