// The hold-the-lathe sheet, worked through.
use super::{LATHE, heard, sheet_of, told};
use grammar::sheet::Sheet;
use seats::calls::{back, held, offer, open, say};
use std::process::Abort;
use std::test::Fail;

fn expect(
    rt: &impl Abort,
    sheet: &Sheet,
    hall: &[u64],
    bits: usize,
    offered: u64,
) -> Result<(), Fail> {
    assert_eq!(rt; told(held(sheet, hall, 0)), (0, bits, 0));
    match offer(sheet, hall, 0) {
        Ok(words) => {
            assert_eq!(rt; words, offered);
            Ok(())
        },
        Err(_) => {
            assert!(rt; false);
            Ok(())
        },
    }
}

#[test]
fn held_and_offered(rt: HostRuntime) -> Result<(), Fail> {
    let sheet = sheet_of(LATHE);
    let mut hall = vec![in rt.alloc(); 7u64; 3780]?;
    assert_eq!(rt; told(open(&sheet, &mut hall)), (0, 0, 0));
    expect(&rt, &sheet, &hall, 1, 1)?;
    assert_eq!(rt; told(say(&sheet, &mut hall, 0, 0)), (0, 1, 0));
    expect(&rt, &sheet, &hall, 10, 6)?;
    assert_eq!(rt; told(say(&sheet, &mut hall, 0, 1)), (0, 2, 0));
    expect(&rt, &sheet, &hall, 21, 6)?;
    assert_eq!(rt; hall.get(37).copied(), Some(4416));
    assert_eq!(rt; told(say(&sheet, &mut hall, 0, 2)), (0, 3, 0));
    expect(&rt, &sheet, &hall, 25, 0)?;
    assert_eq!(rt; told(back(&sheet, &mut hall, 0)), (0, 2, 0));
    expect(&rt, &sheet, &hall, 21, 6)
}

#[test]
fn messages(rt: HostRuntime) -> Result<(), Fail> {
    let sheet = sheet_of(LATHE);
    let mut hall = vec![in rt.alloc(); 0u64; 3780]?;
    assert_eq!(rt; told(open(&sheet, &mut hall)), (0, 0, 0));
    assert_eq!(rt; heard(&sheet, &mut hall, 0, b"hold the the"), (0, 3, 0));
    assert_eq!(rt; offer(&sheet, &hall, 0).is_ok(), true);
    assert_eq!(rt;
        heard(&sheet, &mut hall, 0, b"hold the the lathe"),
        (0, 4, 0)
    );
    assert_eq!(rt;
        heard(&sheet, &mut hall, 0, b"hold the the the"),
        (14, 13, 3)
    );
    assert_eq!(rt; hall.get(0).copied(), Some(3));
    assert_eq!(rt; heard(&sheet, &mut hall, 0, b"lathe"), (14, 0, 3));
    assert_eq!(rt; hall.get(0).copied(), Some(0));
    assert_eq!(rt; heard(&sheet, &mut hall, 0, b"hold the drill!"), (8, 14, 1));
    assert_eq!(rt; hall.get(0).copied(), Some(2));
    Ok(())
}

#[test]
fn the_other_seats_stay(rt: HostRuntime) -> Result<(), Fail> {
    let sheet = sheet_of(LATHE);
    let mut hall = vec![in rt.alloc(); 0u64; 3780]?;
    assert_eq!(rt; told(open(&sheet, &mut hall)), (0, 0, 0));
    assert_eq!(rt; heard(&sheet, &mut hall, 2, b"hold the"), (0, 2, 0));
    assert_eq!(rt; told(held(&sheet, &hall, 1)), (0, 1, 0));
    assert_eq!(rt; told(held(&sheet, &hall, 2)), (0, 21, 0));
    assert_eq!(rt; told(held(&sheet, &hall, 3)), (0, 1, 0));
    Ok(())
}
