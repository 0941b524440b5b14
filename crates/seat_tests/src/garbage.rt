// Halls of any numbers: a call ends, and refuses what is no record.
use super::{LATHE, sheet_of, told};
use seats::calls::{back, clear, held, offer, say};
use std::test::Fail;

#[test]
fn counts_over_twenty(rt: HostRuntime) -> Result<(), Fail> {
    let sheet = sheet_of(LATHE);
    let mut hall = vec![in rt.alloc(); u64::MAX; 3780]?;
    assert_eq!(rt; told(say(&sheet, &mut hall, 0, 0)), (12, 0, 3));
    assert_eq!(rt; told(back(&sheet, &mut hall, 3)), (12, 0, 3));
    assert_eq!(rt; told(held(&sheet, &hall, 1)), (12, 0, 3));
    assert_eq!(rt; offer(&sheet, &hall, 2).is_ok(), false);
    let mut hall = vec![in rt.alloc(); 1u64 << 63; 3780]?;
    assert_eq!(rt; told(say(&sheet, &mut hall, 0, 0)), (12, 0, 3));
    let mut hall = vec![in rt.alloc(); 21u64; 3780]?;
    assert_eq!(rt; told(say(&sheet, &mut hall, 0, 0)), (12, 0, 3));
    assert_eq!(rt; told(clear(&sheet, &mut hall, 0)), (0, 0, 0));
    assert_eq!(rt; told(held(&sheet, &hall, 0)), (0, 1, 0));
    Ok(())
}

#[test]
fn words_not_on_the_sheet(rt: HostRuntime) -> Result<(), Fail> {
    let sheet = sheet_of(LATHE);
    let mut hall = vec![in rt.alloc(); 3u64; 3780]?;
    assert_eq!(rt; told(say(&sheet, &mut hall, 0, 0)), (12, 0, 3));
    // 256 is not word 0
    let mut hall = vec![in rt.alloc(); 0u64; 3780]?;
    assert!(rt; hall.len() == 3780);
    hall[0] = 1;
    hall[1] = 256;
    assert_eq!(rt; told(say(&sheet, &mut hall, 0, 0)), (12, 0, 3));
    assert_eq!(rt; hall.get(1).copied(), Some(256));
    Ok(())
}

#[test]
fn a_record_that_its_words_do_not_define(rt: HostRuntime) -> Result<(), Fail> {
    let sheet = sheet_of(LATHE);
    let mut hall = vec![in rt.alloc(); 2u64; 3780]?;
    let _ = say(&sheet, &mut hall, 1, 1);
    assert_eq!(rt; hall.get(944).copied(), Some(2));
    assert_eq!(rt; hall.get(1890).copied(), Some(2));
    let _ = back(&sheet, &mut hall, 1);
    assert_eq!(rt; hall.get(944).copied(), Some(2));
    assert_eq!(rt; hall.get(1890).copied(), Some(2));
    Ok(())
}
