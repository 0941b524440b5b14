// Each refusal at a seat.
use super::{LATHE, ROW, heard, sheet_of, told};
use seats::calls::{back, clear, held, open, say};
use std::test::Fail;

#[test]
fn refusals(rt: HostRuntime) -> Result<(), Fail> {
    let sheet = sheet_of(LATHE);
    let mut hall = vec![in rt.alloc(); 0u64; 3780]?;
    assert_eq!(rt; told(open(&sheet, &mut hall)), (0, 0, 0));
    assert_eq!(rt; told(say(&sheet, &mut hall, 0, 64)), (10, 0, 3));
    assert_eq!(rt; told(say(&sheet, &mut hall, 0, 3)), (10, 0, 3));
    assert_eq!(rt; told(say(&sheet, &mut hall, 0, 2)), (14, 0, 3));
    assert_eq!(rt; told(back(&sheet, &mut hall, 0)), (15, 0, 3));
    assert_eq!(rt; told(say(&sheet, &mut hall, 4, 0)), (11, 0, 3));
    assert_eq!(rt; told(clear(&sheet, &mut hall, 4)), (11, 0, 3));
    assert_eq!(rt; told(held(&sheet, &hall, 4)), (11, 0, 3));
    assert_eq!(rt; told(say(&sheet, &mut hall, 0, 0)), (0, 1, 0));
    assert_eq!(rt; told(say(&sheet, &mut hall, 0, 0)), (14, 1, 3));
    Ok(())
}

#[test]
fn halls_of_another_length(rt: HostRuntime) -> Result<(), Fail> {
    let sheet = sheet_of(LATHE);
    let mut short = vec![in rt.alloc(); 5u64; 3779]?;
    assert_eq!(rt; told(open(&sheet, &mut short)), (11, 0, 3));
    assert_eq!(rt; short.get(0).copied(), Some(5));
    let mut long = vec![in rt.alloc(); 5u64; 3781]?;
    assert_eq!(rt; told(open(&sheet, &mut long)), (11, 0, 3));
    assert_eq!(rt; told(open(&sheet, &mut [])), (11, 0, 3));
    Ok(())
}

#[test]
fn twenty_words(rt: HostRuntime) -> Result<(), Fail> {
    let sheet = sheet_of(ROW);
    let mut hall = vec![in rt.alloc(); 0u64; 3780]?;
    assert_eq!(rt; told(open(&sheet, &mut hall)), (0, 0, 0));
    assert_eq!(rt;
        heard(
            &sheet,
            &mut hall,
            0,
            b"x x x x x x x x x x x x x x x x x x x x",
        ),
        (0, 20, 0)
    );
    assert_eq!(rt; told(say(&sheet, &mut hall, 0, 0)), (13, 20, 3));
    assert_eq!(rt;
        heard(
            &sheet,
            &mut hall,
            0,
            b"x x x x x x x x x x x x x x x x x x x x x",
        ),
        (13, 40, 3)
    );
    assert_eq!(rt;
        heard(
            &sheet,
            &mut hall,
            0,
            b"x x x x x x x x x x x x x x x x x x x x !",
        ),
        (8, 40, 1)
    );
    assert_eq!(rt;
        heard(
            &sheet,
            &mut hall,
            0,
            b"x x x x x x x x x x x x x x x x x x x x please please",
        ),
        (0, 20, 0)
    );
    Ok(())
}
