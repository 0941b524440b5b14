// Each limit at its edge and one past it.
use super::expecting::expect;
use super::lines;
use std::test::Fail;

#[test]
fn bytes_of_a_text(rt: HostRuntime) -> Result<(), Fail> {
    let heap = rt.alloc();
    let mut text = String::from_str(heap, "rule\t0\tA\nfiller\taaaaa\n")?;
    text.push_str("filler\ta\n".repeat(heap, 1818)?.as_str())?;
    assert_eq!(rt; text.len(), 16384);
    expect(&rt, text.as_bytes(), 0, 0);
    text.push_str("x")?;
    expect(&rt, text.as_bytes(), 1, 0);
    Ok(())
}

#[test]
fn names(rt: HostRuntime) -> Result<(), Fail> {
    expect(
        &rt,
        lines(rt.alloc(), 32, "rule\t0\tN", "")?.as_bytes(),
        0,
        0,
    );
    expect(
        &rt,
        lines(rt.alloc(), 33, "rule\t0\tN", "")?.as_bytes(),
        3,
        33,
    );
    Ok(())
}

#[test]
fn words(rt: HostRuntime) -> Result<(), Fail> {
    let mut text = lines(rt.alloc(), 64, "filler\tw", "")?;
    text.push_str("rule\t0\tA\tw0\n")?;
    expect(&rt, text.as_bytes(), 0, 0);
    text.push_str("filler\tone-more\n")?;
    expect(&rt, text.as_bytes(), 3, 66);
    Ok(())
}

#[test]
fn rules(rt: HostRuntime) -> Result<(), Fail> {
    let mut text = "rule\t0\tA\ta\n".repeat(rt.alloc(), 128)?;
    expect(&rt, text.as_bytes(), 0, 0);
    text.push_str("rule\t0\tA\n")?;
    expect(&rt, text.as_bytes(), 3, 129);
    Ok(())
}

#[test]
fn aliases(rt: HostRuntime) -> Result<(), Fail> {
    let mut text = String::from_str(rt.alloc(), "rule\t0\tA\n")?;
    text.push_str(lines(rt.alloc(), 16, "alias\tw", "\tmeant")?.as_str())?;
    expect(&rt, text.as_bytes(), 0, 0);
    text.push_str("alias\tw0\tmeant\n")?;
    expect(&rt, text.as_bytes(), 3, 18);
    Ok(())
}

#[test]
fn places(rt: HostRuntime) -> Result<(), Fail> {
    let mut text = "rule\t0\tA\ta\ta\ta\ta\ta\ta\ta\ta\n".repeat(rt.alloc(), 28)?;
    text.push_str("rule\t0\tA\ta\ta\ta\n")?;
    expect(&rt, text.as_bytes(), 0, 0);
    text.push_str("rule\t0\tA\n")?;
    expect(&rt, text.as_bytes(), 3, 30);
    Ok(())
}

#[test]
fn symbols_of_a_rule(rt: HostRuntime) {
    expect(&rt, b"rule\t0\tA\ta\tb\tc\td\te\tf\tg\th\n", 0, 0);
    expect(&rt, b"rule\t0\tA\ta\tb\tc\td\te\tf\tg\th\ti\n", 3, 1);
}

#[test]
fn bytes_of_names_and_words(rt: HostRuntime) {
    expect(&rt, b"rule\t0\tAbcdefghijklmno\tabcdefghijklmno\n", 0, 0);
    expect(&rt, b"rule\t0\tAbcdefghijklmnop\n", 3, 1);
    expect(&rt, b"rule\t0\tA\tabcdefghijklmnop\n", 3, 1);
    expect(&rt, b"rule\t0\tA\nfiller\tabcdefghijklmnop\n", 3, 2);
    expect(&rt, b"rule\t0\tA\nalias\ta\tabcdefghijklmnop\n", 3, 2);
}

#[test]
fn weights(rt: HostRuntime) {
    expect(&rt, b"rule\t65535\tA\n", 0, 0);
    expect(&rt, b"rule\t65536\tA\n", 3, 1);
    expect(&rt, b"rule\t4294967296\tA\n", 3, 1);
    expect(
        &rt,
        b"rule\t1234567890123456789012345678901234567890\tA\n",
        3,
        1,
    );
}
