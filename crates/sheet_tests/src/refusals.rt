// Every refusal of a text by a small example.
use super::expecting::expect;

#[test]
fn line_shapes(rt: HostRuntime) {
    expect(&rt, b"\n", 2, 1);
    expect(&rt, b"rule\t0\tA\n\n", 2, 2);
    expect(&rt, b"rule\t0\tA", 2, 1);
    expect(&rt, b"rule\t0\tA\r\n", 2, 1);
    expect(&rt, b"rule\t07\tA\n", 2, 1);
    expect(&rt, b"rule\t\tA\n", 2, 1);
    expect(&rt, b"rule\t-1\tA\n", 2, 1);
    expect(&rt, b"rule\t0\ta\n", 2, 1);
    expect(&rt, b"rule\t0\tAB\n", 2, 1);
    expect(&rt, b"rule\t0\tA\t\n", 2, 1);
    expect(&rt, b"rule\t0\n", 2, 1);
    expect(&rt, b"Rule\t0\tA\n", 2, 1);
    expect(&rt, b"rule 0 A\n", 2, 1);
}

#[test]
fn line_shapes_of_words(rt: HostRuntime) {
    expect(&rt, b"rule\t0\tA\nrule\t0\tA\tHold\tthe_lathe\n", 2, 2);
    expect(&rt, b"rule\t0\tA\nalias\ta\n", 2, 2);
    expect(&rt, b"rule\t0\tA\nalias\ta\tb\tc\n", 2, 2);
    expect(&rt, b"rule\t0\tA\nalias\tA\tb\n", 2, 2);
    expect(&rt, b"rule\t0\tA\nfiller\n", 2, 2);
    expect(&rt, b"rule\t0\tA\nfiller\tPlease\n", 2, 2);
    expect(&rt, b"rule\t0\tA\nfiller\tplease\tdo\n", 2, 2);
    expect(&rt, b"start\tA\n", 2, 1);
}

#[test]
fn shape_before_limit(rt: HostRuntime) {
    expect(&rt, b"rule\t65536\ta\n", 2, 1);
    expect(&rt, b"rule\t0\tA\ta\ta\ta\ta\ta\ta\ta\ta\tA!\n", 2, 1);
    expect(&rt, b"rule\t0\tAaaaaaaaaaaaaaaa", 2, 1);
    expect(&rt, b"rule\t65536\tA\nfoo\n", 3, 1);
}

#[test]
fn second_alias(rt: HostRuntime) {
    expect(&rt, b"rule\t0\tA\nalias\ta\tb\nalias\ta\tc\n", 4, 3);
    expect(&rt, b"rule\t0\tA\nalias\ta\tb\nalias\ta\tb\n", 4, 3);
    expect(&rt, b"rule\t0\tA\nalias\ta\tb\nalias\tb\ta\n", 0, 0);
    expect(&rt, b"alias\ta\tb\nalias\ta\tc\nfoo\n", 4, 2);
}

#[test]
fn no_rule(rt: HostRuntime) {
    expect(&rt, b"", 5, 0);
    expect(&rt, b"filler\tplease\nalias\ta\tb\n", 5, 0);
}

#[test]
fn no_tree(rt: HostRuntime) {
    expect(&rt, b"rule\t0\tA\tA\n", 6, 0);
    expect(&rt, b"rule\t0\tA\tB\n", 6, 0);
    expect(&rt, b"rule\t0\tA\nrule\t0\tA\tB\n", 6, 1);
    expect(&rt, b"rule\t0\tA\ta\nrule\t0\tB\tC\nrule\t0\tC\tB\n", 6, 1);
    expect(&rt, b"rule\t0\tA\tB\nrule\t0\tB\tb\n", 0, 0);
}
