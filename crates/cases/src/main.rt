// Runs stored inputs through the console's work, and says of each whether it answers as it should.
#![tactic(auto)]

use replies::run::run;
use std::{fs, io};

const NAMES: [&str; 25] = [
    "p01-p", "p02-a", "p03-a", "p04-a", "p05-a", "p06-a", "p07-a", "p08-a", "p09-b", "p10-b",
    "p11-b", "p12-b", "p13-c", "p14-c", "p15-c", "p16-c", "p17-c", "p18-c", "p19-c", "p20-c",
    "p21-c", "p22-c", "p23-d", "p24-d", "p25-d",
];

// A line that ends in a tab and a star stands for every line that begins like it.
fn is_like(expected: &[u8], line: &[u8]) -> bool {
    match expected {
        [front @ .., b'\t', b'*'] => line.starts_with(front),
        _ => line == expected,
    }
}

// Without its end, which the last line may lack.
fn bare(line: &[u8]) -> &[u8] {
    line.strip_suffix(b"\n").unwrap_or(line)
}

fn are_alike(expected: &[u8], output: &[u8]) -> bool {
    let mut written = output.split_inclusive(|b| *b == b'\n').map(bare);
    // No `all`: a closure may not hold the other iterator.
    for line in expected.split_inclusive(|b| *b == b'\n').map(bare) {
        if !written.next().is_some_and(|answer| is_like(line, answer)) {
            return false;
        }
    }
    written.next().is_none()
}

fn show_case(rt: &HostRuntime, name: &str) -> io::Result<()> {
    let heap = rt.alloc();
    let input = fs::read(rt, format!(in heap; "{name}.in")?)?;
    let expected = fs::read(rt, format!(in heap; "{name}.expected")?)?;
    let mut output = Vec::new(heap);
    run(&input, &mut output)?;
    if are_alike(&expected, &output) {
        println!(rt; "{name} as expected")
    } else {
        println!(rt; "{name} DIFFERS")
    }
}

fn main(rt: HostRuntime) -> io::Result<()> {
    for name in NAMES {
        show_case(&rt, name)?;
    }
    Ok(())
}
