// Runs cases through the library and says how many agree with what is written in them.
// The cases are in the files that the arguments name, or on standard input.
#![tactic(auto)]

mod batch;
mod decoding;
mod forms;
mod reading_lines;
mod seat_lines;
mod sheet_lines;
mod views;

use batch::show_batch;
use std::io::Read;
use std::{env, fs, io};

fn show_input(rt: &HostRuntime) -> io::Result<()> {
    let mut text = String::new(rt.alloc());
    rt.stdin().read_to_string(&mut text)?;
    if text.is_empty() {
        eprintln!(rt; "expected cases, in files named as arguments or on standard input")?;
    }
    show_batch(rt, "standard input", text.as_str())
}

fn main(rt: HostRuntime) -> io::Result<()> {
    let mut is_named = false;
    for name in env::args(&rt)?.skip(1) {
        let text = fs::read_to_string(&rt, name.as_str())?;
        show_batch(&rt, name.as_str(), text.as_str())?;
        is_named = true;
    }
    if is_named {
        return Ok(());
    }
    show_input(&rt)
}
