// A tour of one task: a command sheet and messages on standard input, read to their end, each step printed.
#![tactic(auto)]

mod columns;
mod messages;
mod overview;
mod runs;

use answers::input::split_input;
use grammar::sheet::Sheet;
use messages::show_messages;
use overview::show_sheet;
use seats::calls::open;
use sheets::load::load;
use std::io;
use std::io::Read;

fn main(rt: HostRuntime) -> io::Result<()> {
    let mut input = Vec::new(rt.alloc());
    rt.stdin().read_to_end(&mut input)?;
    let (text, messages) = split_input(input.as_slice());
    if text.is_empty() {
        eprintln!(rt;
            "expected on standard input a command sheet, an empty line, and messages, one a line"
        )?;
    }
    let mut sheet = Sheet::blank();
    println!(rt; "a sheet of {} bytes", text.len())?;
    if let Err(fault) = load(text, &mut sheet) {
        return println!(rt; "{fault}");
    }
    show_sheet(&rt, &sheet)?;
    let mut hall = vec![in rt.alloc(); 0u64; 3780]?;
    let _ = open(&sheet, &mut hall);
    show_messages(&rt, &sheet, &mut hall, messages)
}
