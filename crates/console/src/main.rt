// The console: a sheet, an empty line and messages on standard input; a line for each message on standard output.
#![tactic(auto)]

use replies::run::run;
use std::io;
use std::io::{Read, Write};

fn main(rt: HostRuntime) -> io::Result<()> {
    let heap = rt.alloc();
    let mut input = Vec::new(heap);
    rt.stdin().read_to_end(&mut input)?;
    if input.is_empty() {
        eprintln!(rt;
            "expected on standard input a command sheet, an empty line, and messages, one a line"
        )?;
    }
    let mut output = Vec::new(heap);
    run(&input, &mut output)?;
    rt.stdout().write_all(&output)
}
