// What is printed of a whole run: each answer, and the reading of the words standing on each scale.
use faults::Fault;
use grammar::sheet::Sheet;
use reader::performing::{Call, Turn, perform};
use reader::read::read;
use readings::read::Reading;
use readings::scale::{Plain, Points, Scale, Worst};
use sources::codes::Codes;
use sources::source::Source;
use std::alloc::{AllocError, Global};
use std::io;

fn show_form(rt: &impl Print, list: &[u8], length: usize) -> io::Result<()> {
    for number in list.iter().take(length) {
        print!(rt; " {number}")?;
    }
    println!(rt; "")
}

// The run itself has read on points, so its answer is shown and nothing is read anew.
fn show_points(
    rt: &impl Print,
    list: &[u8],
    answer: Result<Reading<u32>, Fault>,
) -> io::Result<()> {
    match answer {
        Ok(reading) => {
            print!(rt; "  cheapest by points, {}:", reading.price)?;
            show_form(rt, list, reading.length)
        }
        Err(fault) => println!(rt; "  {fault}"),
    }
}

// Reads the first seat on a scale. What is refused here has been refused on points before.
fn show_reading<C: Scale, F: FnOnce(C::Price) -> io::Result<()>>(
    rt: &impl Print,
    sheet: &Sheet,
    hall: &[u64],
    prices: &mut [C::Price],
    show_price: F,
) -> io::Result<()>
    requires { F.IsAlwaysCallable show_price }
{
    let mut list = [0u8; 10240];
    let mut numbers = [0u32; 8192];
    match read::<C>(sheet, hall, 0, &mut list, prices, &mut numbers) {
        Ok(reading) => {
            show_price(reading.price)?;
            show_form(rt, &list, reading.length)
        }
        Err(_) => Ok(()),
    }
}

fn show_call<T>(rt: &impl Print, call: &Call<T>) -> io::Result<()> {
    match call {
        Call::Clear { seat } => print!(rt; "  run: clear at {seat}: "),
        Call::Hear { seat, source: _ } => print!(rt; "  run: hear at {seat}: "),
        _ => print!(rt; "  run: "),
    }
}

// Generic in the source: an element that holds a reference is lent out here alone.
fn show_turns<T>(rt: &impl Print, turns: &[Turn<T>]) -> io::Result<()> {
    for turn in turns {
        show_call(rt, &turn.call)?;
        match &turn.answer {
            Ok(count) => println!(rt; "{count} standing")?,
            Err(fault) => println!(rt; "{fault}")?,
        }
    }
    Ok(())
}

// The numbers of the source's words.
pub(crate) fn codes_of<S: Source + Drop>(
    heap: Global,
    mut source: S,
) -> Result<Vec<u8>, AllocError> {
    let mut codes = Vec::new(heap);
    while let Ok(Some(heard)) = source.next() {
        codes.push(heard.word)?;
    }
    Ok(codes)
}

// Performs a run of clear and hear on the hall, and shows what it answers and reads.
pub(crate) fn show_run<'a>(
    rt: &impl Print,
    sheet: &'a Sheet,
    hall: &mut [u64],
    codes: &'a [u8],
) -> io::Result<()> {
    let mut list = [0u8; 10240];
    let mut prices = [0u32; 8192];
    let mut numbers = [0u32; 8192];
    let mut turns = [
        Turn {
            call: Call::Clear { seat: 0 },
            answer: Ok(0),
        },
        Turn {
            call: Call::Hear {
                seat: 0,
                source: Codes::over(sheet, codes),
            },
            answer: Ok(0),
        },
    ];
    let answer = perform::<Codes, Points>(
        sheet,
        hall,
        &mut turns,
        0,
        &mut list,
        &mut prices,
        &mut numbers,
    );
    show_turns(rt, &turns)?;
    show_points(rt, &list, answer)?;
    show_reading::<Worst, _>(
        rt,
        sheet,
        hall,
        &mut [Worst::unit(); 8192],
        |price| print!(rt; "  cheapest by worst, {price}:"),
    )?;
    show_reading::<Plain, _>(
        rt,
        sheet,
        hall,
        &mut [Plain::unit(); 8192],
        |_| print!(rt; "  any reading:"),
    )
}
