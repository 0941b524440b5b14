// Messages and what is heard of them: word numbers and places, then the ending.
use super::{Ending, drain, heard, sample};
use sources::codes::Codes;
use sources::text::Text;
use std::alloc::Global;
use std::process::Abort;
use std::test::Fail;

fn expect(
    rt: &impl Abort,
    heap: Global,
    message: &[u8],
    words: &[(u8, usize)],
    ending: Ending,
) -> Result<(), Fail> {
    let (got, how) = heard(heap, &sample(), message)?;
    assert_eq!(rt; how, ending);
    assert!(rt; got.as_slice() == words);
    Ok(())
}

#[test]
fn plain_messages(rt: HostRuntime) -> Result<(), Fail> {
    let heap = rt.alloc();
    expect(
        &rt,
        heap,
        b"hold the lathe",
        &[(0, 0), (1, 5), (2, 9)],
        Ending::End,
    )?;
    expect(&rt, heap, b"  Hold   THE  ", &[(0, 2), (1, 9)], Ending::End)?;
    expect(&rt, heap, b"", &[], Ending::End)?;
    expect(&rt, heap, b"     ", &[], Ending::End)
}

#[test]
fn aliases_and_fillers(rt: HostRuntime) -> Result<(), Fail> {
    let heap = rt.alloc();
    expect(
        &rt,
        heap,
        b"grab the lathe",
        &[(0, 0), (1, 5), (2, 9)],
        Ending::End,
    )?;
    // a word aliased to a filler is dropped, and a filler aliased to another word is kept
    expect(&rt, heap, b"thanks hold", &[(0, 7)], Ending::End)?;
    expect(&rt, heap, b"please hold", &[(6, 0), (0, 7)], Ending::End)?;
    // a word that only an alias line has
    expect(&rt, heap, b"spare", &[(6, 0)], Ending::End)
}

#[test]
fn bytes_not_allowed(rt: HostRuntime) -> Result<(), Fail> {
    let heap = rt.alloc();
    expect(&rt, heap, b"lathe!", &[], Ending::Fault(8, 5, 1))?;
    expect(&rt, heap, b"hold\tthe", &[], Ending::Fault(8, 4, 1))?;
    expect(&rt, heap, b"hold the\r", &[(0, 0)], Ending::Fault(8, 8, 1))?;
    expect(&rt, heap, b"hold \0", &[(0, 0)], Ending::Fault(8, 5, 1))?;
    expect(
        &rt,
        heap,
        b"hold \xc3\xbc",
        &[(0, 0)],
        Ending::Fault(8, 5, 1),
    )?;
    // a bad byte comes before the length
    expect(
        &rt,
        heap,
        b"abcdefghijklmnop!",
        &[],
        Ending::Fault(8, 16, 1),
    )
}

#[test]
fn long_and_unlisted_words(rt: HostRuntime) -> Result<(), Fail> {
    let heap = rt.alloc();
    expect(&rt, heap, b"abcdefghijklmno", &[], Ending::Fault(10, 0, 1))?;
    expect(&rt, heap, b"abcdefghijklmnop", &[], Ending::Fault(9, 0, 1))?;
    expect(
        &rt,
        heap,
        b"hold  drill lathe",
        &[(0, 0)],
        Ending::Fault(10, 6, 1),
    )?;
    expect(
        &rt,
        heap,
        b"hold drill lathe!",
        &[(0, 0)],
        Ending::Fault(10, 5, 1),
    )
}

#[test]
fn lengths_of_messages(rt: HostRuntime) -> Result<(), Fail> {
    let heap = rt.alloc();
    let mut message = Vec::new(heap);
    for _ in 0..507 {
        message.push(b' ')?;
    }
    message.extend(*b"hold")?;
    assert_eq!(rt; message.len(), 511);
    expect(&rt, heap, message.as_slice(), &[(0, 507)], Ending::End)?;
    message.push(b' ')?;
    expect(&rt, heap, message.as_slice(), &[(0, 507)], Ending::End)?;
    message.push(b' ')?;
    expect(&rt, heap, message.as_slice(), &[], Ending::Fault(7, 0, 1))
}

#[test]
fn codes(rt: HostRuntime) -> Result<(), Fail> {
    let sheet = sample();
    let (words, how) = drain(rt.alloc(), Codes::over(&sheet, &[0, 6, 7, 0]))?;
    assert_eq!(rt; how, Ending::Fault(10, 2, 2));
    assert!(rt; words.as_slice() == [(0, 0), (6, 1)].as_slice());
    Ok(())
}

#[test]
fn the_ending_stays(rt: HostRuntime) -> Result<(), Fail> {
    let sheet = sample();
    let Ok(text) = Text::over(&sheet, b"drill") else {
        assert!(rt; false);
        return Ok(());
    };
    let (words, how) = drain(rt.alloc(), text)?;
    assert_eq!(rt; words.len(), 0);
    assert_eq!(rt; how, Ending::Fault(10, 0, 1));
    let (_, again) = drain(rt.alloc(), text)?;
    assert_eq!(rt; again, how);
    Ok(())
}
