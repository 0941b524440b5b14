// One input cut into its sheet and its messages.
ghost use Rattle.std.specs.Prelude.{◌≡◌, ◌+◌, ◌<◌, ◌≤◌, [], ◌==◌, length, take, drop, Some, None};
ghost use Rattle.std.specs.List.{position_or_len};
ghost use Rattle.answers.specs.Input.{Split, Unended};
ghost use Rattle.answers.specs.inner.Taking.{Taken};

// The place of the end of the first empty line, or the length: an end of a line after another one, or before all else.
fn find_empty_line(input: &[u8]) -> usize
    ensures within { result ≤ length input.now }
    ensures split { Split input.now (take result input.now) (drop (result + 1) input.now) }
{
    match input {
        [] | [b'\n', ..] => 0,
        [_, rest @ ..] => {
            // Of two slices: a chain would ask at each byte which of its parts it is at.
            let mut pairs = input.iter().copied().zip(rest.iter().copied());
            let place = pairs.position(|pair| pair == (b'\n', b'\n'));
            1 + place.unwrap_or(rest.len())
        }
    }
}

// The bytes before a place, and those after it, none where nothing stands there.
fn cut(bytes: &[u8], end: usize) -> (&[u8], &[u8])
    requires { end ≤ length bytes.now }
    ensures before { result.0.now ≡ take end bytes.now }
    ensures after { result.1.now ≡ drop (end + 1) bytes.now }
{
    let after = bytes.get(end + 1..).unwrap_or(&[]);
    (&bytes[..end], after)
}

// The sheet, and the messages that follow its empty line.
pub fn split_input(input: &[u8]) -> (&[u8], &[u8])
    ensures { Split input.now result.0.now result.1.now }
{
    let end = find_empty_line(input);
    cut(input, end)
}

// The place of the first end of a line, or the length.
fn find_end(bytes: &[u8]) -> usize
    ensures { result ≡ position_or_len (λ b. b == 10) bytes.now }
{
    let place = bytes.iter().position(|b| *b == b'\n');
    place.unwrap_or(bytes.len())
}

// The next message, and what follows it.
pub fn next_message(rest: &[u8]) -> Option<(&[u8], &[u8])>
    ensures { elim result [ Some p ↦ Taken rest.now p.0.now p.1.now | None ↦ rest.now ≡ [] ] }
{
    if rest.is_empty() {
        return None;
    }
    let end = find_end(rest);
    Some(cut(rest, end))
}
