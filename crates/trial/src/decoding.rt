// Bytes from a line: a backslash and two hexadecimal digits are one byte, any other byte is itself.
use std::alloc::{AllocError, Global};

// The value of a hexadecimal digit, and 0 of any other byte.
fn digit(b: u8) -> u8 {
    match b {
        b'0'..=b'9' => b - b'0',
        b'a'..=b'f' => b - b'a' + 10,
        _ => 0,
    }
}

// A backslash with fewer than two bytes after it ends the line.
pub(crate) fn decoded(heap: Global, line: &str) -> Result<Vec<u8>, AllocError> {
    let mut bytes = Vec::new(heap);
    let mut rest = line.as_bytes();
    loop {
        match rest {
            [b'\\', high, low, after @ ..] => {
                bytes.push(digit(*high).wrapping_mul(16).wrapping_add(digit(*low)))?;
                rest = after;
            }
            [] | [b'\\', ..] => return Ok(bytes),
            [b, after @ ..] => {
                bytes.push(*b)?;
                rest = after;
            }
        }
    }
}
