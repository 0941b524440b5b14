// Bytes cut at tabs and at ends of lines.
ghost use Rattle.std.specs.Prelude.{◌≡◌, ◌==◌, position, Some, None};
ghost use Rattle.sheets.specs.inner.Fields.{Cut, Field, Fieldless};

// The place of the first b.
fn find(bytes: &[u8], b: u8) -> Option<usize>
    ensures { result ≡ position (λ c. c == b) bytes.now }
{
    bytes.iter().position(|c| *c == b)
}

// The bytes before the first b, and the rest.
pub(crate) fn cut(bytes: &[u8], b: u8) -> (&[u8], &[u8])
    ensures { Cut b bytes.now result.0.now result.1.now }
{
    let end = find(bytes, b).unwrap_or(bytes.len());
    bytes.split_at(end)
}

// The first field, where each stands after a tab, and the rest.
pub(crate) fn next_field(bytes: &[u8]) -> Option<(&[u8], &[u8])>
    ensures { elim result [ Some p ↦ Field bytes.now p.0.now p.1.now | None ↦ Fieldless bytes.now ] }
{
    match bytes {
        [b'\t', rest @ ..] => Some(cut(rest, b'\t')),
        _ => None,
    }
}
