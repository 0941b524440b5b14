// Spellings, kept once each.
ghost use Rattle.std.specs.Prelude.{◌≡◌, ◌<◌, ◌≤◌, length, position, bytes_eq, Ok, Err};
ghost use Rattle.grammar.specs.Limits.{text, Brief};
ghost use Rattle.sheets.specs.inner.Interns.{Enters};

use grammar::Spelling;
use grammar::shelf::{Full, Shelf};

// The spelling; there is no room for more than 15 bytes.
fn spell(bytes: &[u8]) -> Result<Spelling, Full>
    ensures { elim result [ Ok p ↦ (text p ≡ bytes.now) × (p.len ≤ 15) | Err e ↦ 15 < length bytes.now ] }
{
    if bytes.len() > 15 {
        return Err(Full);
    }
    let mut copy = [0; 15];
    copy[0..bytes.len()].copy_from_slice(bytes);
    Ok(Spelling {
        len: bytes.len() as u8,
        bytes: copy,
    })
}

// The place of the spelling among these.
fn find(spellings: &[Spelling], bytes: &[u8]) -> Option<usize>
    ensures { result ≡ position (λ p. bytes_eq bytes.now (text p)) spellings.now }
{
    spellings
        .iter()
        .position(|spelling| bytes == spelling.as_bytes())
}

// The number of the spelling, which may be new.
pub(crate) fn intern<const N: usize>(
    spellings: &mut Shelf<Spelling, N>,
    bytes: &[u8],
) -> Result<u8, Full>
    requires few { N ≤ 255 }
    requires brief { Brief spellings.old.len spellings.old.items }
    ensures { Enters spellings.old bytes.now result spellings.new }
{
    if let Some(k) = find(spellings.as_slice(), bytes) {
        return Ok(k as u8);
    }
    let k = spellings.len as u8;
    spellings.push(spell(bytes)?)?;
    Ok(k)
}
