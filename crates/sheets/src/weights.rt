// The weights of rules.
ghost use Rattle.std.specs.Prelude.{◌≡◌, ℕ, ◌+◌, ◌<◌, ◌≤◌, true, Ok, Err};
ghost use Rattle.grammar.specs.Letters.{digit, every};
ghost use Rattle.sheets.specs.Lines.{weight_spelled};
ghost use Rattle.sheets.specs.Limits.{number};

use grammar::letters::are_digits;
use grammar::shelf::Full;

// Digits, with no zero before another.
pub(crate) fn is_weight(field: &[u8]) -> bool
    ensures { result ≡ weight_spelled field.now }
{
    match field {
        [] => false,
        [b'0', rest @ ..] => rest.is_empty(),
        _ => are_digits(field),
    }
}

// The number that digits write; there is no room over 65,535.
pub(crate) fn weight(digits: &[u8]) -> Result<u16, Full>
    requires { every digit digits.now ≡ true }
    ensures { elim result [ Ok n ↦ n ≡ number digits.now | Err e ↦ 65535 < number digits.now ] }
{
    // One test on a wider number: steps in `u16` that are checked one by one are no plainer.
    let mut n: u32 = 0;
    for c in digits {
        n = 10 * n + (*c - b'0') as u32;
        if n > 65535 {
            return Err(Full);
        }
    }
    Ok(n as u16)
}
