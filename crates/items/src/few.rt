// Sets of numbers below 64, a bit of one word for each.
ghost use Rattle.std.specs.Prelude.{◌≡◌, ℕ, ◌^◌, ◌<◌, bit_or};
ghost use Rattle.items.specs.Members.{bit};

// Whether the set has the number; it has none from 64 on.
pub fn holds(set: u64, a: u8) -> bool
    ensures { result ≡ bit set a }
{
    a < 64 && set >> a & 1 == 1
}

// The set and the number.
pub fn with(set: u64, a: u8) -> u64
    requires { a < 64 }
    ensures { result ≡ bit_or set (2 ^ a) }
{
    set | 1 << a
}
