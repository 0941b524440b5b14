// The characters of names and words.
ghost use Rattle.std.specs.Prelude.{◌≡◌, ℕ, ◌+◌, ◌<◌, ◌≤◌};
ghost use Rattle.grammar.specs.Letters.{digit, small, capital, in_name, in_word, every, name_spelled, word_spelled};

pub fn is_digit(c: u8) -> bool
    ensures { result ≡ digit c }
{
    c.is_ascii_digit()
}

pub fn is_small(c: u8) -> bool
    ensures { result ≡ small c }
{
    c.is_ascii_lowercase()
}

pub fn is_capital(c: u8) -> bool
    ensures { result ≡ capital c }
{
    c.is_ascii_uppercase()
}

pub fn is_in_name(c: u8) -> bool
    ensures { result ≡ in_name c }
{
    is_small(c) || is_digit(c)
}

pub fn is_in_word(c: u8) -> bool
    ensures { result ≡ in_word c }
{
    is_in_name(c) || c == b'-'
}

// Whether each character is a digit.
pub fn are_digits(bytes: &[u8]) -> bool
    ensures { result ≡ every digit bytes.now }
{
    bytes.iter().all(|c| is_digit(*c))
}

// Whether each may stand in a name.
pub fn are_in_name(bytes: &[u8]) -> bool
    ensures { result ≡ every in_name bytes.now }
{
    bytes.iter().all(|c| is_in_name(*c))
}

// Whether each may stand in a word.
pub fn are_in_word(bytes: &[u8]) -> bool
    ensures { result ≡ every in_word bytes.now }
{
    bytes.iter().all(|c| is_in_word(*c))
}

// Whether the bytes spell a name, at any length.
pub fn is_name(bytes: &[u8]) -> bool
    ensures { result ≡ name_spelled bytes.now }
{
    match bytes {
        [] => false,
        [first, rest @ ..] => is_capital(*first) && are_in_name(rest),
    }
}

// Whether the bytes spell a word, at any length.
pub fn is_word(bytes: &[u8]) -> bool
    ensures { result ≡ word_spelled bytes.now }
{
    !bytes.is_empty() && are_in_word(bytes)
}
