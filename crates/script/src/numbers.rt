//! Numbers in a script.
ghost use Rattle.std.specs.Prelude.{◌≡◌};
ghost use Rattle.script.specs.Numerals.{with_digit, numeral};

/// The number that a word says, where it is one below 2^64.
// The library's `parse` reads text and takes a sign, which no number of a script has.
pub fn number(word: &[u8]) -> Option<u64>
    ensures { result ≡ numeral word.now }
{
    if word.is_empty() {
        return None;
    }
    let mut n = 0;
    for b in word {
        n = with_digit(n, *b)?;
    }
    Some(n)
}

/// A digit behind a number.
fn with_digit(n: u64, b: u8) -> Option<u64>
    ensures { result ≡ with_digit n b }
{
    if !b.is_ascii_digit() {
        return None;
    }
    n.checked_mul(10)?.checked_add((b - b'0') as u64)
}
