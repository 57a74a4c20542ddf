ghost use Rattle.std.specs.Prelude.{◌≡◌, ◌≢◌, ℕ, ◌+◌, ◌<◌, ◌∷◌, ◌++◌, List, MatchOption, OnOk};
ghost use Rattle.std.specs.String.{string_bytes};
ghost use Rattle.lg_params.specs.Places.{two_digits, four_digits};

use std::alloc::AllocError;

/// The number that one decimal digit spells.
fn read_one(byte: u8) -> Option<u8>
    ensures { MatchOption result ((n : ℕ) → n < 10 → byte ≢ 48 + n) (λ n. (n < 10) × (byte ≡ 48 + n)) }
{
    if byte.is_ascii_digit() {
        Some(byte - b'0')
    } else {
        None
    }
}

/// The number that two decimal digits spell.
pub(crate) fn read_two(bytes: &[u8]) -> Option<u8>
    ensures { MatchOption result ((n : ℕ) → n < 100 → bytes.now ≢ two_digits n)
        (λ n. (n < 100) × (bytes.now ≡ two_digits n)) }
{
    let [tens, ones] = bytes else {
        return None;
    };
    Some(read_one(*tens)? * 10 + read_one(*ones)?)
}

/// The number that four decimal digits spell.
pub(crate) fn read_four(bytes: &[u8]) -> Option<u16>
    ensures { MatchOption result ((n : ℕ) → n < 10000 → bytes.now ≢ four_digits n)
        (λ n. (n < 10000) × (bytes.now ≡ four_digits n)) }
{
    let (hundreds, others) = split_two(bytes)?;
    Some(u16::from(read_two(hundreds)?) * 100 + u16::from(others))
}

/// What stands in front of two decimal digits at the end, and their number.
pub(crate) fn split_two(bytes: &[u8]) -> Option<(&[u8], u8)>
    ensures { MatchOption result ((front : List ℕ) (n : ℕ) → n < 100 → bytes.now ≢ front ++ two_digits n)
        (λ split. (split.1 < 100) × (bytes.now ≡ split.0.now ++ two_digits split.1)) }
{
    let front = bytes.len().checked_sub(2)?;
    let n = read_two(&bytes[front..])?;
    Some((&bytes[..front], n))
}

/// What stands in front of a mark and two decimal digits at the end, and their number.
pub(crate) fn split_marked(bytes: &[u8], mark: u8) -> Option<(&[u8], u8)>
    ensures { MatchOption result ((front : List ℕ) (n : ℕ) → n < 100 → bytes.now ≢ front ++ mark ∷ two_digits n)
        (λ split. (split.1 < 100) × (bytes.now ≡ split.0.now ++ mark ∷ two_digits split.1)) }
{
    let (marked, n) = split_two(bytes)?;
    let front = marked.strip_suffix(&[mark])?;
    Some((front, n))
}

/// Writes a number below 100 in two digits.
pub(crate) fn push_two(text: &mut String, n: u8) -> Result<(), AllocError>
    requires { n < 100 }
    ensures { OnOk result (string_bytes text.new ≡ string_bytes text.old ++ two_digits n) }
{
    text.push(char::from(b'0' + n / 10))?;
    text.push(char::from(b'0' + n % 10))
}

/// Writes a number below 10,000 in four digits.
pub(crate) fn push_four(text: &mut String, n: u16) -> Result<(), AllocError>
    requires { n < 10000 }
    ensures { OnOk result (string_bytes text.new ≡ string_bytes text.old ++ four_digits n) }
{
    push_two(text, (n / 100) as u8)?;
    push_two(text, (n % 100) as u8)
}
