//! Numbers of v0 names, and the digits that they are spelled by.

ghost use Rattle.std.specs.Prelude.{◌≡◌, ◌≤◌, ◌<◌, ◌+◌, ◌*◌, ◌^◌, length, true, IfSome, MatchOption};
ghost use Rattle.std.specs.Char.{is_ascii, is_ascii_alphanumeric};
ghost use Rattle.std.specs.List.{list_all, prefix_len};
ghost use Rattle.rust_v0.specs.Numbers.{after, counted, digit_of, is_nibble, nibbles, number_62, value_62, value_in};

/// The value of a digit: `0` to `9`, `a` to `z` from 10 on, `A` to `Z` from 36 on.
fn digit_of(b: u8) -> u64
    ensures gives { result ≡ digit_of b }
    ensures bound { result < 62 }
{
    match b {
        b'0'..=b'9' => u64::from(b - b'0'),
        b'a'..=b'z' => u64::from(b - b'a') + 10,
        b'A'..=b'Z' => u64::from(b - b'A') + 36,
        _ => 0,
    }
}

/// The number with one digit more, if it has at most 64 bits.
fn number_then(number: u64, base: u64, digit: u64) -> Option<u64>
    ensures { MatchOption result (2 ^ 64 ≤ number * base + digit)
        (λ n. n ≡ number * base + digit) }
{
    number.checked_mul(base)?.checked_add(digit)
}

/// The value of digits, if it has at most 64 bits.
#[tactic(auto, using(crate::proofs::NumberLemmas::value_more, crate::proofs::NumberLemmas::value_past), unfolding(crate::specs::Numbers::value_in))]
pub(crate) fn value_in(base: u64, digits: &[u8]) -> Option<u64>
    requires { 1 ≤ base }
    ensures { MatchOption result (2 ^ 64 ≤ value_in base digits.now)
        (λ n. n ≡ value_in base digits.now) }
{
    let mut number = 0u64;
    for b in digits {
        number = number_then(number, base, digit_of(*b))?;
    }
    Some(number)
}

/// What follows that byte, if it stands first.
pub(crate) fn after(b: u8, bytes: &[u8]) -> Option<&[u8]>
    ensures { MatchOption result (after b bytes.now ≡ None)
        (λ rest. after b bytes.now ≡ Some rest.now) }
{
    let (first, rest) = bytes.split_first()?;
    if *first == b { Some(rest) } else { None }
}

/// The value of digits in base 62 and one more, and zero without a digit.
#[tactic(auto, unfolding(crate::specs::Numbers::value_62))]
fn value_62(digits: &[u8]) -> Option<u64>
    ensures { result ≡ value_62 digits.now }
{
    if digits.is_empty() {
        return Some(0);
    }
    value_in(62, digits)?.checked_add(1)
}

/// How many letters and digits stand first.
fn digits_62_len(bytes: &[u8]) -> usize
    ensures gives { result ≡ prefix_len is_ascii_alphanumeric bytes.now }
    ensures within { result ≤ length bytes.now }
{
    bytes
        .iter()
        .take_while(|b| b.is_ascii_alphanumeric())
        .count()
}

/// A number in base 62, and what follows it.
#[tactic(auto, unfolding(crate::specs::Numbers::number_62))]
pub(crate) fn number_62(bytes: &[u8]) -> Option<(u64, &[u8])>
    ensures { MatchOption result (number_62 bytes.now ≡ None)
        (λ n. number_62 bytes.now ≡ Some (n.0, n.1.now)) }
{
    let (digits, rest) = bytes.split_at(digits_62_len(bytes));
    let rest = after(b'_', rest)?;
    Some((value_62(digits)?, rest))
}

/// One more than the number after that letter, and zero without it; and what follows.
#[tactic(auto, unfolding(crate::specs::Numbers::counted))]
pub(crate) fn counted(letter: u8, bytes: &[u8]) -> Option<(u64, &[u8])>
    ensures { MatchOption result (counted letter bytes.now ≡ None)
        (λ n. counted letter bytes.now ≡ Some (n.0, n.1.now)) }
{
    match after(letter, bytes) {
        None => Some((0, bytes)),
        Some(spelled) => {
            let (number, rest) = number_62(spelled)?;
            Some((number.checked_add(1)?, rest))
        }
    }
}

/// How many lower case hexadecimal digits stand first.
fn nibbles_len(bytes: &[u8]) -> usize
    ensures gives { result ≡ prefix_len is_nibble bytes.now }
    ensures within { result ≤ length bytes.now }
{
    bytes
        .iter()
        .take_while(|b| matches!(**b, b'0'..=b'9' | b'a'..=b'f'))
        .count()
}

/// Hexadecimal digits, and what follows them and a `_`.
#[tactic(auto, using(crate::proofs::AsciiLemmas::nibbles_ascii), unfolding(crate::specs::Numbers::nibbles))]
pub(crate) fn nibbles(bytes: &[u8]) -> Option<(&[u8], &[u8])>
    ensures gives { MatchOption result (nibbles bytes.now ≡ None)
        (λ n. nibbles bytes.now ≡ Some (n.0.now, n.1.now)) }
    ensures within { IfSome result (λ n. list_all is_ascii n.0.now ≡ true) }
{
    let (digits, rest) = bytes.split_at(nibbles_len(bytes));
    Some((digits, after(b'_', rest)?))
}
