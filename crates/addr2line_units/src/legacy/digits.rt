//! Bytes that are digits, and numbers.

ghost use Rattle.std.specs.Prelude.{◌≡◌, ◌≤◌, ◌<◌, ◌+◌, ◌*◌, length, MatchOption};
ghost use Rattle.std.specs.Char.{is_ascii, is_ascii_digit, is_ascii_hexdigit, digit_value};
ghost use Rattle.std.specs.List.{list_all, prefix_len};
ghost use Rattle.std.specs.Str.Parse.{digits_value};
ghost use Rattle.addr2line_units.specs.LegacyElements.{is_lower_hex};

/// Whether only hexadecimal digits stand there.
pub(super) fn is_hex_text(bytes: &[u8]) -> bool
    ensures { result ≡ list_all is_ascii_hexdigit bytes.now }
{
    bytes.iter().all(|b| b.is_ascii_hexdigit())
}

/// Whether only digits from `0` to `9` and `a` to `f` stand there.
pub(super) fn is_lower_hex_text(bytes: &[u8]) -> bool
    ensures { result ≡ list_all is_lower_hex bytes.now }
{
    bytes
        .iter()
        .all(|b| matches!(*b, b'0'..=b'9' | b'a'..=b'f'))
}

/// Whether only ASCII stands there.
pub(super) fn is_ascii_text(bytes: &[u8]) -> bool
    ensures { result ≡ list_all is_ascii bytes.now }
{
    bytes.iter().all(|b| b.is_ascii())
}

/// The value of a digit or of a letter, as `char::to_digit` gives it, and 36 for any other byte.
fn digit_of(b: u8) -> u64
    ensures { result ≡ digit_value b }
{
    match b {
        b'0'..=b'9' => u64::from(b - b'0'),
        b'A'..=b'Z' => u64::from(b - b'A') + 10,
        b'a'..=b'z' => u64::from(b - b'a') + 10,
        _ => 36,
    }
}

/// The value of one digit more, if it is at most so much.
fn number_then(number: u64, radix: u32, digit: u64, most: u64) -> Option<u64>
    ensures { MatchOption result (most < number * radix + digit)
        (λ n. (n ≡ number * radix + digit) × (n ≤ most)) }
{
    let number = number.checked_mul(u64::from(radix))?.checked_add(digit)?;
    if number > most { None } else { Some(number) }
}

/// The value of digits, if it is at most so much.
#[tactic(auto, using(crate::proofs::LegacySteps::number_more, crate::proofs::LegacySteps::number_past))]
pub(super) fn number_up_to(digits: &[u8], radix: u32, most: u64) -> Option<u64>
    requires { 1 ≤ radix }
    ensures { MatchOption result (most < digits_value radix digits.now)
        (λ n. (n ≡ digits_value radix digits.now) × (n ≤ most)) }
{
    let mut number = 0u64;
    for b in digits {
        number = number_then(number, radix, digit_of(*b), most)?;
    }
    Some(number)
}

/// How many digits stand first.
pub(super) fn digits_len(text: &[u8]) -> usize
    ensures gives { result ≡ prefix_len is_ascii_digit text.now }
    ensures within { result ≤ length text.now }
{
    text.iter().take_while(|b| b.is_ascii_digit()).count()
}
