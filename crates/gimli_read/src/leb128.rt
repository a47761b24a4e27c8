//! LEB128 numbers (DWARF 5, section 7.6).

ghost use Rattle.std.specs.List.{position};
ghost use Rattle.std.specs.Prelude.{◌≡◌, ◌≤◌, ◌<◌, ◌^◌, [], ◌∷◌, length, drop, nat_lt, IfOk};
ghost use Rattle.gimli_read.specs.Reading.{Exactly};
ghost use Rattle.gimli_read.specs.declared.leb128.TheConstants.{MAX_LEB128_LEN};
ghost use Rattle.gimli_read.specs.Leb128.{uleb128_value, sleb128_value, leb128_text, uleb128_in, sleb128_in};

use crate::error::Error;

// A text has at most this many bytes.
const MAX_LEB128_LEN: usize = 10;

// Where the first byte below 128 stands.
fn last_of(bytes: &[u8]) -> Option<usize>
    ensures found { result ≡ position (λ b. nat_lt b 128) bytes.now }
{
    bytes.iter().position(|byte| *byte < 128)
}

// The text at the front.
fn text_of(bytes: &[u8]) -> Result<&[u8], Error>
    ensures gives { Exactly (λ text. (text.now, drop (length text.now) bytes.now)) result
        (leb128_text bytes.now) }
{
    if bytes.len() < MAX_LEB128_LEN {
        return match last_of(bytes) {
            Some(last) => Ok(&bytes[..last + 1]),
            None => Err(Error::UnexpectedEof),
        };
    }
    match last_of(&bytes[..MAX_LEB128_LEN]) {
        Some(last) => Ok(&bytes[..last + 1]),
        None => Err(Error::BadLeb128),
    }
}

// The sum of the bits of a text.
#[tactic(auto, using(crate::proofs::Leb128Lemmas::leb128_steps))]
fn sum_of(text: &[u8]) -> u128
    requires short { length text.now ≤ MAX_LEB128_LEN }
    ensures gives { result ≡ uleb128_value text.now }
    ensures bound { result < 128 ^ length text.now }
{
    let mut sum = 0;
    let mut scale = 1u128;
    for byte in text {
        sum += (*byte % 128) as u128 * scale;
        scale *= 128;
    }
    sum
}

// The sum of the bits of a text, unless it has as many bytes as a text may have.
#[tactic(auto, using(crate::proofs::Leb128Lemmas::leb128_steps, crate::proofs::Leb128Lemmas::short_scale))]
fn short_sum_of(text: &[u8]) -> u64
    requires short { length text.now < MAX_LEB128_LEN }
    ensures gives { result ≡ uleb128_value text.now }
    ensures bound { result < 128 ^ length text.now }
{
    let mut sum = 0;
    let mut scale = 1u64;
    for byte in text {
        sum += (*byte % 128) as u64 * scale;
        scale *= 128;
    }
    sum
}

// The unsigned number at the front, and the number of its bytes, of any length.
#[tactic(auto, unfolding(crate::specs::Leb128::uleb128_in), using(crate::proofs::Leb128Lemmas::short_fits))]
fn any_unsigned(bytes: &[u8]) -> Result<(u64, usize), Error>
    ensures gives { Exactly (λ x. (x.0, drop x.1 bytes.now)) result (uleb128_in bytes.now) }
    ensures bound { IfOk result (λ x. x.1 ≤ length bytes.now) }
{
    let text = text_of(bytes)?;
    if text.len() < MAX_LEB128_LEN {
        return Ok((short_sum_of(text), text.len()));
    }
    let sum = sum_of(text);
    if sum > u64::MAX as u128 {
        return Err(Error::BadLeb128);
    }
    Ok((sum as u64, text.len()))
}

// The unsigned number at the front, and the number of its bytes, two of them at once.
#[inline(never)]
#[tactic(auto, using(crate::proofs::ShortLeb128::unsigned_pair))]
fn long_unsigned(bytes: &[u8]) -> Result<(u64, usize), Error>
    ensures gives { Exactly (λ x. (x.0, drop x.1 bytes.now)) result (uleb128_in bytes.now) }
    ensures bound { IfOk result (λ x. x.1 ≤ length bytes.now) }
{
    if bytes.len() >= 2 && bytes[0] >= 128 && bytes[1] < 128 {
        return Ok(((bytes[0] % 128) as u64 + bytes[1] as u64 * 128, 2));
    }
    any_unsigned(bytes)
}

/// The unsigned number at the front, and the number of its bytes.
#[inline(always)]
#[tactic(auto, using(crate::proofs::ShortLeb128::unsigned_byte))]
pub(crate) fn unsigned(bytes: &[u8]) -> Result<(u64, usize), Error>
    ensures gives { Exactly (λ x. (x.0, drop x.1 bytes.now)) result (uleb128_in bytes.now) }
    ensures bound { IfOk result (λ x. x.1 ≤ length bytes.now) }
{
    // Most numbers are of one byte.
    match bytes.first() {
        Some(byte) if *byte < 128 => Ok((u64::from(*byte), 1)),
        _ => long_unsigned(bytes),
    }
}

// What the next byte after a text of this length would count.
#[tactic(auto, using(crate::proofs::Leb128Lemmas::scale_of))]
fn scale_after(len: usize) -> u128
    requires short { len ≤ MAX_LEB128_LEN }
    ensures gives { result ≡ 128 ^ len }
{
    1 << (7 * len)
}

// The signed number at the front, and the number of its bytes, of any length.
#[inline(never)]
#[tactic(auto, using(crate::proofs::Leb128Lemmas::negative_is), unfolding(crate::specs::Leb128::sleb128_in))]
fn any_signed(bytes: &[u8]) -> Result<(i64, usize), Error>
    ensures gives { Exactly (λ x. (x.0, drop x.1 bytes.now)) result (sleb128_in bytes.now) }
    ensures bound { IfOk result (λ x. x.1 ≤ length bytes.now) }
{
    let text = text_of(bytes)?;
    let sum = sum_of(text);
    let len = text.len();
    if text[len - 1] < 64 {
        if sum > i64::MAX as u128 {
            return Err(Error::BadLeb128);
        }
        return Ok((sum as i64, len));
    }
    // How far the number is below -1.
    let below = scale_after(len) - 1 - sum;
    if below > i64::MAX as u128 {
        return Err(Error::BadLeb128);
    }
    Ok((!(below as i64), len))
}

// The signed number of a text of one byte.
#[tactic(auto, using(crate::proofs::ShortLeb128::sign_value))]
fn signed_of(byte: u8) -> i64
    requires ended { byte < 128 }
    ensures gives { result ≡ sleb128_value (byte ∷ []) }
{
    // With no branch: the sign is any number's.
    byte as i64 - (byte / 64 * 128) as i64
}

/// The signed number at the front, and the number of its bytes.
#[inline(always)]
#[tactic(auto, using(crate::proofs::ShortLeb128::signed_byte))]
pub(crate) fn signed(bytes: &[u8]) -> Result<(i64, usize), Error>
    ensures gives { Exactly (λ x. (x.0, drop x.1 bytes.now)) result (sleb128_in bytes.now) }
    ensures bound { IfOk result (λ x. x.1 ≤ length bytes.now) }
{
    // Most numbers are of one byte.
    match bytes.first() {
        Some(byte) if *byte < 128 => Ok((signed_of(*byte), 1)),
        _ => any_signed(bytes),
    }
}
