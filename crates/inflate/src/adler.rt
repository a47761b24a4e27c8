//! The sum of a stream's output (RFC 1950, section 2.2).

ghost use Rattle.std.specs.Prelude.{◌≡◌};
ghost use Rattle.inflate.specs.Stream.{adler32_of};

use crate::constants::ADLER_BASE;

// From here on the sums are reduced: below it one byte more can't make them pass 64 bits.
const SUM_LIMIT: usize = 1 << 62;

/// The Adler-32 sum of bytes. Takes no memory.
pub(crate) fn adler32(bytes: &[u8]) -> usize
    ensures gives { result ≡ adler32_of bytes.now }
{
    let mut low = 1;
    let mut high = 0;
    for byte in bytes {
        low += *byte as usize;
        high += low;
        if high >= SUM_LIMIT {
            low %= ADLER_BASE;
            high %= ADLER_BASE;
        }
    }
    high % ADLER_BASE * 65536 + low % ADLER_BASE
}
