//! The numbers of a header, prepared once for all opcodes.

ghost use Rattle.std.specs.Prelude.{◌≡◌, ◌+◌, ◌/◌, ◌%◌, ◌<◌, ◌||◌, true, nat_lt};
ghost use Rattle.gimli_line.specs.Common.{is_address_size};
ghost use Rattle.gimli_line.specs.Encoding.{limit};
ghost use Rattle.gimli_line.specs.declared.parameters.TheConstants.{RECIPROCAL_SCALE};

use crate::address_size::greatest_address;
use crate::encoding::LineEncoding;

// Large enough that no product of a byte and a reciprocal is rounded to another quotient.
const RECIPROCAL_SCALE: u32 = 65536;

/// What opcodes are run by, prepared so that no special opcode divides.
#[derive(Clone, Copy)]
pub struct LineParameters {
    /// The numbers of the header.
    pub encoding: LineEncoding,
    /// The greatest address of the address size.
    pub greatest: u64,
    /// A byte times this, divided by `RECIPROCAL_SCALE`, is the byte divided by the line range.
    pub reciprocal: u32,
    ghost size: { is_address_size encoding.address_size ≡ true },
    ghost operations: { 0 < encoding.maximum_operations_per_instruction },
    ghost range: { 0 < encoding.line_range },
    ghost byte: { encoding.line_range < 256 },
    ghost greatest_is: { greatest + 1 ≡ limit encoding },
    ghost reciprocal_is: { reciprocal ≡ RECIPROCAL_SCALE / encoding.line_range + 1 },
}

impl LineParameters {
    /// The numbers of a header, prepared.
    pub(crate) fn new(encoding: LineEncoding) -> LineParameters
        requires size { is_address_size encoding.address_size ≡ true }
        requires operations { 0 < encoding.maximum_operations_per_instruction }
        requires range { 0 < encoding.line_range }
        ensures gives { result.encoding ≡ encoding }
    {
        LineParameters {
            encoding,
            greatest: greatest_address(encoding.address_size),
            reciprocal: RECIPROCAL_SCALE / u32::from(encoding.line_range) + 1,
        }
    }

    /// A number divided by the line range, without a division.
    pub(crate) fn quotient(&self, n: u8) -> u8
        ensures gives { result ≡ n / self.now.encoding.line_range }
    {
        let product = u32::from(n) * self.reciprocal;
        (product / RECIPROCAL_SCALE) as u8
    }

    /// What a division by the line range leaves.
    pub(crate) fn remainder(&self, n: u8) -> u8
        ensures gives { result ≡ n % self.now.encoding.line_range }
    {
        n - self.quotient(n) * self.encoding.line_range
    }
}
