//! Addresses of a size.

ghost use Rattle.std.specs.Prelude.{◌≡◌, ◌+◌, true};
ghost use Rattle.gimli_line.specs.Common.{is_address_size};
ghost use Rattle.gimli_line.specs.AddressSize.{address_limit, greatest_address};

/// The greatest address of a size in bytes: all ones. Takes no memory.
pub fn greatest_address(size: u8) -> u64
    requires size { is_address_size size ≡ true }
    ensures gives { result ≡ greatest_address size }
    ensures bound { result + 1 ≡ address_limit size }
{
    match size {
        1 => u64::from(u8::MAX),
        2 => u64::from(u16::MAX),
        4 => u64::from(u32::MAX),
        _ => u64::MAX,
    }
}
