//! Byte orders, and the two formats of DWARF.

ghost use Rattle.std.specs.Prelude.{◌≡◌};
ghost use Rattle.gimli_read.specs.Number.{offset_size};

/// The order of a number's bytes.
#[derive(Clone, Copy, Debug, PartialEq, Eq)]
pub enum RunTimeEndian {
    /// The lowest byte first.
    Little,
    /// The highest byte first.
    Big,
}

/// How wide the offsets and lengths of a unit are (DWARF 5, section 7.4).
#[derive(Clone, Copy, Debug, PartialEq, Eq)]
pub enum Format {
    /// Four bytes.
    Dwarf32,
    /// Eight bytes.
    Dwarf64,
}

impl Format {
    /// The number of bytes of an offset or a length. Takes no memory.
    pub fn word_size(self) -> u8
        ensures gives { result ≡ offset_size self }
    {
        match self {
            Format::Dwarf32 => 4,
            Format::Dwarf64 => 8,
        }
    }
}

/// What of a unit the length of its values depends on.
#[derive(Clone, Copy, Debug, PartialEq, Eq)]
pub struct Encoding {
    /// The number of bytes of an address.
    pub address_size: u8,
    /// How wide offsets are.
    pub format: Format,
    /// The version of DWARF.
    pub version: u16,
}
