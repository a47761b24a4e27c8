//! Where the fields of headers and symbols stand (System V ABI, Object Files).

ghost use Rattle.std.specs.Prelude.{◌≡◌, ◌≤◌, ◌+◌, length};
ghost use Rattle.elf.specs.declared.constants.TheConstants.{HALF_SIZE, WORD_SIZE};
ghost use Rattle.elf.specs.declared.layout.Class.TheVariants as class;
ghost use Rattle.elf.specs.Layout.{layout_number_at, layout_of, AddressSizeBounds, FieldsInHeader, FieldsInSection, FieldsInSymbol};

use byteorder::{BigEndian, ByteOrder, LittleEndian};
use gimli_read::RunTimeEndian;

/// How wide the addresses and offsets of a file are.
#[derive(Clone, Copy)]
pub(crate) enum Class {
    /// Four bytes.
    Elf32,
    /// Eight bytes.
    Elf64,
}

/// How many bytes a header, a section header, a symbol and an address of a class take, and at
/// which byte of its header or symbol each field begins.
#[derive(Clone, Copy)]
pub(crate) struct Layout {
    pub(crate) address_size: usize,
    pub(crate) header_size: usize,
    pub(crate) e_type: usize,
    pub(crate) e_shoff: usize,
    pub(crate) e_shentsize: usize,
    pub(crate) e_shnum: usize,
    pub(crate) e_shstrndx: usize,
    pub(crate) section_size: usize,
    pub(crate) sh_name: usize,
    pub(crate) sh_type: usize,
    pub(crate) sh_flags: usize,
    pub(crate) sh_addr: usize,
    pub(crate) sh_offset: usize,
    pub(crate) sh_size: usize,
    pub(crate) sh_link: usize,
    pub(crate) sh_info: usize,
    pub(crate) symbol_size: usize,
    pub(crate) st_name: usize,
    pub(crate) st_info: usize,
    pub(crate) st_shndx: usize,
    pub(crate) st_value: usize,
    pub(crate) st_size: usize,
}

const ELF32: Layout = Layout {
    address_size: 4,
    header_size: 52,
    e_type: 16,
    e_shoff: 32,
    e_shentsize: 46,
    e_shnum: 48,
    e_shstrndx: 50,
    section_size: 40,
    sh_name: 0,
    sh_type: 4,
    sh_flags: 8,
    sh_addr: 12,
    sh_offset: 16,
    sh_size: 20,
    sh_link: 24,
    sh_info: 28,
    symbol_size: 16,
    st_name: 0,
    st_info: 12,
    st_shndx: 14,
    st_value: 4,
    st_size: 8,
};

const ELF64: Layout = Layout {
    address_size: 8,
    header_size: 64,
    e_type: 16,
    e_shoff: 40,
    e_shentsize: 58,
    e_shnum: 60,
    e_shstrndx: 62,
    section_size: 64,
    sh_name: 0,
    sh_type: 4,
    sh_flags: 8,
    sh_addr: 16,
    sh_offset: 24,
    sh_size: 32,
    sh_link: 40,
    sh_info: 44,
    symbol_size: 24,
    st_name: 0,
    st_info: 4,
    st_shndx: 6,
    st_value: 8,
    st_size: 16,
};

impl Class {
    /// The layout of the class.
    pub(crate) fn layout(self) -> Layout
        ensures gives { result ≡ layout_of self }
        ensures bound { AddressSizeBounds result }
        ensures within { FieldsInHeader result × FieldsInSection result × FieldsInSymbol result }
    {
        match self {
            Class::Elf32 => ELF32,
            Class::Elf64 => ELF64,
        }
    }
}

/// The number in the `size` bytes from a place.
#[tactic(auto, unfolding(crate::specs::Layout::layout_number_at))]
pub(crate) fn number(bytes: &[u8], at: usize, size: usize, endian: RunTimeEndian) -> u64
    requires within { at + size ≤ length bytes.now }
    requires some { 1 ≤ size }
    requires small { size ≤ (layout_of class.Elf64).address_size }
    ensures gives { result ≡ layout_number_at endian at size bytes.now }
{
    let (_, rest) = bytes.split_at(at);
    match endian {
        RunTimeEndian::Little => LittleEndian::read_uint(rest, size),
        RunTimeEndian::Big => BigEndian::read_uint(rest, size),
    }
}

/// The number in the four bytes from a place.
#[tactic(auto, unfolding(crate::specs::Layout::layout_number_at))]
pub(crate) fn word(bytes: &[u8], at: usize, endian: RunTimeEndian) -> u32
    requires within { at + WORD_SIZE ≤ length bytes.now }
    ensures gives { result ≡ layout_number_at endian at WORD_SIZE bytes.now }
{
    let (_, rest) = bytes.split_at(at);
    match endian {
        RunTimeEndian::Little => LittleEndian::read_u32(rest),
        RunTimeEndian::Big => BigEndian::read_u32(rest),
    }
}

/// The number in the two bytes from a place.
#[tactic(auto, unfolding(crate::specs::Layout::layout_number_at))]
pub(crate) fn half(bytes: &[u8], at: usize, endian: RunTimeEndian) -> u16
    requires within { at + HALF_SIZE ≤ length bytes.now }
    ensures gives { result ≡ layout_number_at endian at HALF_SIZE bytes.now }
{
    let (_, rest) = bytes.split_at(at);
    match endian {
        RunTimeEndian::Little => LittleEndian::read_u16(rest),
        RunTimeEndian::Big => BigEndian::read_u16(rest),
    }
}
