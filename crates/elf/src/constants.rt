//! Constants of ELF files, in the standard's spelling (System V ABI, Object Files).

// The size of an Elf32_Half or Elf64_Half, in bytes.
pub(crate) const HALF_SIZE: usize = 2;

// The size of an Elf32_Word or Elf64_Word, in bytes.
pub(crate) const WORD_SIZE: usize = 4;

// The size of an Elf64_Ehdr, in bytes, which no other header passes.
pub(crate) const EHDR_SIZE_MAX: u64 = 64;

// The first byte of e_ident.
pub(crate) const ELFMAG0: u8 = 0x7f;

// Where e_ident has the class and the byte order.
pub(crate) const EI_CLASS: usize = 4;

pub(crate) const EI_DATA: usize = 5;

// The classes.
pub(crate) const ELFCLASS32: u8 = 1;

pub(crate) const ELFCLASS64: u8 = 2;

// The byte orders.
pub(crate) const ELFDATA2LSB: u8 = 1;

pub(crate) const ELFDATA2MSB: u8 = 2;

// The e_type of a relocatable file.
pub(crate) const ET_REL: u64 = 1;

// Section numbers with a meaning of their own: no section, and a number that section 0 has.
pub(crate) const SHN_UNDEF: u64 = 0;

pub(crate) const SHN_XINDEX: u64 = 0xffff;

// Types of sections.
pub(crate) const SHT_SYMTAB: u64 = 2;

pub(crate) const SHT_RELA: u64 = 4;

pub(crate) const SHT_NOBITS: u64 = 8;

pub(crate) const SHT_REL: u64 = 9;

pub(crate) const SHT_DYNSYM: u64 = 11;

// The flag of a section whose bytes are compressed.
pub(crate) const SHF_COMPRESSED: u64 = 0x800;

// How many types of symbols there can be: st_info has the type in its low four bits, and the bind
// in its high four.
pub(crate) const ST_TYPE_COUNT: u8 = 16;

// Types of symbols.
pub(crate) const STT_NOTYPE: u8 = 0;

pub(crate) const STT_OBJECT: u8 = 1;

pub(crate) const STT_FUNC: u8 = 2;

// Binds of symbols.
pub(crate) const STB_GLOBAL: u8 = 1;

pub(crate) const STB_WEAK: u8 = 2;

// The type of a compression header whose section zlib packed.
pub(crate) const ELFCOMPRESS_ZLIB: u64 = 1;

// What a section named `.zdebug_` has before its stream: "ZLIB" and a size.
pub(crate) const ZLIB_SIZE: usize = 8;

pub(crate) const ZLIB_HEADER_SIZE: usize = 12;

// How many bytes the longest name of a section has that lookups read: `.zdebug_str_offsets.dwo`.
pub(crate) const WANTED_NAME_MAX: usize = 23;

// How many bytes between two parts that are read are read too, so that the parts are one: as many as
// the host reads from a file at least.
pub(crate) const GAP_MAX: u64 = 4096;
