//! Files with a field changed, or cut off.

use crate::answers::open;
use crate::tables::{first_wrong_change, first_wrong_section};
use elf::LoaderError;
use elf_writer::{SHAPES, Section, Shape, elf_file, named_symbol, plain};
use std::alloc::Global;

// A file with .text at 0x10 and .debug_info, of 64 bits, little endian (0) or of 32 bits, big
// endian (3).
fn sections_file(alloc: Global, shape: usize) -> Option<Vec<u8>> {
    let text = Section {
        address: 0x10,
        ..plain(".text", &[9, 9, 9, 9])
    };
    let sections = [text, plain(".debug_info", &[1, 2, 3])];
    elf_file(alloc, *SHAPES.get(shape)?, &sections).ok()
}

// Of 64 bits, little endian, 0x164 bytes: .text at 40, .debug_info at 44, the names from 47 to 64
// (.debug_info is the name at 7), and the section headers at 64, a4, e4 and 124.
const READ: &str = "\
nothing; 01 02 03
the rest of e_ident; 06: 09 09 09 09 09 09 09 09 09 09; 01 02 03
e_type; 10: 01; 01 02 03
from e_machine on; 12: ff ff ff ff ff ff ff ff ff ff ff ff ff ff ff ff ff ff ff ff ff ff; 01 02 03
e_flags to e_phnum; 30: ff ff ff ff ff ff ff ff ff ff; 01 02 03
e_shnum 0, given by section 0; 3c: 00; 84: 04; 01 02 03
the size of section 0, beside e_shnum; 84: 09; 01 02 03
e_shstrndx ffff, given by section 0; 3e: ff ff; 8c: 03; 01 02 03
sh_type, no NOBITS; e8: 09; 01 02 03
sh_flags, all but the compressed one; ec: ff f7 ff ff ff ff ff ff; 01 02 03
sh_addr; f4: ff ff ff ff ff ff ff ff; 01 02 03
sh_offset, the last bytes of the file; fc: 61 01; 00 00 00
sh_link and on; 10c: ff ff ff ff ff ff ff ff ff ff ff ff ff ff ff ff ff ff ff ff ff ff ff ff; 01 02 03
sh_name, two of that name; a4: 07; 09 09 09 09
e_type 1, and a RELA section for another; 10: 01; a8: 04; d0: 01; 01 02 03
e_type 1, and an empty RELA section for it; 10: 01; a8: 04; d0: 02; c4: 00; 01 02 03
e_type 3, and a RELA section for it; 10: 03; a8: 04; d0: 02; 01 02 03
the names end with the zero; 144: 13; 01 02 03
";

const REFUSED: &str = "\
the magic begins with another byte; 00: 7e; NotElf
the magic ends with another byte; 03: 47; NotElf
class 0; 04: 00; BadElf
class 3; 04: 03; BadElf
data 0; 05: 00; BadElf
data 3; 05: 03; BadElf
data, big; 05: 02; BadElf
no magic, and no class; 00: 00; 04: 00; NotElf
e_shoff, one more; 28: 65; BadElf
e_shoff, all ones; 28: ff ff ff ff ff ff ff ff; BadElf
e_shentsize, one less; 3a: 3f; BadElf
e_shentsize, the high byte; 3b: 01; BadElf
e_shnum, one more; 3c: 05; BadElf
section 0 has one more; 3c: 00; 84: 05; BadElf
section 0 has all ones; 3c: 00; 84: ff ff ff ff ff ff ff ff; BadElf
section 0 is cut; 3c: 00; 28: 25 01; BadElf
section 0 is far away; 3c: 00; 28: ff ff ff ff ff ff ff ff; BadElf
sh_flags, compressed; ec: 00 08; CompressedSection
sh_flags and sh_offset, compressed and outside; ec: 00 08; fc: ff ff ff ff ff ff ff ff; BadElf
e_type 1, and a RELA section for it; 10: 01; a8: 04; d0: 02; RelocationsNeeded
e_type 1, and a REL section for it; 10: 01; a8: 09; d0: 02; RelocationsNeeded
compressed, with a RELA section for it; 10: 01; a8: 04; d0: 02; ec: 00 08; CompressedSection
outside, with a RELA section for it; 10: 01; a8: 04; d0: 02; fc: 62 01; BadElf
sh_offset, one past the last; fc: 62 01; BadElf
sh_size, all ones; 104: ff ff ff ff ff ff ff ff; BadElf
";

const WITHOUT_BYTES: &str = "\
class of 32 bits, where e_shoff is 0; 04: 01; empty
e_shoff 0, whatever follows; 28: 00; 3a: ff ff ff ff ff ff; empty
e_shnum, without the names; 3c: 03; empty
e_shnum 0, and section 0 has none; 3c: 00; empty
e_shstrndx 0; 3e: 00; empty
e_shstrndx, no table; 3e: 02; empty
e_shstrndx, no section; 3e: 04; empty
e_shstrndx ffff, and section 0 has none; 3e: ff ff; empty
sh_name, past the table; e4: 1d; empty
sh_name, all ones; e4: ff ff ff ff; empty
sh_name, an empty one; e4: 1c; empty
sh_name, another; e4: 08; empty
sh_type NOBITS, compressed; e8: 08; ec: 00 08; empty
sh_type NOBITS, outside; e8: 08; fc: ff ff ff ff ff ff ff ff; empty
sh_size 0; 104: 00; empty
the names are outside; 13c: 61 01; empty
the names end before the zero; 144: 12; empty
the names are NOBITS; 128: 08; empty
";

// Of 32 bits, big endian, 0xf8 bytes: .text at 34, .debug_info at 38, the names from 3b to 58,
// and the section headers at 58, 80, a8 and d0.
const OF_32_BITS: &str = "\
nothing; 01 02 03
class of 64 bits, where e_shentsize is 0300; 04: 02; BadElf
data, little; 05: 01; BadElf
e_entry and e_phoff; 18: ff ff ff ff ff ff ff ff; 01 02 03
e_flags to e_phnum; 24: ff ff ff ff ff ff ff ff ff ff; 01 02 03
e_shoff, one more; 23: 59; BadElf
e_shoff, all ones; 20: ff ff ff ff; BadElf
e_shoff 0, whatever follows; 23: 00; 2e: ff ff ff ff ff ff; empty
e_shentsize, that of 64 bits; 2f: 40; BadElf
e_shnum, one more; 31: 05; BadElf
e_shnum 0, given by section 0; 31: 00; 6f: 04; 01 02 03
section 0 has one more; 31: 00; 6f: 05; BadElf
section 0 is cut; 31: 00; 23: d1; BadElf
e_shstrndx 0; 33: 00; empty
e_shstrndx ffff, given by section 0; 32: ff ff; 73: 03; 01 02 03
sh_type NOBITS, outside; af: 08; b8: ff ff ff ff; empty
sh_flags, all but the compressed one; b0: ff ff f7 ff; 01 02 03
sh_flags, compressed; b2: 08; CompressedSection
sh_addr; b4: ff ff ff ff; 01 02 03
sh_offset, the last bytes of the file; bb: f5; 00 00 00
sh_offset, one past the last; bb: f6; BadElf
sh_size, all ones; bc: ff ff ff ff; BadElf
sh_link to sh_entsize; c0: ff ff ff ff ff ff ff ff ff ff ff ff ff ff ff ff; 01 02 03
the names end with the zero; e7: 13; 01 02 03
the names end before the zero; e7: 12; empty
the names are outside; e3: f5; empty
";

// The first line whose answer is another one in a file of that shape.
fn first_wrong_field<'a>(alloc: Global, shape: usize, cases: &'a str) -> &'a str {
    match sections_file(alloc, shape) {
        Some(file) => first_wrong_section(alloc, &file, cases),
        None => "no file",
    }
}

#[test]
fn a_changed_field_has_its_answer(rt: HostRuntime) {
    for (shape, cases) in [(0, READ), (0, REFUSED), (0, WITHOUT_BYTES), (3, OF_32_BITS)] {
        assert_eq!(rt; first_wrong_field(rt.alloc(), shape, cases), "none");
    }
}

// Of 64 bits, little endian: the null symbol at 41, the symbol at 59, the strings from 71 to 76,
// and the section headers at 97, d7 (.text), 117 (.symtab), 157 (.strtab) and 197 (the names, of
// which .text is at 1).
const SYMBOLS: &str = "\
nothing; one 10
st_name, the second letter; 59: 02; ne 10
st_name, an empty one; 59: 04; none
st_name, past the table; 59: 05; none
st_name, all ones; 59: ff ff ff ff; none
st_info, a section; 5d: 13; none
st_info, an untyped one; 5d: 10; one 10
st_info, a local object; 5d: 01; one 10
st_other; 5e: ff; one 10
st_shndx 0; 5f: 00; none
st_shndx, a reserved one; 5f: f1 ff; one 10
st_value, at the probe; 61: 18; one 18
st_value, past the probe; 61: 19; none
st_value, 64 bits; 68: 80; none
st_size, up to the probe; 69: 08; none
st_size, one more; 69: 09; one 10
st_size 0; 69: 00; one 10
st_size, all ones; 69: ff ff ff ff ff ff ff ff; one 10
the name is no UTF-8; 72: ff; none
sh_type DYNSYM; 11b: 0b; one 10
sh_type of no symbols; 11b: 03; none
sh_addr; 127: ff ff ff ff ff ff ff ff; one 10
sh_offset, all ones; 12f: ff ff ff ff ff ff ff ff; none
sh_size, one less; 137: 2f; none
sh_size, a short tail; 137: 31; one 10
sh_size, all ones; 137: ff ff ff ff ff ff ff ff; none
sh_link 0; 13f: 00; none
sh_link, no section; 13f: 05; none
sh_link, the names; 13f: 04; .text 10
sh_info to sh_entsize; 143: ff ff ff ff ff ff ff ff ff ff ff ff ff ff ff ff ff ff ff ff; one 10
the strings are NOBITS; 15b: 08; none
the strings are outside; 16f: d8 01; none
the strings end before the zero; 177: 04; none
";

#[test]
fn a_changed_symbol_has_its_answer(rt: HostRuntime) {
    let symbols = [named_symbol(b"one", 0x12, 0x10, 0x10)];
    assert_eq!(rt; first_wrong_change(rt.alloc(), &symbols, SYMBOLS), "none");
}

// The first length at which a cut file has another answer than it should; its own length where
// none has.
fn first_wrong_cut(alloc: Global, file: &[u8]) -> usize {
    for len in 0..file.len() {
        let want = if len < 4 {
            LoaderError::NotElf
        } else {
            LoaderError::BadElf
        };
        if open(alloc, &file[..len]).err() != Some(want) {
            return len;
        }
    }
    if open(alloc, file).is_ok() {
        file.len()
    } else {
        0
    }
}

// That length of a file of that shape, and its own length.
fn cut(alloc: Global, shape: Shape) -> Option<[usize; 2]> {
    let file = elf_file(alloc, shape, &[plain(".debug_info", &[1])]).ok()?;
    Some([first_wrong_cut(alloc, &file), file.len()])
}

#[test]
fn a_cut_file_is_refused(rt: HostRuntime) {
    for shape in SHAPES {
        let [wrong, len] = cut(rt.alloc(), shape).unwrap_or([0, 1]);
        assert_eq!(rt; wrong, len);
    }
}
