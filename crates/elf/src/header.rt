//! The file's own header (System V ABI, Object Files: ELF Header).

ghost use Rattle.std.specs.Prelude.{◌≡◌, ◌≤◌, ◌+◌, ◌*◌, length, IfOk};
ghost use Rattle.elf.specs.FileImage.{image_bytes};
ghost use Rattle.elf.specs.Layout.{layout_of};
ghost use Rattle.elf.specs.Header.{class_of, endian_of, has_magic, ident_in, count_in, header_in};

use crate::constants::{
    EI_CLASS, EI_DATA, ELFCLASS32, ELFCLASS64, ELFDATA2LSB, ELFDATA2MSB, ELFMAG0, ET_REL, HALF_SIZE,
};
use crate::error::LoaderError;
use crate::image::FileImage;
use crate::layout::Class;
use gimli_read::RunTimeEndian;

const MAGIC: [u8; 4] = [ELFMAG0, b'E', b'L', b'F'];

/// The class and the byte order of a file.
#[derive(Clone, Copy)]
pub(crate) struct Ident {
    pub(crate) class: Class,
    pub(crate) endian: RunTimeEndian,
}

/// Whether a file is relocatable, where its section headers begin and how many there are, and
/// e_shstrndx.
#[derive(Clone, Copy)]
pub(crate) struct FileHeader {
    pub(crate) is_relocatable: bool,
    pub(crate) start: usize,
    pub(crate) count: usize,
    pub(crate) name_index: u64,
}

// The class that a byte names.
fn class_from(byte: u8) -> Result<Class, LoaderError>
    ensures gives { result ≡ class_of byte }
{
    match byte {
        ELFCLASS32 => Ok(Class::Elf32),
        ELFCLASS64 => Ok(Class::Elf64),
        _ => Err(LoaderError::BadElf),
    }
}

// The byte order that a byte names.
fn endian_from(byte: u8) -> Result<RunTimeEndian, LoaderError>
    ensures gives { result ≡ endian_of byte }
{
    match byte {
        ELFDATA2LSB => Ok(RunTimeEndian::Little),
        ELFDATA2MSB => Ok(RunTimeEndian::Big),
        _ => Err(LoaderError::BadElf),
    }
}

// Whether a file begins as an ELF file does.
fn has_magic(file: &FileImage) -> bool
    ensures gives { result ≡ has_magic (image_bytes file.now) }
{
    file.len() >= 4 && file.gathered(0, 4).starts_with(MAGIC.as_slice())
}

/// The class and the byte order that e_ident says.
#[tactic(auto, unfolding(crate::specs::Header::ident_in))]
pub(crate) fn read_ident(file: &FileImage) -> Result<Ident, LoaderError>
    ensures gives { result ≡ ident_in (image_bytes file.now) }
{
    if !has_magic(file) {
        return Err(LoaderError::NotElf);
    }
    if file.len() <= EI_DATA as u64 {
        return Err(LoaderError::BadElf);
    }
    let class = class_from(file.byte_at(EI_CLASS as u64))?;
    let endian = endian_from(file.byte_at(EI_DATA as u64))?;
    Ok(Ident { class, endian })
}

// The number of section headers from place `at` on; where e_shnum is 0, it is the size of section
// 0.
#[tactic(auto, unfolding(crate::specs::Layout::layout_number_at))]
fn count_of(file: &FileImage, at: u64, ident: Ident) -> Result<u64, LoaderError>
    requires whole { (layout_of ident.class).header_size ≤ length (image_bytes file.now) }
    ensures gives { result
        ≡ count_in ident.endian (layout_of ident.class) at (image_bytes file.now) }
{
    let layout = ident.class.layout();
    let count = file.number(0, layout.e_shnum, HALF_SIZE, ident.endian);
    if count != 0 {
        return Ok(count);
    }
    let len = file.len();
    if at > len || len - at < layout.section_size as u64 {
        return Err(LoaderError::BadElf);
    }
    Ok(file.number(at, layout.sh_size, layout.address_size, ident.endian))
}

/// The file's header.
#[tactic(auto, unfolding(crate::specs::Header::header_in))]
pub(crate) fn read_header(file: &FileImage, ident: Ident) -> Result<FileHeader, LoaderError>
    ensures gives { result ≡ header_in ident.endian (layout_of ident.class) (image_bytes file.now) }
    ensures within { IfOk result (λ h.
        h.start + h.count * (layout_of ident.class).section_size ≤ length (image_bytes file.now)) }
{
    let layout = ident.class.layout();
    if file.len() < layout.header_size as u64 {
        return Err(LoaderError::BadElf);
    }
    let is_relocatable = file.number(0, layout.e_type, HALF_SIZE, ident.endian) == ET_REL;
    let start = file.number(0, layout.e_shoff, layout.address_size, ident.endian);
    if start == 0 {
        return Ok(FileHeader {
            is_relocatable,
            start: 0,
            count: 0,
            name_index: 0,
        });
    }
    if file.number(0, layout.e_shentsize, HALF_SIZE, ident.endian) != layout.section_size as u64 {
        return Err(LoaderError::BadElf);
    }
    let count = count_of(file, start, ident)?;
    let Some(size) = count.checked_mul(layout.section_size as u64) else {
        return Err(LoaderError::BadElf);
    };
    let Some(end) = start.checked_add(size) else {
        return Err(LoaderError::BadElf);
    };
    if end > file.len() {
        return Err(LoaderError::BadElf);
    }
    Ok(FileHeader {
        is_relocatable,
        start: start as usize,
        count: count as usize,
        name_index: file.number(0, layout.e_shstrndx, HALF_SIZE, ident.endian),
    })
}
