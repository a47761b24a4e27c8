//! Values, files and headers twice: their readers are duplicated.

ghost use Rattle.std.specs.Prelude.{◌&&◌, ◌==◌, ◌≡◌, length, map, not, Ok};
ghost use Rattle.gimli_line.specs.Common.{ExactlyUnlessOomIf, as_value};
ghost use Rattle.gimli_read.specs.HeldBytes.{holds_bytes};
ghost use Rattle.gimli_line.specs.Header.{header_copy_takes_memory};

use crate::header::{FileEntry, LineProgramHeader};
use gimli_read::{AttributeValue, Error, Reader};
use std::alloc::Global;

/// The same value. Refused `OutOfMemory` alone, where bytes are shared and the value holds some.
pub(crate) fn duplicate_value<R: Reader>(
    value: &AttributeValue<R>,
) -> Result<AttributeValue<R>, Error>
    ensures gives { ExactlyUnlessOomIf (R.shares && holds_bytes value.now)
        (as_value R.section) result (Ok (as_value R.section value.now)) }
{
    match value {
        AttributeValue::Addr(x) => Ok(AttributeValue::Addr(*x)),
        AttributeValue::Block(x) => Ok(AttributeValue::Block(x.duplicate()?)),
        AttributeValue::Data1(x) => Ok(AttributeValue::Data1(*x)),
        AttributeValue::Data2(x) => Ok(AttributeValue::Data2(*x)),
        AttributeValue::Data4(x) => Ok(AttributeValue::Data4(*x)),
        AttributeValue::Data8(x) => Ok(AttributeValue::Data8(*x)),
        AttributeValue::Data16(x) => Ok(AttributeValue::Data16(*x)),
        AttributeValue::Sdata(x) => Ok(AttributeValue::Sdata(*x)),
        AttributeValue::Udata(x) => Ok(AttributeValue::Udata(*x)),
        AttributeValue::Exprloc(x) => Ok(AttributeValue::Exprloc(x.duplicate()?)),
        AttributeValue::Flag(x) => Ok(AttributeValue::Flag(*x)),
        AttributeValue::SecOffset(x) => Ok(AttributeValue::SecOffset(*x)),
        AttributeValue::DebugAddrIndex(x) => Ok(AttributeValue::DebugAddrIndex(*x)),
        AttributeValue::UnitRef(x) => Ok(AttributeValue::UnitRef(*x)),
        AttributeValue::DebugInfoRef(x) => Ok(AttributeValue::DebugInfoRef(*x)),
        AttributeValue::DebugInfoRefSup(x) => Ok(AttributeValue::DebugInfoRefSup(*x)),
        AttributeValue::DebugTypesRef(x) => Ok(AttributeValue::DebugTypesRef(*x)),
        AttributeValue::DebugLocListsIndex(x) => Ok(AttributeValue::DebugLocListsIndex(*x)),
        AttributeValue::DebugRngListsIndex(x) => Ok(AttributeValue::DebugRngListsIndex(*x)),
        AttributeValue::DebugStrRef(x) => Ok(AttributeValue::DebugStrRef(*x)),
        AttributeValue::DebugStrRefSup(x) => Ok(AttributeValue::DebugStrRefSup(*x)),
        AttributeValue::DebugStrOffsetsIndex(x) => Ok(AttributeValue::DebugStrOffsetsIndex(*x)),
        AttributeValue::DebugLineStrRef(x) => Ok(AttributeValue::DebugLineStrRef(*x)),
        AttributeValue::String(x) => Ok(AttributeValue::String(x.duplicate()?)),
    }
}

// The same file. Refused `OutOfMemory` alone, where bytes are shared.
fn duplicate_file<R: Reader>(file: &FileEntry<R>) -> Result<FileEntry<R>, Error>
    ensures gives { ExactlyUnlessOomIf R.shares (λ f. f) result (Ok file.now) }
{
    Ok(FileEntry {
        path_name: duplicate_value(&file.path_name)?,
        directory_index: file.directory_index,
    })
}

// The same values. Refused `OutOfMemory` alone, where there is a value.
fn duplicate_values<R: Reader>(
    alloc: Global,
    values: &[AttributeValue<R>],
) -> Result<Vec<AttributeValue<R>>, Error>
    ensures gives { ExactlyUnlessOomIf (not (length values.now == 0))
        (λ v. map (as_value R.section) v.items) result
        (Ok (map (as_value R.section) values.now)) }
{
    let mut copies = Vec::new(alloc);
    for value in values {
        copies.push(duplicate_value(value)?)?;
    }
    Ok(copies)
}

// The same files. Refused `OutOfMemory` alone, where there is a file.
fn duplicate_files<R: Reader>(
    alloc: Global,
    files: &[FileEntry<R>],
) -> Result<Vec<FileEntry<R>>, Error>
    ensures gives { ExactlyUnlessOomIf (not (length files.now == 0)) (λ v. v.items) result
        (Ok files.now) }
{
    let mut copies = Vec::new(alloc);
    for file in files {
        copies.push(duplicate_file(file)?)?;
    }
    Ok(copies)
}

/// The same header. Refused `OutOfMemory` alone, where bytes are shared or a table has an entry.
pub(crate) fn duplicate_header<R: Reader>(
    header: &LineProgramHeader<R>,
) -> Result<LineProgramHeader<R>, Error>
    ensures gives { ExactlyUnlessOomIf (header_copy_takes_memory R.shares header.now) (λ h. h)
        result (Ok header.now) }
{
    Ok(LineProgramHeader {
        encoding: header.encoding,
        parameters: header.parameters,
        standard_opcode_lengths: header.standard_opcode_lengths.duplicate()?,
        include_directories: duplicate_values(header.alloc, &header.include_directories)?,
        file_names: duplicate_files(header.alloc, &header.file_names)?,
        alloc: header.alloc,
    })
}
