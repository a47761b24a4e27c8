//! Files and directories by their index.

ghost use Rattle.std.specs.Option.{option_map};
ghost use Rattle.std.specs.Prelude.{◌&&◌, ◌≡◌, Ok, map};
ghost use Rattle.gimli_line.specs.Common.{ExactlyUnlessOomIf, as_value};
ghost use Rattle.gimli_read.specs.HeldBytes.{holds_bytes};
ghost use Rattle.gimli_line.specs.Header.{entry_of, file_of, directory_of, is_in_bytes};

use crate::copies::duplicate_value;
use crate::header::{FileEntry, LineProgramHeader};
use gimli_read::{AttributeValue, DWARF_5, Error, Reader};

// An entry of a table, counted from 1 below version 5 and from 0 in it.
fn entry<T>(version: u16, index: u64, entries: &[T]) -> Option<&T>
    ensures gives { option_map (λ x. x.now) result ≡ entry_of version index entries.now }
{
    if version >= DWARF_5 {
        return entries.get(index as usize);
    }
    if index == 0 {
        return None;
    }
    entries.get(index as usize - 1)
}

impl<R: Reader> LineProgramHeader<R> {
    /// The file of an index, as rows have it. Takes no memory.
    ///
    /// Files count from 1 in versions 2 to 4, and from 0 in version 5; none where there is no such
    /// file.
    pub fn file(&self, index: u64) -> Option<&FileEntry<R>>
        ensures gives { option_map (λ f. f.now) result ≡ file_of self.now index }
    {
        entry(self.encoding.version, index, &self.file_names)
    }

    /// The files, in their order. Takes no memory.
    pub fn file_names(&self) -> &[FileEntry<R>]
        ensures gives { result.now ≡ self.now.file_names }
    {
        self.file_names.as_slice()
    }

    /// The version of the program. Takes no memory.
    pub fn version(&self) -> u16
        ensures gives { result ≡ self.now.encoding.version }
    {
        self.encoding.version
    }
}

impl<R: Reader> FileEntry<R> {
    /// The path, a string of any form. Refused `OutOfMemory` alone, and only where it has bytes of
    /// its own that are shared. Source: DWARF 5, section 6.2.4.
    pub fn path_name(&self) -> Result<AttributeValue<R>, Error>
        ensures gives { ExactlyUnlessOomIf (R.shares && holds_bytes self.now.path_name)
            (as_value R.section) result (Ok self.now.path_name) }
    {
        duplicate_value(&self.path_name)
    }

    /// The directory, by its index. Takes no memory.
    pub fn directory_index(&self) -> u64
        ensures gives { result ≡ self.now.directory_index }
    {
        self.directory_index
    }

    /// The directory in the header of the same program. Refused `OutOfMemory` alone, and only where
    /// there is one that has bytes of its own, which are shared.
    ///
    /// Directories count from 1 in versions 2 to 4, where index 0 is the unit's own, and from 0 in
    /// version 5; none where there is no such directory. Source: DWARF 5, section 6.2.4.
    pub fn directory(
        &self,
        header: &LineProgramHeader<R>,
    ) -> Result<Option<AttributeValue<R>>, Error>
        ensures gives { ExactlyUnlessOomIf
            (R.shares && is_in_bytes (directory_of header.now self.now))
            (option_map (as_value R.section)) result (Ok (directory_of header.now self.now)) }
    {
        let index = self.directory_index;
        match entry(header.encoding.version, index, &header.include_directories) {
            None => Ok(None),
            Some(directory) => Ok(Some(duplicate_value(directory)?)),
        }
    }
}
