//! Files in memory that a loader reads whole, and files that it reads by parts.

use addr2line::{FileSource, MemoryFiles};
use elf::{FileImage, PartSource, read_wanted};
use std::alloc::{AllocError, Global};

// Fewer bytes than stand between the sections of a file apart, so that nothing between them can be
// read.
const MOST: usize = 0x1000;

// A file in memory.
#[derive(Drop)]
pub(super) struct FileInMemory {
    bytes: Vec<u8>,
}

impl PartSource for FileInMemory {
    ghost use Rattle.std.specs.Prelude.{Some};

    ghost bytes = { λ s. Some s.bytes.items };

    fn len(&self) -> u64 {
        self.bytes.len() as u64
    }

    fn part(&self, alloc: Global, start: u64, len: usize) -> Result<Option<Vec<u8>>, AllocError> {
        let all = self.len();
        if start > all || all - start < len as u64 {
            return Ok(None);
        }
        let (_, rest) = self.bytes.as_slice().split_at(start as usize);
        let (own, _) = rest.split_at(len);
        Ok(Some(Vec::from_slice(alloc, own)?))
    }
}

// The same, of which parts of more than so many bytes can't be read.
#[derive(Drop)]
pub(super) struct FileByParts {
    file: FileInMemory,
}

impl PartSource for FileByParts {
    fn len(&self) -> u64 {
        self.file.len()
    }

    fn part(&self, alloc: Global, start: u64, len: usize) -> Result<Option<Vec<u8>>, AllocError> {
        if len > MOST {
            return Ok(None);
        }
        self.file.part(alloc, start, len)
    }
}

// Files in memory, each read so.
#[derive(Drop)]
pub(super) struct FilesByParts {
    files: MemoryFiles,
}

impl FileSource for FilesByParts {
    fn read(&self, alloc: Global, path: &str) -> Result<Option<Vec<u8>>, AllocError> {
        self.files.read(alloc, path)
    }

    fn read_image(&self, alloc: Global, path: &str) -> Result<Option<FileImage>, AllocError> {
        match self.files.read(alloc, path)? {
            Some(bytes) => {
                let file = FileInMemory { bytes };
                read_wanted(alloc, &FileByParts { file })
            }
            None => Ok(None),
        }
    }
}

// These files, each read so.
pub(super) fn by_parts(files: Result<MemoryFiles, AllocError>) -> Result<FilesByParts, AllocError> {
    Ok(FilesByParts { files: files? })
}

// Files that more can be put beside.
pub(super) trait PutFiles: FileSource {
    fn put_file(&mut self, path: &str, bytes: &[u8]) -> Result<(), AllocError>;
}

impl PutFiles for MemoryFiles {
    fn put_file(&mut self, path: &str, bytes: &[u8]) -> Result<(), AllocError> {
        self.put(path, bytes)
    }
}

impl PutFiles for FilesByParts {
    fn put_file(&mut self, path: &str, bytes: &[u8]) -> Result<(), AllocError> {
        self.files.put(path, bytes)
    }
}
