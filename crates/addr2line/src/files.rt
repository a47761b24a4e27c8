//! Where files come from.

ghost use Rattle.std.specs.Prelude.{◌≡◌, ℕ, List, [], IfOk, IsOk, OnErr, OnOk};
ghost use Rattle.elf.specs.FileImage.{IsWhole, image_bytes};
ghost use Rattle.addr2line.specs.Files.{listed_files, with_file};

use bytes::Bytes;
use elf::{FileImage, PartSource, read_wanted};
use gimli::read::{EndianBytes, RunTimeEndian};
use std::alloc::{AllocError, Global};
use std::fs::{self, File, Metadata, OpenFile};
use std::io::{self, ErrorKind};
use std::marker::Model;
use std::os::unix::fs::{FileExt, MetadataExt};

// A file of which all bytes are there. Takes no memory where there are none.
fn whole_file(alloc: Global, bytes: Vec<u8>) -> Result<FileImage, AllocError>
    ensures gives { IfOk result (λ file. image_bytes file ≡ bytes.items) }
    ensures none { bytes.items ≡ [] → IsOk result }
    ensures whole { IfOk result IsWhole }
{
    match Bytes::from_vec(bytes) {
        Ok(bytes) => Ok(FileImage::whole(alloc, EndianBytes::new(bytes, RunTimeEndian::Little))),
        Err(_) => Err(AllocError),
    }
}

/// A time of a file, since 1970-01-01 00:00 UTC.
#[derive(Clone, Copy, Debug, PartialEq, Eq)]
pub struct FileTime {
    /// Whole seconds, below zero before that.
    pub seconds: i64,
    /// What is beyond them, in nanoseconds.
    pub nanoseconds: i64,
}

/// What tells a file from another that stood at its path before, and from itself before a change.
#[derive(Clone, Copy, Debug, PartialEq, Eq)]
pub struct FileStamp {
    /// The number of the device that the file is on.
    pub device: u64,
    /// The file's number on that device.
    pub inode: u64,
    /// How many bytes the file has.
    pub len: u64,
    /// When its bytes were changed last.
    pub modified: FileTime,
    /// When its bytes or what is said of it, as its name or owner, were changed last.
    pub changed: FileTime,
}

/// What gives files by their paths.
pub trait FileSource: Drop {
    ghost use Rattle.std.specs.Prelude.{[], IfOk, IfSome, None, Ok, Option, Some, option_map};
    ghost use Rattle.elf.specs.FileImage.{image_bytes};
    ghost use Rattle.elf.specs.Wanted.{HasWanted};
    ghost use Rattle.gimli_read.specs.Reading.{result_map};
    ghost use Rattle.addr2line.specs.Files.{Files, HasEmptyFile, HasNoFile};

    /// What stands at each path, where that is known.
    ghost files: { Self → Option Files } = { λ _. None };

    /// The bytes of the file at a path, none where there is no file or it can't be read.
    ///
    /// Fails where a growth was refused; takes no memory where it is known that no file is there,
    /// or one without a byte. Source: own.
    fn read(&self, alloc: Global, path: &str) -> Result<Option<Vec<u8>>, AllocError>
        ensures gives { IfSome (files self.now) (λ held. IfOk result (λ found.
            option_map (λ (v : _). v.items) found ≡ held path.now)) }
        ensures none { HasNoFile (files self.now) path.now → result ≡ Ok None }
        ensures empty { HasEmptyFile (files self.now) path.now
            → result_map (option_map (λ (v : _). v.items)) result ≡ Ok (Some []) };

    /// The file at a path, of which only the pieces may be read that lookups ask for, as
    /// `read_wanted` reads them; none where there is no file or it can't be read. Where it is known
    /// what files there are, it has the bytes of the file.
    ///
    /// Fails as `read` does. Source: own.
    fn read_image(&self, alloc: Global, path: &str) -> Result<Option<FileImage>, AllocError>
        ensures gives { IfSome (files self.now) (λ held. IfOk result (λ found.
            option_map image_bytes found ≡ held path.now)) }
        ensures none { HasNoFile (files self.now) path.now → result ≡ Ok None }
        ensures empty { HasEmptyFile (files self.now) path.now
            → result_map (option_map image_bytes) result ≡ Ok (Some []) }
        ensures whole { IfOk result (λ found. IfSome found HasWanted) }
    {
        match self.read(alloc, path)? {
            Some(bytes) => Ok(Some(whole_file(alloc, bytes)?)),
            None => Ok(None),
        }
    }

    /// The stamp of the file at a path. As long as it is the same, the file is taken to have the
    /// bytes that were read under it.
    ///
    /// None where that isn't told, as where it is known what files there are, and where memory for
    /// it is refused: then the file is read at each call. Source: own.
    fn stamp(&self, path: &str) -> Option<FileStamp>
        ensures none { IfSome (files self.now) (λ _. result ≡ None) }
    {
        None
    }
}

/// Files in memory.
#[derive(Drop)]
pub struct MemoryFiles {
    alloc: Global,
    // A file that is put stands before the others, so that it hides one of the same path.
    entries: Vec<(String, Vec<u8>)>,
}

impl Model for MemoryFiles {
    ghost use Rattle.std.specs.Prelude.{List, map, ℕ};
    ghost use Rattle.addr2line.specs.Files.{as_named_file};

    ghost Value = { List (List ℕ × List ℕ) };

    ghost view = { λ s. map as_named_file s.entries.items };
}

impl MemoryFiles {
    /// No files. Takes no memory.
    pub fn new(alloc: Global) -> MemoryFiles
        ensures none { result ≡ [] }
    {
        MemoryFiles {
            alloc,
            entries: Vec::new(alloc),
        }
    }

    /// Puts a file at a path, in place of one that was there.
    ///
    /// Fails where a growth was refused; then nothing is changed.
    pub fn put(&mut self, path: &str, bytes: &[u8]) -> Result<(), AllocError>
        ensures after { OnOk result ((other : List ℕ) → listed_files self.new other
            ≡ with_file (listed_files self.old) path.now bytes.now other) }
        ensures refused { OnErr result (self.new ≡ self.old) }
    {
        let path = String::from_str(self.alloc, path)?;
        let bytes = Vec::from_slice(self.alloc, bytes)?;
        self.entries.insert(0, (path, bytes))?;
        Ok(())
    }
}

// The same bytes once more. Takes no memory where there are none.
fn copied(alloc: Global, bytes: &[u8]) -> Result<Vec<u8>, AllocError>
    ensures gives { IfOk result (λ v. v.items ≡ bytes.now) }
    ensures none { bytes.now ≡ [] → IsOk result }
{
    if bytes.is_empty() {
        return Ok(Vec::new(alloc));
    }
    Vec::from_slice(alloc, bytes)
}

impl FileSource for MemoryFiles {
    ghost use Rattle.std.specs.Prelude.{Some};
    ghost use Rattle.addr2line.specs.Files.{listed_files};

    ghost files = { λ s. Some (listed_files s) };

    fn read(&self, alloc: Global, path: &str) -> Result<Option<Vec<u8>>, AllocError> {
        for (name, bytes) in self.entries.iter() {
            if path == name.as_str() {
                return Ok(Some(copied(alloc, bytes.as_slice())?));
            }
        }
        Ok(None)
    }
}

/// The regular files of the host, as long as they say they are. What else stands at a path, as a
/// directory, a pipe or a device, counts as a file that can't be read, and is never opened.
#[derive(Drop)]
pub struct HostFiles {
    rt: HostRuntime,
}

impl HostFiles {
    /// The files that the runtime reaches. Takes no memory.
    pub fn new(rt: HostRuntime) -> HostFiles {
        HostFiles { rt }
    }
}

// How many bytes are read at once. Room that is read into has to be cleared first: a piece of this
// size stays in the processor's cache, where clearing all of a part goes through memory once more.
const PIECE_LEN: usize = 64 * 1024;

// A regular file of the host that is open, and how many bytes it says it has.
#[derive(Drop)]
struct HostFile {
    file: File,
    len: u64,
}

impl PartSource for HostFile {
    fn len(&self) -> u64 {
        self.len
    }

    fn part(&self, alloc: Global, start: u64, len: usize) -> Result<Option<Vec<u8>>, AllocError> {
        let mut bytes = Vec::with_capacity(alloc, len)?;
        let mut room = Vec::from_elem(alloc, 0u8, len.min(PIECE_LEN))?;
        let mut left = len;
        let mut at = start;
        while left > 0 {
            let count = left.min(PIECE_LEN);
            let piece = &mut room.as_mut_slice()[..count];
            match self.file.read_exact_at(piece, at) {
                Ok(()) => {}
                Err(error) if error.kind() == ErrorKind::OutOfMemory => return Err(AllocError),
                Err(_) => return Ok(None),
            }
            bytes.extend_from_slice(piece)?;
            at = at.saturating_add(count as u64);
            left -= count;
        }
        Ok(Some(bytes))
    }
}

// A regular file that is opened; nothing of anything else, which isn't opened, since opening a pipe
// may wait for ever and a device may have no end.
fn open_regular(rt: &HostRuntime, path: &str) -> io::Result<Option<HostFile>> {
    if !fs::metadata(rt, path)?.is_file() {
        return Ok(None);
    }
    let file = File::open(rt, path)?;
    let len = file.metadata()?.len();
    Ok(Some(HostFile { file, len }))
}

// The same, or nothing where it can't be opened.
fn opened(rt: &HostRuntime, path: &str) -> Result<Option<HostFile>, AllocError> {
    match open_regular(rt, path) {
        Ok(file) => Ok(file),
        Err(error) if error.kind() == ErrorKind::OutOfMemory => Err(AllocError),
        Err(_) => Ok(None),
    }
}

// The stamp of a file.
fn stamp_of(metadata: &Metadata) -> FileStamp {
    FileStamp {
        device: metadata.dev(),
        inode: metadata.ino(),
        len: metadata.len(),
        modified: FileTime {
            seconds: metadata.mtime(),
            nanoseconds: metadata.mtime_nsec(),
        },
        changed: FileTime {
            seconds: metadata.ctime(),
            nanoseconds: metadata.ctime_nsec(),
        },
    }
}

impl FileSource for HostFiles {
    fn read(&self, alloc: Global, path: &str) -> Result<Option<Vec<u8>>, AllocError> {
        match opened(&self.rt, path)? {
            Some(file) => file.part(alloc, 0, file.len as usize),
            None => Ok(None),
        }
    }

    fn read_image(&self, alloc: Global, path: &str) -> Result<Option<FileImage>, AllocError> {
        match opened(&self.rt, path)? {
            Some(file) => read_wanted(alloc, &file),
            None => Ok(None),
        }
    }

    fn stamp(&self, path: &str) -> Option<FileStamp> {
        let metadata = fs::metadata(&self.rt, path).ok()?;
        if metadata.is_file() {
            Some(stamp_of(&metadata))
        } else {
            None
        }
    }
}
