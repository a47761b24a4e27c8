//! What was read of split files, kept by their paths.

ghost use Rattle.std.specs.Prelude.{◌≡◌, ◌↔◌, ℕ, List, None, Some, if◌then◌else◌, is_ok, option_map};
ghost use Rattle.addr2line.specs.Common.{ObjectFile};
ghost use Rattle.addr2line.specs.KeptFiles.{ChangesAt, IsKeptAt, kept_at};
ghost use Rattle.addr2line.specs.declared.kept_files.SplitFound.{SplitFound as FoundIn};

use crate::files::FileStamp;
use elf::ElfFile;
use gimli::DwoId;
use std::alloc::{AllocError, Global};
use std::collections::BTreeMap;

/// What a file has for a load.
#[derive(Drop)]
pub(crate) enum SplitFound<T> {
    /// What answers the load.
    Wanted(T),
    /// The identifier of its first unit, if it has one, which isn't that of the load.
    Other(Option<DwoId>),
}

// What was read at a path when the file there had a stamp: the file, or whose it is.
#[derive(Drop)]
struct KeptFile {
    stamp: FileStamp,
    found: SplitFound<ElfFile>,
}

/// What was read of files, once at most for each path: a file that has answered a load is there
/// itself, and of another one the identifier alone.
#[derive(Drop)]
pub(crate) struct KeptFiles {
    alloc: Global,
    files: BTreeMap<String, KeptFile>,
}

impl KeptFiles {
    /// That of no file. Takes no memory.
    pub(crate) fn new(alloc: Global) -> KeptFiles
        ensures none { (path : List ℕ) → kept_at result path ≡ None }
    {
        KeptFiles {
            alloc,
            files: BTreeMap::new(alloc),
        }
    }

    /// What is kept for a path with this very stamp. Takes no memory.
    pub(crate) fn find(&self, path: &str, stamp: FileStamp) -> Option<&SplitFound<ElfFile>>
        ensures gives { (found : FoundIn ObjectFile) → (option_map (λ f. f.now) result ≡ Some found)
            ↔ IsKeptAt self.now path.now stamp found }
    {
        let kept = self.files.get(path)?;
        if kept.stamp == stamp {
            Some(&kept.found)
        } else {
            None
        }
    }

    /// Keeps what was found for a path with a stamp, in place of what was kept for the path.
    ///
    /// Fails where a growth was refused; then nothing is changed.
    pub(crate) fn put(
        &mut self,
        path: &str,
        stamp: FileStamp,
        found: SplitFound<ElfFile>,
    ) -> Result<(), AllocError>
        ensures after { ChangesAt path.now (if is_ok result
            then Some (record { stamp = stamp; found = found })
            else kept_at self.old path.now) self.old self.new }
    {
        let path = String::from_str(self.alloc, path)?;
        self.files.insert(path, KeptFile { stamp, found })?;
        Ok(())
    }

    /// Lets go of what is kept for a path, if there is something. Takes no memory.
    pub(crate) fn remove(&mut self, path: &str)
        ensures after { ChangesAt path.now None self.old self.new }
    {
        self.files.remove(path);
    }
}
