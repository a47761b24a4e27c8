//! Handles.

ghost use Rattle.std.specs.Prelude.{◌≡◌, None, Some, Option, IfSome, option_map};
ghost use Rattle.addr2line_c.specs.Held.{held};
ghost use Rattle.addr2line_c.specs.declared.file.OpenFile.{OpenFile as OpenedFile};
ghost use Rattle.addr2line_c.specs.contracts.file.OpenFile.{the_row};

use crate::file::OpenFile;
use crate::loose::Loose;
use std::alloc::Global;
use std::marker::Model;
use std::mem;
use std::ptr::null_mut;

/// A file, as C holds it: one pointer, null where it is closed.
// It isn't `Drop`, so that no handle can be let go with the file that it owns.
#[repr(C)]
pub struct Handle {
    at: *mut u8,
    alloc: Global,
    ghost value: { Option OpenedFile },
}

impl Model for Handle {
    ghost also_owns = { λ h. held the_row h.alloc h.at h.value };
}

impl Handle {
    /// A handle that owns nothing.
    pub(crate) fn closed(alloc: Global) -> Handle
        ensures { result.value ≡ None }
    {
        Handle {
            at: null_mut(),
            alloc,
        }
    }

    fn of_loose(loose: Loose<OpenFile, Global>) -> Handle
        ensures { result.value ≡ Some loose.value }
    {
        let Loose { at, alloc } = loose;
        Handle {
            at: at as *mut u8,
            alloc,
        }
    }

    fn into_loose(self) -> Option<Loose<OpenFile, Global>>
        ensures { option_map (λ l. l.value) result ≡ self.value }
    {
        let Handle { at, alloc } = self;
        if at.is_null() {
            None
        } else {
            Some(Loose {
                at: at as *mut OpenFile,
                alloc,
            })
        }
    }

    /// The file that the handle owns, if it is open.
    pub(crate) fn into_box(self) -> Option<Box<OpenFile>>
        ensures { option_map (λ b. b.value) result ≡ self.value }
    {
        match self.into_loose() {
            Some(loose) => Some(loose.into_box()),
            None => None,
        }
    }

    /// Takes the file out of the handle, which is closed then.
    pub(crate) fn take(&mut self, alloc: Global) -> Option<Box<OpenFile>>
        ensures gives { option_map (λ b. b.value) result ≡ self.old.value }
        ensures empty { self.new.value ≡ None }
    {
        mem::replace(self, Handle::closed(alloc)).into_box()
    }

    /// The handle owns a file; what it owned is dropped.
    pub(crate) fn put(&mut self, file: Box<OpenFile>)
        ensures { self.new.value ≡ Some file.value }
    {
        let _ = mem::replace(self, Handle::of_loose(Loose::of(file))).into_box();
    }

    /// Closes the handle: what it owned is dropped.
    pub(crate) fn close(&mut self, alloc: Global)
        ensures empty { self.new.value ≡ None }
    {
        let _ = self.take(alloc);
    }
}
