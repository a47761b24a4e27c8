//! The name of an entry, as it is found.

ghost use Rattle.std.specs.Prelude.{◌≡◌, false, true, None, Ok, IsOk, is_some, option_map};
ghost use Rattle.std.specs.Option.{option_or};
ghost use Rattle.addr2line_lines.specs.Common.{ExactlyUnlessOom, ExactlyUnlessOomIf};
ghost use Rattle.addr2line_lines.specs.FoundNames.{found_name, is_own};

use gimli::read::{Error, Reader};
use std::alloc::Global;
use std::mem;
use std::rc::Rc;

/// The name of an entry, where there is one that can be read.
#[derive(Drop)]
pub(crate) enum FoundName<R: Reader> {
    /// That of this entry alone.
    Own(Option<R>),
    /// That of an entry that others may refer to as well.
    Shared(Rc<Option<R>>),
}

// The name again. Refused `OutOfMemory` alone, where readers share their bytes.
fn duplicate_name<R: Reader>(name: &Option<R>) -> Result<Option<R>, Error>
    ensures gives { ExactlyUnlessOomIf R.shares (option_map R.section) result
        (Ok (option_map R.section name.now)) }
{
    match name {
        Some(name) => Ok(Some(name.duplicate()?)),
        None => Ok(None),
    }
}

/// The same name; its reader may note that it is UTF-8. Takes no memory.
pub(crate) fn note_text<R: Reader>(name: Option<R>) -> Option<R>
    ensures gives { option_map R.section result ≡ option_map R.section name }
{
    let mut name = name?;
    name.note_text();
    Some(name)
}

impl<R: Reader> FoundName<R> {
    /// Before a name is found. Takes no memory.
    pub(crate) fn none() -> FoundName<R>
        ensures gives { found_name R.section result ≡ None }
    {
        FoundName::Own(None)
    }

    /// Whether there is a name. Takes no memory.
    pub(crate) fn is_some(&self) -> bool
        ensures gives { result ≡ is_some (found_name R.section self.now) }
    {
        match self {
            FoundName::Own(name) => name.is_some(),
            FoundName::Shared(name) => name.as_ref().is_some(),
        }
    }

    /// Takes the name, and leaves none. Takes no memory.
    pub(crate) fn take(&mut self) -> FoundName<R>
        ensures gives { result ≡ self.old }
        ensures left { found_name R.section self.new ≡ None }
    {
        mem::replace(self, FoundName::none())
    }

    /// A linkage name, else the name that was found. Takes no memory.
    pub(crate) fn or_linkage_name(self, linkage: Option<R>) -> FoundName<R>
        ensures gives { found_name R.section result
            ≡ option_or (option_map R.section linkage) (found_name R.section self) }
    {
        match linkage {
            Some(linkage) => FoundName::Own(Some(linkage)),
            None => self,
        }
    }

    /// The name for more than one entry. Refused `OutOfMemory` alone, where it is its entry's own.
    pub(crate) fn share(self, alloc: Global) -> Result<Rc<Option<R>>, Error>
        ensures gives { ExactlyUnlessOom (λ name. option_map R.section name.value) result
            (Ok (found_name R.section self)) }
        ensures exact { is_own self ≡ false → IsOk result }
    {
        match self {
            FoundName::Own(name) => Ok(Rc::new(alloc, note_text(name))?),
            FoundName::Shared(name) => Ok(name),
        }
    }

    /// The name for one entry alone. Refused `OutOfMemory` alone, where readers share their bytes
    /// and it isn't its entry's own.
    pub(crate) fn own(self) -> Result<Option<R>, Error>
        ensures gives { ExactlyUnlessOomIf R.shares (option_map R.section) result
            (Ok (found_name R.section self)) }
        ensures exact { is_own self ≡ true → IsOk result }
    {
        match self {
            FoundName::Own(name) => Ok(note_text(name)),
            FoundName::Shared(name) => duplicate_name(name.as_ref()),
        }
    }
}
