//! Split files, found by the caller.

ghost use Rattle.std.specs.Prelude.{◌≡◌};

use addr2line::gimli::read::{Error, Reader};
use addr2line::gimli::{Dwarf, DwoId};
use addr2line::{Context, FrameIter, LookupContinuation, LookupResult, SplitDwarfLoad};
use std::rc::Rc;

/// A split file that the caller has read: the identifier of its unit, and its sections.
#[derive(Drop)]
pub struct SplitFile<R: Reader> {
    pub id: DwoId,
    pub sections: Rc<Dwarf<R>>,
}

// The sections that a unit waits for, if the caller has them.
fn sections_for<R: Reader>(
    files: &[SplitFile<R>],
    load: &SplitDwarfLoad<R>,
) -> Result<Option<Rc<Dwarf<R>>>, Error> {
    for file in files {
        if file.id == load.dwo_id {
            return Ok(Some(file.sections.clone()?));
        }
    }
    Ok(None)
}

/// The frames at an address, where the sections of split files are among `files`; a unit whose
/// split file isn't there is answered none.
pub fn frames_at<'a, R: Reader>(
    context: &'a mut Context<R>,
    files: &[SplitFile<R>],
    address: u64,
) -> Result<FrameIter<'a, R>, Error> {
    let mut lookup = context.find_frames(address);
    loop {
        match lookup {
            LookupResult::Output(frames) => return frames,
            LookupResult::Load { continuation } => {
                let sections = sections_for(files, continuation.load())?;
                lookup = continuation.resume(sections);
            }
        }
    }
}

/// Whether the frames at an address wait for a split file. The lookup is let go then, and no unit
/// is answered by it.
pub fn waits_at<R: Reader>(context: &mut Context<R>, address: u64) -> bool
    ensures kept { context.new.answers ≡ context.old.answers }
{
    match context.find_frames(address) {
        LookupResult::Load { continuation } => {
            let _ = continuation;
            true
        }
        LookupResult::Output(_) => false,
    }
}
