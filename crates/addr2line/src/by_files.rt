//! Lookups of frames where files answer loads.

ghost use Rattle.std.specs.Prelude.{◌≡◌};
ghost use Rattle.addr2line.specs.Common.{result_map};
ghost use Rattle.addr2line.specs.Files.{as_read_if_known};
ghost use Rattle.addr2line.specs.LoadsByFiles.{AfterAnsweringLoads};

use crate::compressed::CompressedSections;
use crate::context::Context;
use crate::files::FileSource;
use crate::kept_files::KeptFiles;
use crate::split_files::answer_to;
use addr2line_units::FrameIter;
use addr2line_units::continuation::{LookupContinuation, LookupResult};
use elf::LoaderError;
use gimli::read::{EndianBytes, Error, Reader};
use std::alloc::Global;

// Whether a lookup of frames is refused. The frames themselves are stored by the context.
fn ended<R: Reader>(frames: Result<FrameIter<'_, R>, Error>) -> Result<(), Error>
    ensures gives { result ≡ result_map (λ _. tt) frames.entry }
{
    match frames {
        Ok(_) => Ok(()),
        Err(error) => Err(error),
    }
}

// Answers each load that a lookup of frames waits for by files, until it waits for none, and stores
// what it comes to. What refuses the lookup stands inside, refused memory for a load too; outside
// stands why the answer to a load is refused.
pub(crate) fn answer_loads<F: FileSource>(
    alloc: Global,
    files: &F,
    compressed: CompressedSections,
    kept: &mut KeptFiles,
    ctx: &mut Context<EndianBytes>,
    probe: u64,
) -> Result<Result<(), Error>, LoaderError>
    ensures after { AfterAnsweringLoads compressed
        (as_read_if_known compressed (F.files files.now)) probe result ctx.old ctx.new }
{
    let mut next = match ctx.find_frames(probe) {
        LookupResult::Load { continuation } => continuation,
        LookupResult::Output(frames) => return Ok(ended(frames)),
    };
    loop {
        match answer_to(alloc, files, compressed, kept, next.load()) {
            Ok(sections) => {
                next = match next.resume(sections) {
                    LookupResult::Load { continuation } => continuation,
                    LookupResult::Output(frames) => return Ok(ended(frames)),
                };
            }
            Err(error) => {
                next.abandon();
                return Err(error);
            }
        }
    }
}
