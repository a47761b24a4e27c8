//! Samples of a profiler, named without memory.

ghost use Rattle.std.specs.Prelude.{OnOk};
ghost use Rattle.addr2line.specs.WarmUp.{IsWarm};

use addr2line::gimli::read::{Error, Reader};
use addr2line::{Context, LookupResult};

/// Reads all that lookups ask for. After it no lookup takes memory at whose address at most 16
/// inlined functions stand.
pub fn warm_up<R: Reader>(context: &mut Context<R>) -> Result<(), Error>
    ensures ready { OnOk result (IsWarm context.new) }
{
    context.parse_lines()?;
    context.parse_inlined_functions()
}

/// How many functions stand at a sampled address; a unit that waits for a split file counts as one
/// without.
pub fn depth_at<R: Reader>(context: &mut Context<R>, address: u64) -> Result<usize, Error> {
    let mut frames = context.find_frames(address).skip_all_loads()?;
    let mut depth: usize = 0;
    while let Some(_frame) = frames.next()? {
        depth = depth.saturating_add(1);
    }
    Ok(depth)
}
