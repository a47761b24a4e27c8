//! The functions that stand at an address, inlined ones included.

use addr2line::gimli::read::Reader;
use addr2line::{Context, Frame, FrameIter, Loader, Location};

/// Prints the functions at an address of a file, the innermost first, each with its file and line.
pub fn print_frames(rt: HostRuntime, loader: &mut Loader, address: u64) -> anyhow::Result<()> {
    print_each(rt, loader.find_frames(address)?)
}

/// The same of a context. A unit that waits for a split file counts as one without.
pub fn print_frames_of<R: Reader>(
    rt: HostRuntime,
    context: &mut Context<R>,
    address: u64,
) -> anyhow::Result<()> {
    print_each(rt, context.find_frames(address).skip_all_loads()?)
}

fn print_each<R: Reader>(rt: HostRuntime, frames: FrameIter<'_, R>) -> anyhow::Result<()> {
    let mut frames = frames;
    while let Some(frame) = frames.next()? {
        print_frame(rt, &frame)?;
    }
    Ok(())
}

fn print_frame<R: Reader>(rt: HostRuntime, frame: &Frame<'_, R>) -> anyhow::Result<()> {
    if let Some(function) = &frame.function {
        print!(rt; "{} at ", function.demangle(rt.alloc())?)?;
    }
    let (file, line) = file_and_line(frame.location);
    println!(rt; "{file}:{line}")?;
    Ok(())
}

/// The file and the line of a location, `??` and 0 for what isn't known.
pub fn file_and_line(location: Option<Location<'_>>) -> (&str, u32) {
    match location {
        Some(location) => (location.file.unwrap_or("??"), location.line.unwrap_or(0)),
        None => ("??", 0),
    }
}
