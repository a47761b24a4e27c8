//! Runs over files and lookups that tests know.

ghost use Rattle.std.specs.Prelude.{◌≡◌, [], None, Ok, option_map};
ghost use Rattle.addr2line_bin.specs.Common.{result_map, as_location};

use crate::command_line::{Request, command_line};
use crate::exit::Exit;
use crate::handed::Handed;
use crate::input::{Input, ReaderInput};
use crate::lookups::Lookups;
use crate::program::run;
use crate::tests::streams::{Streams, words};
use crate::whole_run::run_program;
use addr2line::gimli::read::EndianBytes;
use addr2line::{FrameIter, LoaderError, Location, LocationRangeIter, MemoryFiles, Range};
use std::alloc::Global;
use std::process::ExitCode;
use std::test::Fail;

/// A location, none, or a fault.
pub type FoundLocation = Result<Option<Location<'static>>, LoaderError>;

/// A file that gives the same to each lookup; it has no functions, rows and sections.
#[derive(Drop)]
pub struct Fixed {
    /// What it gives.
    pub found: FoundLocation,
    /// The name of the symbol at each address.
    pub symbol: Option<&'static str>,
}

impl Lookups for Fixed {
    ghost answers = { λ file. record {
      MayFind = λ probe found. found ≡ result_map (option_map as_location) file.found;
      MayGive = λ probe given. Unit {0};
      symbol_at = λ probe. option_map (λ name. name.now) file.symbol;
      section_at = λ name. None;
      spans_in = λ low high. Ok [];
    } };

    #[tactic(auto, using(crate::proofs::AnswerLemmas::stays_itself))]
    fn find_location(&mut self, _probe: u64) -> Result<Option<Location<'_>>, LoaderError> {
        match self.found {
            Ok(location) => Ok(location),
            Err(fault) => Err(fault),
        }
    }

    #[tactic(auto, using(crate::proofs::AnswerLemmas::stays_itself))]
    fn find_frames(&mut self, _probe: u64) -> Result<FrameIter<'_, EndianBytes>, LoaderError> {
        match self.found {
            Ok(location) => Ok(FrameIter::new_location(location)),
            Err(fault) => Err(fault),
        }
    }

    #[tactic(auto, using(crate::proofs::AnswerLemmas::stays_itself))]
    fn find_location_range(
        &mut self,
        _low: u64,
        _high: u64,
    ) -> Result<LocationRangeIter<'_, EndianBytes>, LoaderError> {
        Err(LoaderError::OutOfMemory)
    }

    fn find_symbol(&self, _probe: u64) -> Option<&str> {
        self.symbol
    }

    fn get_section_range(&self, _name: &[u8]) -> Option<Range> {
        None
    }
}

impl Fixed {
    /// A file without symbols.
    pub fn new(found: FoundLocation) -> Fixed {
        Fixed {
            found,
            symbol: None,
        }
    }
}

/// What words ask for.
pub fn request_in(alloc: Global, given: &[&str]) -> Result<Request, Fail> {
    let given = words(alloc, given)?;
    match command_line(alloc, given.as_slice()) {
        Ok(request) => Ok(request),
        Err(_) => Err(Fail::from("no request")),
    }
}

/// How a run of words over lookups ends.
pub fn run_lookups<I: Input>(
    alloc: Global,
    given: &[&str],
    loader: Result<Fixed, LoaderError>,
    input: &mut I,
    streams: &mut Streams,
) -> Result<Exit, Fail> {
    let request = request_in(alloc, given)?;
    Ok(run(
        alloc,
        &request.options,
        loader,
        input,
        &mut streams.out,
        &mut streams.err,
    ))
}

/// The status of words over files, with an input.
pub fn run_files(
    alloc: Global,
    given: &[&str],
    files: &[(&str, &[u8])],
    input: &[u8],
    streams: &mut Streams,
) -> Result<ExitCode, Fail> {
    let mut held = MemoryFiles::new(alloc);
    for (path, bytes) in files {
        held.put(path, bytes)?;
    }
    Ok(run_program(
        alloc,
        held,
        Ok(words(alloc, given)?),
        Ok(ReaderInput::new(Handed(input))),
        &mut streams.out,
        &mut streams.err,
    ))
}
