//! The lookups that the program makes.

ghost use Rattle.addr2line.specs.Loader.{as_loader};
ghost use Rattle.addr2line_bin.specs.LoaderAnswers.{loader_answers};

use addr2line::gimli::read::EndianBytes;
use addr2line::{
    FileSource, FrameIter, LoaderError, LoaderOver, Location, LocationRangeIter, Range,
};

/// A file that answers lookups.
pub trait Lookups {
    ghost use Rattle.std.specs.Prelude.{◌≡◌, IfErr, IfOk, Ok, option_map};
    ghost use Rattle.elf.specs.declared.error.LoaderError.TheVariants.{OutOfMemory};
    ghost use Rattle.gimli_read.specs.Reading.{result_map};
    ghost use Rattle.addr2line_lines.specs.LentLocation.{as_location};
    ghost use Rattle.addr2line_units.specs.FramesLeft.{frames_left};
    ghost use Rattle.addr2line_units.specs.LocationsLeft.{locations_left};
    ghost use Rattle.addr2line_bin.specs.FileAnswers.{EndsAnswered, FileAnswers};

    /// What it answers.
    ghost answers: { Self → FileAnswers };

    /// The location of an address.
    fn find_location(&mut self, probe: u64) -> Result<Option<Location<'_>>, LoaderError>
        ensures gives { (answers self.old).MayFind probe
            (result_map (option_map as_location) result) }
        ensures* ends { EndsAnswered 𝓛 Self.row answers self.entry };

    /// The frames of an address.
    fn find_frames(&mut self, probe: u64) -> Result<FrameIter<'_, EndianBytes>, LoaderError>
        ensures gives { (answers self.old).MayGive probe (result_map frames_left result) }
        ensures* ends { EndsAnswered 𝓛 Self.row answers self.entry };

    /// The rows that a range of addresses meets. Refused `OutOfMemory` alone.
    fn find_location_range(
        &mut self,
        low: u64,
        high: u64,
    ) -> Result<LocationRangeIter<'_, EndianBytes>, LoaderError>
        ensures gives { IfOk result (λ rows. (answers self.old).spans_in low high
            ≡ Ok (locations_left rows)) }
        ensures refused { IfErr result (λ e. e ≡ OutOfMemory) }
        ensures* ends { EndsAnswered 𝓛 Self.row answers self.entry };

    /// The name of the symbol of an address.
    fn find_symbol(&self, probe: u64) -> Option<&str>
        ensures gives { option_map (λ name. name.now) result
            ≡ (answers self.now).symbol_at probe };

    /// The addresses of the first section of a name.
    fn get_section_range(&self, name: &[u8]) -> Option<Range>
        ensures gives { result ≡ (answers self.now).section_at name.now };
}

impl<F: FileSource> Lookups for LoaderOver<F> {
    ghost answers = { λ l. loader_answers (as_loader F.files l) };

    fn find_location(&mut self, probe: u64) -> Result<Option<Location<'_>>, LoaderError> {
        LoaderOver::find_location(self, probe)
    }

    fn find_frames(&mut self, probe: u64) -> Result<FrameIter<'_, EndianBytes>, LoaderError> {
        LoaderOver::find_frames(self, probe)
    }

    fn find_location_range(
        &mut self,
        low: u64,
        high: u64,
    ) -> Result<LocationRangeIter<'_, EndianBytes>, LoaderError> {
        LoaderOver::find_location_range(self, low, high)
    }

    fn find_symbol(&self, probe: u64) -> Option<&str> {
        LoaderOver::find_symbol(self, probe)
    }

    fn get_section_range(&self, name: &[u8]) -> Option<Range> {
        LoaderOver::get_section_range(self, name)
    }
}
