//! An open file.

ghost use Rattle.std.specs.Prelude.{◌≡◌, [], Err, IfErr, IfOk, length, option_map};
ghost use Rattle.elf.specs.ObjectFile.{object_file_of};
ghost use Rattle.addr2line_c.specs.Common.{LoadsUnlessOom};
ghost use Rattle.addr2line.specs.Loaded.{loaded_bytes};
ghost use Rattle.addr2line_c.specs.Calls.{given_sup};
ghost use Rattle.addr2line_c.specs.Flags.{names_by};

use crate::flags::names_by;
use crate::frames::WrittenFrame;
use crate::loads::{AskedLoads, WrittenLoad};
use crate::location::WrittenLocation;
use crate::spans::{self, WrittenSpan};
use crate::status::Status;
use crate::symbols::{self, WrittenSymbol};
use crate::{answers, lookups};
use addr2line::gimli::read::EndianBytes;
use addr2line::{CompressedSections, Context, ElfFile, LoaderError, open_bytes_with};
use bytes::Bytes;
use std::alloc::Global;

/// What a handle holds: an ELF file, a context of its sections, and the loads that were asked for.
#[derive(Drop)]
pub(crate) struct OpenFile {
    pub(crate) alloc: Global,
    pub(crate) compressed: CompressedSections,
    pub(crate) object: ElfFile,
    pub(crate) context: Context<EndianBytes>,
    pub(crate) loads: AskedLoads<EndianBytes>,
}

// The bytes of a supplementary file, none where there is none.
fn bytes_if(bytes: &'static [u8]) -> Option<Bytes>
    ensures gives { result ≡ given_sup bytes.now }
{
    if bytes.is_empty() {
        return None;
    }
    Some(Bytes::from_static(bytes))
}

/// The file that bytes are, with a supplementary file where there are bytes of one. No byte is
/// copied, but of sections that are decompressed. Takes no memory where the bytes are no ELF file.
pub(crate) fn open(
    alloc: Global,
    compressed: CompressedSections,
    bytes: &'static [u8],
    sup: &'static [u8],
) -> Result<Box<OpenFile>, LoaderError>
    ensures gives { LoadsUnlessOom (λ b. (b.value.object, b.value.context)) result
        (loaded_bytes compressed bytes.now (given_sup sup.now)) }
    ensures refused { IfErr (object_file_of bytes.now) (λ e. result ≡ Err e) }
    ensures by { IfOk result (λ b. b.value.compressed ≡ compressed) }
    ensures empty { IfOk result (λ b. b.value.loads.loads.items ≡ []) }
{
    let main = Bytes::from_static(bytes);
    let (object, context) = open_bytes_with(alloc, compressed, main, bytes_if(sup))?;
    let file = Box::new(
        alloc,
        OpenFile {
            alloc,
            compressed,
            object,
            context,
            loads: AskedLoads::new(alloc),
        },
    )?;
    Ok(file)
}

impl OpenFile {
    ghost use Rattle.addr2line_c.specs.Calls.{AnswersToken, ForgetsAnswer, FramesBy, LocatesAt, ParsesAll, PreloadsAt, SectionNamed, SpansFrom, SymbolAt, TellsLoad};

    /// The location of an address.
    pub(crate) fn find_location(
        &mut self,
        probe: u64,
        out: &mut WrittenLocation,
        buffer: &mut [u8],
        needed: &mut usize,
    ) -> Status
        ensures gives { LocatesAt probe out.new buffer.new needed.new self.old self.new result }
    {
        lookups::find_location(&mut self.context, probe, out, buffer, needed)
    }

    /// The frames at an address.
    pub(crate) fn find_frames(
        &mut self,
        probe: u64,
        flags: u32,
        out: &mut [WrittenFrame],
        count: &mut usize,
        buffer: &mut [u8],
        needed: &mut usize,
    ) -> Status
        ensures gives { FramesBy probe (names_by flags) out.new count.new buffer.new needed.new
            self.old self.new result }
    {
        let Some(names) = names_by(flags) else {
            *count = 0;
            *needed = 0;
            return Status::BadFlags;
        };
        lookups::find_frames(
            self.alloc,
            &mut self.context,
            &mut self.loads,
            probe,
            names,
            out,
            count,
            buffer,
            needed,
        )
    }

    /// The first load that waits for an answer.
    pub(crate) fn first_load(
        &self,
        out: &mut WrittenLoad,
        buffer: &mut [u8],
        needed: &mut usize,
    ) -> Status
        ensures gives { TellsLoad out.new buffer.new needed.new self.now self.now result }
    {
        self.loads.put_first(out, buffer, needed)
    }

    /// Answers the load of a token.
    pub(crate) fn answer_load(&mut self, token: u64, bytes: &'static [u8]) -> Status
        ensures gives { AnswersToken token bytes.now self.old self.new result }
    {
        answers::answer(
            self.alloc,
            self.compressed,
            &mut self.context,
            &mut self.loads,
            token,
            bytes,
        )
    }

    /// Takes the answer to the load of a token back.
    pub(crate) fn forget(&mut self, token: u64) -> Status
        ensures gives { ForgetsAnswer token self.old self.new result }
    {
        answers::forget(&mut self.context, &mut self.loads, token)
    }

    /// Asks for the loads of an address.
    pub(crate) fn preload(&mut self, probe: u64) -> Status
        ensures gives { PreloadsAt probe self.old self.new result }
    {
        answers::preload(&mut self.context, &mut self.loads, probe)
    }

    /// Parses the lines and the functions of all units.
    pub(crate) fn parse_all(&mut self) -> Status
        ensures gives { ParsesAll self.old self.new result }
    {
        answers::parse_all(&mut self.context)
    }

    /// The rows that a range of addresses meets, from a place on.
    pub(crate) fn find_spans(
        &mut self,
        low: u64,
        high: u64,
        first: u64,
        out: &mut [WrittenSpan],
        count: &mut usize,
        buffer: &mut [u8],
        needed: &mut usize,
    ) -> Status
        ensures gives { SpansFrom low high first (length out.old) out.new count.new
            buffer.new needed.new self.old self.new result }
    {
        spans::find_spans(
            &mut self.context,
            low,
            high,
            first,
            out,
            count,
            buffer,
            needed,
        )
    }

    /// The symbol of an address.
    pub(crate) fn find_symbol(
        &self,
        probe: u64,
        out: &mut WrittenSymbol,
        buffer: &mut [u8],
        needed: &mut usize,
    ) -> Status
        ensures gives { SymbolAt probe out.new buffer.new needed.new self.now self.now result }
    {
        symbols::find_symbol(&self.object, probe, out, buffer, needed)
    }

    /// The addresses of the first section of a name.
    pub(crate) fn section_range(&self, name: &[u8], begin: &mut u64, end: &mut u64) -> Status
        ensures gives { SectionNamed name.now begin.new end.new self.now self.now result }
    {
        symbols::section_range(&self.object, name, begin, end)
    }
}
