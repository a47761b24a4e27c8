//! The loads that a handle was asked to answer, by their places.

ghost use Rattle.std.specs.Prelude.{◌≡◌, ◌==◌, [], false, length, nat_le, None, option_map, IfErr, Ok, OnErr, OnOk};
ghost use Rattle.gimli_read.specs.declared.error.Error.TheVariants.{OutOfMemory};
ghost use Rattle.addr2line_units.specs.Loads.{token_number};
ghost use Rattle.addr2line_c.specs.Answered.{HasMemory, IfNothing, SaysWhatIsThere};
ghost use Rattle.addr2line_c.specs.AskedLoads.{first_waiting, load_of_token, place_of_load, waiting_load, with_load, with_waits};
ghost use Rattle.addr2line_c.specs.Filled.{IsFilled};
ghost use Rattle.addr2line_c.specs.Loads.{IsWrittenLoad, bytes_if, texts_of_load, written_load};
ghost use Rattle.addr2line_c.specs.Texts.{zero_ended};

use crate::parts::{TextPart, put_text};
use crate::status::{Status, done_if};
use addr2line::gimli::read::{Error, Reader};
use addr2line::{SplitDwarfLoad, UnitToken};
use std::alloc::Global;

/// A load that is waited for, as C gets it.
#[repr(C)]
#[derive(Clone, Copy)]
pub struct WrittenLoad {
    /// What an answer names it by.
    pub token: u64,
    /// The identifier that the unit shares with its split unit.
    pub dwo_id: u64,
    /// The directory of the unit's compilation.
    pub directory: TextPart,
    /// The name of the split file.
    pub path: TextPart,
}

// A load that was asked for, and whether it has had no answer since.
#[derive(Drop)]
struct AskedLoad<R: Reader> {
    load: SplitDwarfLoad<R>,
    waits: bool,
}

/// The loads that were asked for, each unit's once; the place of one is its token.
#[derive(Drop)]
pub(crate) struct AskedLoads<R: Reader> {
    loads: Vec<AskedLoad<R>>,
}

// The bytes of a text that may be there.
fn bytes_of<R: Reader>(text: &Option<R>) -> Option<&[u8]>
    ensures gives { option_map (λ t. t.now) result ≡ bytes_if (option_map R.section text.now) }
{
    match text {
        Some(text) => Some(text.to_slice()),
        None => None,
    }
}

/// A load with its token, and its texts in the buffer.
pub(crate) fn put_load<R: Reader>(
    load: &SplitDwarfLoad<R>,
    token: u64,
    buffer: &mut [u8],
    used: &mut usize,
) -> WrittenLoad
    ensures gives { result ≡ written_load token load.now }
    ensures left { IsFilled used.new buffer.new (zero_ended (texts_of_load load.now)) }
    ensures kept { length buffer.new ≡ length buffer.old }
{
    *used = 0;
    let directory = put_text(buffer, used, bytes_of(&load.comp_dir));
    let path = put_text(buffer, used, bytes_of(&load.path));
    WrittenLoad {
        token,
        dwo_id: load.dwo_id.0,
        directory,
        path,
    }
}

// Whether a load is that of a unit.
fn is_of<R: Reader>(load: &SplitDwarfLoad<R>, unit: UnitToken) -> bool
    ensures gives { result ≡ (load.now.unit == token_number unit) }
{
    load.unit == unit
}

impl<R: Reader> AskedLoads<R> {
    /// No loads. Takes no memory.
    pub(crate) fn new(alloc: Global) -> AskedLoads<R>
        ensures gives { result.loads.items ≡ [] }
    {
        AskedLoads {
            loads: Vec::new(alloc),
        }
    }

    // The place of the load of a unit.
    fn place_of(&self, unit: UnitToken) -> Option<usize>
        ensures gives { result ≡ place_of_load self.now.loads.items (token_number unit) }
    {
        self.loads.iter().position(|asked| is_of(&asked.load, unit))
    }

    // Says of the load of a place whether it waits for an answer.
    fn set_waits(&mut self, place: usize, waits: bool)
        ensures gives { self.new.loads.items ≡ with_waits waits self.old.loads.items place }
    {
        if let Some(asked) = self.loads.get_mut(place) {
            asked.waits = waits;
        }
    }

    /// Adds a load that is to be answered, unless that of its unit is there, which waits again.
    ///
    /// Refused `OutOfMemory` alone, where it is to be added; then nothing is changed.
    pub(crate) fn ask(&mut self, load: SplitDwarfLoad<R>) -> Result<(), Error>
        ensures gives { OnOk result (self.new.loads.items
            ≡ with_load self.old.loads.items load) }
        ensures kept { OnErr result (self.new.loads.items ≡ self.old.loads.items) }
        ensures refused { IfErr result (λ e. e ≡ OutOfMemory) }
        ensures added { OnErr result
            (place_of_load self.old.loads.items load.unit ≡ None) }
    {
        match self.place_of(load.unit) {
            Some(place) => self.set_waits(place, true),
            None => self.loads.push(AskedLoad { load, waits: true })?,
        }
        Ok(())
    }

    /// The load of a token stops waiting. Takes no memory.
    pub(crate) fn stop_waiting(&mut self, token: u64)
        ensures gives { self.new.loads.items ≡ with_waits false self.old.loads.items token }
    {
        self.set_waits(token as usize, false);
    }

    /// The load that a token names. Takes no memory.
    pub(crate) fn get(&self, token: u64) -> Option<&SplitDwarfLoad<R>>
        ensures gives { option_map (λ load. load.now) result
            ≡ load_of_token self.now.loads.items token }
    {
        let asked = self.loads.get(token as usize)?;
        Some(&asked.load)
    }

    // The token of the first load that waits for an answer.
    fn first_waiting(&self) -> Option<usize>
        ensures gives { result ≡ first_waiting self.now.loads.items }
    {
        self.loads.iter().position(|asked| asked.waits)
    }

    /// The first load that waits for an answer, with its texts in the buffer. Takes no memory.
    pub(crate) fn put_first(
        &self,
        out: &mut WrittenLoad,
        buffer: &mut [u8],
        needed: &mut usize,
    ) -> Status
        ensures gives { SaysWhatIsThere (Ok (waiting_load self.now.loads.items))
            (IsWrittenLoad out.new buffer.new needed.new)
            (nat_le needed.new (length buffer.new)) result }
        ensures none { IfNothing result (needed.new ≡ 0) }
        ensures memory { HasMemory result }
    {
        *needed = 0;
        let Some(token) = self.first_waiting() else {
            return Status::Nothing;
        };
        let token = token as u64;
        let Some(load) = self.get(token) else {
            return Status::Nothing;
        };
        *out = put_load(load, token, buffer, needed);
        done_if(*needed <= buffer.len())
    }
}
