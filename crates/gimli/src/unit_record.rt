//! Units: headers with what their root entry says.

ghost use Rattle.std.specs.Prelude.{◌≡◌, None, Ok, Some, box_value, if◌then◌else◌, option_map};
ghost use Rattle.gimli_read.specs.HeldBytes.{holds_bytes};
ghost use Rattle.gimli_read.specs.Costed.{ExactlyAtCost};
ghost use Rattle.gimli.specs.Common.{Exactly, ExactlyUnlessOomFor, ExactlyUnlessOomIf, as_value};
ghost use Rattle.gimli.specs.Split.{dwo_name_fault, dwo_name_of, relocated};
ghost use Rattle.gimli.specs.Unit.{first_base, low_pc_of, name_and_directory_of, readable_string, dwo_id_of, unit_record_of};
ghost use Rattle.gimli.specs.UnitMemory.{gives_bytes_if, gives_some, line_program_of_at_cost, program_and_low_pc_of_at_cost, completed_record_at_cost, unit_takes_memory};

use crate::constants::{
    RNGLISTS_HEADER_32, RNGLISTS_HEADER_64, STR_OFFSETS_HEADER_32, STR_OFFSETS_HEADER_64,
};
use crate::dwarf::{Dwarf, DwarfFileType};
use crate::record::{AddressValue, RootAttributes, read_root};
use crate::text::{check_string, read_from, read_indexed_number, read_string};
use crate::unit::{DwoId, UnitHeader};
use gimli_line::{IncompleteLineProgram, read_line_program};
use gimli_read::{Abbreviations, AttributeValue, DWARF_5, Encoding, Error, Format, Reader};
use std::alloc::Global;
use std::marker::Model;
use std::rc::Rc;

/// A unit: its header, its abbreviations, and what its root entry says.
#[derive(Drop)]
pub struct Unit<R: Reader> {
    /// The header.
    pub header: UnitHeader<R>,
    /// The abbreviations of the unit's entries, which units of one table share.
    pub(crate) abbreviations: Rc<Abbreviations>,
    /// The name of the primary source file, where it can be read.
    pub name: Option<R>,
    /// The directory of the compilation, where it can be read.
    pub comp_dir: Option<R>,
    /// The address that range lists count from; 0 where there is none.
    pub low_pc: u64,
    /// Where the unit's offsets of strings begin in `.debug_str_offsets`, in bytes.
    pub str_offsets_base: u64,
    /// Where the unit's addresses begin in `.debug_addr`, in bytes.
    pub addr_base: u64,
    /// Where the unit's offsets of range lists begin in `.debug_rnglists`, in bytes; in a split
    /// file below version 5 what its offsets into `.debug_ranges` count from.
    pub rnglists_base: u64,
    /// The identifier that the unit shares with a split unit, where it has one.
    pub dwo_id: Option<DwoId>,
    /// The line program, where it has one; its opcodes aren't run yet. It stands in a box, so that
    /// a unit without one is small.
    pub line_program: Option<Box<IncompleteLineProgram<R>>>,
}

impl<R: Reader> Model for Unit<R> {
    ghost use Rattle.std.specs.Prelude.{box_value, option_map};
    ghost use Rattle.gimli.specs.Text.{from_offset};
    ghost use Rattle.gimli.specs.Unit.{UnitRecord};

    ghost Value = { UnitRecord };

    ghost view = { λ u. record {
      header = u.header;
      abbreviations = u.abbreviations.value;
      name = option_map R.section u.name;
      comp_dir = option_map R.section u.comp_dir;
      low_pc = u.low_pc;
      str_offsets_base = u.str_offsets_base;
      addr_base = u.addr_base;
      rnglists_base = u.rnglists_base;
      dwo_id = u.dwo_id;
      line_program = option_map box_value u.line_program;
    } };
}

// The length of a table's header in a version 5 unit of a split file, else 0.
fn first_base(short: u64, long: u64, file_type: DwarfFileType, encoding: Encoding) -> u64
    ensures gives { result ≡ first_base short long file_type encoding }
{
    match file_type {
        DwarfFileType::Main => 0,
        DwarfFileType::Dwo => {
            if encoding.version != DWARF_5 {
                return 0;
            }
            match encoding.format {
                Format::Dwarf32 => short,
                Format::Dwarf64 => long,
            }
        }
    }
}

// The address of low_pc, 0 where there is none.
fn read_low_pc<R: Reader>(
    dwarf: &Dwarf<R>,
    encoding: Encoding,
    base: u64,
    value: Option<AddressValue>,
) -> Result<u64, Error>
    ensures gives { Exactly (λ a. a) result (low_pc_of dwarf.now encoding base value) }
{
    match value {
        None => Ok(0),
        Some(AddressValue::Address(address)) => Ok(address),
        Some(AddressValue::Index(index)) => {
            read_indexed_number(
                &dwarf.debug_addr.section,
                encoding.address_size,
                base,
                index,
            )
        }
    }
}

// The line program at an offset. A call of its own, so that a unit without one doesn't clear what
// it is stored in. The box comes last, so that a header with a fault takes no memory for one.
#[inline(never)]
#[tactic(auto, unfolding(crate::specs::UnitMemory::stored_line_program_of))]
fn read_program_at<R: Reader>(
    alloc: Global,
    dwarf: &Dwarf<R>,
    encoding: Encoding,
    offset: u64,
) -> Result<Option<Box<IncompleteLineProgram<R>>>, Error>
    ensures gives { ExactlyAtCost R.shares (option_map box_value) result
        (line_program_of_at_cost dwarf.now encoding (Some offset)) }
{
    let rest = read_from(&dwarf.debug_line.section, offset)?;
    let program = read_line_program(alloc, rest, encoding.address_size)?;
    Ok(Some(Box::new(alloc, program)?))
}

// The line program at the offset that stmt_list gives, if it gives one.
#[tactic(auto, unfolding(crate::specs::UnitMemory::stored_line_program_of))]
fn read_program<R: Reader>(
    alloc: Global,
    dwarf: &Dwarf<R>,
    encoding: Encoding,
    stmt_list: Option<u64>,
) -> Result<Option<Box<IncompleteLineProgram<R>>>, Error>
    ensures gives { ExactlyAtCost R.shares (option_map box_value) result
        (line_program_of_at_cost dwarf.now encoding stmt_list) }
{
    match stmt_list {
        Some(offset) => read_program_at(alloc, dwarf, encoding, offset),
        None => Ok(None),
    }
}

// The string of a value, none where it can't be read. Refused `OutOfMemory` alone.
fn read_readable_string<R: Reader>(
    dwarf: &Dwarf<R>,
    format: Format,
    base: u64,
    value: Option<AttributeValue<R>>,
) -> Result<Option<R>, Error>
    ensures gives { ExactlyUnlessOomFor R.shares gives_some (option_map R.section) result
        (Ok (readable_string dwarf.now format base (option_map (as_value R.section) value))) }
{
    let Some(value) = value else {
        return Ok(None);
    };
    match read_string(dwarf, format, base, value) {
        Ok(text) => Ok(Some(text)),
        Err(Error::OutOfMemory) => Err(Error::OutOfMemory),
        Err(_) => Ok(None),
    }
}

// The identifier of the header, else that of the root entry.
fn dwo_id_of(in_header: Option<DwoId>, given: Option<u64>) -> Option<DwoId>
    ensures gives { result ≡ dwo_id_of in_header given }
{
    match in_header {
        Some(id) => Some(id),
        None => match given {
            Some(id) => Some(DwoId(id)),
            None => None,
        },
    }
}

// The line program, and then the address of low_pc.
#[tactic(auto, unfolding(crate::specs::Unit::program_and_low_pc_of))]
fn read_program_and_low_pc<R: Reader>(
    alloc: Global,
    dwarf: &Dwarf<R>,
    encoding: Encoding,
    addr_base: u64,
    root: &RootAttributes<R>,
) -> Result<(Option<Box<IncompleteLineProgram<R>>>, u64), Error>
    ensures gives { ExactlyAtCost R.shares (λ x. (option_map box_value x.0, x.1)) result
        (program_and_low_pc_of_at_cost dwarf.now encoding addr_base root.now) }
{
    let line_program = read_program(alloc, dwarf, encoding, root.stmt_list)?;
    let low_pc = read_low_pc(dwarf, encoding, addr_base, root.low_pc)?;
    Ok((line_program, low_pc))
}

// The name and the directory, none where they can't be read. Refused `OutOfMemory` alone, where
// bytes are shared.
fn read_name_and_directory<R: Reader>(
    dwarf: &Dwarf<R>,
    format: Format,
    base: u64,
    root: RootAttributes<R>,
) -> Result<(Option<R>, Option<R>), Error>
    ensures gives { ExactlyUnlessOomIf R.shares
        (λ x. (option_map R.section x.0, option_map R.section x.1)) result
        (Ok (name_and_directory_of dwarf.now format base root)) }
{
    let name = read_readable_string(dwarf, format, base, root.name)?;
    let comp_dir = read_readable_string(dwarf, format, base, root.comp_dir)?;
    Ok((name, comp_dir))
}

/// The unit of a header, whose root entry has these values.
///
/// Refused by its line program's header, then by the index of its low_pc. `OutOfMemory` only where
/// the record has no fault, or the program's offset is in its section and readers share their
/// bytes, the header's tables have something to store, or the header has no fault.
#[tactic(auto, unfolding(crate::specs::Unit::completed_record, crate::specs::UnitMemory::stored_completed_record))]
pub(crate) fn complete<R: Reader>(
    alloc: Global,
    dwarf: &Dwarf<R>,
    header: UnitHeader<R>,
    abbreviations: &Rc<Abbreviations>,
    root: RootAttributes<R>,
) -> Result<Unit<R>, Error>
    ensures gives { ExactlyAtCost R.shares (λ u. u) result
        (completed_record_at_cost dwarf.now header abbreviations.now.value root) }
{
    let encoding = header.encoding;
    let file_type = dwarf.file_type;
    let str_offsets_base = root.str_offsets_base.unwrap_or(first_base(
        STR_OFFSETS_HEADER_32,
        STR_OFFSETS_HEADER_64,
        file_type,
        encoding,
    ));
    let addr_base = root.addr_base.unwrap_or(0);
    let rnglists_base = root.rnglists_base.unwrap_or(first_base(
        RNGLISTS_HEADER_32,
        RNGLISTS_HEADER_64,
        file_type,
        encoding,
    ));
    let (line_program, low_pc) = read_program_and_low_pc(alloc, dwarf, encoding, addr_base, &root)?;
    // A count of users may be refused, so the faults come first.
    let abbreviations = abbreviations.clone()?;
    let dwo_id = dwo_id_of(header.dwo_id, root.dwo_id);
    let (name, comp_dir) = read_name_and_directory(dwarf, encoding.format, str_offsets_base, root)?;
    Ok(Unit {
        header,
        abbreviations,
        name,
        comp_dir,
        low_pc,
        str_offsets_base,
        addr_base,
        rnglists_base,
        dwo_id,
        line_program,
    })
}

impl<R: Reader> Dwarf<R> {
    /// The unit of a header: its abbreviations, and what its root entry says.
    ///
    /// Refused by its abbreviations (`OffsetOutOfBounds`, `BadAbbreviation`, `UnexpectedEof`,
    /// `BadLeb128`), its root entry
    /// (`UnexpectedEof`, `MissingUnitDie`, `UnknownAbbreviation`, `UnknownForm` and what a value is
    /// refused for), its line program's header (`OffsetOutOfBounds` and what a header is refused
    /// for), or the index of its low_pc (`OffsetOutOfBounds`), in this order. May fail with
    /// `OutOfMemory` instead, where its abbreviations begin in their section, and take memory or
    /// readers share their bytes.
    #[tactic(auto, unfolding(crate::specs::Unit::unit_record_of, crate::specs::Unit::unit_by))]
    pub fn unit(&self, alloc: Global, header: UnitHeader<R>) -> Result<Unit<R>, Error>
        ensures gives { ExactlyUnlessOomIf (unit_takes_memory R.shares self.now header) (λ u. u)
            result (unit_record_of self.now header) }
    {
        let rest = read_from(&self.debug_abbrev.section, header.debug_abbrev_offset)?;
        let abbreviations = Abbreviations::parse(alloc, rest)?;
        let root = read_root(&header, &abbreviations)?;
        let abbreviations = Rc::new(alloc, abbreviations)?;
        complete(alloc, self, header, &abbreviations, root)
    }
}

// The same value for another reader, none where it holds bytes. Takes no memory.
fn without_bytes<R: Reader, S: Reader>(value: AttributeValue<S>) -> Option<AttributeValue<R>>
    ensures gives { option_map (as_value R.section) result
        ≡ if holds_bytes (as_value S.section value) then None
        else Some (as_value S.section value) }
{
    match value {
        AttributeValue::Block(_) | AttributeValue::Exprloc(_) | AttributeValue::String(_) => None,
        AttributeValue::Addr(x) => Some(AttributeValue::Addr(x)),
        AttributeValue::Data1(x) => Some(AttributeValue::Data1(x)),
        AttributeValue::Data2(x) => Some(AttributeValue::Data2(x)),
        AttributeValue::Data4(x) => Some(AttributeValue::Data4(x)),
        AttributeValue::Data8(x) => Some(AttributeValue::Data8(x)),
        AttributeValue::Data16(x) => Some(AttributeValue::Data16(x)),
        AttributeValue::Sdata(x) => Some(AttributeValue::Sdata(x)),
        AttributeValue::Udata(x) => Some(AttributeValue::Udata(x)),
        AttributeValue::Flag(x) => Some(AttributeValue::Flag(x)),
        AttributeValue::SecOffset(x) => Some(AttributeValue::SecOffset(x)),
        AttributeValue::DebugAddrIndex(x) => Some(AttributeValue::DebugAddrIndex(x)),
        AttributeValue::UnitRef(x) => Some(AttributeValue::UnitRef(x)),
        AttributeValue::DebugInfoRef(x) => Some(AttributeValue::DebugInfoRef(x)),
        AttributeValue::DebugInfoRefSup(x) => Some(AttributeValue::DebugInfoRefSup(x)),
        AttributeValue::DebugTypesRef(x) => Some(AttributeValue::DebugTypesRef(x)),
        AttributeValue::DebugLocListsIndex(x) => Some(AttributeValue::DebugLocListsIndex(x)),
        AttributeValue::DebugRngListsIndex(x) => Some(AttributeValue::DebugRngListsIndex(x)),
        AttributeValue::DebugStrRef(x) => Some(AttributeValue::DebugStrRef(x)),
        AttributeValue::DebugStrRefSup(x) => Some(AttributeValue::DebugStrRefSup(x)),
        AttributeValue::DebugStrOffsetsIndex(x) => Some(AttributeValue::DebugStrOffsetsIndex(x)),
        AttributeValue::DebugLineStrRef(x) => Some(AttributeValue::DebugLineStrRef(x)),
    }
}

impl<R: Reader> Unit<R> {
    /// The name of the unit's split file, as its root entry gives it: `DW_AT_GNU_dwo_name` below
    /// version 5, else `DW_AT_dwo_name`, in whatever form; the last one counts.
    ///
    /// Refused as the root entry is: `UnexpectedEof`, `BadLeb128`, `MissingUnitDie`,
    /// `UnknownAbbreviation`, `UnknownForm` and what a value is refused for; where bytes are
    /// shared it may fail with `OutOfMemory` in place of a name that holds bytes. Source: DWARF 5,
    /// sections 3.1.2 and 7.5.5.
    pub fn dwo_name(&self) -> Result<Option<AttributeValue<R>>, Error>
        ensures gives { ExactlyUnlessOomFor R.shares gives_bytes_if
            (option_map (as_value R.section)) result (dwo_name_of self.now) }
    {
        // Over borrowed bytes first, which takes no memory: no growth for another string then hides
        // a fault, or a name that is a number.
        let borrowed = self.header.borrowed();
        let root = read_root(&borrowed, &self.abbreviations)?;
        let Some(name) = root.dwo_name else {
            return Ok(None);
        };
        if let Some(name) = without_bytes(name) {
            return Ok(Some(name));
        }
        let root = read_root(&self.header, &self.abbreviations)?;
        Ok(root.dwo_name)
    }

    /// Refused by the fault of the name of the unit's split file, if it has one: that of
    /// `dwo_name`, or of the string that it stands for (`Dwarf::attr_string`). Takes no memory.
    pub fn check_dwo_name(&self, dwarf: &Dwarf<R>) -> Result<(), Error>
        ensures gives { Exactly (λ x. x) result (dwo_name_fault dwarf.now self.now) }
    {
        let header = self.header.borrowed();
        let root = read_root(&header, &self.abbreviations)?;
        match root.dwo_name {
            Some(name) => {
                let format = self.header.encoding.format;
                check_string(dwarf, format, self.str_offsets_base, name)
            }
            None => Ok(()),
        }
    }

    /// Takes over what the main unit of this split unit relocates: low_pc, the base of addresses
    /// and, below version 5, that of range lists. Takes no memory.
    pub fn copy_relocated_attributes(&mut self, main: &Unit<R>)
        ensures gives { self.new ≡ relocated self.old main.now }
    {
        self.low_pc = main.low_pc;
        self.addr_base = main.addr_base;
        if self.header.encoding.version < DWARF_5 {
            self.rnglists_base = main.rnglists_base;
        }
    }
}
