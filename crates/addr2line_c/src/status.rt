//! What calls come to, as the number that C gets.

ghost use Rattle.std.specs.Prelude.{◌≡◌, ◌≢◌, IfNone, IfSome};
ghost use Rattle.gimli_read.specs.declared.error.Error.{Error as RefusedReading};
ghost use Rattle.gimli_read.specs.declared.error.Error.TheVariants.{OutOfMemory};
ghost use Rattle.elf.specs.declared.error.LoaderError.{LoaderError as RefusedLoading};
ghost use Rattle.addr2line_c.specs.declared.status.Status.{Status as AnyStatus};
ghost use Rattle.addr2line_c.specs.Answered.{HasMemory, done_if};
ghost use Rattle.addr2line_c.specs.Status.{dwarf_number, loader_number, status_number, status_of_error, status_text};

use addr2line::LoaderError;
use addr2line::gimli::read::Error;

/// What a call comes to.
#[derive(Clone, Copy)]
pub(crate) enum Status {
    /// What was asked for is written.
    Done,
    /// A buffer has no room for what was asked for; what is needed is written.
    TooSmall,
    /// A split file is waited for.
    Waits,
    /// There is nothing that was asked for, or nothing more.
    Nothing,
    /// The handle isn't open.
    Closed,
    /// The split file that was given has the entries of another unit.
    OtherUnit,
    /// A flag isn't known.
    BadFlags,
    /// A refusal.
    Refused(LoaderError),
}

// The number of a refused reading of DWARF bytes.
fn dwarf_number(error: Error) -> u32
    ensures gives { result ≡ dwarf_number error }
{
    match error {
        Error::OutOfMemory => 16,
        Error::UnexpectedEof => 32,
        Error::BadLeb128 => 33,
        Error::UnknownReservedLength => 34,
        Error::UnknownVersion => 35,
        Error::UnknownUnitType => 36,
        Error::UnsupportedAddressSize => 37,
        Error::UnsupportedSegmentSize => 38,
        Error::BadAbbreviation => 39,
        Error::UnknownAbbreviation => 40,
        Error::UnknownForm => 41,
        Error::MissingUnitDie => 42,
        Error::OffsetOutOfBounds => 43,
        Error::ExpectedString => 44,
        Error::NoSupplementary => 45,
        Error::NoEntryAtGivenOffset(_) => 46,
        Error::UnknownRangeListEntry => 47,
        Error::BadLineHeader => 48,
        Error::AddressOverflow => 49,
        Error::UnknownToken => 50,
    }
}

// The number of a refusal.
fn loader_number(error: LoaderError) -> u32
    ensures gives { result ≡ loader_number error }
{
    match error {
        LoaderError::OutOfMemory => 16,
        LoaderError::Io => 17,
        LoaderError::NotElf => 18,
        LoaderError::BadElf => 19,
        LoaderError::CompressedSection => 20,
        LoaderError::RelocationsNeeded => 21,
        LoaderError::PathNotUtf8 => 22,
        LoaderError::Dwarf(error) => dwarf_number(error),
    }
}

// The refusal of a reading that a number stands for; an offset that it had is 0.
fn dwarf_of_number(number: u32) -> Option<Error>
    ensures gives { IfSome result (λ e. dwarf_number e ≡ number) }
    ensures none { IfNone result ((e : RefusedReading) → e ≢ OutOfMemory
        → dwarf_number e ≢ number) }
{
    match number {
        32 => Some(Error::UnexpectedEof),
        33 => Some(Error::BadLeb128),
        34 => Some(Error::UnknownReservedLength),
        35 => Some(Error::UnknownVersion),
        36 => Some(Error::UnknownUnitType),
        37 => Some(Error::UnsupportedAddressSize),
        38 => Some(Error::UnsupportedSegmentSize),
        39 => Some(Error::BadAbbreviation),
        40 => Some(Error::UnknownAbbreviation),
        41 => Some(Error::UnknownForm),
        42 => Some(Error::MissingUnitDie),
        43 => Some(Error::OffsetOutOfBounds),
        44 => Some(Error::ExpectedString),
        45 => Some(Error::NoSupplementary),
        46 => Some(Error::NoEntryAtGivenOffset(0)),
        47 => Some(Error::UnknownRangeListEntry),
        48 => Some(Error::BadLineHeader),
        49 => Some(Error::AddressOverflow),
        50 => Some(Error::UnknownToken),
        _ => None,
    }
}

// The refusal that a number stands for.
fn loader_of_number(number: u32) -> Option<LoaderError>
    ensures gives { IfSome result (λ e. loader_number e ≡ number) }
    ensures none { IfNone result ((e : RefusedLoading) → loader_number e ≢ number) }
{
    match number {
        16 => Some(LoaderError::OutOfMemory),
        17 => Some(LoaderError::Io),
        18 => Some(LoaderError::NotElf),
        19 => Some(LoaderError::BadElf),
        20 => Some(LoaderError::CompressedSection),
        21 => Some(LoaderError::RelocationsNeeded),
        22 => Some(LoaderError::PathNotUtf8),
        _ => Some(LoaderError::Dwarf(dwarf_of_number(number)?)),
    }
}

impl Status {
    /// The number that C gets.
    pub(crate) fn number(self) -> u32
        ensures gives { result ≡ status_number self }
    {
        match self {
            Status::Done => 0,
            Status::TooSmall => 1,
            Status::Waits => 2,
            Status::Nothing => 3,
            Status::Closed => 4,
            Status::OtherUnit => 5,
            Status::BadFlags => 6,
            Status::Refused(error) => loader_number(error),
        }
    }

    /// The status that a number stands for.
    pub(crate) fn of_number(number: u32) -> Option<Status>
        ensures gives { IfSome result (λ s. status_number s ≡ number) }
        ensures none { IfNone result ((s : AnyStatus) → status_number s ≢ number) }
    {
        match number {
            0 => Some(Status::Done),
            1 => Some(Status::TooSmall),
            2 => Some(Status::Waits),
            3 => Some(Status::Nothing),
            4 => Some(Status::Closed),
            5 => Some(Status::OtherUnit),
            6 => Some(Status::BadFlags),
            _ => Some(Status::Refused(loader_of_number(number)?)),
        }
    }

    /// What the status says, in lower case.
    pub(crate) fn text(self) -> &'static str
        ensures gives { result.now ≡ status_text self }
    {
        match self {
            Status::Done => "done",
            Status::TooSmall => "a buffer is too small",
            Status::Waits => "a split file is waited for",
            Status::Nothing => "nothing there",
            Status::Closed => "the handle is not open",
            Status::OtherUnit => "the split file of another unit",
            Status::BadFlags => "unknown flags",
            Status::Refused(error) => error.text(),
        }
    }
}

/// The status of a refused reading of DWARF bytes.
pub(crate) fn status_of_error(error: Error) -> Status
    ensures gives { result ≡ status_of_error error }
{
    Status::Refused(LoaderError::from(error))
}

/// The status of what was written, by whether it had room.
pub(crate) fn done_if(fits: bool) -> Status
    ensures gives { result ≡ done_if fits }
    ensures memory { HasMemory result }
{
    if fits { Status::Done } else { Status::TooSmall }
}
