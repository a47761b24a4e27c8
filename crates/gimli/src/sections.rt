//! The sections of DWARF (DWARF 5, section 7.5 and appendix B).

ghost use Rattle.std.specs.Prelude.{◌≡◌};

/// `.debug_abbrev`: abbreviation tables.
#[derive(Drop)]
pub struct DebugAbbrev<R> {
    /// The bytes of the section.
    pub section: R,
}

impl<R> From<R> for DebugAbbrev<R> {
    ghost from_gives = { λ r d. d ≡ record { section = r } };

    fn from(section: R) -> DebugAbbrev<R> {
        DebugAbbrev { section }
    }
}

/// `.debug_addr`: addresses by index.
#[derive(Drop)]
pub struct DebugAddr<R> {
    /// The bytes of the section.
    pub section: R,
}

impl<R> From<R> for DebugAddr<R> {
    ghost from_gives = { λ r d. d ≡ record { section = r } };

    fn from(section: R) -> DebugAddr<R> {
        DebugAddr { section }
    }
}

/// `.debug_aranges`: the address ranges of units.
#[derive(Drop)]
pub struct DebugAranges<R> {
    /// The bytes of the section.
    pub section: R,
}

impl<R> From<R> for DebugAranges<R> {
    ghost from_gives = { λ r d. d ≡ record { section = r } };

    fn from(section: R) -> DebugAranges<R> {
        DebugAranges { section }
    }
}

/// `.debug_info`: units and their entries.
#[derive(Drop)]
pub struct DebugInfo<R> {
    /// The bytes of the section.
    pub section: R,
}

impl<R> From<R> for DebugInfo<R> {
    ghost from_gives = { λ r d. d ≡ record { section = r } };

    fn from(section: R) -> DebugInfo<R> {
        DebugInfo { section }
    }
}

/// `.debug_line`: line programs.
#[derive(Drop)]
pub struct DebugLine<R> {
    /// The bytes of the section.
    pub section: R,
}

impl<R> From<R> for DebugLine<R> {
    ghost from_gives = { λ r d. d ≡ record { section = r } };

    fn from(section: R) -> DebugLine<R> {
        DebugLine { section }
    }
}

/// `.debug_line_str`: the strings of line programs.
#[derive(Drop)]
pub struct DebugLineStr<R> {
    /// The bytes of the section.
    pub section: R,
}

impl<R> From<R> for DebugLineStr<R> {
    ghost from_gives = { λ r d. d ≡ record { section = r } };

    fn from(section: R) -> DebugLineStr<R> {
        DebugLineStr { section }
    }
}

/// `.debug_ranges`: range lists of versions 2 to 4.
#[derive(Drop)]
pub struct DebugRanges<R> {
    /// The bytes of the section.
    pub section: R,
}

impl<R> From<R> for DebugRanges<R> {
    ghost from_gives = { λ r d. d ≡ record { section = r } };

    fn from(section: R) -> DebugRanges<R> {
        DebugRanges { section }
    }
}

/// `.debug_rnglists`: range lists of version 5.
#[derive(Drop)]
pub struct DebugRngLists<R> {
    /// The bytes of the section.
    pub section: R,
}

impl<R> From<R> for DebugRngLists<R> {
    ghost from_gives = { λ r d. d ≡ record { section = r } };

    fn from(section: R) -> DebugRngLists<R> {
        DebugRngLists { section }
    }
}

/// `.debug_str`: strings.
#[derive(Drop)]
pub struct DebugStr<R> {
    /// The bytes of the section.
    pub section: R,
}

impl<R> From<R> for DebugStr<R> {
    ghost from_gives = { λ r d. d ≡ record { section = r } };

    fn from(section: R) -> DebugStr<R> {
        DebugStr { section }
    }
}

/// `.debug_str_offsets`: the offsets of strings by index.
#[derive(Drop)]
pub struct DebugStrOffsets<R> {
    /// The bytes of the section.
    pub section: R,
}

impl<R> From<R> for DebugStrOffsets<R> {
    ghost from_gives = { λ r d. d ≡ record { section = r } };

    fn from(section: R) -> DebugStrOffsets<R> {
        DebugStrOffsets { section }
    }
}
