//! Constants of DWARF (DWARF 5, sections 7.5.3 to 7.5.6 and 7.12), by the names of the standard,
//! where it has one.

ghost use Rattle.std.specs.Prelude.{◌≡◌};
ghost use Rattle.gimli_read.specs.StringForm.{is_string_form};

/// The tag of an entry: the kind of thing that it describes (DWARF 5, section 7.5.3).
#[derive(Clone, Copy, Debug, PartialEq, Eq)]
pub struct DwTag(pub u64);

/// The name of an attribute (DWARF 5, section 7.5.4).
#[derive(Clone, Copy, Debug, PartialEq, Eq)]
pub struct DwAt(pub u64);

/// The form of an attribute: how its value is encoded (DWARF 5, section 7.5.6).
#[derive(Clone, Copy, Debug, PartialEq, Eq)]
pub struct DwForm(pub u64);

/// A source language (DWARF 5, section 7.12).
#[derive(Clone, Copy, Debug, PartialEq, Eq)]
pub struct DwLang(pub u16);

/// The least version of the standard that is read.
pub const DWARF_2: u16 = 2;

/// Version 4 of the standard.
pub const DWARF_4: u16 = 4;

/// The greatest version of the standard that is read.
pub const DWARF_5: u16 = 5;

/// From this one on, the lengths of four bytes that a unit may begin with are reserved (DWARF 5,
/// section 7.4).
pub(crate) const FIRST_RESERVED_LENGTH: u32 = 0xffff_fff0;

/// The length of four bytes that one of eight bytes follows (DWARF 5, section 7.4).
pub(crate) const LENGTH_ESCAPE: u32 = 0xffff_ffff;

/// The code of a closing entry, which no abbreviation has, and with which a table of abbreviations
/// ends (DWARF 5, section 7.5.3). The standard has no name for it.
pub const CLOSING_CODE: u64 = 0;

/// The entries of an abbreviation have no children (DWARF 5, section 7.5.3).
#[allow(non_upper_case_globals)]
pub(crate) const DW_CHILDREN_no: u8 = 0x00;

/// The entries of an abbreviation have children, up to a closing entry (DWARF 5, section 7.5.3).
#[allow(non_upper_case_globals)]
pub(crate) const DW_CHILDREN_yes: u8 = 0x01;

#[allow(non_upper_case_globals)]
impl DwTag {
    // The tag that no entry has. The standard has no name for it.
    pub(crate) const DW_TAG_null: DwTag = DwTag(0x00);

    pub const DW_TAG_compile_unit: DwTag = DwTag(0x11);

    pub const DW_TAG_inlined_subroutine: DwTag = DwTag(0x1d);

    pub const DW_TAG_subprogram: DwTag = DwTag(0x2e);

    pub const DW_TAG_partial_unit: DwTag = DwTag(0x3c);

    pub const DW_TAG_skeleton_unit: DwTag = DwTag(0x4a);
}

#[allow(non_upper_case_globals)]
impl DwAt {
    // The name in the pair with which the attributes of an abbreviation end. The standard has no
    // name for it.
    pub(crate) const DW_AT_null: DwAt = DwAt(0x00);

    pub const DW_AT_name: DwAt = DwAt(0x03);

    pub const DW_AT_stmt_list: DwAt = DwAt(0x10);

    pub const DW_AT_low_pc: DwAt = DwAt(0x11);

    pub const DW_AT_high_pc: DwAt = DwAt(0x12);

    pub const DW_AT_language: DwAt = DwAt(0x13);

    pub const DW_AT_comp_dir: DwAt = DwAt(0x1b);

    pub const DW_AT_abstract_origin: DwAt = DwAt(0x31);

    pub const DW_AT_specification: DwAt = DwAt(0x47);

    pub const DW_AT_ranges: DwAt = DwAt(0x55);

    pub const DW_AT_call_column: DwAt = DwAt(0x57);

    pub const DW_AT_call_file: DwAt = DwAt(0x58);

    pub const DW_AT_call_line: DwAt = DwAt(0x59);

    pub const DW_AT_linkage_name: DwAt = DwAt(0x6e);

    pub const DW_AT_str_offsets_base: DwAt = DwAt(0x72);

    pub const DW_AT_addr_base: DwAt = DwAt(0x73);

    pub const DW_AT_rnglists_base: DwAt = DwAt(0x74);

    pub const DW_AT_dwo_name: DwAt = DwAt(0x76);

    pub const DW_AT_MIPS_linkage_name: DwAt = DwAt(0x2007);

    pub const DW_AT_GNU_dwo_name: DwAt = DwAt(0x2130);

    pub const DW_AT_GNU_dwo_id: DwAt = DwAt(0x2131);

    pub const DW_AT_GNU_ranges_base: DwAt = DwAt(0x2132);

    pub const DW_AT_GNU_addr_base: DwAt = DwAt(0x2133);
}

#[allow(non_upper_case_globals)]
impl DwForm {
    // The form in the pair with which the attributes of an abbreviation end. The standard has no
    // name for it.
    pub(crate) const DW_FORM_null: DwForm = DwForm(0x00);

    pub const DW_FORM_addr: DwForm = DwForm(0x01);

    pub const DW_FORM_block2: DwForm = DwForm(0x03);

    pub const DW_FORM_block4: DwForm = DwForm(0x04);

    pub const DW_FORM_data2: DwForm = DwForm(0x05);

    pub const DW_FORM_data4: DwForm = DwForm(0x06);

    pub const DW_FORM_data8: DwForm = DwForm(0x07);

    pub const DW_FORM_string: DwForm = DwForm(0x08);

    pub const DW_FORM_block: DwForm = DwForm(0x09);

    pub const DW_FORM_block1: DwForm = DwForm(0x0a);

    pub const DW_FORM_data1: DwForm = DwForm(0x0b);

    pub const DW_FORM_flag: DwForm = DwForm(0x0c);

    pub const DW_FORM_sdata: DwForm = DwForm(0x0d);

    pub const DW_FORM_strp: DwForm = DwForm(0x0e);

    pub const DW_FORM_udata: DwForm = DwForm(0x0f);

    pub const DW_FORM_ref_addr: DwForm = DwForm(0x10);

    pub const DW_FORM_ref1: DwForm = DwForm(0x11);

    pub const DW_FORM_ref2: DwForm = DwForm(0x12);

    pub const DW_FORM_ref4: DwForm = DwForm(0x13);

    pub const DW_FORM_ref8: DwForm = DwForm(0x14);

    pub const DW_FORM_ref_udata: DwForm = DwForm(0x15);

    pub const DW_FORM_indirect: DwForm = DwForm(0x16);

    pub const DW_FORM_sec_offset: DwForm = DwForm(0x17);

    pub const DW_FORM_exprloc: DwForm = DwForm(0x18);

    pub const DW_FORM_flag_present: DwForm = DwForm(0x19);

    pub const DW_FORM_strx: DwForm = DwForm(0x1a);

    pub const DW_FORM_addrx: DwForm = DwForm(0x1b);

    pub const DW_FORM_ref_sup4: DwForm = DwForm(0x1c);

    pub const DW_FORM_strp_sup: DwForm = DwForm(0x1d);

    pub const DW_FORM_data16: DwForm = DwForm(0x1e);

    pub const DW_FORM_line_strp: DwForm = DwForm(0x1f);

    pub const DW_FORM_ref_sig8: DwForm = DwForm(0x20);

    pub const DW_FORM_implicit_const: DwForm = DwForm(0x21);

    pub const DW_FORM_loclistx: DwForm = DwForm(0x22);

    pub const DW_FORM_rnglistx: DwForm = DwForm(0x23);

    pub const DW_FORM_ref_sup8: DwForm = DwForm(0x24);

    pub const DW_FORM_strx1: DwForm = DwForm(0x25);

    pub const DW_FORM_strx2: DwForm = DwForm(0x26);

    pub const DW_FORM_strx3: DwForm = DwForm(0x27);

    pub const DW_FORM_strx4: DwForm = DwForm(0x28);

    pub const DW_FORM_addrx1: DwForm = DwForm(0x29);

    pub const DW_FORM_addrx2: DwForm = DwForm(0x2a);

    pub const DW_FORM_addrx3: DwForm = DwForm(0x2b);

    pub const DW_FORM_addrx4: DwForm = DwForm(0x2c);

    pub const DW_FORM_GNU_addr_index: DwForm = DwForm(0x1f01);

    pub const DW_FORM_GNU_str_index: DwForm = DwForm(0x1f02);

    pub const DW_FORM_GNU_ref_alt: DwForm = DwForm(0x1f20);

    pub const DW_FORM_GNU_strp_alt: DwForm = DwForm(0x1f21);
}

impl DwForm {
    /// Whether values of the form are strings: their bytes, or where those are found. Takes no
    /// memory.
    #[tactic(auto, unfolding(crate::specs::FormEncoding::form_encoding_of))]
    pub fn is_string(self) -> bool
        ensures gives { result ≡ is_string_form self.0 }
    {
        matches!(
            self,
            DwForm::DW_FORM_string
                | DwForm::DW_FORM_strp
                | DwForm::DW_FORM_line_strp
                | DwForm::DW_FORM_strp_sup
                | DwForm::DW_FORM_GNU_strp_alt
                | DwForm::DW_FORM_strx
                | DwForm::DW_FORM_GNU_str_index
                | DwForm::DW_FORM_strx1
                | DwForm::DW_FORM_strx2
                | DwForm::DW_FORM_strx3
                | DwForm::DW_FORM_strx4
        )
    }
}

#[allow(non_upper_case_globals)]
impl DwLang {
    pub const DW_LANG_Rust: DwLang = DwLang(0x1c);
}
