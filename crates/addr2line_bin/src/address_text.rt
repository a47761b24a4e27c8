//! The texts of addresses and of locations, and the lines of faults.

ghost use Rattle.std.specs.Prelude.{◌≡◌, ◌++◌, OnOk, option_map, string_bytes};
ghost use Rattle.std.specs.Option.{option_copied};
ghost use Rattle.addr2line_bin.specs.Common.{as_location};
ghost use Rattle.addr2line_bin.specs.AddressTexts.{address_ending, address_text, basename_of, digits_text};
ghost use Rattle.addr2line_bin.specs.AddressTexts.{fault_line, fault_reason, fault_subject, fault_topic};
ghost use Rattle.addr2line_bin.specs.AddressTexts.{shown_file, shown_path, hex_digits, line_text};
ghost use Rattle.addr2line_bin.specs.AddressTexts.{location_text, nowhere_text, place_text, probe_end};

use crate::options::Style;
use addr2line::Location;
use elf::LoaderError;
use std::alloc::AllocError;
use std::path::Path;

/// Adds an address in lower case hexadecimal digits.
pub fn push_hex(text: &mut String, address: u64) -> Result<(), AllocError>
    ensures gives { OnOk result (string_bytes text.new
        ≡ string_bytes text.old ++ hex_digits address) }
{
    write!(text, "{address:x}")
}

// Adds the digits of an address.
#[tactic(auto, using(crate::proofs::AddressLemmas::wide_digits))]
fn push_digits(text: &mut String, style: Style, address: u64) -> Result<(), AllocError>
    ensures gives { OnOk result (string_bytes text.new
        ≡ string_bytes text.old ++ digits_text style address) }
{
    if style.llvm {
        push_hex(text, address)
    } else {
        write!(text, "{address:016x}")
    }
}

// Adds what follows an address.
fn push_address_end(text: &mut String, style: Style) -> Result<(), AllocError>
    ensures gives { OnOk result (string_bytes text.new
        ≡ string_bytes text.old ++ address_ending style) }
{
    text.push_str(if style.pretty { ": " } else { "\n" })
}

/// Adds the address that is asked for, 0 for none, where addresses are printed.
pub fn push_address(text: &mut String, style: Style, probe: Option<u64>) -> Result<(), AllocError>
    ensures gives { OnOk result (string_bytes text.new
        ≡ string_bytes text.old ++ address_text style probe) }
{
    if !style.addresses {
        return Ok(());
    }
    text.push_str("0x")?;
    push_digits(text, style, probe.unwrap_or(0))?;
    push_address_end(text, style)
}

// The last part of a path, or the path whole.
fn basename_of(path: &str) -> &str
    ensures gives { result.now ≡ basename_of path.now }
{
    Path::new(path).file_name().unwrap_or(path)
}

/// A path as it is printed.
pub fn shown_path(style: Style, path: &str) -> &str
    ensures gives { result.now ≡ shown_path style path.now }
{
    if style.basenames {
        basename_of(path)
    } else {
        path
    }
}

// Adds a file.
fn push_file(text: &mut String, style: Style, file: Option<&str>) -> Result<(), AllocError>
    ensures gives { OnOk result (string_bytes text.new
        ≡ string_bytes text.old ++ shown_file style (option_copied file.entry)) }
{
    match file {
        None => text.push_str("??"),
        Some(path) => text.push_str(shown_path(style, path)),
    }
}

// Adds a line, or `?`.
fn push_line(text: &mut String, line: Option<u32>) -> Result<(), AllocError>
    ensures gives { OnOk result (string_bytes text.new ≡ string_bytes text.old ++ line_text line) }
{
    match line {
        Some(line) => write!(text, "{line}"),
        None => text.push_str("?"),
    }
}

// Adds a line, in the texts of LLVM with its column.
fn push_place(
    text: &mut String,
    style: Style,
    line: Option<u32>,
    column: Option<u32>,
) -> Result<(), AllocError>
    ensures gives { OnOk result (string_bytes text.new
        ≡ string_bytes text.old ++ place_text style line column) }
{
    if !style.llvm {
        return push_line(text, line);
    }
    push_line(text, Some(line.unwrap_or(0)))?;
    text.push_str(":")?;
    push_line(text, Some(column.unwrap_or(0)))
}

// Adds what stands where there is no location.
fn push_nowhere(text: &mut String, style: Style) -> Result<(), AllocError>
    ensures gives { OnOk result (string_bytes text.new
        ≡ string_bytes text.old ++ nowhere_text style) }
{
    text.push_str(if style.llvm { "??:0:0\n" } else { "??:0\n" })
}

/// Adds a location, on a line of its own.
pub fn push_location(
    text: &mut String,
    style: Style,
    location: Option<Location<'_>>,
) -> Result<(), AllocError>
    ensures gives { OnOk result (string_bytes text.new ≡ string_bytes text.old
        ++ location_text style (option_map as_location location.entry)) }
{
    let Some(location) = location else {
        return push_nowhere(text, style);
    };
    push_file(text, style, location.file)?;
    text.push_str(":")?;
    push_place(text, style, location.line, location.column)?;
    text.push_str("\n")
}

/// Adds what follows all else of an address.
pub fn push_probe_end(text: &mut String, style: Style) -> Result<(), AllocError>
    ensures gives { OnOk result (string_bytes text.new ≡ string_bytes text.old ++ probe_end style) }
{
    text.push_str(if style.llvm { "\n" } else { "" })
}

// Adds what can't be found.
fn push_topic(text: &mut String, name: &str, what: &str) -> Result<(), AllocError>
    ensures gives { OnOk result (string_bytes text.new
        ≡ string_bytes text.old ++ fault_topic name.now what.now) }
{
    text.push_str(name)?;
    text.push_str(": failed to find ")?;
    text.push_str(what)?;
    Ok(())
}

// Adds for which address.
fn push_subject(text: &mut String, address: u64) -> Result<(), AllocError>
    ensures gives { OnOk result (string_bytes text.new
        ≡ string_bytes text.old ++ fault_subject address) }
{
    text.push_str(" for 0x")?;
    push_hex(text, address)
}

// Adds why.
fn push_reason(text: &mut String, error: LoaderError) -> Result<(), AllocError>
    ensures gives { OnOk result (string_bytes text.new
        ≡ string_bytes text.old ++ fault_reason error) }
{
    text.push_str(": ")?;
    text.push_str(error.text())?;
    text.push_str("\n")
}

/// Adds the line that says why something can't be found for an address.
pub fn push_fault(
    text: &mut String,
    name: &str,
    what: &str,
    address: u64,
    error: LoaderError,
) -> Result<(), AllocError>
    ensures gives { OnOk result (string_bytes text.new ≡ string_bytes text.old
        ++ fault_line name.now what.now address error) }
{
    push_topic(text, name, what)?;
    push_subject(text, address)?;
    push_reason(text, error)
}
