//! The texts of files.

ghost use Rattle.std.specs.Prelude.{◌≡◌, IfOk, OnOk};
ghost use Rattle.std.specs.Option.{option_copied};
ghost use Rattle.std.specs.String.{string_bytes};
ghost use Rattle.addr2line_lines.specs.Paths.{replaces, separator, lacks, joined_path, pushed_path};
ghost use Rattle.addr2line_lines.specs.Files.{file_text, base_text, directory_text, own_text};

use bstr::ByteSlice;
use std::alloc::{AllocError, Global};

// Whether a text stands for itself, and not below another.
fn is_absolute(text: &str) -> bool
    ensures gives { result ≡ replaces text.now }
{
    let bytes = text.as_bytes();
    match bytes {
        [b'/' | b'\\', ..] => true,
        [_, b':', b'/' | b'\\', ..] => true,
        _ => false,
    }
}

// What separates the parts of a path.
fn separator_of(path: &str) -> char
    ensures gives { result ≡ separator path.now }
{
    let bytes = path.as_bytes();
    match bytes {
        [b'\\', ..] => '\\',
        [_, b':', b'\\', ..] => '\\',
        _ => '/',
    }
}

// Whether a path has bytes and doesn't end in the separator.
fn lacks_separator(path: &str, separator: char) -> bool
    ensures gives { result ≡ lacks separator path.now }
{
    match path.as_bytes().last() {
        Some(last) => char::from(*last) != separator,
        None => false,
    }
}

// Adds a text below a path.
fn join(path: &mut String, text: &str) -> Result<(), AllocError>
    ensures gives { OnOk result (string_bytes path.new ≡
        joined_path (string_bytes path.old) text.now) }
{
    let separator = separator_of(path.as_str());
    if lacks_separator(path.as_str(), separator) {
        path.push(separator)?;
    }
    path.push_str(text)
}

// Pushes a text onto a path: an absolute text replaces it, any other is added after a separator.
//
// Fails only where a growth is refused, and then the path may be any text.
fn push_path(path: &mut String, text: &str) -> Result<(), AllocError>
    ensures gives { OnOk result (string_bytes path.new ≡
        pushed_path (string_bytes path.old) text.now) }
{
    if is_absolute(text) {
        path.clear();
        path.push_str(text)
    } else {
        join(path, text)
    }
}

// Pushes bytes, decoded lossily, onto a path.
fn push_bytes(alloc: Global, path: &mut String, bytes: &[u8]) -> Result<(), AllocError>
    ensures gives { OnOk result (string_bytes path.new ≡
        directory_text (string_bytes path.old) (Some bytes.now)) }
{
    let text = bytes.to_str_lossy(alloc)?;
    push_path(path, text.as_str())
}

// The unit's directory as text.
fn base_of(alloc: Global, unit: Option<&[u8]>) -> Result<String, AllocError>
    ensures gives { IfOk result (λ path. string_bytes path ≡ base_text (option_copied unit.entry)) }
{
    match unit {
        Some(bytes) => bytes.to_str_lossy(alloc)?.into_owned(alloc),
        None => Ok(String::new(alloc)),
    }
}

/// The text of a file, of the unit's directory, the file's directory and its path, each as bytes.
///
/// `directory` is `None` where the file has the unit's own. Fails only where a growth is refused.
pub(crate) fn make_file_text(
    alloc: Global,
    unit: Option<&[u8]>,
    directory: Option<&[u8]>,
    path: &[u8],
) -> Result<String, AllocError>
    ensures gives { IfOk result (λ text. string_bytes text ≡
        file_text (option_copied unit.entry) (option_copied directory.entry) path.now) }
{
    let mut text = base_of(alloc, unit)?;
    if let Some(bytes) = directory {
        push_bytes(alloc, &mut text, bytes)?;
    }
    push_bytes(alloc, &mut text, path)?;
    Ok(text)
}

/// The text of the file that is the unit's own name, empty where it has none.
///
/// Fails only where a growth is refused.
pub(crate) fn make_own_text(
    alloc: Global,
    unit: Option<&[u8]>,
    name: Option<&[u8]>,
) -> Result<String, AllocError>
    ensures gives { IfOk result (λ text. string_bytes text ≡
        own_text (option_copied unit.entry) (option_copied name.entry)) }
{
    match name {
        Some(name) => make_file_text(alloc, unit, None, name),
        None => Ok(String::new(alloc)),
    }
}
