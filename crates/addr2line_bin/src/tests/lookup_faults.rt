//! Worked cases of locations, and the lines of faults.

use crate::exit::Exit;
use crate::handed::Handed;
use crate::input::ReaderInput;
use crate::tests::runs::{Fixed, FoundLocation, run_lookups};
use crate::tests::streams::Streams;
use addr2line::gimli::read::Error;
use addr2line::{LoaderError, Location};
use std::alloc::Global;
use std::test::Fail;

// What each lookup gives, and the symbol's name.
type Given = (FoundLocation, Option<&'static str>);

// What is given, the words after `-e f`, what goes to the output and to standard error, and the
// end.
type Case = (
    Given,
    &'static [&'static str],
    &'static str,
    &'static str,
    Exit,
);

// Line 7 of a file, at a column.
fn line_7(file: &'static str, column: u32) -> Given {
    let location = Location {
        file: Some(file),
        line: Some(7),
        column: Some(column),
    };
    (Ok(Some(location)), None)
}

// Line 7 of a file that isn't known.
fn line_7_of_no_file() -> Given {
    let location = Location {
        file: None,
        line: Some(7),
        column: Some(3),
    };
    (Ok(Some(location)), None)
}

// A fault of a lookup.
fn cut() -> Given {
    (Err(LoaderError::Dwarf(Error::UnexpectedEof)), None)
}

// The words of a run over the file `f`.
fn words_of<'a>(alloc: Global, given: &[&'a str]) -> Result<Vec<&'a str>, Fail> {
    let mut words: Vec<&'a str> = Vec::new(alloc);
    words.extend_from_slice(["a2l", "-e", "f"].as_slice())?;
    words.extend_from_slice(given)?;
    Ok(words)
}

// The number of the first case that goes otherwise than wanted, and how many there are where none
// does.
fn first_wrong(alloc: Global, cases: &[Case]) -> Result<usize, Fail> {
    let mut at = 0usize;
    for ((found, symbol), given, out, err, exit) in cases {
        let words = words_of(alloc, given)?;
        let mut streams = Streams::sound(alloc);
        let file = Fixed {
            found: *found,
            symbol: *symbol,
        };
        let mut input = ReaderInput::new(Handed(b"".as_slice()));
        let got = run_lookups(alloc, words.as_slice(), Ok(file), &mut input, &mut streams)?;
        if got != *exit || !streams.have(out, err) {
            return Ok(at);
        }
        at = at.saturating_add(1);
    }
    Ok(at)
}

#[test]
fn the_last_part_of_a_path_is_printed(rt: HostRuntime) -> Result<(), Fail> {
    let cases: [Case; 7] = [
        (line_7_of_no_file(), &["-s", "10"], "??:7\n", "", Exit::Done),
        (
            line_7("/a/b.c", 3),
            &["-s", "10"],
            "b.c:7\n",
            "",
            Exit::Done,
        ),
        (line_7("/", 3), &["-s", "10"], "/:7\n", "", Exit::Done),
        (line_7("a/..", 3), &["-s", "10"], "a/..:7\n", "", Exit::Done),
        (line_7("b/.", 3), &["-s", "10"], "b:7\n", "", Exit::Done),
        (
            line_7("/a/b.c", 3),
            &["--llvm", "10"],
            "/a/b.c:7:3\n\n",
            "",
            Exit::Done,
        ),
        (
            line_7("/a/b.c", 3),
            &["-i", "-s", "--llvm", "10"],
            "b.c:7:3\n\n",
            "",
            Exit::Done,
        ),
    ];
    assert_eq!(rt; first_wrong(rt.alloc(), cases.as_slice())?, 7);
    Ok(())
}

#[test]
fn a_symbol_stands_before_the_location(rt: HostRuntime) -> Result<(), Fail> {
    let mangled = Some("_ZN4test1a2bcE");
    let cases: [Case; 5] = [
        (
            (Ok(None), mangled),
            &["-f", "10"],
            "_ZN4test1a2bcE\n??:0\n",
            "",
            Exit::Done,
        ),
        (
            (Ok(None), mangled),
            &["-f", "-C", "10"],
            "test::a::bc\n??:0\n",
            "",
            Exit::Done,
        ),
        (
            (line_7("/a/b.c", 0).0, mangled),
            &["-f", "-p", "-C", "10"],
            "test::a::bc at /a/b.c:7\n",
            "",
            Exit::Done,
        ),
        ((Ok(None), mangled), &["-i", "10"], "??:0\n", "", Exit::Done),
        ((Ok(None), mangled), &["-C", "10"], "??:0\n", "", Exit::Done),
    ];
    assert_eq!(rt; first_wrong(rt.alloc(), cases.as_slice())?, 5);
    Ok(())
}

#[test]
fn each_fault_of_a_lookup_has_its_line(rt: HostRuntime) -> Result<(), Fail> {
    let oom: Given = (Err(LoaderError::OutOfMemory), None);
    let cases: [Case; 7] = [
        (
            cut(),
            &["0x2A", "zz"],
            "??:0\n??:0\n",
            "a2l: failed to find location for 0x2a: unexpected end of data\n",
            Exit::Done,
        ),
        (
            cut(),
            &["-f", "10", "20"],
            "??\n??:0\n??\n??:0\n",
            "a2l: failed to find frames for 0x10: unexpected end of data\n\
            a2l: failed to find frames for 0x20: unexpected end of data\n",
            Exit::Done,
        ),
        (
            (Err(LoaderError::PathNotUtf8), Some("s")),
            &["-a", "-p", "-f", "-i", "10"],
            "0x0000000000000010: s at ??:0\n",
            "a2l: failed to find frames for 0x10: path is not UTF-8\n",
            Exit::Done,
        ),
        (
            oom,
            &["10"],
            "??:0\n",
            "a2l: failed to find location for 0x10: out of memory\n",
            Exit::Done,
        ),
        (
            oom,
            &["--llvm", "-f", "10"],
            "??\n??:0:0\n\n",
            "a2l: failed to find frames for 0x10: out of memory\n",
            Exit::Done,
        ),
        (
            oom,
            &["--all"],
            "",
            "a2l: failed to find all addresses: out of memory\n",
            Exit::Failed,
        ),
        (
            (Ok(None), None),
            &["-j", ".x", "10"],
            "",
            "a2l: cannot find section .x\n",
            Exit::Failed,
        ),
    ];
    assert_eq!(rt; first_wrong(rt.alloc(), cases.as_slice())?, 7);
    Ok(())
}

#[test]
fn each_fault_of_a_lookup_has_an_object(rt: HostRuntime) -> Result<(), Fail> {
    let cases: [Case; 3] = [
        (
            cut(),
            &["--output-style=JSON", "0x2A", "10"],
            "{\"Address\":\"0x2a\",\"Error\":{\"Message\":\"unexpected end of data\"},\
\"SymName\":\"\",\"Symbol\":[]}\n\
{\"Address\":\"0x10\",\"Error\":{\"Message\":\"unexpected end of data\"},\
\"SymName\":\"\",\"Symbol\":[]}\n",
            "a2l: failed to find frames for 0x2a: unexpected end of data\n\
            a2l: failed to find frames for 0x10: unexpected end of data\n",
            Exit::Done,
        ),
        (
            (Err(LoaderError::PathNotUtf8), Some("s")),
            &["--output-style=JSON", "-a", "10"],
            "{\"Address\":\"0x10\",\"Error\":{\"Message\":\"path is not UTF-8\"},\
\"SymName\":\"s\",\"Symbol\":[]}\n",
            "a2l: failed to find frames for 0x10: path is not UTF-8\n",
            Exit::Done,
        ),
        (
            (Err(LoaderError::OutOfMemory), None),
            &["--output-style=JSON", "10"],
            "{\"Address\":\"0x10\",\"Error\":{\"Message\":\"out of memory\"},\
\"SymName\":\"\",\"Symbol\":[]}\n",
            "a2l: failed to find frames for 0x10: out of memory\n",
            Exit::Done,
        ),
    ];
    assert_eq!(rt; first_wrong(rt.alloc(), cases.as_slice())?, 3);
    Ok(())
}

#[test]
fn objects_have_a_symbol_and_escapes(rt: HostRuntime) -> Result<(), Fail> {
    let cases: [Case; 2] = [
        (
            (Ok(None), Some("_ZN4test1a2bcE")),
            &["--output-style=JSON", "-C", "ffffffffffffffff"],
            "{\"Address\":\"0xffffffffffffffff\",\"SymName\":\"test::a::bc\",\"Symbol\":[\
{\"Column\":0,\"FileName\":\"\",\"FunctionName\":\"test::a::bc\",\"Line\":0}]}\n",
            "",
            Exit::Done,
        ),
        (
            line_7("/a\"b\\c\u{1}\u{fffd}", 3),
            &["--output-style=JSON", "10"],
            "{\"Address\":\"0x10\",\"SymName\":\"\",\"Symbol\":[{\"Column\":3,\
\"FileName\":\"/a\\\"b\\\\c\\u0001\u{fffd}\",\"FunctionName\":\"\",\"Line\":7}]}\n",
            "",
            Exit::Done,
        ),
    ];
    assert_eq!(rt; first_wrong(rt.alloc(), cases.as_slice())?, 2);
    Ok(())
}

// Whether a run that can't load its file only tells this.
fn is_told(alloc: Global, fault: LoaderError, line: &str) -> Result<bool, Fail> {
    let mut streams = Streams::sound(alloc);
    let mut input = ReaderInput::new(Handed(b"".as_slice()));
    let given = ["a2l", "-e", "f", "10"];
    let exit = run_lookups(alloc, &given, Err(fault), &mut input, &mut streams)?;
    Ok(exit == Exit::Failed && streams.have("", line))
}

#[test]
fn each_fault_of_a_file_has_its_line(rt: HostRuntime) -> Result<(), Fail> {
    let cases = [
        (
            LoaderError::Io,
            "a2l: failed to load debug info: the file cannot be read\n",
        ),
        (
            LoaderError::NotElf,
            "a2l: failed to load debug info: not an ELF file\n",
        ),
        (
            LoaderError::BadElf,
            "a2l: failed to load debug info: malformed ELF file\n",
        ),
        (
            LoaderError::CompressedSection,
            "a2l: failed to load debug info: compressed section\n",
        ),
        (
            LoaderError::RelocationsNeeded,
            "a2l: failed to load debug info: section needs relocations\n",
        ),
        (
            LoaderError::Dwarf(Error::UnexpectedEof),
            "a2l: failed to load debug info: unexpected end of data\n",
        ),
        (
            LoaderError::OutOfMemory,
            "a2l: failed to load debug info: out of memory\n",
        ),
    ];
    for (fault, line) in cases {
        assert!(rt; is_told(rt.alloc(), fault, line)?, "{line}");
    }
    Ok(())
}
