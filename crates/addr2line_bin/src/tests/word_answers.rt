//! Words that ask for nothing of a file: the help, the version, and how the program is used.

use crate::handed::Handed;
use crate::input::ReaderInput;
use crate::program_name::program_name;
use crate::tests::runs::run_files;
use crate::tests::streams::{Streams, failing, words};
use crate::whole_run::run_program;
use addr2line::MemoryFiles;
use std::alloc::{AllocError, Global};
use std::io::{Empty, ErrorKind};
use std::process::ExitCode;
use std::test::Fail;

const HELP: &str = "\
The file and line of addresses in an ELF file, and their functions

Usage: a2l -e FILE [OPTION].. [ADDR..]

Arguments:
  [ADDR]...  Hexadecimal, with 0x or without [default: the lines of standard input]

Options:
  -h, --help     Print help
  -V, --version  Print version

What is looked up:
  -e, --exe <FILE>      The ELF file; it has to be named
      --sup <FILE>      Its supplementary file, from dwz -m [default: none]
      --decompress      Debug sections compressed by zlib too [default: they are refused]
  -j, --section <NAME>  Addresses are offsets in this section [default: as the file has them]
      --all             Each address that has a line [default: the ones that are given]

What is printed:
  -f, --functions             The function, then the location [default: the location]
  -p, --pretty-print          One line for each function [default: a line for each part]
  -i, --inlines               Inlined functions, the innermost first [default: that one alone]
  -a, --addresses             The address first [default: not printed]
  -s, --basenames             The last part of each path [default: the path whole]
  -C, --demangle              Names as in the source, legacy ones of Rust; =rust v0 too, =auto, =none
      --llvm                  The texts of llvm-symbolizer [default: those of GNU addr2line]
      --output-style <STYLE>  GNU, LLVM as --llvm, or JSON, an object for each address [default: GNU]

What scripts pass:
  -b, --target <NAME>  Taken, and nothing comes of it: the file is ELF

Example:
  a2l -f -i -p -e program 0x1149

Manual: man addr2line, or docs/PROGRAM.md
";

const UNKNOWN: &str = "\
error: unexpected argument '-x' found

  tip: to pass '-x' as a value, use '-- -x'

Usage: a2l -e FILE [OPTION].. [ADDR..]

For more information, try '--help'.
";

const MISTYPED: &str = "\
error: unexpected argument '--functoins' found

  tip: a similar argument exists: '--functions'

Usage: a2l -e FILE [OPTION].. [ADDR..]

For more information, try '--help'.
";

// What `--version` prints.
const VERSION_LINE: &str = "a2l 0.1.0, a port of addr2line 0.27.1\n";

const NO_FILE: &str = "\
a2l: no file: -e names it, and without -e a.out is not taken
a2l: usage: a2l -e FILE [OPTION].. [ADDR..]
";

const ALL_AND_ADDRESSES: &str = "\
a2l: --all stands beside no address
a2l: usage: a2l -e FILE [OPTION].. [ADDR..]
";

const RECURSION_LIMIT: &str = "\
a2l: -r and -R are not taken: how deep names are read is fixed
a2l: usage: a2l -e FILE [OPTION].. [ADDR..]
";

const NAME_STYLE: &str = "\
a2l: --demangle is rust, auto or none
a2l: usage: a2l -e FILE [OPTION].. [ADDR..]
";

const OUTPUT_STYLE: &str = "\
a2l: --output-style is GNU, LLVM or JSON
a2l: usage: a2l -e FILE [OPTION].. [ADDR..]
";

#[test]
fn the_name_is_the_last_part_of_word_0(rt: HostRuntime) -> Result<(), Fail> {
    for (word, want) in [
        ("addr2line", "addr2line"),
        ("/usr/bin/a2l", "a2l"),
        ("bin/a2l/", "a2l"),
        ("bin/a2l/.", "a2l"),
        ("", "addr2line"),
        ("/", "addr2line"),
        ("..", "addr2line"),
    ] {
        let given = words(rt.alloc(), &[word])?;
        assert_eq!(rt; program_name(given.as_slice()), want);
    }
    assert_eq!(rt; program_name(&[]), "addr2line");
    Ok(())
}

#[test]
fn help_and_usage_go_to_their_streams(rt: HostRuntime) -> Result<(), Fail> {
    let cases: [(&[&str], &str, &str, u8); 12] = [
        (&["a2l", "--help"], HELP, "", 0),
        (&["a2l", "-h"], HELP, "", 0),
        (&["a2l", "--version"], VERSION_LINE, "", 0),
        (&["a2l", "-V"], VERSION_LINE, "", 0),
        (&["a2l", "-e", "f", "-x"], "", UNKNOWN, 2),
        (&["a2l", "-e", "f", "--functoins"], "", MISTYPED, 2),
        (&["a2l", "-v"], VERSION_LINE, "", 0),
        (&["a2l", "10"], "", NO_FILE, 2),
        (&["a2l", "-e", "f", "--all", "10"], "", ALL_AND_ADDRESSES, 2),
        (&["a2l", "-e", "f", "-r"], "", RECURSION_LIMIT, 2),
        (&["a2l", "-e", "f", "--demangle=java"], "", NAME_STYLE, 2),
        (
            &["a2l", "-e", "f", "--output-style=XML"],
            "",
            OUTPUT_STYLE,
            2,
        ),
    ];
    for (given, out, err, status) in cases {
        let mut streams = Streams::sound(rt.alloc());
        let got = run_files(rt.alloc(), given, &[], b"", &mut streams)?;
        assert!(rt;
            got == ExitCode::from(status) && streams.have(out, err),
            "{given:?}"
        );
    }
    Ok(())
}

// Two writes and a flush: how many of these go well, and what went out then.
#[test]
fn help_that_cannot_be_written_is_told(rt: HostRuntime) -> Result<(), Fail> {
    let line = "a2l: error writing output\n";
    let cases = [
        (0, ErrorKind::BrokenPipe, "", "", 0),
        (1, ErrorKind::BrokenPipe, "a2l 0.1.0, a port of", "", 0),
        (2, ErrorKind::BrokenPipe, VERSION_LINE, "", 0),
        (0, ErrorKind::StorageFull, "", line, 1),
        (1, ErrorKind::StorageFull, "a2l 0.1.0, a port of", line, 1),
        (2, ErrorKind::StorageFull, VERSION_LINE, line, 1),
    ];
    for (calls, fault, out, err, status) in cases {
        let mut streams = Streams::sound(rt.alloc());
        streams.out = failing(rt.alloc(), calls, fault);
        let got = run_files(rt.alloc(), &["a2l", "--version"], &[], b"", &mut streams)?;
        assert!(rt;
            got == ExitCode::from(status) && streams.took(out, err),
            "{calls} {err}"
        );
    }
    Ok(())
}

// Whether a run by these words, without memory for its input, only tells this and ends so.
fn is_told(
    alloc: Global,
    given: Result<Vec<String>, ErrorKind>,
    line: &str,
    status: u8,
) -> Result<bool, Fail> {
    let mut streams = Streams::sound(alloc);
    let input: Result<ReaderInput<Handed<Empty>>, AllocError> = Err(AllocError);
    let got = run_program(
        alloc,
        MemoryFiles::new(alloc),
        given,
        input,
        &mut streams.out,
        &mut streams.err,
    );
    Ok(got == ExitCode::from(status) && streams.have("", line))
}

#[test]
fn words_or_an_input_that_cannot_be_had_are_told(rt: HostRuntime) -> Result<(), Fail> {
    let usage = "addr2line: usage: addr2line -e FILE [OPTION].. [ADDR..]\n";
    let refused = "addr2line: out of memory\n";
    assert!(rt; is_told(rt.alloc(), Err(ErrorKind::InvalidData), usage, 2)?);
    assert!(rt; is_told(rt.alloc(), Err(ErrorKind::OutOfMemory), refused, 1)?);
    let given = words(rt.alloc(), &["/bin/a2l", "-e", "f"])?;
    assert!(rt; is_told(rt.alloc(), Ok(given), "a2l: out of memory\n", 1)?);
    Ok(())
}
