//! Worked cases of the options.

use crate::exit::{Exit, status_of};
use crate::tests::runs::run_files;
use crate::tests::sample_files::{INLINED, SYMBOLS};
use crate::tests::streams::Streams;
use std::alloc::Global;
use std::test::Fail;

// Words after `-e f`, the input, what goes to the output, to standard error, and the end.
type Case = (
    &'static [&'static str],
    &'static [u8],
    &'static str,
    &'static str,
    Exit,
);

const PRETTY: &str = "0x0000000000000024: g at /w/a.c:3\n (inlined by) f at /w/a.c:7\n";

const FRAMES: [Case; 9] = [
    (&["-a", "-p", "-f", "-i", "24"], b"", PRETTY, "", Exit::Done),
    (&["-f", "24"], b"", "g\n/w/a.c:3\n", "", Exit::Done),
    (
        &["-f", "-i", "24"],
        b"",
        "g\n/w/a.c:3\nf\n/w/a.c:7\n",
        "",
        Exit::Done,
    ),
    (&["-f", "-C", "2a"], b"", "f\n/w/a.c:3\n", "", Exit::Done),
    (
        &["-p", "-i", "24"],
        b"",
        "/w/a.c:3\n (inlined by) /w/a.c:7\n",
        "",
        Exit::Done,
    ),
    (&["-p", "-f", "30"], b"", "?? at ??:0\n", "", Exit::Done),
    (&["-f", "zz"], b"", "??\n??:0\n", "", Exit::Done),
    (
        &["--llvm", "-f", "-i", "24"],
        b"",
        "g\n/w/a.c:3:0\nf\n/w/a.c:7:0\n\n",
        "",
        Exit::Done,
    ),
    (
        &["--llvm", "-f", "30"],
        b"",
        "??\n??:0:0\n\n",
        "",
        Exit::Done,
    ),
];

// What llvm-addr2line prints.
const LINKED: [Case; 4] = [
    (
        &["-f", "-i", "24", "2a"],
        b"",
        "g\n/w/a.c:3\n_ZN4test1a2bcE\n/w/a.c:7\n_ZN4test1a2bcE\n/w/a.c:3\n",
        "",
        Exit::Done,
    ),
    (
        &["-f", "-C", "24", "2a", "30"],
        b"",
        "g\n/w/a.c:3\ntest::a::bc\n/w/a.c:3\n??\n??:0\n",
        "",
        Exit::Done,
    ),
    (
        &["-p", "-f", "-i", "-C", "24"],
        b"",
        "g at /w/a.c:3\n (inlined by) test::a::bc at /w/a.c:7\n",
        "",
        Exit::Done,
    ),
    (
        &["-i", "-C", "24"],
        b"",
        "/w/a.c:3\n/w/a.c:7\n",
        "",
        Exit::Done,
    ),
];

// The members are those of llvm-symbolizer 22, and `SymName`.
const OBJECTS: [Case; 4] = [
    (
        &["--output-style=JSON", "24"],
        b"",
        "{\"Address\":\"0x24\",\"SymName\":\"_ZN4test1a2bcE\",\"Symbol\":[\
{\"Column\":0,\"FileName\":\"/w/a.c\",\"FunctionName\":\"g\",\"Line\":3},\
{\"Column\":0,\"FileName\":\"/w/a.c\",\"FunctionName\":\"_ZN4test1a2bcE\",\"Line\":7}]}\n",
        "",
        Exit::Done,
    ),
    (
        &["--output-style=JSON", "-s", "-C", "2a"],
        b"",
        "{\"Address\":\"0x2a\",\"SymName\":\"test::a::bc\",\"Symbol\":[\
{\"Column\":0,\"FileName\":\"a.c\",\"FunctionName\":\"test::a::bc\",\"Line\":3}]}\n",
        "",
        Exit::Done,
    ),
    (
        &["--output-style=JSON", "30", "zz"],
        b"",
        "{\"Address\":\"0x30\",\"SymName\":\"\",\"Symbol\":[]}\n\
{\"Address\":null,\"SymName\":\"\",\"Symbol\":[]}\n",
        "",
        Exit::Done,
    ),
    (
        &["--output-style=JSON", "-j", ".text", "20"],
        b"",
        "{\"Address\":\"0x20\",\"SymName\":\"\",\"Symbol\":[]}\n",
        "",
        Exit::Done,
    ),
];

const ADDRESSES: [Case; 11] = [
    (&["-j", ".text", "14"], b"", "/w/a.c:3\n", "", Exit::Done),
    (&["-j", ".text", "20"], b"", "??:0\n", "", Exit::Done),
    (
        &["-a", "-j", ".text", "14"],
        b"",
        "0x0000000000000014\n/w/a.c:3\n",
        "",
        Exit::Done,
    ),
    (
        &["-j", ".x", "14"],
        b"",
        "",
        "addr2line: cannot find section .x\n",
        Exit::Failed,
    ),
    (&["--all"], b"", "/w/a.c:1\n/w/a.c:3\n", "", Exit::Done),
    (&["-s", "24"], b"", "a.c:3\n", "", Exit::Done),
    (
        &["--llvm", "-a", "24", "zz"],
        b"",
        "0x24\n/w/a.c:3:0\n\n0x0\n??:0:0\n\n",
        "",
        Exit::Done,
    ),
    (&[], b"24\r\nzz\n", "/w/a.c:3\n??:0\n", "", Exit::Done),
    (&[], b"24\n\xff\n24\n", "/w/a.c:3\n", "", Exit::Done),
    (
        &[],
        b"24\n\n2a",
        "/w/a.c:3\n??:0\n/w/a.c:3\n",
        "",
        Exit::Done,
    ),
    (
        &["0x1f", "1F", "+1f", "0x+1f", "0x", ""],
        b"",
        "/w/a.c:1\n/w/a.c:1\n/w/a.c:1\n/w/a.c:1\n??:0\n??:0\n",
        "",
        Exit::Done,
    ),
];

// The number of the first case that goes otherwise than wanted, and how many there are where none
// does.
fn first_wrong(alloc: Global, file: &[u8], cases: &[Case]) -> Result<usize, Fail> {
    let mut at = 0usize;
    for (given, input, out, err, exit) in cases {
        let mut words: Vec<&str> = Vec::new(alloc);
        words.extend_from_slice(["addr2line", "-e", "f"].as_slice())?;
        words.extend_from_slice(given)?;
        let files: [(&str, &[u8]); 1] = [("f", file)];
        let mut streams = Streams::sound(alloc);
        let got = run_files(alloc, words.as_slice(), &files, input, &mut streams)?;
        if got != status_of(*exit) || !streams.have(out, err) {
            return Ok(at);
        }
        at = at.saturating_add(1);
    }
    Ok(at)
}

#[test]
fn frames_are_printed_as_the_options_say(rt: HostRuntime) -> Result<(), Fail> {
    assert_eq!(rt; first_wrong(rt.alloc(), &INLINED, FRAMES.as_slice())?, 9);
    Ok(())
}

#[test]
fn the_last_frame_has_the_name_of_the_symbol(rt: HostRuntime) -> Result<(), Fail> {
    assert_eq!(rt; first_wrong(rt.alloc(), SYMBOLS, LINKED.as_slice())?, 4);
    Ok(())
}

#[test]
fn an_address_is_an_object_of_json(rt: HostRuntime) -> Result<(), Fail> {
    assert_eq!(rt; first_wrong(rt.alloc(), SYMBOLS, OBJECTS.as_slice())?, 4);
    Ok(())
}

#[test]
fn addresses_are_read_as_the_options_say(rt: HostRuntime) -> Result<(), Fail> {
    assert_eq!(rt;
        first_wrong(rt.alloc(), &INLINED, ADDRESSES.as_slice())?,
        11
    );
    Ok(())
}
