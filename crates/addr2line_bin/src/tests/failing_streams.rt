//! Runs whose streams fail.

use crate::exit::{Exit, status_of};
use crate::handed::Handed;
use crate::input::ReaderInput;
use crate::program::run;
use crate::tests::runs::{Fixed, FoundLocation, request_in, run_files, run_lookups};
use crate::tests::sample_files::INLINED;
use crate::tests::streams::{StopReader, Streams, failing, full_after, known_stream};
use addr2line::LoaderError;
use addr2line::gimli::read::Error;
use std::alloc::Global;
use std::io::{BufReader, ErrorKind};
use std::process::ExitCode;
use std::test::Fail;

const PRETTY: &str = "0x0000000000000024: g at /w/a.c:3\n (inlined by) f at /w/a.c:7\n";

const ALL_OPTIONS: [&str; 8] = ["addr2line", "-a", "-p", "-f", "-i", "-e", "f", "24"];

const FAULT_LINE: &str = "addr2line: error writing output\n";

// How many bytes went out, where they are a beginning of the text. 1000 more for the line of a
// fault, 2000 more for status 1; 9000 for anything else, and where a call is tried again.
fn code_of(status: ExitCode, streams: &Streams, text: &str) -> usize {
    let out = streams.out.writer.0.taken.as_slice();
    let err = streams.err.writer.0.taken.as_slice();
    if !text.as_bytes().starts_with(out) || (err != FAULT_LINE.as_bytes() && !err.is_empty()) {
        return 9000;
    }
    if streams.were_called_late() {
        return 9000;
    }
    let told = if err.is_empty() { 0 } else { 1000 };
    let failed = if status == status_of(Exit::Failed) {
        2000
    } else {
        0
    };
    out.len().saturating_add(told + failed)
}

// The same of a run over a file with an output that fails after so many calls.
fn cut_code(
    alloc: Global,
    calls: u64,
    fault: ErrorKind,
    given: &[&str],
    text: &str,
) -> Result<usize, Fail> {
    let mut streams = Streams::sound(alloc);
    streams.out = failing(alloc, calls, fault);
    let status = run_files(alloc, given, &[("f", &INLINED)], b"", &mut streams)?;
    Ok(code_of(status, &streams, text))
}

// The same for no call to six.
fn cut_codes(
    alloc: Global,
    fault: ErrorKind,
    given: &[&str],
    text: &str,
) -> Result<[usize; 7], Fail> {
    let mut codes = [0; 7];
    for calls in 0..7usize {
        codes[calls] = cut_code(alloc, calls as u64, fault, given, text)?;
    }
    Ok(codes)
}

// Four writes and a flush.
#[test]
fn what_went_out_before_a_fault_is_a_beginning(rt: HostRuntime) -> Result<(), Fail> {
    let cases = [
        (ErrorKind::BrokenPipe, [0, 20, 40, 60, 62, 62, 62]),
        (
            ErrorKind::StorageFull,
            [3000, 3020, 3040, 3060, 3062, 62, 62],
        ),
        (
            ErrorKind::Interrupted,
            [3000, 3020, 3040, 3060, 3062, 62, 62],
        ),
    ];
    for (fault, want) in cases {
        let got = cut_codes(rt.alloc(), fault, &ALL_OPTIONS, PRETTY)?;
        assert_eq!(rt; got, want);
    }
    Ok(())
}

// A write and a flush for each address take turns.
#[test]
fn a_failed_write_or_flush_ends_the_run(rt: HostRuntime) -> Result<(), Fail> {
    let cases = [
        (ErrorKind::BrokenPipe, [0, 5, 5, 10, 10, 15, 15]),
        (
            ErrorKind::StorageFull,
            [3000, 3005, 3005, 3010, 3010, 3015, 15],
        ),
    ];
    let given = ["addr2line", "-e", "f", "30", "zz", "40"];
    for (fault, want) in cases {
        let got = cut_codes(rt.alloc(), fault, &given, "??:0\n??:0\n??:0\n")?;
        assert_eq!(rt; got, want);
    }
    Ok(())
}

#[test]
fn a_write_of_no_byte_is_a_failed_write(rt: HostRuntime) -> Result<(), Fail> {
    let mut streams = Streams::sound(rt.alloc());
    streams.out = full_after(rt.alloc(), 33);
    let status = run_files(
        rt.alloc(),
        &ALL_OPTIONS,
        &[("f", &INLINED)],
        b"",
        &mut streams,
    )?;
    assert_eq!(rt; code_of(status, &streams, PRETTY), 3033);
    Ok(())
}

// What the lookups of a file give that is damaged.
const CUT: FoundLocation = Err(LoaderError::Dwarf(Error::UnexpectedEof));

// How many bytes went to a standard error that fails after so many calls, where these are a
// beginning of the lines and all else is as without the fault; 9000 for anything else.
fn told_code(
    alloc: Global,
    calls: u64,
    fault: ErrorKind,
    given: &[&str],
    out: &str,
    lines: &str,
) -> Result<usize, Fail> {
    let mut streams = Streams::sound(alloc);
    streams.err = failing(alloc, calls, fault);
    let file = Fixed::new(CUT);
    let mut input = ReaderInput::new(Handed(b"".as_slice()));
    let exit = run_lookups(alloc, given, Ok(file), &mut input, &mut streams)?;
    let err = streams.err.writer.0.taken.as_slice();
    let is_same = streams.out.writer.0.taken.as_slice() == out.as_bytes()
        && streams.out.writer.0.flushed == out.len();
    let is_part = lines.as_bytes().starts_with(err) && !streams.were_called_late();
    if exit == Exit::Done && is_same && is_part {
        Ok(err.len())
    } else {
        Ok(9000)
    }
}

// The same for no call to eight.
fn told_codes(
    alloc: Global,
    fault: ErrorKind,
    given: &[&str],
    out: &str,
    lines: &str,
) -> Result<[usize; 9], Fail> {
    let mut codes = [0; 9];
    for calls in 0..9usize {
        codes[calls] = told_code(alloc, calls as u64, fault, given, out, lines)?;
    }
    Ok(codes)
}

// A line has 62 bytes or 60, so it takes four calls or three.
#[test]
fn nothing_is_told_after_a_failed_write(rt: HostRuntime) -> Result<(), Fail> {
    let locations = "a2l: failed to find location for 0x10: unexpected end of data\n\
        a2l: failed to find location for 0x20: unexpected end of data\n";
    let frames = "a2l: failed to find frames for 0x10: unexpected end of data\n\
        a2l: failed to find frames for 0x20: unexpected end of data\n";
    let cases: [(&[&str], &str, &str, [usize; 9]); 2] = [
        (
            &["a2l", "-e", "f", "10", "20"],
            "??:0\n??:0\n",
            locations,
            [0, 20, 40, 60, 62, 82, 102, 122, 124],
        ),
        (
            &["a2l", "-f", "-e", "f", "10", "20"],
            "??\n??:0\n??\n??:0\n",
            frames,
            [0, 20, 40, 60, 80, 100, 120, 120, 120],
        ),
    ];
    for (given, out, lines, want) in cases {
        for fault in [ErrorKind::BrokenPipe, ErrorKind::StorageFull] {
            let got = told_codes(rt.alloc(), fault, given, out, lines)?;
            assert_eq!(rt; got, want);
        }
    }
    Ok(())
}

// The status of lines that are read by a reader that fails after so many calls, and the texts.
fn goes(
    alloc: Global,
    calls: u64,
    fault: ErrorKind,
    want: (&str, &str, Exit),
) -> Result<bool, Fail> {
    let lines = StopReader::new(b"10\n20\r\nzz\n30", calls, fault);
    let mut input = ReaderInput::new(Handed(BufReader::new(alloc, lines)?));
    let mut streams = Streams::sound(alloc);
    let file = Fixed::new(Ok(None));
    let given = ["a2l", "-e", "f"];
    let exit = run_lookups(alloc, &given, Ok(file), &mut input, &mut streams)?;
    Ok(exit == want.2 && streams.have(want.0, want.1))
}

// The reads give "10\n2", "0\r\nz", "z\n30", and nothing twice: at the end of the last line, and
// behind it.
#[test]
fn what_was_answered_before_a_failed_read_is_printed(rt: HostRuntime) -> Result<(), Fail> {
    let answers = "??:0\n??:0\n??:0\n??:0\n";
    let refused = "a2l: out of memory\n";
    for (calls, count) in [(0, 0), (1, 1), (2, 2), (3, 3), (4, 4)] {
        let out = &answers[..count * 5];
        for fault in [
            ErrorKind::Other,
            ErrorKind::BrokenPipe,
            ErrorKind::UnexpectedEof,
        ] {
            assert!(rt;
                goes(rt.alloc(), calls, fault, (out, "", Exit::Done))?,
                "{calls} {fault:?}"
            );
        }
        let want = (out, refused, Exit::Failed);
        assert!(rt;
            goes(rt.alloc(), calls, ErrorKind::OutOfMemory, want)?,
            "{calls}"
        );
    }
    assert!(rt;
        goes(
            rt.alloc(),
            5,
            ErrorKind::OutOfMemory,
            (answers, "", Exit::Done)
        )?
    );
    Ok(())
}

#[test]
fn each_text_is_flushed(rt: HostRuntime) -> Result<(), Fail> {
    let request = request_in(rt.alloc(), &["a2l", "-e", "f", "10", "zz", "40"])?;
    let mut out = known_stream(rt.alloc());
    let mut err = known_stream(rt.alloc());
    let mut input = ReaderInput::new(Handed(b"".as_slice()));
    let file = Fixed::new(Ok(None));
    let exit = run(
        rt.alloc(),
        &request.options,
        Ok(file),
        &mut input,
        &mut out,
        &mut err,
    );
    assert_eq!(rt; exit, Exit::Done);
    assert_eq!(rt; out.flushes.as_slice(), [5, 10, 15].as_slice());
    assert!(rt; err.taken.is_empty());
    Ok(())
}
