//! Runs over files: a main file, split files and a supplementary file.

use crate::exit::{Exit, status_of};
use crate::handed::Handed;
use crate::input::ReaderInput;
use crate::tests::runs::run_files;
use crate::tests::sample_files::{
    LAST_LENGTH, LINE_FLAGS, LINE_OFFSET, LINE_SIZE, NAMED_APART, PACKED_LINES, PLAIN, SPLIT,
    SUPPLEMENTARY, WAITING,
};
use crate::tests::streams::{Streams, words};
use crate::whole_run::run_program;
use addr2line::HostFiles;
use std::alloc::{AllocError, Global};
use std::test::Fail;

// Whether a run of words over files writes these texts and ends so.
fn goes(
    alloc: Global,
    given: &[&str],
    files: &[(&str, &[u8])],
    want: (&str, &str, Exit),
) -> Result<bool, Fail> {
    let mut streams = Streams::sound(alloc);
    let status = run_files(alloc, given, files, b"", &mut streams)?;
    Ok(status == status_of(want.2) && streams.have(want.0, want.1))
}

#[test]
fn a_file_that_cannot_be_loaded_is_told(rt: HostRuntime) -> Result<(), Fail> {
    let cases: [(&[(&str, &[u8])], &str); 3] = [
        (
            &[],
            "a2l: failed to load debug info: the file cannot be read\n",
        ),
        (
            &[("f", b"#!/bin/sh")],
            "a2l: failed to load debug info: not an ELF file\n",
        ),
        (
            &[("f", b"\x7fELF\x02\x01")],
            "a2l: failed to load debug info: malformed ELF file\n",
        ),
    ];
    for (files, want) in cases {
        let given = ["a2l", "-e", "f", "0x10"];
        assert!(rt;
            goes(rt.alloc(), &given, files, ("", want, Exit::Failed))?,
            "{want}"
        );
    }
    Ok(())
}

#[test]
fn a_missing_file_of_the_host_is_told(rt: HostRuntime) -> Result<(), Fail> {
    let mut streams = Streams::sound(rt.alloc());
    let given = words(rt.alloc(), &["a2l", "-e", "/no/such/file", "10"])?;
    let status = run_program(
        rt.alloc(),
        HostFiles::new(rt),
        Ok(given),
        Ok(ReaderInput::new(Handed(b"".as_slice()))),
        &mut streams.out,
        &mut streams.err,
    );
    let line = "a2l: failed to load debug info: the file cannot be read\n";
    assert!(rt; status == status_of(Exit::Failed) && streams.have("", line));
    Ok(())
}

#[test]
fn a_run_over_a_file(rt: HostRuntime) -> Result<(), Fail> {
    let faults = "a2l: failed to find location for 0x10: unexpected end of data\n\
        a2l: failed to find location for 0x2f: unexpected end of data\n";
    let cases = [
        (1, "/w/a.c:1\n/w/a.c:3\n??:0\n", ""),
        (0x7f, "??:0\n??:0\n??:0\n", faults),
    ];
    for (last_length, out, err) in cases {
        let mut file = PLAIN;
        file[LAST_LENGTH] = last_length;
        let given = ["a2l", "-e", "f", "0x10", "2f", "0x30"];
        let files: [(&str, &[u8]); 1] = [("f", &file)];
        assert!(rt;
            goes(rt.alloc(), &given, &files, (out, err, Exit::Done))?,
            "{out}"
        );
    }
    Ok(())
}

// The sample file with its lines compressed, at its end, of which so many bytes are there.
fn packed_file(alloc: Global, lines: &[u8]) -> Result<Vec<u8>, AllocError> {
    let mut file = PLAIN;
    file[LINE_FLAGS + 1] = 8;
    file[LINE_OFFSET] = 0x15;
    file[LINE_OFFSET + 1] = 2;
    file[LINE_SIZE] = (lines.len() % 256) as u8;
    let mut bytes = Vec::from_slice(alloc, &file)?;
    bytes.extend_from_slice(lines)?;
    Ok(bytes)
}

#[test]
fn compressed_sections_are_read_on_request(rt: HostRuntime) -> Result<(), Fail> {
    let refused = (
        "",
        "a2l: failed to load debug info: compressed section\n",
        Exit::Failed,
    );
    let malformed = (
        "",
        "a2l: failed to load debug info: malformed ELF file\n",
        Exit::Failed,
    );
    let lines = ("/w/a.c:1\n/w/a.c:3\n", "", Exit::Done);
    let plainly: &[&str] = &["a2l", "-e", "f", "10", "2f"];
    let decompressed: &[&str] = &["a2l", "--decompress", "-e", "f", "10", "2f"];
    let cases: [(&[&str], &[u8], (&str, &str, Exit)); 4] = [
        (plainly, PACKED_LINES, refused),
        (decompressed, PACKED_LINES, lines),
        (plainly, &PACKED_LINES[..68], refused),
        (decompressed, &PACKED_LINES[..68], malformed),
    ];
    for (given, packed, want) in cases {
        let file = packed_file(rt.alloc(), packed)?;
        let files: [(&str, &[u8]); 1] = [("f", &file)];
        assert!(rt; goes(rt.alloc(), given, &files, want)?, "{given:?}");
    }
    Ok(())
}

// The first case is that of a split file which is there, the next ones of one that isn't. The last
// two are a function whose name stands in the supplementary file.
#[test]
fn split_and_supplementary_files_are_read(rt: HostRuntime) -> Result<(), Fail> {
    let h = ("h\n/w/a.c:1\n", "", Exit::Done);
    let missing = ("??\n/w/a.c:1\n", "", Exit::Done);
    let unread = (
        "",
        "a2l: failed to load debug info: the file cannot be read\n",
        Exit::Failed,
    );
    let alone: &[&str] = &["a2l", "-f", "-e", "f", "18"];
    let beside: &[&str] = &["a2l", "-f", "-e", "f", "--sup", "g", "18"];
    let cases: [(&[&str], &[(&str, &[u8])], (&str, &str, Exit)); 8] = [
        (alone, &[("f", WAITING), ("/w/s.dwo", SPLIT)], h),
        (alone, &[("f", WAITING)], missing),
        (
            alone,
            &[("f", WAITING), ("/w/s.dwo", b"#!/bin/sh")],
            missing,
        ),
        (
            beside,
            &[("f", WAITING), ("/w/s.dwo", SPLIT), ("g", &PLAIN)],
            h,
        ),
        (beside, &[("f", WAITING), ("g", &PLAIN)], missing),
        (beside, &[("f", WAITING), ("/w/s.dwo", SPLIT)], unread),
        (beside, &[("f", NAMED_APART), ("g", SUPPLEMENTARY)], h),
        (alone, &[("f", NAMED_APART), ("g", SUPPLEMENTARY)], missing),
    ];
    for (given, files, want) in cases {
        assert!(rt; goes(rt.alloc(), given, files, want)?, "{given:?}");
    }
    Ok(())
}
