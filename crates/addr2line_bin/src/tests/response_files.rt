//! Words that files have.

use crate::exit::{Exit, status_of};
use crate::response_files::expanded_words;
use crate::tests::runs::run_files;
use crate::tests::sample_files::PLAIN;
use crate::tests::streams::{Streams, words};
use addr2line::MemoryFiles;
use std::alloc::Global;
use std::test::Fail;

// What GNU addr2line 2.40 makes of such a file, each word between bars.
const TEXTS: [(&str, &str); 9] = [
    ("", ""),
    (" \t\n\u{b}\u{c}\r", ""),
    ("-f 10", "|-f||10|"),
    ("a\\ b c\\\\d \\'e", "|a b||c\\d||'e|"),
    ("'a b' \"c d\"e", "|a b||c de|"),
    ("'a \"b' \"it's\"", "|a \"b||it's|"),
    ("'' \"\"", "||||"),
    ("'a\\'b' c\\", "|a'b||c|"),
    ("é\u{a0}@x 'open", "|é\u{a0}@x||open|"),
];

// The words after word 0 of one that names a file of this text, each between bars.
fn barred(alloc: Global, text: &str) -> Result<String, Fail> {
    let mut files = MemoryFiles::new(alloc);
    files.put("words", text.as_bytes())?;
    let given = words(alloc, &["a2l", "@words"])?;
    let mut shown = String::new(alloc);
    if let Some(taken) = expanded_words(alloc, &files, given.as_slice())? {
        for word in taken.iter().skip(1) {
            shown.push_str("|")?;
            shown.push_str(word.as_str())?;
            shown.push_str("|")?;
        }
    }
    Ok(shown)
}

#[test]
fn a_file_has_words(rt: HostRuntime) -> Result<(), Fail> {
    for (text, want) in TEXTS {
        assert_eq!(rt; barred(rt.alloc(), text)?.as_str(), want, "{text:?}");
    }
    Ok(())
}

// What a run by these words prints, of a file f and a file of words.
fn is_printed(alloc: Global, given: &[&str], out: &str) -> Result<bool, Fail> {
    let files: [(&str, &[u8]); 3] = [("f", &PLAIN), ("w", b"-a '10' @w"), ("bad", b"\xff")];
    let mut streams = Streams::sound(alloc);
    let got = run_files(alloc, given, &files, b"", &mut streams)?;
    Ok(got == status_of(Exit::Done) && streams.have(out, ""))
}

#[test]
fn words_of_a_file_stand_for_one_word(rt: HostRuntime) -> Result<(), Fail> {
    let read = "0x0000000000000010\n/w/a.c:1\n0x0000000000000000\n??:0\n";
    assert!(rt; is_printed(rt.alloc(), &["a2l", "-e", "f", "@w"], read)?);
    assert!(rt; is_printed(rt.alloc(), &["@w", "-e", "f", "20"], "/w/a.c:3\n")?);
    assert!(rt; is_printed(rt.alloc(), &["a2l", "-e", "f", "@none"], "??:0\n")?);
    assert!(rt; is_printed(rt.alloc(), &["a2l", "-e", "f", "@bad"], "??:0\n")?);
    Ok(())
}
