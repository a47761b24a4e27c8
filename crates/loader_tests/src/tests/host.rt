//! Loaders over files of the host.

use super::{fault_code, plain_file, text_of};
use addr2line::{FileSource, HostFiles, Loader, LoaderError};
use std::test::Fail;
use std::{env, fs, process};

// The addresses of `.text` and the line at 0x20 in a file of the host, or a fault's number.
fn text_in(loader: Result<Loader, LoaderError>) -> [u64; 3] {
    match loader {
        Ok(loader) => {
            let mut loader = loader;
            text_of(&mut loader)
        }
        Err(error) => [fault_code(error), 0, 9],
    }
}

// What loaders over the host's files say: of that file, twice, of no file, of an empty one, of
// these beside each other, and of what is no regular file: a folder, a device without an end.
fn told(rt: HostRuntime, file: &str, empty: &str) -> [[u64; 3]; 9] {
    let none = "/there/is/none";
    [
        text_in(Loader::new(rt, file)),
        text_in(Loader::new_decompressing(rt, file)),
        text_in(Loader::new(rt, none)),
        text_in(Loader::new(rt, empty)),
        text_in(Loader::new_with_sup(rt, file, file)),
        text_in(Loader::new_with_sup(rt, file, none)),
        // The main file is read first.
        text_in(Loader::new_with_sup(rt, empty, none)),
        text_in(Loader::new(rt, "/")),
        text_in(Loader::new(rt, "/dev/zero")),
    ]
}

#[test]
fn files_of_the_host_are_loaded_or_refused(rt: HostRuntime) -> Result<(), Fail> {
    let name = format!(in rt.alloc(); "addr2line-{}", process::id(rt.process()))?;
    let empty_name = format!(in rt.alloc(); "addr2line-{}-empty", process::id(rt.process()))?;
    let path = env::temp_dir(&rt)?.join(rt.alloc(), name.as_str())?;
    let empty = env::temp_dir(&rt)?.join(rt.alloc(), empty_name.as_str())?;
    fs::write(&rt, path.as_path(), &plain_file(rt.alloc())?)?;
    fs::write(&rt, empty.as_path(), &[])?;
    let told = told(
        rt,
        path.to_str().unwrap_or(""),
        empty.to_str().unwrap_or(""),
    );
    fs::remove_file(&rt, path.as_path())?;
    fs::remove_file(&rt, empty.as_path())?;
    let text = [0x10, 0x30, 3];
    let no_file = [21, 0, 9];
    let no_elf = [22, 0, 9];
    let wanted = [
        text, text, no_file, no_elf, text, no_file, no_elf, no_file, no_file,
    ];
    assert_eq!(rt; told, wanted);
    Ok(())
}

// How many bytes a file of the host has by its stamp, 9 without a stamp, and whether the stamp is
// the same when it is asked for again.
fn stamp_of(rt: HostRuntime, path: &str) -> (u64, bool) {
    let files = HostFiles::new(rt);
    let stamp = files.stamp(path);
    (
        stamp.map_or(9, |stamp| stamp.len),
        files.stamp(path) == stamp,
    )
}

#[test]
fn regular_files_of_the_host_have_a_stamp(rt: HostRuntime) -> Result<(), Fail> {
    let name = format!(in rt.alloc(); "addr2line-{}-stamp", process::id(rt.process()))?;
    let path = env::temp_dir(&rt)?.join(rt.alloc(), name.as_str())?;
    fs::write(&rt, path.as_path(), b"ab")?;
    let before = HostFiles::new(rt).stamp(path.to_str().unwrap_or(""));
    let two = stamp_of(rt, path.to_str().unwrap_or(""));
    fs::write(&rt, path.as_path(), b"abc")?;
    let after = HostFiles::new(rt).stamp(path.to_str().unwrap_or(""));
    fs::remove_file(&rt, path.as_path())?;
    let gone = stamp_of(rt, path.to_str().unwrap_or(""));
    let others = [stamp_of(rt, "/"), stamp_of(rt, "/dev/zero"), gone];
    assert_eq!(rt; (two, before == after), ((2, true), false));
    assert_eq!(rt; others, [(9, true); 3]);
    Ok(())
}
