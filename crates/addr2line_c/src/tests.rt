use super::*;

// What each call answers for a closed handle and an address, for bytes that are no file, for a flag
// and a status that aren't known.
fn answers_of_closed(alloc: Global) -> [u32; 6] {
    let mut handle = Handle::closed(alloc);
    let mut text = [0u8; 8];
    let mut needed = 0;
    addr2line_close(alloc, &mut handle);
    let answers = [
        addr2line_open(alloc, b"no file", &[], &mut handle),
        addr2line_open_with(alloc, b"no file", &[], 2, &mut handle),
        addr2line_parse_all(alloc, &mut handle),
        addr2line_preload(alloc, &mut handle, 0),
        addr2line_forget(alloc, &mut handle, 0),
        addr2line_status_text(99, &mut text, &mut needed),
    ];
    let _ = handle.into_box();
    answers
}

#[test]
fn a_closed_handle_is_refused(rt: HostRuntime) {
    assert_eq!(rt; answers_of_closed(rt.alloc()), [18, 6, 4, 4, 4, 3]);
}
