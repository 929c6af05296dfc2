use crate::program::words;
use feed_files::trial::{TrialFiles, TrialReader, TrialWriter};
use program_desk::program_in_room;
use std::alloc::Global;
use std::test::Fail;

/// Whether a run in a room whose file has these bytes ends so, with files of which the k-th call fails.
fn ends_in(
    alloc: Global,
    (room, k): (&[u8], u64),
    (line, input): (&str, &[u8]),
    (status, written, reported): (u8, &[u8], &[u8]),
) -> Result<bool, Fail> {
    let words = words(alloc, line)?;
    let mut files = TrialFiles::new(alloc).failing_at_call(k);
    files.put("copydesk.toml", room)?;
    let mut writer = TrialWriter::new(alloc);
    let mut faults = TrialWriter::new(alloc);
    let got = program_in_room(
        alloc,
        &words,
        &mut TrialReader::new(input),
        &mut writer,
        &mut faults,
        &mut files,
    );
    Ok(got == status && writer.written() == written && faults.written() == reported)
}

const SET: &[u8] = b"set 3 measure 60\n";

#[test]
fn room_gives_what_is_not_typed(rt: HostRuntime) -> Result<(), Fail> {
    let room = b"site = 3\ncase = \"c\"\n";
    let done = (0, &b"ok 1.3\n"[..], &b""[..]);
    assert!(rt; ends_in(rt.alloc(), (room, 0), ("desk a.feed", SET), done)?);
    assert!(rt;
        ends_in(
            rt.alloc(),
            (b"site = 4", 0),
            ("desk a.feed --site 3", SET),
            done
        )?
    );
    assert!(rt;
        ends_in(
            rt.alloc(),
            (b"site = 4", 0),
            ("desk a.feed --site=3", SET),
            done
        )?
    );
    let other = (0, &b"refused site\n"[..], &b""[..]);
    assert!(rt; ends_in(rt.alloc(), (b"site = 4", 0), ("desk a.feed", SET), other)?);
    Ok(())
}

#[test]
fn room_that_is_refused(rt: HostRuntime) -> Result<(), Fail> {
    let lines = b"copydesk: input refused\ncopydesk.toml: line 2: `sit` is no key of it\n";
    let refused = (1, &b""[..], &lines[..]);
    let room = b"case = \"c\"\nsit = 3\n";
    assert!(rt; ends_in(rt.alloc(), (room, 0), ("desk a.feed", SET), refused)?);
    let done = (0, &b"ok 1.3\n"[..], &b""[..]);
    assert!(rt; ends_in(rt.alloc(), (room, 0), ("desk a.feed --site 3", SET), done)?);
    let lines = b"copydesk: file fault\ncopydesk.toml: a call failed\n";
    let unread = (1, &b""[..], &lines[..]);
    assert!(rt; ends_in(rt.alloc(), (b"site = 3", 1), ("desk a.feed", SET), unread)?);
    Ok(())
}
