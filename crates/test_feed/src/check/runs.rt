use crate::check::rooms::{checked, memory, says};
use feed_check::{CheckFault, check_files};
use feed_files::trial::{AtEnd, TrialFiles, TrialWriter};
use linked_list_allocator::LocalHeap;
use script_answers::Memory;
use std::alloc::{AllocError, Global};
use std::test::Fail;

/// Files of which the k-th call fails.
fn rooms(alloc: Global, k: u64) -> Result<TrialFiles<Global>, AllocError> {
    let mut files = TrialFiles::new(alloc).failing_at_call(k);
    files.put("a.feed", b"MFD2")?;
    files.put("b.rib", b"MRB1\0\0\0\0")?;
    files.put("c.toml", b"wedge = 5")?;
    Ok(files)
}

const FEED: &str = "a.feed ok: 0 operations, 0 symbols shown, faults none\n";

/// Whether a check of these names writes these lines, and all are in order or not.
fn gives(alloc: Global, k: u64, names: &[&str], lines: &[&str], well: bool) -> Result<bool, Fail> {
    let mut files = rooms(alloc, k)?;
    let (written, ended) = checked(alloc, &mut files, names);
    let mut wanted = String::new(alloc);
    for line in lines {
        wanted.push_str(line)?;
    }
    Ok(written.as_slice() == wanted.as_bytes() && ended == Ok(well))
}

#[test]
fn files_are_reported_in_their_order(rt: HostRuntime) -> Result<(), Fail> {
    let ribbon = "b.rib ok: 0 rows\n";
    assert!(rt; gives(rt.alloc(), 0, &[], &[], true)?);
    assert!(rt; gives(rt.alloc(), 0, &["b.rib", "a.feed"], &[ribbon, FEED], true)?);
    let wedge = "c.toml wedge refused: `set_q` is missing\n";
    let names = ["a.feed", "c.toml", "b.rib"];
    assert!(rt; gives(rt.alloc(), 0, &names, &[FEED, wedge, ribbon], false)?);
    Ok(())
}

#[test]
fn files_that_are_not_read(rt: HostRuntime) -> Result<(), Fail> {
    let names = ["d.toml", "a.feed"];
    assert!(rt; gives(rt.alloc(), 0, &names, &["d.toml no file\n", FEED], false)?);
    let twice = ["a.feed", "a.feed"];
    assert!(rt; gives(rt.alloc(), 1, &twice, &["a.feed file fault\n", FEED], false)?);
    assert!(rt; gives(rt.alloc(), 2, &twice, &[FEED, "a.feed file fault\n"], false)?);
    Ok(())
}

#[test]
fn files_of_no_kind(rt: HostRuntime) -> Result<(), Fail> {
    let line = "f neither a feed, a ribbon, a case nor a wedge\n";
    let rows: &[&[u8]] = &[b"", b"x = 1", b"# case = 1\n\n"];
    for bytes in rows {
        assert!(rt; says(rt.alloc(), bytes, line, false)?);
    }
    Ok(())
}

#[test]
fn files_that_are_no_document(rt: HostRuntime) -> Result<(), Fail> {
    let first = "f neither a feed, a ribbon, a case nor a wedge: no TOML at line 1\n";
    let rows: &[&[u8]] = &[b"MFD3", b"MFD", b"MRB", b"case =", b"wedge", b"\xff"];
    for bytes in rows {
        assert!(rt; says(rt.alloc(), bytes, first, false)?);
    }
    let third = "f neither a feed, a ribbon, a case nor a wedge: no TOML at line 3\n";
    assert!(rt; says(rt.alloc(), b"case = 1\nrows = []\nfill = ]\n", third, false)?);
    assert!(rt; says(rt.alloc(), b"wedge = 1\n\n\xff", third, false)?);
    Ok(())
}

#[test]
fn closed_output_of_a_check(rt: HostRuntime) -> Result<(), Fail> {
    for room in 0..FEED.len() {
        let mut files = rooms(rt.alloc(), 0)?;
        let mut writer = TrialWriter::new(rt.alloc()).with_room(room, AtEnd::TakesNone);
        let ended = check_files(memory(rt.alloc()), &mut writer, &mut files, &["a.feed"]);
        assert_eq!(rt; ended, Err(CheckFault::Write));
        assert!(rt; writer.written().len() == room);
        assert!(rt; FEED.as_bytes().starts_with(writer.written()));
    }
    Ok(())
}

/// The bytes of the heap of the next test.
const HEAP: usize = 1_048_576;

/// Whether a check in a cut heap is out of memory.
fn is_refused(alloc: Global, cut: usize) -> Result<bool, Fail> {
    let heap = LocalHeap::new(alloc, HEAP)?;
    let kept = HEAP.saturating_sub(cut.saturating_mul(32));
    let ballast: Option<Vec<u8, &LocalHeap>> = Vec::with_capacity(&heap, kept).ok();
    let mut files = rooms(alloc, 0)?;
    let mut written = Vec::new(alloc);
    let cut_memory = Memory {
        own: &heap,
        global: alloc,
    };
    let ended = check_files(cut_memory, &mut written, &mut files, &["a.feed"]);
    drop(ballast);
    match ended {
        Ok(well) if well && written.as_slice() == FEED.as_bytes() => Ok(false),
        Err(CheckFault::NoMemory) if written.is_empty() => Ok(true),
        _ => Err(Fail::new("another line")),
    }
}

#[test]
fn growths_of_a_check_refused(rt: HostRuntime) -> Result<(), Fail> {
    let mut refused = 0u32;
    for cut in 0..128usize {
        refused = refused.saturating_add(u32::from(is_refused(rt.alloc(), cut)?));
    }
    assert!(rt; 6 <= refused && refused <= 127, "refused {refused} times");
    Ok(())
}
