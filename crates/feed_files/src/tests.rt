//! The tests of files that are replaced as a whole, on files whose calls fail by count, and of a reader that is read to
//! its end.

use crate::trial::{TrialFiles, TrialReader};
use crate::{FileRefusal, Files, ReaderFault, read_whole, store};
use linked_list_allocator::LocalHeap;
use std::alloc::Global;
use std::test::Fail;

/// Files with `a` of some bytes, of which the k-th call fails.
fn files_with_a(alloc: Global, k: u64) -> Result<TrialFiles<Global>, Fail> {
    let mut files = TrialFiles::new(alloc).failing_at_call(k);
    files.put("a", b"old")?;
    Ok(files)
}

#[test]
fn stored_in_place(rt: HostRuntime) -> Result<(), Fail> {
    let mut files = files_with_a(rt.alloc(), 0)?;
    files.put("a.new", b"left over")?;
    assert_eq!(rt; store(rt.alloc(), &mut files, "a", b"new"), Ok(()));
    assert!(rt; files.holds("a", b"new"));
    assert!(rt; files.bytes_of("a.new").is_none());
    assert_eq!(rt; store(rt.alloc(), &mut files, "b", b""), Ok(()));
    assert!(rt; files.holds("b", b""));
    assert_eq!(rt; files.failures(), 0);
    Ok(())
}

#[test]
fn not_stored_where_a_call_fails(rt: HostRuntime) -> Result<(), Fail> {
    let mut files = files_with_a(rt.alloc(), 1)?;
    assert_eq!(rt;
        store(rt.alloc(), &mut files, "a", b"new"),
        Err(FileRefusal::Device)
    );
    assert!(rt; files.holds("a", b"old"));
    assert!(rt; files.bytes_of("a.new").is_none());
    assert_eq!(rt; files.failures(), 1);

    let mut files = files_with_a(rt.alloc(), 2)?;
    assert_eq!(rt;
        store(rt.alloc(), &mut files, "a", b"new"),
        Err(FileRefusal::Device)
    );
    assert!(rt; files.holds("a", b"old"));
    assert!(rt; files.holds("a.new", b"new"));
    assert_eq!(rt; store(rt.alloc(), &mut files, "a", b"new"), Ok(()));
    assert!(rt; files.holds("a", b"new"));
    Ok(())
}

#[test]
fn read_from_memory(rt: HostRuntime) -> Result<(), Fail> {
    let mut files = files_with_a(rt.alloc(), 3)?;
    let bytes = files.read(rt.alloc(), "a")?;
    assert_eq!(rt; bytes.as_slice(), b"old".as_slice());
    assert!(rt; matches!(files.read(rt.alloc(), "b"), Err(FileRefusal::Missing)));
    assert!(rt; matches!(files.read(rt.alloc(), "a"), Err(FileRefusal::Device)));
    assert!(rt; matches!(files.rename("b", "a"), Err(FileRefusal::Missing)));
    assert_eq!(rt; files.failures(), 1);
    Ok(())
}

/// Stores over `a` in a small heap, where the files too have no more than that: whether a growth was refused. Then the
/// file is as it was, and with memory it has the new bytes.
fn refused_store(alloc: Global, cut: usize) -> Result<bool, Fail> {
    let heap = LocalHeap::new(alloc, 2048)?;
    let mut files = TrialFiles::new(&heap);
    files.put("a", b"old")?;
    let ballast = Vec::<u8, &LocalHeap>::with_capacity(&heap, 2048usize.saturating_sub(cut)).ok();
    let first = store(&heap, &mut files, "a", b"new");
    drop(ballast);
    let refused = first == Err(FileRefusal::NoMemory);
    let kept = !refused || files.holds("a", b"old");
    let end = if refused {
        store(&heap, &mut files, "a", b"new")
    } else {
        first
    };
    if kept && end == Ok(()) && files.holds("a", b"new") && files.bytes_of("a.new").is_none() {
        Ok(refused)
    } else {
        Err(Fail::new("another file"))
    }
}

#[test]
fn growths_of_store(rt: HostRuntime) -> Result<(), Fail> {
    let mut refused = 0u32;
    for step in 0..128usize {
        if refused_store(rt.alloc(), step.saturating_mul(16))? {
            refused = refused.saturating_add(1);
        }
    }
    assert!(rt; refused > 3);
    assert!(rt; refused < 128);
    Ok(())
}

#[test]
fn reader_read_to_its_end(rt: HostRuntime) -> Result<(), Fail> {
    let mut reader = TrialReader::new(b"abcd").in_steps_of(3);
    let bytes = read_whole(rt.alloc(), &mut reader, 4)?;
    assert_eq!(rt; bytes.as_slice(), b"abcd".as_slice());
    let mut reader = TrialReader::new(b"abcd").in_steps_of(3);
    assert_eq!(rt;
        read_whole(rt.alloc(), &mut reader, 3).err(),
        Some(ReaderFault::TooLong)
    );
    let mut reader = TrialReader::new(b"abcd").failing_at_call(2);
    assert_eq!(rt;
        read_whole(rt.alloc(), &mut reader, 4).err(),
        Some(ReaderFault::Failed)
    );
    Ok(())
}
