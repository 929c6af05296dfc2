//! Files that are stored over others.

use feed_files::trial::TrialFiles;
use feed_files::{FileRefusal, Files, Kind, OutputFault, Target, store_over};
use linked_list_allocator::LocalHeap;
use std::alloc::Global;
use std::test::Fail;

/// What is stored.
const NEW: &[u8] = b"MRB1 new";

/// Stores over what stands under a name, of which the k-th call fails: the new bytes stand there afterwards, or the
/// old.
fn stored_over(
    alloc: Global,
    k: u64,
    old: Option<&[u8]>,
    kind: Kind,
    force: bool,
) -> Result<Result<(), OutputFault>, Fail> {
    let mut files = TrialFiles::new(alloc).failing_at_call(k);
    if let Some(bytes) = old {
        files.put("a", bytes)?;
    }
    let target = Target { name: "a", force };
    let ended = store_over(alloc, &mut files, &target, NEW, kind);
    let kept = match (ended, old) {
        (Ok(()), _) => files.holds("a", NEW) && files.bytes_of("a.new").is_none(),
        (Err(_), Some(bytes)) => files.holds("a", bytes),
        (Err(_), None) => files.bytes_of("a").is_none(),
    };
    if !kept {
        return Err(Fail::new("another file"));
    }
    Ok(ended)
}

#[test]
fn stored_over_its_kind_alone(rt: HostRuntime) -> Result<(), Fail> {
    let alloc = rt.alloc();
    assert_eq!(rt; stored_over(alloc, 0, None, Kind::Ribbon, false)?, Ok(()));
    assert_eq!(rt;
        stored_over(alloc, 0, Some(b""), Kind::Ribbon, false)?,
        Ok(())
    );
    let ended = stored_over(alloc, 0, Some(b"MRB1"), Kind::Ribbon, false)?;
    assert_eq!(rt; ended, Ok(()));
    let ended = stored_over(alloc, 0, Some(b"MRB1"), Kind::Picture, false)?;
    assert_eq!(rt; ended, Err(OutputFault::Taken(Kind::Ribbon)));
    let ended = stored_over(alloc, 0, Some(b"MRB"), Kind::Ribbon, false)?;
    assert_eq!(rt; ended, Err(OutputFault::Taken(Kind::Other)));
    let ended = stored_over(alloc, 0, Some(b"MRB"), Kind::Ribbon, true)?;
    assert_eq!(rt; ended, Ok(()));
    Ok(())
}

#[test]
fn files_that_fail_under_a_store_over(rt: HostRuntime) -> Result<(), Fail> {
    let device = Err(OutputFault::File(FileRefusal::Device));
    for k in 1..4u64 {
        let ended = stored_over(rt.alloc(), k, Some(b"MRB1"), Kind::Ribbon, false)?;
        assert_eq!(rt; ended, device);
    }
    for k in 1..3u64 {
        let ended = stored_over(rt.alloc(), k, None, Kind::Ribbon, true)?;
        assert_eq!(rt; ended, device);
    }
    Ok(())
}

/// One byte more than a file that is read may have.
#[test]
fn large_file_stands_there(rt: HostRuntime) -> Result<(), Fail> {
    let mut large = Vec::with_capacity(rt.alloc(), 67_108_865)?;
    large.resize(67_108_865, 0u8)?;
    let mut files = TrialFiles::new(rt.alloc());
    files.put("a", &large)?;
    let mut target = Target {
        name: "a",
        force: false,
    };
    let ended = store_over(rt.alloc(), &mut files, &target, NEW, Kind::Ribbon);
    assert_eq!(rt; ended, Err(OutputFault::Taken(Kind::Large)));
    assert_eq!(rt; files.failures(), 0);
    assert!(rt; matches!(files.bytes_of("a"), Some(kept) if kept.len() == 67_108_865));
    target.force = true;
    let ended = store_over(rt.alloc(), &mut files, &target, NEW, Kind::Ribbon);
    assert_eq!(rt; ended, Ok(()));
    assert!(rt; files.holds("a", NEW));
    Ok(())
}

/// Stores over a ribbon in a small heap: whether a growth was refused. Then the file is as it was.
fn is_refused(alloc: Global, cut: usize) -> Result<bool, Fail> {
    let heap = LocalHeap::new(alloc, 2048)?;
    let ballast = Vec::<u8, &LocalHeap>::with_capacity(&heap, 2048usize.saturating_sub(cut)).ok();
    let mut files = TrialFiles::new(alloc);
    files.put("a", b"MRB1 old")?;
    let target = Target {
        name: "a",
        force: false,
    };
    let ended = store_over(&heap, &mut files, &target, NEW, Kind::Ribbon);
    drop(ballast);
    match ended {
        Ok(()) if files.holds("a", NEW) => Ok(false),
        Err(OutputFault::File(FileRefusal::NoMemory)) if files.holds("a", b"MRB1 old") => Ok(true),
        _ => Err(Fail::new("another end")),
    }
}

#[test]
fn growths_of_a_store_over(rt: HostRuntime) -> Result<(), Fail> {
    let mut refused = 0u32;
    for step in 0..128usize {
        refused = refused.saturating_add(u32::from(is_refused(
            rt.alloc(),
            step.saturating_mul(16),
        )?));
    }
    assert!(rt; 1 <= refused && refused < 128, "refused {refused} times");
    Ok(())
}
