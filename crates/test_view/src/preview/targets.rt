//! What stands under the target of a punch.

use crate::preview::punching::RIBBON;
use crate::preview::rooms::{galleys, memory, rooms};
use feed_files::{FileRefusal, Kind, Target};
use std::alloc::Global;
use std::test::Fail;
use view_preview::PreviewFault;
use view_punch::punch_feeds;

/// Punches over what stands under a name, of which the k-th call fails: the ribbon stands there afterwards, or what
/// did.
fn punched_over(
    alloc: Global,
    k: u64,
    old: Option<&[u8]>,
    force: bool,
) -> Result<Result<(), PreviewFault>, Fail> {
    let mut files = rooms(alloc, k)?;
    if let Some(bytes) = old {
        files.put("t", bytes)?;
    }
    let mut written = Vec::new(alloc);
    let target = Target { name: "t", force };
    let ended = punch_feeds(
        memory(alloc),
        &mut written,
        &mut files,
        &galleys("set.feed", "c", "w"),
        &target,
        false,
    );
    let kept = match (ended, old) {
        (Ok(()), _) => files.holds("t", RIBBON) && files.bytes_of("t.new").is_none(),
        (Err(_), Some(bytes)) => files.holds("t", bytes),
        (Err(_), None) => files.bytes_of("t").is_none(),
    };
    if !kept || !written.is_empty() {
        return Err(Fail::new("another target"));
    }
    Ok(ended.map_err(|stop| stop.why))
}

/// Bytes that are no ribbon, and their kinds.
const OTHERS: [(&[u8], Kind); 7] = [
    (b"MFD1", Kind::Feed),
    (b"MFD2\x03\0", Kind::Feed),
    (b"<svg xmlns", Kind::Picture),
    (b"MRB", Kind::Other),
    (b"MRB2\0\0\0\0", Kind::Other),
    (b"mrb1", Kind::Other),
    (b"\n", Kind::Other),
];

#[test]
fn ribbon_where_none_or_another_stands(rt: HostRuntime) -> Result<(), Fail> {
    assert_eq!(rt; punched_over(rt.alloc(), 0, None, false)?, Ok(()));
    assert_eq!(rt; punched_over(rt.alloc(), 0, Some(b""), false)?, Ok(()));
    assert_eq!(rt; punched_over(rt.alloc(), 0, Some(b"MRB1"), false)?, Ok(()));
    assert_eq!(rt; punched_over(rt.alloc(), 0, Some(RIBBON), false)?, Ok(()));
    Ok(())
}

#[test]
fn ribbon_over_other_files(rt: HostRuntime) -> Result<(), Fail> {
    for &(bytes, kind) in &OTHERS {
        let taken = punched_over(rt.alloc(), 0, Some(bytes), false)?;
        assert_eq!(rt; taken, Err(PreviewFault::Taken(kind)));
        assert_eq!(rt; punched_over(rt.alloc(), 0, Some(bytes), true)?, Ok(()));
    }
    Ok(())
}

/// Under force what stands there is not read: five calls in place of six.
#[test]
fn calls_of_a_forced_punch(rt: HostRuntime) -> Result<(), Fail> {
    let unstored = Err(PreviewFault::Unstored(FileRefusal::Device));
    for k in 4..7u64 {
        let ended = punched_over(rt.alloc(), k, Some(b"MRB1"), false)?;
        assert_eq!(rt; ended, unstored);
    }
    for k in 4..6u64 {
        let ended = punched_over(rt.alloc(), k, Some(b"MRB1"), true)?;
        assert_eq!(rt; ended, unstored);
    }
    assert_eq!(rt; punched_over(rt.alloc(), 6, Some(b"MRB1"), true)?, Ok(()));
    Ok(())
}
