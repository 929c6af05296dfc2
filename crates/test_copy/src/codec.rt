use crate::ops::is_written;
use crate::read_runs::RUN_AB;
use desk_codec::{FeedFault, FeedWhy, ReadFault, next_op, read_feed, write_feed, write_op};
use desk_memory::NoMemory;
use desk_ops::{Key, Op, Stamp, Style, Symbol, Unlawful};
use linked_list_allocator::LocalHeap;
use std::alloc::{Allocator, Global};
use std::test::Fail;

pub const INSERT_A: Op = Op::Insert {
    stamp: Stamp {
        counter: 1,
        site: 1,
    },
    parent: Stamp::HEAD,
    symbol: Symbol {
        style: Style::Roman,
        ch: 'a',
    },
};

pub const INSERT_B: Op = Op::Insert {
    stamp: Stamp {
        counter: 2,
        site: 1,
    },
    parent: Stamp {
        counter: 1,
        site: 1,
    },
    symbol: Symbol {
        style: Style::Roman,
        ch: 'b',
    },
};

pub const DELETE: Op = Op::Delete {
    stamp: Stamp {
        counter: 4,
        site: 2,
    },
    target: Stamp {
        counter: 3,
        site: 1,
    },
};

pub const MEASURE_144: Op = Op::Set {
    stamp: Stamp {
        counter: 5,
        site: 2,
    },
    key: Key::Measure,
    value: 144,
};

const MEASURE_120: Op = Op::Set {
    stamp: Stamp {
        counter: 5,
        site: 1,
    },
    key: Key::Measure,
    value: 120,
};

const LAST_COUNTER: Op = Op::Insert {
    stamp: Stamp {
        counter: 1 << 62,
        site: 2,
    },
    parent: Stamp::HEAD,
    symbol: Symbol {
        style: Style::Roman,
        ch: 'q',
    },
};

/// The feed of `INSERT_A` and `INSERT_B`.
pub const FEED_AB: [u8; 56] = [
    0x4d, 0x46, 0x44, 0x31, 1, 0, 0, 0, 0, 0, 0, 0, 1, 0, 1, 0, 0, 0, 0, 0, 0, 0, 0, 0, 0, 0, 0, 0,
    0, 0x61, 1, 0, 0, 0, 0, 0, 0, 0, 2, 0, 1, 0, 0, 0, 0, 0, 0, 0, 1, 0, 1, 0, 0, 0, 0, 0x62,
];

const EXAMPLES: [(Op, &[u8]); 5] = [
    (
        INSERT_A,
        &[
            1, 0, 0, 0, 0, 0, 0, 0, 1, 0, 1, 0, 0, 0, 0, 0, 0, 0, 0, 0, 0, 0, 0, 0, 0, 0x61,
        ],
    ),
    (
        DELETE,
        &[
            2, 0, 0, 0, 0, 0, 0, 0, 4, 0, 2, 0, 0, 0, 0, 0, 0, 0, 3, 0, 1,
        ],
    ),
    (
        MEASURE_144,
        &[3, 0, 0, 0, 0, 0, 0, 0, 5, 0, 2, 1, 0, 0, 0, 0x90],
    ),
    (
        MEASURE_120,
        &[3, 0, 0, 0, 0, 0, 0, 0, 5, 0, 1, 1, 0, 0, 0, 0x78],
    ),
    (
        LAST_COUNTER,
        &[
            1, 0x40, 0, 0, 0, 0, 0, 0, 0, 0, 2, 0, 0, 0, 0, 0, 0, 0, 0, 0, 0, 0, 0, 0, 0, 0x71,
        ],
    ),
];

/// Whether reading bytes as a feed answers these operations, or this fault.
pub fn is_read_as<A: Allocator>(alloc: A, bytes: &[u8], want: Result<&[Op], ReadFault>) -> bool {
    match (read_feed(alloc, bytes), want) {
        (Ok(ops), Ok(want)) => ops.as_slice() == want,
        (Err(fault), Err(want)) => fault == want,
        _ => false,
    }
}

/// Whether the bytes of an operation are those, and the bytes are those of the operation, alone and in a feed.
fn is_spelled(alloc: Global, op: Op, bytes: &[u8]) -> Result<bool, Fail> {
    if op.check().is_err() || write_op(&op).as_slice() != bytes || bytes.is_empty() {
        return Ok(false);
    }
    let is_next = match next_op(bytes) {
        Ok((read, rest)) => read == op && rest.is_empty(),
        Err(_) => false,
    };
    let mut feed = Vec::from_slice(alloc, b"MFD1")?;
    feed.extend_from_slice(bytes)?;
    Ok(is_next && is_read_as(alloc, &feed, Ok(&[op])))
}

#[test]
fn examples_of_bytes(rt: HostRuntime) -> Result<(), Fail> {
    for &(op, bytes) in &EXAMPLES {
        assert!(rt; is_spelled(rt.alloc(), op, bytes)?, "{bytes:?}");
    }
    Ok(())
}

/// The two operations of `FEED_AB`.
pub const AB: [Op; 2] = [INSERT_A, INSERT_B];

#[test]
fn two_sites_show_ab(rt: HostRuntime) -> Result<(), Fail> {
    assert!(rt; write_feed(rt.alloc(), &AB)?.as_slice() == FEED_AB.as_slice());
    assert!(rt; is_read_as(rt.alloc(), &FEED_AB, Ok(&AB)));
    Ok(())
}

pub fn fault(at: u64, why: FeedWhy) -> ReadFault {
    ReadFault::Fault(FeedFault { at, why })
}

/// Whether bytes are refused as a feed at this place for this cause.
fn is_feed_refused(alloc: Global, bytes: &[u8], at: u64, why: FeedWhy) -> bool {
    is_read_as(alloc, bytes, Err(fault(at, why)))
}

/// An insert whose parent has its own counter.
const EQUAL_COUNTERS: [u8; 31] = [
    0x4d, 0x46, 0x44, 0x31, 1, 0, 0, 0, 0, 0, 0, 0, 3, 0, 1, 0, 0, 0, 0, 0, 0, 0, 3, 0, 2, 0, 0, 0,
    0, 0, 0x61,
];

#[test]
fn refused_feeds(rt: HostRuntime) {
    let target = FeedWhy::Unlawful(Unlawful::Target);
    assert!(rt; is_feed_refused(rt.alloc(), &EQUAL_COUNTERS, 4, target));
    assert!(rt; is_feed_refused(rt.alloc(), b"MFD1\x02\0", 4, FeedWhy::Cut));
    assert!(rt; is_feed_refused(rt.alloc(), b"MFD1\x09", 4, FeedWhy::Kind));
    assert!(rt; is_feed_refused(rt.alloc(), b"MF", 0, FeedWhy::Magic));
}

/// Whether of a prefix of a feed what it should be is read, or the place and the cause.
fn is_prefix_read(alloc: Global, len: usize) -> bool {
    if len >= 56 {
        return false;
    }
    let want = match len {
        0..=3 => Err(fault(0, FeedWhy::Magic)),
        4 => Ok(&AB[..0]),
        30 => Ok(&AB[..1]),
        5..=29 => Err(fault(4, FeedWhy::Cut)),
        _ => Err(fault(30, FeedWhy::Cut)),
    };
    is_read_as(alloc, &FEED_AB[..len], want)
}

/// Of every shorter prefix of a feed: the place and the cause.
#[test]
fn prefixes_of_a_feed(rt: HostRuntime) {
    for len in 0..56usize {
        assert!(rt; is_prefix_read(rt.alloc(), len), "{len} bytes");
    }
}

/// Whether bytes are no operation for this cause.
fn is_cause(bytes: &[u8], why: FeedWhy) -> bool {
    !bytes.is_empty() && next_op(bytes).err() == Some(why)
}

/// A surrogate.
const SURROGATE: [u8; 26] = [
    1, 0, 0, 0, 0, 0, 0, 0, 1, 0, 1, 0, 0, 0, 0, 0, 0, 0, 0, 0, 0, 0, 0, 0, 0xd8, 0,
];

/// A style above 2, with a site of 0.
const STYLE_AND_SITE: [u8; 26] = [
    1, 0, 0, 0, 0, 0, 0, 0, 1, 0, 0, 0, 0, 0, 0, 0, 0, 0, 0, 0, 0, 3, 0, 0, 0, 0x61,
];

/// Key 6, whatever the value; and below with a counter of 0.
const KEY_6: [u8; 16] = [3, 0, 0, 0, 0, 0, 0, 0, 5, 0, 1, 6, 0, 0, 0, 0];

const KEY_AND_COUNTER: [u8; 16] = [3, 0, 0, 0, 0, 0, 0, 0, 0, 0, 1, 6, 0, 0, 0, 0x78];

/// Bytes that are cut off, and have a site of 0.
const CUT_AND_SITE: [u8; 15] = [3, 0, 0, 0, 0, 0, 0, 0, 5, 0, 0, 1, 0, 0, 0];

/// Which cause is reported where several hold, and of numbers that are no symbol's and no key's.
#[test]
fn causes_in_order(rt: HostRuntime) {
    assert!(rt; is_cause(&SURROGATE, FeedWhy::Unlawful(Unlawful::Symbol)));
    assert!(rt; is_cause(&STYLE_AND_SITE, FeedWhy::Unlawful(Unlawful::Site)));
    assert!(rt; is_cause(&KEY_6, FeedWhy::Unlawful(Unlawful::Key)));
    assert!(rt; is_cause(&KEY_AND_COUNTER, FeedWhy::Unlawful(Unlawful::Counter)));
    assert!(rt; is_cause(&CUT_AND_SITE, FeedWhy::Cut));
}

/// Takes what a heap of 512 bytes can give, but for so many times 16.
pub fn ballast(heap: &LocalHeap, cut: usize) -> Option<Vec<u8, &LocalHeap>> {
    Vec::with_capacity(heap, 512usize.saturating_sub(cut.saturating_mul(16))).ok()
}

/// Whether reading bytes in a cut heap is out of memory. Any other answer is the wanted one, and with memory each is.
fn is_reading_refused(
    alloc: Global,
    cut: usize,
    bytes: &[u8],
    want: Result<&[Op], ReadFault>,
) -> Result<bool, Fail> {
    let heap = LocalHeap::new(alloc, 512)?;
    let ballast = ballast(&heap, cut);
    let refused = is_read_as(&heap, bytes, Err(ReadFault::NoMemory));
    let right = refused || is_read_as(&heap, bytes, want);
    drop(ballast);
    if !right || !is_read_as(&heap, bytes, want) {
        return Err(Fail::new("another answer"));
    }
    Ok(refused)
}

/// Whether writing the feed in a cut heap is out of memory; with memory it is written.
fn is_writing_refused(alloc: Global, cut: usize) -> Result<bool, Fail> {
    let heap = LocalHeap::new(alloc, 512)?;
    let ballast = ballast(&heap, cut);
    let refused = match write_feed(&heap, &AB) {
        Ok(bytes) if bytes.as_slice() == FEED_AB.as_slice() => false,
        Ok(_) => return Err(Fail::new("another feed")),
        Err(NoMemory) => true,
    };
    drop(ballast);
    if write_feed(&heap, &AB)?.as_slice() != FEED_AB.as_slice() {
        return Err(Fail::new("another feed with memory"));
    }
    Ok(refused)
}

/// How many of the readings in 16 cut heaps are out of memory.
fn readings_refused(
    alloc: Global,
    bytes: &[u8],
    want: Result<&[Op], ReadFault>,
) -> Result<u32, Fail> {
    let mut refused = 0u32;
    for cut in 0..16usize {
        let stopped = is_reading_refused(alloc, cut, bytes, want)?;
        refused = refused.saturating_add(u32::from(stopped));
    }
    Ok(refused)
}

/// Whether of these readings 6 to 15 are out of memory.
fn are_most_refused(alloc: Global, bytes: &[u8]) -> Result<bool, Fail> {
    let refused = readings_refused(alloc, bytes, Ok(&AB))?;
    Ok(6 <= refused && refused <= 15)
}

/// How many of the writings in 16 cut heaps are out of memory.
fn writings_refused(alloc: Global) -> Result<u32, Fail> {
    let mut refused = 0u32;
    for cut in 0..16usize {
        refused = refused.saturating_add(u32::from(is_writing_refused(alloc, cut)?));
    }
    Ok(refused)
}

/// A refused growth is out of memory; of other magic, and of too few bytes for an operation, the fault comes in any
/// case. What is written takes its memory at once, so few sizes of a heap refuse it.
#[test]
fn growth_refused(rt: HostRuntime) -> Result<(), Fail> {
    assert!(rt; are_most_refused(rt.alloc(), &FEED_AB)?);
    assert!(rt; are_most_refused(rt.alloc(), &RUN_AB)?);
    let cut = Err(fault(30, FeedWhy::Cut));
    let refused = readings_refused(rt.alloc(), &FEED_AB[..55], cut)?;
    assert!(rt; 1 <= refused && refused <= 15, "refused {refused} times");
    let kind = Err(fault(4, FeedWhy::Kind));
    assert!(rt; readings_refused(rt.alloc(), b"MFD1\x09", kind)? == 0);
    let magic = Err(fault(0, FeedWhy::Magic));
    assert!(rt; readings_refused(rt.alloc(), &FEED_AB[1..], magic)? == 0);
    let unwritten = writings_refused(rt.alloc())?;
    assert!(rt;
        3 <= unwritten && unwritten <= 5,
        "unwritten {unwritten} times"
    );
    Ok(())
}

/// Causes, in words.
const WORDS: [(FeedWhy, &str); 4] = [
    (FeedWhy::Magic, "at byte 7: no feed begins so"),
    (FeedWhy::Kind, "at byte 7: no such kind of operation"),
    (FeedWhy::Cut, "at byte 7: cut off"),
    (FeedWhy::Run, "at byte 7: no run has so many"),
];

/// Whether a cause at byte 7 is written in these words.
fn is_cause_written(alloc: Global, why: FeedWhy, text: &str) -> Result<bool, Fail> {
    is_written(alloc, &fault(7, why), text)
}

#[test]
fn names_its_faults(rt: HostRuntime) -> Result<(), Fail> {
    for &(why, text) in &WORDS {
        assert!(rt; is_cause_written(rt.alloc(), why, text)?, "{text}");
    }
    let key = FeedWhy::Unlawful(Unlawful::Key);
    assert!(rt; is_cause_written(rt.alloc(), key, "at byte 7: unlawful: no such key")?);
    assert!(rt; is_written(rt.alloc(), &ReadFault::Failed, "the reading has ended")?);
    assert!(rt; is_written(rt.alloc(), &ReadFault::NoMemory, "no memory")?);
    Ok(())
}
