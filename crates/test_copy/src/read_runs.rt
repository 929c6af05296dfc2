use crate::codec::{AB, DELETE, INSERT_A, INSERT_B, MEASURE_144, fault, is_read_as};
use crate::pieces::{read_bytes, read_cut};
use desk_codec::{FeedReader, FeedWhy, ReadFault, read_feed};
use desk_ops::{Op, Stamp, Style, Symbol, Unlawful};
use std::alloc::Global;
use std::test::Fail;

/// The feed of one run, of the two operations of `AB`.
pub const RUN_AB: [u8; 36] = [
    0x4d, 0x46, 0x44, 0x32, 4, 0, 0, 0, 0, 0, 0, 0, 1, 0, 1, 0, 0, 0, 0, 0, 0, 0, 0, 0, 0, 2, 0, 0,
    0, 0, 0x61, 0, 0, 0, 0, 0x62,
];

/// The feed `RUN_AB` with other bytes from a place on, or fewer.
fn run_with(alloc: Global, place: usize, end: &[u8]) -> Result<Vec<u8>, Fail> {
    let mut bytes = Vec::from_slice(alloc, &RUN_AB[..place.min(36)])?;
    bytes.extend_from_slice(end)?;
    Ok(bytes)
}

/// Whether the feed of a run with these bytes from a place on is refused for this cause.
fn is_run_refused(alloc: Global, place: usize, end: &[u8], why: FeedWhy) -> Result<bool, Fail> {
    let bytes = run_with(alloc, place, end)?;
    Ok(is_read_as(alloc, &bytes, Err(fault(4, why))))
}

/// A second insert whose counter is above the greatest.
const LAST_COUNTER: [u8; 31] = [
    0x40, 0, 0, 0, 0, 0, 0, 0, 0, 1, 0, 0, 0, 0, 0, 0, 0, 0, 0, 0, 2, 0, 0, 0, 0, 0x61, 0, 0, 0, 0,
    0x62,
];

/// Places and the bytes from there on, and the cause. A count of 1 is reported before its symbol is there, and one of 0
/// whatever follows; a cut comes before what is not lawful.
static CUT_RUNS: [(usize, &[u8], FeedWhy); 6] = [
    (25, &[1], FeedWhy::Run),
    (25, &[0x41], FeedWhy::Run),
    (25, &[], FeedWhy::Cut),
    (25, &[2], FeedWhy::Cut),
    (25, &[0, 1], FeedWhy::Run),
    (26, &[3, 0, 0, 0, 0x61, 0, 0, 0, 0], FeedWhy::Cut),
];

#[test]
fn refused_runs(rt: HostRuntime) -> Result<(), Fail> {
    for &(place, end, why) in &CUT_RUNS {
        assert!(rt;
            is_run_refused(rt.alloc(), place, end, why)?,
            "{place} {end:?}"
        );
    }
    let counter = FeedWhy::Unlawful(Unlawful::Counter);
    assert!(rt; is_run_refused(rt.alloc(), 5, &LAST_COUNTER, counter)?);
    // A style above 2, and a Roman character 0: the first insert's cause comes first.
    let symbol = FeedWhy::Unlawful(Unlawful::Symbol);
    let both = [3, 0, 0, 0, 0x61, 0, 0, 0, 0, 0];
    assert!(rt; is_run_refused(rt.alloc(), 26, &both, symbol)?);
    assert!(rt; is_run_refused(rt.alloc(), 31, &[0, 0, 0, 0, 0], symbol)?);
    assert!(rt; is_read_as(rt.alloc(), b"MFD1\x04", Err(fault(4, FeedWhy::Kind))));
    assert!(rt; is_read_as(rt.alloc(), b"MFD3\x04", Err(fault(0, FeedWhy::Magic))));
    assert!(rt; is_read_as(rt.alloc(), &RUN_AB, Ok(&AB)));
    Ok(())
}

/// Whether the feed of one run of so many is read as its inserts, or is refused where no run has so many.
fn is_run_of(alloc: Global, count: u8) -> Result<bool, Fail> {
    let mut bytes = run_with(alloc, 25, &[count])?;
    for _ in 0..count {
        bytes.extend_from_slice(&[0, 0, 0, 0, 0x61])?;
    }
    let ops = match read_feed(alloc, &bytes) {
        Ok(ops) => ops,
        Err(reported) => return Ok(
            !(2..=64).contains(&count) && reported == fault(4, FeedWhy::Run),
        ),
    };
    let mut parent = Stamp::HEAD;
    for op in ops.iter() {
        let stamp = Stamp {
            counter: parent.counter.saturating_add(1),
            site: 1,
        };
        let symbol = Symbol {
            style: Style::Roman,
            ch: 'a',
        };
        if *op
            != (Op::Insert {
                stamp,
                parent,
                symbol,
            })
        {
            return Ok(false);
        }
        parent = stamp;
    }
    Ok((2..=64).contains(&count) && ops.len() == count as usize)
}

#[test]
fn runs_of_each_length(rt: HostRuntime) -> Result<(), Fail> {
    for &count in &[0, 1, 2, 3, 63, 64, 65, 66, 129, 255] {
        assert!(rt; is_run_of(rt.alloc(), count)?, "{count}");
    }
    Ok(())
}

/// A run of three, an operation of each kind, and a run of two.
const MIXED: [Op; 8] = [
    INSERT_A,
    INSERT_B,
    Op::Insert {
        stamp: Stamp {
            counter: 3,
            site: 1,
        },
        parent: Stamp {
            counter: 2,
            site: 1,
        },
        symbol: Symbol {
            style: Style::Italic,
            ch: 'c',
        },
    },
    INSERT_A,
    DELETE,
    MEASURE_144,
    INSERT_A,
    INSERT_B,
];

/// Their feed, and a 9.
const MIXED_AND_NINE: [u8; 137] = [
    0x4d, 0x46, 0x44, 0x32, 4, 0, 0, 0, 0, 0, 0, 0, 1, 0, 1, 0, 0, 0, 0, 0, 0, 0, 0, 0, 0, 3, 0, 0,
    0, 0, 0x61, 0, 0, 0, 0, 0x62, 1, 0, 0, 0, 0x63, 1, 0, 0, 0, 0, 0, 0, 0, 1, 0, 1, 0, 0, 0, 0, 0,
    0, 0, 0, 0, 0, 0, 0, 0, 0, 0x61, 2, 0, 0, 0, 0, 0, 0, 0, 4, 0, 2, 0, 0, 0, 0, 0, 0, 0, 3, 0, 1,
    3, 0, 0, 0, 0, 0, 0, 0, 5, 0, 2, 1, 0, 0, 0, 0x90, 4, 0, 0, 0, 0, 0, 0, 0, 1, 0, 1, 0, 0, 0, 0,
    0, 0, 0, 0, 0, 0, 2, 0, 0, 0, 0, 0x61, 0, 0, 0, 0, 0x62, 9,
];

/// What so many of these bytes are answered in all, however they are cut.
fn answer_of_prefix(len: usize) -> Result<&'static [Op], ReadFault> {
    match len {
        0..=3 => Err(fault(0, FeedWhy::Magic)),
        4 => Ok(&MIXED[..0]),
        5..=40 => Err(fault(4, FeedWhy::Cut)),
        41 => Ok(&MIXED[..3]),
        42..=66 => Err(fault(41, FeedWhy::Cut)),
        67 => Ok(&MIXED[..4]),
        68..=87 => Err(fault(67, FeedWhy::Cut)),
        88 => Ok(&MIXED[..5]),
        89..=103 => Err(fault(88, FeedWhy::Cut)),
        104 => Ok(&MIXED[..6]),
        105..=135 => Err(fault(104, FeedWhy::Cut)),
        136 => Ok(&MIXED),
        _ => Err(fault(136, FeedWhy::Kind)),
    }
}

/// Whether the prefix of these bytes is answered as it is to be, cut at these two places.
fn is_cut_right(alloc: Global, len: usize, first: usize, second: usize) -> bool {
    let bytes = &MIXED_AND_NINE[..len.min(137)];
    match (read_cut(alloc, bytes, first, second), answer_of_prefix(len)) {
        (Ok(ops), Ok(want)) => ops.as_slice() == want,
        (Err(reported), Err(want)) => reported == want,
        _ => false,
    }
}

/// Every prefix of the bytes in two pieces, and the feed in three.
#[test]
fn each_cut_of_runs(rt: HostRuntime) {
    for second in 0..138usize {
        for first in 0..second.saturating_add(1) {
            assert!(rt;
                is_cut_right(rt.alloc(), second, first, second)
                    && is_cut_right(rt.alloc(), 136, first, second),
                "cut at {first} and {second}"
            );
        }
    }
}

/// A run's count is reported with its byte, and its inserts are given with its last.
#[test]
fn runs_in_bytes(rt: HostRuntime) {
    let all = match read_bytes(rt.alloc(), &MIXED_AND_NINE[..136]) {
        Ok(ops) => ops.as_slice() == MIXED.as_slice(),
        Err(_) => false,
    };
    assert!(rt; all);
    let mut reader = FeedReader::new();
    let head = reader.feed(rt.alloc(), &RUN_AB[..25]).is_ok();
    let count = reader.feed(rt.alloc(), &[65]).err();
    assert!(rt; head && count == Some(fault(4, FeedWhy::Run)));
}
