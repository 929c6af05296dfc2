ghost use Rattle.std.specs.Prelude.{◌≡◌, ◌+◌, ◌<◌, ◌≤◌, ◌^◌, length, IfOk};

use crate::codec::{AB, DELETE, FEED_AB, INSERT_A, MEASURE_144, ballast, fault};
use desk_codec::{FeedReader, FeedWhy, ReadFault};
use desk_ops::{Op, Unlawful};
use linked_list_allocator::LocalHeap;
use std::alloc::{Allocator, Global};
use std::test::Fail;

/// What a piece, or all of them, are answered.
type Answer<'a> = Result<&'a [Op], ReadFault>;

/// Whether the piece is answered so.
fn is_answered<A: Allocator>(
    reader: &mut FeedReader,
    alloc: A,
    piece: &[u8],
    want: Answer<'_>,
) -> bool
    requires { reader.old.taken + length piece.now < 2 ^ 63 }
    ensures { reader.new.taken ≤ reader.old.taken + length piece.now }
{
    match reader.feed(alloc, piece) {
        Ok(ops) => match want {
            Ok(want) => ops.as_slice() == want,
            Err(_) => false,
        },
        Err(fault) => want.err() == Some(fault),
    }
}

/// Three pieces, of at most 100 bytes each, and their answers and that of their end.
type Row<'a> = ([&'a [u8]; 3], [Answer<'a>; 3], Result<(), ReadFault>);

/// Whether the pieces and their end are answered so, and all after that `Failed`.
fn are_answered(alloc: Global, row: Row<'_>) -> bool {
    let (pieces, answers, end) = row;
    if pieces[0].len() > 100 || pieces[1].len() > 100 || pieces[2].len() > 100 {
        return false;
    }
    let mut reader = FeedReader::new();
    let first = is_answered(&mut reader, alloc, pieces[0], answers[0]);
    let second = is_answered(&mut reader, alloc, pieces[1], answers[1]);
    let third = is_answered(&mut reader, alloc, pieces[2], answers[2]);
    let ended = reader.finish() == end;
    let latched = is_answered(&mut reader, alloc, b"", FAILED);
    first && second && third && ended && latched && reader.finish() == Err(ReadFault::Failed)
}

const FAILED: Answer<'_> = Err(ReadFault::Failed);

/// The feed of `INSERT_A`, and a 9.
const A_AND_NINE: [u8; 31] = [
    0x4d, 0x46, 0x44, 0x31, 1, 0, 0, 0, 0, 0, 0, 0, 1, 0, 1, 0, 0, 0, 0, 0, 0, 0, 0, 0, 0, 0, 0, 0,
    0, 0x61, 9,
];

/// Whether a kind that there is not is reported, in whichever piece it stands.
fn kinds_are_reported(alloc: Global) -> bool {
    let nothing: Answer<'_> = Ok(&AB[..0]);
    let first: Answer<'_> = Err(fault(4, FeedWhy::Kind));
    let kind: Answer<'_> = Err(fault(30, FeedWhy::Kind));
    let failed = Err(ReadFault::Failed);
    let one: Row<'_> = (
        [b"MF", b"D1\x09", b"\x01"],
        [nothing, first, FAILED],
        failed,
    );
    let two: Row<'_> = ([&A_AND_NINE, b"", b""], [kind, FAILED, FAILED], failed);
    let three: Row<'_> = (
        [b"MFD1", &A_AND_NINE[4..30], b"\x09"],
        [nothing, Ok(&AB[..1]), kind],
        failed,
    );
    are_answered(alloc, one) && are_answered(alloc, two) && are_answered(alloc, three)
}

/// Whether other magic is reported with the fourth byte, or at the end.
fn magic_is_reported(alloc: Global) -> bool {
    let nothing: Answer<'_> = Ok(&AB[..0]);
    let magic = Err(fault(0, FeedWhy::Magic));
    let none: Row<'_> = ([b"", b"", b""], [nothing; 3], magic);
    let short: Row<'_> = ([b"x", b"F", b"D"], [nothing; 3], magic);
    let other: Row<'_> = (
        [b"x", b"FD", b"1"],
        [nothing, nothing, Err(fault(0, FeedWhy::Magic))],
        Err(ReadFault::Failed),
    );
    are_answered(alloc, none) && are_answered(alloc, short) && are_answered(alloc, other)
}

/// Whether the end of a feed without operations is none, and that of one that is cut off is reported.
fn ends_are_reported(alloc: Global) -> bool {
    let nothing: Answer<'_> = Ok(&AB[..0]);
    let empty: Row<'_> = ([b"MFD1", b"", b""], [nothing; 3], Ok(()));
    let cut: Row<'_> = (
        [b"MFD1\x02", b"\0", b""],
        [nothing; 3],
        Err(fault(4, FeedWhy::Cut)),
    );
    are_answered(alloc, empty) && are_answered(alloc, cut)
}

#[test]
fn feed_in_pieces(rt: HostRuntime) {
    assert!(rt; kinds_are_reported(rt.alloc()));
    assert!(rt; magic_is_reported(rt.alloc()));
    assert!(rt; ends_are_reported(rt.alloc()));
    assert!(rt; FeedReader::new().finish() == Err(fault(0, FeedWhy::Magic)));
}

/// An operation of each kind, and their feed, and a 9.
const EACH: [Op; 3] = [INSERT_A, DELETE, MEASURE_144];

const EACH_AND_NINE: [u8; 68] = [
    0x4d, 0x46, 0x44, 0x31, 1, 0, 0, 0, 0, 0, 0, 0, 1, 0, 1, 0, 0, 0, 0, 0, 0, 0, 0, 0, 0, 0, 0, 0,
    0, 0x61, 2, 0, 0, 0, 0, 0, 0, 0, 4, 0, 2, 0, 0, 0, 0, 0, 0, 0, 3, 0, 1, 3, 0, 0, 0, 0, 0, 0, 0,
    5, 0, 2, 1, 0, 0, 0, 0x90, 9,
];

/// What so many of these bytes are answered in all, however they are cut.
fn answer_of_prefix(len: usize) -> Answer<'static> {
    match len {
        0..=3 => Err(fault(0, FeedWhy::Magic)),
        4 => Ok(&EACH[..0]),
        5..=29 => Err(fault(4, FeedWhy::Cut)),
        30 => Ok(&EACH[..1]),
        31..=50 => Err(fault(30, FeedWhy::Cut)),
        51 => Ok(&EACH[..2]),
        52..=66 => Err(fault(51, FeedWhy::Cut)),
        67 => Ok(&EACH),
        _ => Err(fault(67, FeedWhy::Kind)),
    }
}

/// The operations of bytes that are cut at these two places.
pub fn read_cut(
    alloc: Global,
    bytes: &[u8],
    first: usize,
    second: usize,
) -> Result<Vec<Op>, ReadFault> {
    let (prefix, third) = bytes.split_at(second.min(bytes.len()));
    let (one, two) = prefix.split_at(first.min(prefix.len()));
    let mut reader = FeedReader::new();
    let mut ops = reader.feed(alloc, one)?;
    ops.extend_from_slice(&reader.feed(alloc, two)?)?;
    ops.extend_from_slice(&reader.feed(alloc, third)?)?;
    reader.finish()?;
    Ok(ops)
}

/// Whether the prefix of these bytes is answered as it is to be, cut at these two places.
fn is_cut_right(alloc: Global, len: usize, first: usize, second: usize) -> bool {
    let bytes = &EACH_AND_NINE[..len.min(68)];
    match (read_cut(alloc, bytes, first, second), answer_of_prefix(len)) {
        (Ok(ops), Ok(want)) => ops.as_slice() == want,
        (Err(fault), Err(want)) => fault == want,
        _ => false,
    }
}

/// Every prefix of the bytes in two pieces, and the feed and the feed with the 9 in three.
#[test]
fn each_cut_of_a_feed(rt: HostRuntime) {
    for len in 0..69usize {
        for first in 0..len.saturating_add(1) {
            assert!(rt;
                is_cut_right(rt.alloc(), len, first, len),
                "{len} bytes cut at {first}"
            );
        }
    }
    for second in 0..69usize {
        for first in 0..second.saturating_add(1) {
            assert!(rt;
                is_cut_right(rt.alloc(), 67, first, second)
                    && is_cut_right(rt.alloc(), 68, first, second),
                "cut at {first} and {second}"
            );
        }
    }
}

/// The operations of bytes that are fed one at a time.
pub fn read_bytes(alloc: Global, bytes: &[u8]) -> Result<Vec<Op>, ReadFault> {
    let mut reader = FeedReader::new();
    let mut ops = Vec::new(alloc);
    for k in 0..bytes.len() {
        ops.extend_from_slice(&reader.feed(alloc, &bytes[k..k + 1])?)?;
    }
    reader.finish()?;
    Ok(ops)
}

#[test]
fn feed_in_bytes(rt: HostRuntime) {
    let all = match read_bytes(rt.alloc(), &FEED_AB) {
        Ok(ops) => ops.as_slice() == AB.as_slice(),
        Err(_) => false,
    };
    assert!(rt; all);
    let cut = read_bytes(rt.alloc(), &FEED_AB[..55]).err();
    assert!(rt; cut == Some(fault(30, FeedWhy::Cut)));
}

/// Feeds a piece in a cut heap, and again with memory where that was refused; whether it was.
fn feed_again(
    heap: &LocalHeap,
    cut: usize,
    reader: &mut FeedReader,
    piece: &[u8],
    want: &[Op],
) -> Result<bool, Fail>
    requires { reader.old.taken + length piece.now < 2 ^ 63 }
    ensures { IfOk result (λ _. reader.new.taken ≡ reader.old.taken + length piece.now) }
{
    let ballast = ballast(heap, cut);
    match reader.feed(heap, piece) {
        Ok(ops) if ops.as_slice() == want => Ok(false),
        Err(ReadFault::NoMemory) => {
            drop(ballast);
            match reader.feed(heap, piece) {
                Ok(ops) if ops.as_slice() == want => Ok(true),
                _ => Err(Fail::new("another answer with memory")),
            }
        }
        _ => Err(Fail::new("another answer")),
    }
}

/// How many of the two pieces of `FEED_AB`, cut at this place, were refused memory in a cut heap.
fn refused_pieces(alloc: Global, cut: usize, place: usize) -> Result<u32, Fail> {
    let heap = LocalHeap::new(alloc, 512)?;
    let (prefix, end) = FEED_AB.split_at(place.min(56));
    let (before, after) = AB.split_at(if place < 30 { 0 } else { 1 });
    let mut reader = FeedReader::new();
    let first = feed_again(&heap, cut, &mut reader, prefix, before)?;
    let second = feed_again(&heap, cut, &mut reader, end, after)?;
    if reader.finish().is_err() {
        return Err(Fail::new("no whole feed"));
    }
    Ok(u32::from(first).saturating_add(u32::from(second)))
}

/// The prefix of `A_AND_NINE`, and a setting of the key 6, which there is not.
const A_AND_NO_KEY: [u8; 46] = [
    0x4d, 0x46, 0x44, 0x31, 1, 0, 0, 0, 0, 0, 0, 0, 1, 0, 1, 0, 0, 0, 0, 0, 0, 0, 0, 0, 0, 0, 0, 0,
    0, 0x61, 3, 0, 0, 0, 0, 0, 0, 0, 5, 0, 2, 6, 0, 0, 0, 0x90,
];

/// The same insert in a feed of runs, and the prefix of a run of 65.
const A_AND_65: [u8; 52] = [
    0x4d, 0x46, 0x44, 0x32, 1, 0, 0, 0, 0, 0, 0, 0, 1, 0, 1, 0, 0, 0, 0, 0, 0, 0, 0, 0, 0, 0, 0, 0,
    0, 0x61, 4, 0, 0, 0, 0, 0, 0, 0, 2, 0, 1, 0, 0, 0, 0, 0, 0, 0, 1, 0, 1, 65,
];

/// Whether the fault of a piece is reported, where so many of its bytes came before, and after it `Failed`.
fn is_reported<A: Allocator + Copy>(
    alloc: A,
    before: usize,
    bytes: &[u8],
    want: ReadFault,
) -> bool {
    if bytes.len() > 100 {
        return false;
    }
    let (prefix, piece) = bytes.split_at(before.min(bytes.len()));
    let mut reader = FeedReader::new();
    is_answered(&mut reader, alloc, prefix, Ok(&AB[..0]))
        && is_answered(&mut reader, alloc, piece, Err(want))
        && is_answered(&mut reader, alloc, b"", FAILED)
}

/// Whether a fault is reported of a piece alone, and of one behind so many bytes that were kept.
fn is_reported_twice<A: Allocator + Copy>(
    alloc: A,
    before: usize,
    bytes: &[u8],
    want: ReadFault,
) -> bool {
    is_reported(alloc, 0, bytes, want) && is_reported(alloc, before, bytes, want)
}

/// Whether each fault is reported, of a piece alone and of one behind bytes that were kept.
fn are_reported<A: Allocator + Copy>(alloc: A) -> bool {
    let no_key = FeedWhy::Unlawful(Unlawful::Key);
    is_reported_twice(alloc, 19, &A_AND_NINE, fault(30, FeedWhy::Kind))
        && is_reported_twice(alloc, 19, &A_AND_NO_KEY, fault(30, no_key))
        && is_reported_twice(alloc, 19, &A_AND_65, fault(30, FeedWhy::Run))
        && is_reported_twice(alloc, 3, &FEED_AB[1..], fault(0, FeedWhy::Magic))
}

/// Whether a cut heap refuses the room of one operation. There, and with memory, each fault is reported.
fn is_reported_without_memory(alloc: Global, cut: usize) -> Result<bool, Fail> {
    let heap = LocalHeap::new(alloc, 512)?;
    let ballast = ballast(&heap, cut);
    let mut reader = FeedReader::new();
    let refused = is_answered(
        &mut reader,
        &heap,
        &A_AND_NINE[..30],
        Err(ReadFault::NoMemory),
    );
    let reported = are_reported(&heap);
    drop(ballast);
    if !reported || !are_reported(&heap) {
        return Err(Fail::new("another answer"));
    }
    Ok(refused)
}

/// How often pieces of a feed that is cut at this place are refused memory, in 16 cut heaps.
fn refused_at(alloc: Global, place: usize) -> Result<u32, Fail> {
    let mut refused = 0u32;
    for cut in 0..16usize {
        refused = refused.saturating_add(refused_pieces(alloc, cut, place)?);
    }
    Ok(refused)
}

/// How many of 16 cut heaps refuse the room of one operation.
fn refused_rooms(alloc: Global) -> Result<u32, Fail> {
    let mut refused = 0u32;
    for cut in 0..16usize {
        refused = refused.saturating_add(u32::from(is_reported_without_memory(alloc, cut)?));
    }
    Ok(refused)
}

/// A piece that was refused memory was not taken: given again with memory it is answered as it would have been. One
/// that shows a fault is reported by it, with memory or without.
#[test]
fn growth_refused_in_pieces(rt: HostRuntime) -> Result<(), Fail> {
    for place in 0..56usize {
        let refused = refused_at(rt.alloc(), place)?;
        assert!(rt;
            1 <= refused && refused <= 31,
            "cut at {place} refused {refused} times"
        );
    }
    let refused = refused_rooms(rt.alloc())?;
    assert!(rt; 1 <= refused && refused <= 15, "refused {refused} times");
    Ok(())
}
