//! Each growth of `make` refused in turn.

use crate::job::cases::{FILLS, WEDGE, case_with, wedge_of};
use crate::job::jobs::{EMPTY_PARAGRAPH, Job, are_faults, replica_of, ribbon};
use desk_case::MatrixCase;
use desk_job::{JobFault, JobRefusal, make};
use desk_ops::Key;
use desk_replica::Replica;
use desk_seq::Flat;
use desk_wedge::Wedge;
use linked_list_allocator::LocalHeap;
use std::alloc::{AllocError, Allocator, Global};
use std::test::Fail;

/// The bytes of a heap: a page of operations takes some 24,000.
const HEAP: usize = 262_144;

/// How often no growth was refused, and how often one was: of those for the copy, and of those for the answer.
#[derive(Clone, Copy)]
struct Tally {
    done: u32,
    copies: u32,
    answers: u32,
}

/// Takes pieces of so many bytes of a heap, as many as it has.
fn take<'a>(
    heap: &'a LocalHeap,
    bytes: usize,
    parts: &mut Vec<Vec<u8, &'a LocalHeap>>,
) -> Result<(), AllocError> {
    for _ in 0..HEAP {
        let Ok(part) = Vec::with_capacity(heap, bytes) else {
            break;
        };
        parts.push(part)?;
    }
    Ok(())
}

/// Takes pieces of 131,072 bytes of a heap, of half as many, and so on down to 16.
fn take_all<'a>(
    heap: &'a LocalHeap,
    parts: &mut Vec<Vec<u8, &'a LocalHeap>>,
) -> Result<(), AllocError> {
    for power in 0..14u32 {
        take(heap, 131_072usize >> power, parts)?;
    }
    Ok(())
}

/// Takes all that a heap has left, but for one piece of so many bytes. Where it has no such piece it takes nothing.
fn fill(
    alloc: Global,
    heap: &LocalHeap,
    bytes: usize,
) -> Result<Vec<Vec<u8, &LocalHeap>>, AllocError> {
    let mut parts = Vec::new(alloc);
    let Ok(piece) = Vec::<u8, &LocalHeap>::with_capacity(heap, bytes) else {
        return Ok(parts);
    };
    take_all(heap, &mut parts)?;
    drop(piece);
    Ok(parts)
}

/// What is wanted of a job: this ribbon, or where that is empty these faults.
#[derive(Clone, Copy)]
struct Want<'a> {
    ribbon: &'a [u8],
    faults: &'a [JobFault],
}

/// Whether an answer is the wanted one.
fn is_right<A: Allocator>(answer: &Result<Vec<u8, A>, JobRefusal<A>>, want: Want<'_>) -> bool {
    match answer {
        Ok(bytes) => bytes.as_slice() == want.ribbon,
        Err(JobRefusal::NoMemory) => false,
        Err(_) => want.ribbon.is_empty() && are_faults(answer, want.faults),
    }
}

/// Whether an answer is out of memory.
fn is_out<A: Allocator>(answer: &Result<Vec<u8, A>, JobRefusal<A>>) -> bool {
    matches!(answer, Err(JobRefusal::NoMemory))
}

/// Whether `make` was out of memory where one heap has so many bytes left. With memory the answer is the one wanted,
/// and so is any other.
fn is_refused<'a>(
    alloc: Global,
    small: &LocalHeap,
    bytes: usize,
    heap: &'a LocalHeap,
    replica: &Replica<Flat<&'a LocalHeap>>,
    case: &MatrixCase,
    wedge: &Wedge,
    want: Want<'_>,
) -> Result<bool, Fail> {
    let parts = fill(alloc, small, bytes)?;
    let first = make(heap, replica, case, wedge);
    drop(parts);
    let refused = is_out(&first);
    let again = make(heap, replica, case, wedge);
    if (refused || is_right(&first, want)) && is_right(&again, want) {
        Ok(refused)
    } else {
        Err(Fail::new("another answer"))
    }
}

/// Reports one step of a replica in a heap: the copy's heap has so many bytes left, and then the answer's. The
/// replica's feed stays the same.
fn refuse<'a>(
    alloc: Global,
    (own, heap): (&'a LocalHeap, &'a LocalHeap),
    replica: &Replica<Flat<&'a LocalHeap>>,
    (case, wedge): (&MatrixCase, &Wedge),
    want: Want<'_>,
    bytes: usize,
) -> Result<(bool, bool), Fail> {
    let copy = is_refused(alloc, own, bytes, heap, replica, case, wedge, want)?;
    let answer = is_refused(alloc, heap, bytes, heap, replica, case, wedge, want)?;
    Ok((copy, answer))
}

/// Whether the replica's feed is this one.
fn has_feed<'a>(replica: &Replica<Flat<&'a LocalHeap>>, feed: &[u8]) -> bool {
    match replica.write_feed() {
        Ok(bytes) => bytes.as_slice() == feed,
        Err(_) => false,
    }
}

/// Refuses each growth of `make` in turn: those for the copy, which its replica takes of one heap, and those for the
/// answer, which are taken of another.
fn refuse_all<'a>(
    alloc: Global,
    heaps: (&'a LocalHeap, &'a LocalHeap),
    replica: &Replica<Flat<&'a LocalHeap>>,
    by: (&MatrixCase, &Wedge),
    want: Want<'_>,
    feed: &[u8],
) -> Result<Tally, Fail> {
    let mut tally = Tally {
        done: 0,
        copies: 0,
        answers: 0,
    };
    for cut in 0..256usize {
        let bytes = cut.saturating_mul(16);
        let (copy, answer) = refuse(alloc, heaps, replica, by, want, bytes)?;
        tally.copies = tally.copies.saturating_add(u32::from(copy));
        tally.answers = tally.answers.saturating_add(u32::from(answer));
        tally.done = tally.done.saturating_add(u32::from(!copy && !answer));
        if !has_feed(replica, feed) {
            return Err(Fail::new("another replica"));
        }
    }
    Ok(tally)
}

/// The same of a replica that is made in the one heap.
fn refuse_in<'a>(
    alloc: Global,
    own: &'a LocalHeap,
    heap: &'a LocalHeap,
    job: Job<'_>,
    by: (&MatrixCase, &Wedge),
    want: Want<'_>,
) -> Result<Tally, Fail> {
    let replica = replica_of(own, job)?;
    let feed = replica.write_feed()?;
    refuse_all(alloc, (own, heap), &replica, by, want, feed.as_slice())
}

/// The same of a job. The replica stays the same.
fn refuse_each(alloc: Global, job: Job<'_>, want: Want<'_>) -> Result<Tally, Fail> {
    let wedge = wedge_of(alloc, WEDGE)?;
    let case = case_with(alloc, job.fill)?;
    let own = LocalHeap::new(alloc, HEAP)?;
    let heap = LocalHeap::new(alloc, HEAP)?;
    refuse_in(alloc, &own, &heap, job, (&case, &wedge), want)
}

/// What is reported of the growths of a text's job, all else as it is in most. Its ribbon is that of the empty
/// paragraph where it is one.
fn tally_of(alloc: Global, text: &str) -> Result<Tally, Fail> {
    let job = Job {
        text,
        fill: FILLS,
        more: &[],
    };
    let made = ribbon(alloc, job)?;
    if text.len() <= 1 && made.as_slice() != EMPTY_PARAGRAPH.as_slice() {
        return Err(Fail::new("another ribbon of the empty paragraph"));
    }
    let want = Want {
        ribbon: &made,
        faults: &[],
    };
    refuse_each(alloc, job, want)
}

/// An empty paragraph, and two paragraphs, of two lines and of one.
#[test]
fn growths_of_ribbons(rt: HostRuntime) -> Result<(), Fail> {
    for &text in &["\n", "nnn nnn nnn nnn nnn nnn\nnnn"] {
        let tally = tally_of(rt.alloc(), text)?;
        assert!(rt;
            tally.done > 1 && tally.copies > u32::from(text.len() > 1) && tally.answers > 1,
            "{text}"
        );
    }
    Ok(())
}

/// Symbols that the case lacks, lines with no space, lines that are not to be filled and too loose, each followed by
/// one that can be set, and lines that cannot be filled.
const FAULTS: [(&str, &str, &[(Key, u32)], &[JobFault]); 4] = [
    (
        "aqnzaqnzaq",
        FILLS,
        &[],
        &[
            JobFault::NoMatrix(1),
            JobFault::NoMatrix(3),
            JobFault::NoMatrix(5),
            JobFault::NoMatrix(7),
            JobFault::NoMatrix(9),
        ],
    ),
    (
        "nnnnnnnnnnnnnnnnnn\nnnnnnnnnnnnnnnnnnn",
        FILLS,
        &[],
        &[JobFault::TooWide(1), JobFault::TooWide(2)],
    ),
    (
        "nnn nnn nnn nnn nnn nnn\nnnn nnn nnn nnn nnn nnn",
        FILLS,
        &[(Key::Loose, 60)],
        &[JobFault::TooLoose(1), JobFault::TooLoose(3)],
    ),
    (
        "\n\n\n\n\n",
        "'O15'",
        &[],
        &[
            JobFault::CannotFill(1),
            JobFault::CannotFill(2),
            JobFault::CannotFill(3),
            JobFault::CannotFill(4),
            JobFault::CannotFill(5),
        ],
    ),
];

/// What is reported of the growths of a job with these faults.
fn tally_of_faults(
    alloc: Global,
    text: &str,
    fill: &str,
    more: &[(Key, u32)],
    faults: &[JobFault],
) -> Result<Tally, Fail> {
    let want = Want {
        ribbon: &[],
        faults,
    };
    refuse_each(alloc, Job { text, fill, more }, want)
}

#[test]
fn growths_of_faults(rt: HostRuntime) -> Result<(), Fail> {
    for &(text, fill, more, faults) in &FAULTS {
        let tally = tally_of_faults(rt.alloc(), text, fill, more, faults)?;
        assert!(rt;
            tally.done > 1 && tally.copies > 1 && tally.answers > 1,
            "{text}"
        );
    }
    Ok(())
}
