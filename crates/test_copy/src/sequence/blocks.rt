//! Blocks against `Flat`, which keeps its entries in one list.
ghost use Rattle.std.specs.Prelude.{◌≡◌, IfOk};

use crate::sequence::numbers::{next, pick};
use desk_blocks::Blocks;
use desk_ops::{Stamp, Style, Symbol};
use desk_seq::{Entry, Flat, Sequence, integrate};
use linked_list_allocator::LocalHeap;
use std::alloc::{AllocError, Allocator, Global};
use std::test::Fail;

fn typed(counter: u64, site: u16) -> Entry {
    Entry {
        stamp: Stamp { counter, site },
        symbol: Symbol {
            style: Style::Roman,
            ch: 'a',
        },
        deleted: false,
    }
}

/// Puts an entry where its stamp is not there and the place is.
fn put<Q: Sequence>(sequence: &mut Q, place: usize, entry: Entry) -> Result<(), AllocError> {
    if sequence.spare() == 0 {
        sequence.reserve(7)?;
    }
    if place > sequence.len() {
        return Ok(());
    }
    match sequence.find(entry.stamp) {
        Some(_) => Ok(()),
        None => {
            sequence.put(place, entry);
            Ok(())
        }
    }
}

fn mark<Q: Sequence>(sequence: &mut Q, place: usize) {
    if place < sequence.len() {
        sequence.mark(place);
    }
}

/// Whether both answer alike of a place and a stamp.
fn are_alike_at<Q: Sequence, R: Sequence>(one: &Q, other: &R, place: usize, stamp: Stamp) -> bool {
    if one.find(stamp) != other.find(stamp) || one.shown_place(place) != other.shown_place(place) {
        return false;
    }
    if place > one.len() || place > other.len() {
        return place > one.len() && place > other.len();
    }
    if one.first_below(place, stamp) != other.first_below(place, stamp) {
        return false;
    }
    if place == one.len() || place == other.len() {
        return place == one.len() && place == other.len();
    }
    one.entry(place) == other.entry(place)
}

/// Whether both answer alike of every place, at one of the first stamps each.
fn are_alike<Q: Sequence, R: Sequence>(one: &Q, other: &R) -> bool {
    if one.len() != other.len() || one.shown_len() != other.shown_len() {
        return false;
    }
    let mut seed = 7;
    for place in 0..one.len() {
        seed = next(seed);
        let stamp = typed(pick(seed, 30_000) as u64, 1).stamp;
        if !are_alike_at(one, other, place, stamp) {
            return false;
        }
    }
    are_alike_at(one, other, one.len(), typed(0, 0).stamp)
}

/// Whether both answer alike of so many random places, at a stamp each, which is often among the least.
fn are_alike_in_parts<Q: Sequence, R: Sequence>(one: &Q, other: &R, parts: u32) -> bool {
    if one.len() != other.len() || one.shown_len() != other.shown_len() {
        return false;
    }
    let mut seed = 7;
    for k in 0..parts {
        seed = next(seed);
        let place = pick(seed, one.len().saturating_add(1));
        let counter = pick(next(seed), 30_000usize >> (k % 16));
        if !are_alike_at(one, other, place, typed(counter as u64, 1).stamp) {
            return false;
        }
    }
    true
}

/// One put, mark, look-up or preparation of one at random in both, and whether they answered alike.
fn step<Q: Sequence, R: Sequence>(
    one: &mut Q,
    other: &mut R,
    seed: u64,
) -> Result<bool, AllocError> {
    let more = next(seed);
    let place = pick(seed, one.len().saturating_add(1));
    let entry = typed(pick(more, 30_000) as u64, (seed >> 60) as u16);
    match seed % 8 {
        0 => {
            mark(one, place);
            mark(other, place);
        }
        1 => {
            one.prepare_find();
            other.prepare_find();
        }
        2 | 3 => return Ok(are_alike_at(one, other, place, entry.stamp)),
        _ => {
            put(one, place, entry)?;
            put(other, place, entry)?;
        }
    }
    Ok(true)
}

/// So many steps, and both compared at every place after each 4,000.
fn run<Q: Sequence, R: Sequence>(
    one: &mut Q,
    other: &mut R,
    first: u64,
    steps: u32,
) -> Result<bool, AllocError> {
    let mut seed = first;
    for k in 0..steps {
        seed = next(seed);
        if !step(one, other, seed)? {
            return Ok(false);
        }
        if k % 4000 == 3999 && !are_alike(one, other) {
            return Ok(false);
        }
    }
    Ok(true)
}

/// The entries of a sequence.
fn listed<Q: Sequence, A: Allocator>(sequence: &Q, alloc: A) -> Result<Vec<Entry, A>, AllocError>
    ensures { IfOk result (λ list. list.items ≡ Q.entries sequence.now) }
{
    let mut list = Vec::with_capacity(alloc, sequence.len())?;
    for i in 0..sequence.len() {
        list.push_reserved(sequence.entry(i));
    }
    Ok(list)
}

/// A sequence made of the entries of another.
fn made_of<Q: Sequence, R: Sequence, A: Allocator>(
    sequence: &Q,
    alloc: A,
    memory: R::Memory,
) -> Result<R, AllocError> {
    let list = listed(sequence, alloc)?;
    let _ = sequence.len();
    R::from_entries(memory, list.as_slice())
}

/// Whether a sequence that is made of the entries of another is like it, and answers 4,000 random calls alike.
fn goes_on_alike<Q: Sequence, R: Sequence>(
    one: &mut Q,
    alloc: Global,
    memory: R::Memory,
) -> Result<bool, AllocError> {
    let mut made: R = made_of(one, alloc, memory)?;
    Ok(are_alike(one, &made) && run(one, &mut made, 2, 4_000)?)
}

/// Whether both kinds answer 20,000 random calls alike, which leave more than 5,000 entries, and so do a sequence made
/// of these and the first.
fn are_calls_alike<Q: Sequence, R: Sequence>(
    alloc: Global,
    memory: Q::Memory,
    more: R::Memory,
) -> Result<bool, AllocError> {
    let mut one = Q::empty(memory);
    let mut other = R::empty(more);
    Ok(
        run(&mut one, &mut other, 1, 20_000)?
            && one.len() > 5_000
            && goes_on_alike::<Q, R>(&mut one, alloc, more)?,
    )
}

#[test]
fn random_calls_answer_alike(rt: HostRuntime) -> Result<(), Fail> {
    assert!(rt;
        are_calls_alike::<Flat<Global>, Blocks<Global>>(rt.alloc(), rt.alloc(), rt.alloc())?
    );
    Ok(())
}

/// So many entries, each at a random place.
fn scatter<Q: Sequence>(sequence: &mut Q, number: u64) -> Result<(), AllocError> {
    let mut seed = 3;
    for counter in 0..number {
        seed = next(seed);
        let place = pick(seed, sequence.len().saturating_add(1));
        put(sequence, place, typed(counter, 1))?;
    }
    Ok(())
}

/// Whether both list the same symbols.
fn are_listed_alike<Q: Sequence, R: Sequence>(
    one: &Q,
    other: &R,
    memory: Q::Memory,
    more: R::Memory,
) -> Result<bool, AllocError> {
    let symbols = one.symbols(memory)?;
    let others = other.symbols(more)?;
    Ok(symbols.as_slice() == others.as_slice())
}

/// 3,000 steps, and both compared in parts and by their symbols.
fn run_long<Q: Sequence, R: Sequence>(
    one: &mut Q,
    other: &mut R,
    first: u64,
    memory: Q::Memory,
    more: R::Memory,
) -> Result<bool, AllocError> {
    let is_alike = run(one, other, first, 3_000)?;
    Ok(
        is_alike
            && are_alike_in_parts(one, other, 2_000)
            && are_listed_alike(one, other, memory, more)?,
    )
}

/// 70,000 entries at random places.
fn scattered<Q: Sequence>(memory: Q::Memory) -> Result<Q, AllocError> {
    let mut sequence = Q::empty(memory);
    scatter(&mut sequence, 70_000)?;
    Ok(sequence)
}

/// Whether 70,000 entries, cut at random places, answer alike in both.
fn is_cut_alike<Q: Sequence, R: Sequence>(
    one: &mut Q,
    other: &mut R,
    memory: Q::Memory,
    more: R::Memory,
) -> Result<bool, AllocError> {
    Ok(one.len() == 70_000 && run_long(one, other, 1, memory, more)?)
}

/// Whether a sequence that is made of the entries of another answers alike.
fn is_made_alike<Q: Sequence, R: Sequence>(
    one: &mut Q,
    alloc: Global,
    memory: Q::Memory,
    more: R::Memory,
) -> Result<bool, AllocError> {
    let mut made: R = made_of(one, alloc, more)?;
    run_long(one, &mut made, 2, memory, more)
}

/// Whether both kinds answer alike of many pages, cut at random places and then laid out in full pages.
fn are_pages_alike<Q: Sequence, R: Sequence>(
    alloc: Global,
    memory: Q::Memory,
    more: R::Memory,
) -> Result<bool, AllocError> {
    let mut cut: R = scattered(more)?;
    let mut flat: Q = made_of(&cut, alloc, memory)?;
    if !is_cut_alike(&mut flat, &mut cut, memory, more)? {
        return Ok(false);
    }
    is_made_alike::<Q, R>(&mut flat, alloc, memory, more)
}

/// Over more than eight groups of 32 pages, cut at random places or laid out in full pages.
#[test]
fn many_pages_answer_alike(rt: HostRuntime) -> Result<(), Fail> {
    assert!(rt;
        are_pages_alike::<Flat<Global>, Blocks<Global>>(rt.alloc(), rt.alloc(), rt.alloc())?
    );
    Ok(())
}

/// The most entries of a block.
fn greatest<A: Allocator + Copy>(sequence: &Blocks<A>) -> usize {
    let mut most = 0;
    let mut at = 0usize;
    for _ in 0..sequence.len() {
        if at >= sequence.len() {
            break;
        }
        let part = sequence.stretch_len(at);
        most = most.max(part);
        at = at.saturating_add(part);
    }
    most
}

/// 2,000 entries at the front, in the middle and at the end; the most entries that a block ever held.
fn grown<A: Allocator + Copy>(sequence: &mut Blocks<A>) -> Result<usize, AllocError> {
    let mut most = 0;
    for k in 0..6_000u64 {
        let place = match k / 2_000 {
            0 => 0,
            1 => sequence.len() / 2,
            _ => sequence.len(),
        };
        put(sequence, place, typed(k, 1))?;
        most = most.max(greatest(sequence));
    }
    Ok(most)
}

#[test]
fn no_block_holds_more_than_256(rt: HostRuntime) -> Result<(), Fail> {
    let mut blocks = Blocks::empty(rt.alloc());
    assert_eq!(rt; grown(&mut blocks)?, 256);
    assert_eq!(rt; blocks.len(), 6_000);
    Ok(())
}

/// Puts an entry where the scan from its parent leads.
fn arrive<Q: Sequence>(sequence: &mut Q, entry: Entry) -> Result<(), AllocError> {
    if sequence.spare() == 0 {
        sequence.reserve(7)?;
    }
    match sequence.find(entry.stamp) {
        Some(_) => Ok(()),
        None => {
            integrate(sequence, entry, Stamp::HEAD);
            Ok(())
        }
    }
}

/// 2,000 entries that hang on the head, in ascending or descending stamps.
fn arrived<Q: Sequence>(sequence: &mut Q, falling: bool) -> Result<(), AllocError> {
    for k in 0..2_000u64 {
        let counter = if falling { 2_000 - k } else { k + 1 };
        arrive(sequence, typed(counter, 1))?;
    }
    Ok(())
}

/// Whether the stamps fall from 2,000 to 1.
fn falls<Q: Sequence>(sequence: &Q) -> bool {
    for i in 0..sequence.len() {
        if sequence.entry(i).stamp.counter.saturating_add(i as u64) != 2_000 {
            return false;
        }
    }
    sequence.len() == 2_000
}

/// Whether the latest stands first in both kinds.
fn fall_alike<Q: Sequence, R: Sequence>(
    memory: Q::Memory,
    more: R::Memory,
    falling: bool,
) -> Result<bool, AllocError> {
    let mut one = Q::empty(memory);
    let mut other = R::empty(more);
    arrived(&mut one, falling)?;
    arrived(&mut other, falling)?;
    Ok(falls(&one) && falls(&other) && are_alike(&one, &other))
}

/// In whichever order they arrive, the latest stands first.
#[test]
fn two_thousand_inserts(rt: HostRuntime) -> Result<(), Fail> {
    for falling in [false, true] {
        assert!(rt; fall_alike::<Flat<Global>, Blocks<Global>>(rt.alloc(), rt.alloc(), falling)?);
    }
    Ok(())
}

/// 300 entries, each at a third of the length.
fn fill<Q: Sequence>(sequence: &mut Q) -> Result<(), AllocError> {
    for k in 0..300u64 {
        let place = sequence.len() / 3;
        put(sequence, place, typed(k, 2))?;
    }
    Ok(())
}

/// Whether a reserve of 1,000 was refused beside a ballast of so many bytes: the sequence stays as it was, and with
/// memory the same call gives room that takes none.
fn is_reserve_refused<Q: Sequence, R: Sequence>(
    filled: &Q,
    memory: R::Memory,
    heap: &LocalHeap,
    bytes: usize,
) -> Result<bool, Fail> {
    let mut sequence = R::empty(memory);
    fill(&mut sequence)?;
    let spare = sequence.spare();
    let ballast: Option<Vec<u8, &LocalHeap>> = Vec::with_capacity(heap, bytes).ok();
    let refused = sequence.reserve(1_000).is_err();
    drop(ballast);
    if sequence.spare() < spare || !are_alike_in_parts(filled, &sequence, 20) {
        return Err(Fail::new("a refused reserve changed the sequence"));
    }
    sequence.reserve(1_000)?;
    if sequence.spare() < 1_000 || !are_alike_in_parts(filled, &sequence, 20) {
        return Err(Fail::new("no room"));
    }
    Ok(refused)
}

/// The same of blocks in a heap of their own.
fn is_reserve_refused_in_heap(
    alloc: Global,
    filled: &Flat<Global>,
    bytes: usize,
) -> Result<bool, Fail> {
    let heap = LocalHeap::new(alloc, 524_288)?;
    is_reserve_refused::<Flat<Global>, Blocks<&LocalHeap>>(filled, &heap, &heap, bytes)
}

/// Each growth of `reserve` refused, in heaps of which ever 32 bytes more are left.
#[test]
fn refused_reserves_change_nothing(rt: HostRuntime) -> Result<(), Fail> {
    let mut flat = Flat::empty(rt.alloc());
    fill(&mut flat)?;
    let mut refused = 0u32;
    for cut in 0..2_400usize {
        let is_one = is_reserve_refused_in_heap(rt.alloc(), &flat, 440_000 - cut * 32)?;
        refused = refused.saturating_add(u32::from(is_one));
    }
    assert!(rt; refused > 500 && refused < 2_000, "{refused} refused");
    Ok(())
}

/// The bytes of a heap that has room for a sequence of 600 and little more.
const LIST_HEAP: usize = 65_536;

/// Whether no sequence is made of the entries of another where so many bytes are left: all memory is given back, so
/// that the same call makes it.
fn is_list_refused<Q: Sequence, R: Sequence>(
    listed: &Q,
    alloc: Global,
    memory: R::Memory,
    heap: &LocalHeap,
    left: usize,
) -> Result<bool, Fail> {
    let ballast: Option<Vec<u8, &LocalHeap>> = Vec::with_capacity(
        heap,
        LIST_HEAP.saturating_sub(left),
    ).ok();
    let first = made_of::<Q, R, Global>(listed, alloc, memory);
    drop(ballast);
    let refused = first.is_err();
    if let Ok(made) = first
        && !are_alike_in_parts(listed, &made, 20)
    {
        return Err(Fail::new("another sequence was made"));
    }
    let made: R = made_of(listed, alloc, memory)?;
    if !are_alike_in_parts(listed, &made, 20) {
        return Err(Fail::new("another sequence was made with memory"));
    }
    Ok(refused)
}

/// The same of blocks in a heap of their own.
fn is_list_refused_in_heap(
    alloc: Global,
    listed: &Flat<Global>,
    left: usize,
) -> Result<bool, Fail> {
    let heap = LocalHeap::new(alloc, LIST_HEAP)?;
    is_list_refused::<Flat<Global>, Blocks<&LocalHeap>>(listed, alloc, &heap, &heap, left)
}

/// Each growth of `from_entries` refused, in heaps of which ever 16 bytes more are left.
#[test]
fn refused_lists_are_not_made(rt: HostRuntime) -> Result<(), Fail> {
    let mut flat = Flat::empty(rt.alloc());
    scatter(&mut flat, 600)?;
    let mut refused = 0u32;
    for cut in 0..3_200usize {
        let is_one = is_list_refused_in_heap(rt.alloc(), &flat, cut * 16)?;
        refused = refused.saturating_add(u32::from(is_one));
    }
    assert!(rt; refused > 2_000 && refused < 3_200, "{refused} refused");
    Ok(())
}
