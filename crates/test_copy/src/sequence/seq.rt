//! Arrivals in a sequence.

ghost use Rattle.std.specs.Prelude.{◌≡◌};

use desk_ops::{Stamp, Style, Symbol};
use desk_seq::{Entry, Flat, Sequence, integrate};
use linked_list_allocator::LocalHeap;
use std::alloc::{AllocError, Allocator, Global};
use std::test::Fail;

fn at(counter: u64, site: u16) -> Stamp
    ensures { result ≡ record { counter = counter; site = site } }
{
    Stamp { counter, site }
}

fn typed(stamp: Stamp, ch: char) -> Entry
    ensures { result.stamp ≡ stamp }
{
    Entry {
        stamp,
        symbol: Symbol {
            style: Style::Roman,
            ch,
        },
        deleted: false,
    }
}

/// A sequence from a list of three.
#[tactic(auto, unfolding(desk_ops::specs::Stamp::same))]
fn made<A: Allocator + Copy>(alloc: A) -> Result<Flat<A>, AllocError> {
    let list = [
        typed(at(1, 1), 'a'),
        typed(at(2, 1), 'b'),
        typed(at(2, 2), 'c'),
    ];
    Flat::from_entries(alloc, &list)
}

/// Takes in an element, where there is memory for it, its stamp is new and its parent is there.
fn arrive<Q: Sequence>(sequence: &mut Q, entry: Entry, parent: Stamp) -> bool {
    if sequence.reserve(1).is_err() || sequence.find(entry.stamp).is_some() {
        return false;
    }
    if !Stamp::HEAD.is_same(parent) && sequence.find(parent).is_none() {
        return false;
    }
    integrate(sequence, entry, parent);
    true
}

/// Whether the copy is shown as these characters.
fn shows<Q: Sequence>(sequence: &Q, text: &str) -> bool {
    for (i, ch) in text.chars().enumerate() {
        match sequence.shown_place(i) {
            Some(at) if sequence.entry(at).symbol.ch == ch => {}
            _ => return false,
        }
    }
    let len = text.chars().count();
    sequence.shown_len() == len && sequence.shown_place(len).is_none()
}

/// Whether the copy is read as these characters; none where memory is refused.
fn reads<Q: Sequence>(sequence: &Q, alloc: Q::Memory, text: &str) -> Option<bool> {
    let Ok(symbols) = sequence.symbols(alloc) else {
        return None;
    };
    for (i, ch) in text.chars().enumerate() {
        if i >= symbols.len() || symbols[i].ch != ch {
            return Some(false);
        }
    }
    Some(symbols.len() == text.chars().count())
}

/// The stamp of a counter and a site; that of the head is of twice 0.
fn stamp_of(numbers: (u64, u16)) -> Stamp {
    Stamp {
        counter: numbers.0,
        site: numbers.1,
    }
}

/// Whether an element arrives, once, and the sequence is then shown and read as these characters.
fn arrives<Q: Sequence>(
    sequence: &mut Q,
    entry: Entry,
    parent: Stamp,
    alloc: Q::Memory,
    text: &str,
) -> bool {
    arrive(sequence, entry, parent)
        && shows(sequence, text)
        && reads(sequence, alloc, text) == Some(true)
        && !arrive(sequence, entry, parent)
}

/// Arrivals in an order of their own: a newer sibling comes before an older one and what hangs on it.
#[test]
fn five_arrivals(rt: HostRuntime) {
    let mut copy = Flat::empty(rt.alloc());
    let table = [
        ((1, 1), 'a', (0, 0), "a"),
        ((2, 2), 'c', (1, 1), "ac"),
        ((3, 2), 'e', (2, 2), "ace"),
        ((2, 1), 'b', (1, 1), "aceb"),
        ((4, 3), 'z', (0, 0), "zaceb"),
    ];
    for (stamp, ch, parent, text) in table {
        let entry = typed(stamp_of(stamp), ch);
        let parent = stamp_of(parent);
        assert!(rt;
            arrives(&mut copy, entry, parent, rt.alloc(), text),
            "{text}"
        );
    }
    assert!(rt; !arrive(&mut copy, typed(at(9, 9), 'x'), at(8, 8)));
    assert!(rt; shows(&copy, "zaceb"));
}

/// A deleted element keeps its place, and what hangs on it is shown.
#[test]
fn deleted_parent_keeps_its_place(rt: HostRuntime) {
    let mut copy = Flat::empty(rt.alloc());
    assert!(rt; arrive(&mut copy, typed(at(1, 1), 'a'), Stamp::HEAD));
    assert!(rt; arrive(&mut copy, typed(at(2, 1), 'd'), at(1, 1)));
    assert!(rt; copy.len() == 2);
    copy.mark(0);
    assert!(rt; shows(&copy, "d"));
    assert!(rt; arrive(&mut copy, typed(at(3, 2), 'b'), at(1, 1)));
    assert!(rt; shows(&copy, "bd"));
    assert_eq!(rt; reads(&copy, rt.alloc(), "bd"), Some(true));
    assert_eq!(rt; copy.find(at(1, 1)), Some(0));
    assert_eq!(rt; copy.find(at(3, 2)), Some(1));
    assert_eq!(rt; copy.find(at(9, 9)), None);
}

/// Whether a sequence has room for so many, and is shown as this text.
fn has_room<A: Allocator + Copy>(copy: &Flat<A>, spare: usize, text: &str) -> bool {
    copy.spare() >= spare && shows(copy, text)
}

/// Whether a reserve is refused: the sequence then has as much room as it had, and is shown as it was.
fn is_reserve_refused<A: Allocator + Copy>(copy: &mut Flat<A>) -> Result<bool, Fail> {
    let spare = copy.spare();
    if copy.reserve(30).is_ok() {
        return Ok(false);
    }
    if has_room(copy, spare, "a") {
        Ok(true)
    } else {
        Err(Fail::new("a refused reserve changed the sequence"))
    }
}

/// Whether no sequence of three is made.
fn is_unmade<A: Allocator + Copy>(alloc: A) -> bool {
    made(alloc).is_err()
}

/// The refused reserves, makings and readings beside a ballast of so many bytes.
fn refused_beside<A: Allocator + Copy>(
    alloc: A,
    copy: &mut Flat<A>,
    bytes: usize,
) -> Result<(u32, u32, u32), Fail> {
    let _ballast: Option<Vec<u8, A>> = Vec::with_capacity(alloc, bytes).ok();
    let refused = is_reserve_refused(copy)?;
    let (unmade, unread) = (is_unmade(alloc), reads(copy, alloc, "a").is_none());
    Ok((u32::from(refused), u32::from(unmade), u32::from(unread)))
}

/// Whether a sequence of one takes 30 more and is shown and read, and one of three is made beside it.
fn goes_on<A: Allocator + Copy>(alloc: A, copy: &mut Flat<A>) -> Result<bool, AllocError> {
    copy.reserve(30)?;
    let is_right = has_room(copy, 30, "a") && reads(copy, alloc, "a") == Some(true);
    Ok(is_right && shows(&made(alloc)?, "abc"))
}

/// The refused reserves, makings and readings of a sequence of one, beside a ballast of so many bytes.
fn refusals<A: Allocator + Copy>(alloc: A, bytes: usize) -> Result<(u32, u32, u32), Fail> {
    let mut copy = Flat::empty(alloc);
    if !arrive(&mut copy, typed(at(1, 1), 'a'), Stamp::HEAD) {
        return Err(Fail::new("the element does not arrive"));
    }
    let refused = refused_beside(alloc, &mut copy, bytes)?;
    if goes_on(alloc, &mut copy)? {
        Ok(refused)
    } else {
        Err(Fail::new("another sequence"))
    }
}

/// The same in a heap of its own.
fn refusals_in_heap(alloc: Global, bytes: usize) -> Result<(u32, u32, u32), Fail> {
    let heap = LocalHeap::new(alloc, 4096)?;
    refusals(&heap, bytes)
}

/// Each growth of `reserve`, `symbols` and `from_entries` refused: the sequence is as it was, and the call repeated
/// with memory leaves room for all that was asked for.
#[test]
fn refused_growths_of_flat(rt: HostRuntime) -> Result<(), Fail> {
    let mut refused = 0u32;
    let mut unmade = 0u32;
    let mut unread = 0u32;
    for cut in 0..96usize {
        let (grown, listed, read) = refusals_in_heap(rt.alloc(), 4096 - cut * 16)?;
        refused = refused.saturating_add(grown);
        unmade = unmade.saturating_add(listed);
        unread = unread.saturating_add(read);
    }
    assert!(rt;
        refused > 3 && refused < 96 && unmade > 3 && unmade < 96 && unread > 0 && unread < 96
    );
    Ok(())
}
