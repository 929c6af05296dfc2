use crate::ops::{at, typed};
use desk_codec::{read_feed, write_runs};
use desk_held::Held;
use desk_memory::NoMemory;
use desk_ops::{Key, Op, Stamp, Style, Symbol};
use linked_list_allocator::LocalHeap;
use std::alloc::{AllocError, Allocator, Global};
use std::test::Fail;

/// Lawful operations as a replica holds them.
fn held_of(alloc: Global, ops: &[Op]) -> Result<Held<Global>, Fail> {
    let mut held = Held::new(alloc);
    for op in ops {
        if op.check().is_err() || held.add(*op).is_err() {
            return Err(Fail::new("an operation is refused"));
        }
    }
    Ok(held)
}

/// The feed of runs of what is held, in its order.
fn feed_of<A: Allocator + Copy>(alloc: A, held: &Held<Global>) -> Result<Vec<u8, A>, NoMemory> {
    let ops = held.in_order()?;
    write_runs(alloc, &ops)
}

/// So many symbols that the sites type in turn, each site after what it typed itself.
fn typed_in_turn(alloc: Global, many: u64, sites: u16) -> Result<Vec<Op>, AllocError> {
    let mut ops = Vec::new(alloc);
    for counter in 1..=many {
        for site in 1..=sites {
            let parent = if counter == 1 {
                Stamp::HEAD
            } else {
                at(counter.saturating_sub(1), site)
            };
            ops.push(typed(at(counter, site), parent, 'a'))?;
        }
    }
    Ok(ops)
}

/// Whether the feed of so many symbols by so many sites has this size.
fn is_of_size(alloc: Global, many: u64, sites: u16, size: usize) -> Result<bool, Fail> {
    let ops = typed_in_turn(alloc, many, sites)?;
    let held = held_of(alloc, &ops)?;
    Ok(feed_of(alloc, &held)?.len() == size)
}

/// How many symbols, by how many sites, and the size of their feed.
const SIZES: [(u64, u16, usize); 11] = [
    (0, 1, 4),
    (1, 1, 30),
    (2, 1, 36),
    (63, 1, 341),
    (64, 1, 346),
    (65, 1, 372),
    (66, 1, 378),
    (129, 1, 714),
    (64, 2, 688),
    (65, 2, 740),
    (65, 3, 1108),
];

/// A run has 2 to 64 symbols, and takes 22 bytes and 5 for each; one symbol alone takes 26.
#[test]
fn sizes_of_runs(rt: HostRuntime) -> Result<(), Fail> {
    for &(many, sites, size) in &SIZES {
        assert!(rt;
            is_of_size(rt.alloc(), many, sites, size)?,
            "{many} by {sites}"
        );
    }
    Ok(())
}

/// The run of 1.1, 2.1 and 3.1, and then 2.2.
const FEED_OF_RUN: [u8; 67] = *b"MFD2\
    \x04\0\0\0\0\0\0\0\x01\0\x01\0\0\0\0\0\0\0\0\0\0\x03\0\0\0\0a\0\0\0\0b\0\0\0\0c\
    \x01\0\0\0\0\0\0\0\x02\0\x02\0\0\0\0\0\0\0\x01\0\x01\0\0\0\0x";

/// Whether the feed has the size and is read as the other list.
fn is_read_as(alloc: Global, ops: &[Op], read: &[Op], size: usize) -> Result<bool, Fail> {
    let held = held_of(alloc, ops)?;
    let bytes = feed_of(alloc, &held)?;
    Ok(bytes.len() == size && read_feed(alloc, &bytes)?.as_slice() == read)
}

const ONE_1: Stamp = Stamp {
    counter: 1,
    site: 1,
};

const TWO_1: Stamp = Stamp {
    counter: 2,
    site: 1,
};

const TWO_2: Stamp = Stamp {
    counter: 2,
    site: 2,
};

const THREE_1: Stamp = Stamp {
    counter: 3,
    site: 1,
};

const ROMAN_A: Symbol = Symbol {
    style: Style::Roman,
    ch: 'a',
};

const ROMAN_B: Symbol = Symbol {
    style: Style::Roman,
    ch: 'b',
};

const ROMAN_C: Symbol = Symbol {
    style: Style::Roman,
    ch: 'c',
};

const ROMAN_X: Symbol = Symbol {
    style: Style::Roman,
    ch: 'x',
};

const A: Op = Op::Insert {
    stamp: ONE_1,
    parent: Stamp::HEAD,
    symbol: ROMAN_A,
};

const B: Op = Op::Insert {
    stamp: TWO_1,
    parent: ONE_1,
    symbol: ROMAN_B,
};

const C: Op = Op::Insert {
    stamp: THREE_1,
    parent: TWO_1,
    symbol: ROMAN_C,
};

const X: Op = Op::Insert {
    stamp: TWO_2,
    parent: ONE_1,
    symbol: ROMAN_X,
};

const FORK: Op = Op::Insert {
    stamp: TWO_1,
    parent: ONE_1,
    symbol: ROMAN_X,
};

const LATE: Op = Op::Insert {
    stamp: THREE_1,
    parent: ONE_1,
    symbol: ROMAN_C,
};

const OTHER: Op = Op::Insert {
    stamp: TWO_1,
    parent: Stamp::HEAD,
    symbol: ROMAN_B,
};

const DELETE: Op = Op::Delete {
    stamp: TWO_1,
    target: ONE_1,
};

const SET: Op = Op::Set {
    stamp: THREE_1,
    key: Key::Measure,
    value: 144,
};

/// Operations, how their feed is read, and its size.
const FEEDS: [(&[Op], &[Op], usize); 6] = [
    (&[A, B, X, C], &[A, B, C, X], 67),
    // A forked stamp is in no run, and what follows it stands alone.
    (&[A, B, FORK, C], &[A, B, FORK, C], 108),
    (&[A, LATE], &[A, LATE], 56),
    (&[A, OTHER], &[A, OTHER], 56),
    (&[A, DELETE, SET], &[A, DELETE, SET], 67),
    (&[A, DELETE, LATE], &[A, DELETE, LATE], 77),
];

#[test]
fn worked_runs(rt: HostRuntime) -> Result<(), Fail> {
    let held = held_of(rt.alloc(), &[A, B, X, C])?;
    assert!(rt; feed_of(rt.alloc(), &held)?.as_slice() == FEED_OF_RUN.as_slice());
    for &(ops, read, size) in &FEEDS {
        assert!(rt; is_read_as(rt.alloc(), ops, read, size)?, "{size} bytes");
    }
    Ok(())
}

/// The run of 1.1, 2.1 and 3.1, each an `a`.
const FEED_OF_THREE: [u8; 41] =
    *b"MFD2\x04\0\0\0\0\0\0\0\x01\0\x01\0\0\0\0\0\0\0\0\0\0\x03\0\0\0\0a\0\0\0\0a\0\0\0\0a";

/// Whether writing in a heap of which a part is taken is refused; none where the feed is another, then or with the part
/// given back.
fn is_refused(alloc: Global, held: &Held<Global>, taken: usize) -> Result<Option<bool>, Fail> {
    let heap = LocalHeap::new(alloc, 1024)?;
    let ballast: Result<Vec<u8, &LocalHeap>, AllocError> = Vec::with_capacity(&heap, taken);
    let refused = match feed_of(&heap, held) {
        Ok(bytes) if bytes.as_slice() == FEED_OF_THREE.as_slice() => false,
        Ok(_) => return Ok(None),
        Err(NoMemory) => true,
    };
    drop(ballast);
    Ok(if feed_of(&heap, held)?.as_slice() == FEED_OF_THREE.as_slice() {
        Some(refused)
    } else {
        None
    })
}

/// A refused growth is out of memory, and with memory the feed is written.
#[test]
fn growth_refused_for_runs(rt: HostRuntime) -> Result<(), Fail> {
    let ops = typed_in_turn(rt.alloc(), 3, 1)?;
    let held = held_of(rt.alloc(), &ops)?;
    let mut refused = 0u32;
    for cut in 0..64usize {
        match is_refused(rt.alloc(), &held, cut.saturating_mul(16))? {
            Some(true) => refused = refused.saturating_add(1),
            reported => assert!(rt; reported == Some(false), "{cut}"),
        }
    }
    assert!(rt; 30 <= refused && refused <= 50, "refused {refused} times");
    Ok(())
}
