//! Each growth refused in turn: in a heap of fixed size, of which all is taken but for a piece that differs from run to
//! run.
use crate::calls::{Answer, Call, ask, takes};
use crate::cases::{
    Want, answers, are_alike, arrivals, at, deleted, forked, measure, plain, typed, waiting,
};
use desk_blocks::Blocks;
use desk_held::AddRefusal;
use desk_memory::NoMemory;
use desk_ops::{Op, Stamp};
use desk_replica::{Count, Refusal, Replica, Stopped, Took};
use desk_seq::{Flat, Sequence};
use linked_list_allocator::LocalHeap;
use std::alloc::{AllocError, Allocator, Global};
use std::test::Fail;

/// The bytes of a heap: a page of what waits takes some 8,000, one of a copy in blocks 4,000, and where all is made
/// anew both stand twice.
pub const HEAP: usize = 524_288;

/// What is held, a call, its answer with memory, and what the replica answers after it.
#[derive(Clone, Copy)]
struct Case<'a> {
    held: &'a [Op],
    call: Call<'a>,
    answer: Answer,
    after: Want<'a>,
}

/// Takes all that a heap has left, but for one piece of so many bytes. Where it has no such piece it takes nothing.
pub fn fill<'a, A: Allocator>(
    alloc: A,
    heap: &'a LocalHeap,
    bytes: usize,
) -> Vec<Vec<u8, &'a LocalHeap>, A> {
    let mut parts = Vec::new(alloc);
    let Ok(piece) = Vec::<u8, &LocalHeap>::with_capacity(heap, bytes) else {
        return parts;
    };
    for power in 0..13u32 {
        for _ in 0..8u32 {
            let Ok(part) = Vec::with_capacity(heap, 65_536usize >> power) else {
                break;
            };
            let _ = parts.push(part);
        }
    }
    drop(piece);
    parts
}

/// How many operations of its list a refused call took in; none where the answer is not that memory ran out.
fn taken(answer: Answer) -> Option<usize> {
    match answer {
        Answer::Refused(Refusal::NoMemory) => Some(0),
        Answer::Stopped(
            Stopped {
                taken,
                why: AddRefusal::NoMemory,
            },
        ) => Some(taken),
        _ => None,
    }
}

/// The answer where so many of the list were taken in before.
fn after(answer: Answer, taken: usize) -> Answer {
    match answer {
        Answer::Counted(Count { new, known }) => Answer::Counted(Count {
            new: new.saturating_sub(taken),
            known: known.saturating_add(taken),
        }),
        _ => answer,
    }
}

/// What a call answers in a heap that has so many bytes left.
fn ask_in<Q: Sequence, A: Allocator>(
    alloc: A,
    memory: Q::Memory,
    replica: &mut Replica<Q>,
    call: Call<'_>,
    other: &Replica<Q>,
    heap: &LocalHeap,
    bytes: usize,
) -> Answer {
    let parts = fill(alloc, heap, bytes);
    let answer = ask(memory, replica, call, other);
    drop(parts);
    answer
}

/// Whether a replica is as one that took in what is held and these operations.
fn is_as_one<P: Sequence, Q: Sequence>(
    ample: P::Memory,
    replica: &Replica<Q>,
    held: &[Op],
    ops: &[Op],
) -> bool {
    let mut one = Replica::<P>::new(ample, 1);
    takes(&mut one, held) && takes(&mut one, ops) && are_alike(&one, replica)
}

/// Whether a replica whose call was refused is as one that took in so many of the list, and gives its answer with
/// memory.
fn goes_on<P: Sequence, Q: Sequence>(
    ample: P::Memory,
    memory: Q::Memory,
    replica: &mut Replica<Q>,
    other: &Replica<Q>,
    case: Case<'_>,
    taken: usize,
) -> bool {
    let ops = case.call.list().get(..taken).unwrap_or(&[]);
    is_as_one::<P, Q>(ample, replica, case.held, ops)
        && ask(memory, replica, case.call, other) == after(case.answer, taken)
}

/// What a heap did with a call: it had room for it, or refused it once so many of its list were taken in.
#[derive(Clone, Copy)]
enum Seen {
    Done,
    Refused(usize),
}

/// Whether the call was refused in a heap that has so many bytes left, and where; none where it answers or does
/// anything else. What it took in then is what it reported, in the order of its list; with memory it gives its answer.
/// What a merge reads stands in a heap of its own.
fn is_refused<P: Sequence, Q: Sequence>(
    ample: P::Memory,
    memory: Q::Memory,
    store: Q::Memory,
    heap: &LocalHeap,
    bytes: usize,
    case: Case<'_>,
) -> Option<Seen> {
    let mut replica = Replica::<Q>::new(memory, 1);
    let mut other = Replica::<Q>::new(store, 9);
    if !takes(&mut other, case.call.list()) {
        return None;
    }
    is_refused_of::<P, Q>(ample, memory, &mut replica, &other, heap, bytes, case)
}

/// The same of a new replica and of one that holds the list.
fn is_refused_of<P: Sequence, Q: Sequence>(
    ample: P::Memory,
    memory: Q::Memory,
    replica: &mut Replica<Q>,
    other: &Replica<Q>,
    heap: &LocalHeap,
    bytes: usize,
    case: Case<'_>,
) -> Option<Seen> {
    let held = takes(replica, case.held);
    let first = ask_in(ample, memory, replica, case.call, other, heap, bytes);
    let seen = match taken(first) {
        _ if first == case.answer => Seen::Done,
        Some(taken) if goes_on::<P, Q>(ample, memory, replica, other, case, taken) => {
            Seen::Refused(taken)
        }
        _ => return None,
    };
    if held && answers(replica, case.after) {
        Some(seen)
    } else {
        None
    }
}

/// How many heaps there are, each with a piece more left, and the bytes of a piece: less than any growth is.
const HEAPS: usize = 1100;

const PIECE: usize = 192;

/// Whether the call was refused where so many bytes are left, over a plain list or over blocks.
fn seen_in(
    alloc: Global,
    is_flat: bool,
    bytes: usize,
    case: Case<'_>,
) -> Result<Option<Seen>, AllocError> {
    let heap = LocalHeap::new(alloc, HEAP)?;
    let store = LocalHeap::new(alloc, HEAP)?;
    Ok(if is_flat {
        is_refused::<Flat<Global>, Flat<&LocalHeap>>(alloc, &heap, &store, &heap, bytes, case)
    } else {
        is_refused::<Flat<Global>, Blocks<&LocalHeap>>(alloc, &heap, &store, &heap, bytes, case)
    })
}

/// Refuses each growth of the call in turn, over a plain list or over blocks. Answers in how many heaps one was
/// refused, and before it how many of its list were taken in at most.
fn refuse_each(alloc: Global, is_flat: bool, case: Case<'_>) -> Result<(usize, usize), Fail> {
    let (mut refused, mut most) = (0usize, 0usize);
    for pieces in 0..HEAPS {
        match seen_in(alloc, is_flat, pieces.saturating_mul(PIECE), case)? {
            Some(Seen::Done) => {}
            Some(Seen::Refused(taken)) => {
                refused = refused.saturating_add(1);
                most = most.max(taken);
            }
            None => return Err(Fail::new("another answer")),
        }
    }
    Ok((refused, most))
}

/// Whether growths of the call are refused in some heaps and in some not, over both kinds of sequence.
fn is_refused_in_turn(alloc: Global, case: Case<'_>) -> Result<bool, Fail> {
    for is_flat in [true, false] {
        let (refused, _) = refuse_each(alloc, is_flat, case)?;
        if refused == 0 || refused == HEAPS {
            return Ok(false);
        }
    }
    Ok(true)
}

/// Whether growths of the call are refused in some heaps and in some not, and in some once so many of its list were
/// taken in, over both kinds of sequence.
fn is_stopped_after(alloc: Global, case: Case<'_>, taken: usize) -> Result<bool, Fail> {
    for is_flat in [true, false] {
        let (refused, most) = refuse_each(alloc, is_flat, case)?;
        if most < taken || refused == HEAPS {
            return Ok(false);
        }
    }
    Ok(true)
}

/// The symbols `a` and `b`, and the measure set twice.
fn four() -> [Op; 4] {
    [
        typed(at(1, 1), Stamp::HEAD, 'a'),
        typed(at(2, 1), at(1, 1), 'b'),
        measure(at(3, 1), 120),
        measure(at(4, 1), 144),
    ]
}

/// What these four answer, with another copy and measure.
fn four_with(copy: &str, value: u32) -> Want<'_> {
    Want {
        measure: Some(value),
        ..plain(copy)
    }
}

/// These operations behind settings of the measure: 257 in all, one more than a page has, for which a held set has just
/// room.
fn filled(alloc: Global, ops: &[Op]) -> Result<Vec<Op>, NoMemory> {
    let mut list = Vec::new(alloc);
    for site in ops.len()..257 {
        let site = u16::try_from(site).unwrap_or(0).saturating_add(1000);
        list.push(measure(at(1, site), 120))?;
    }
    for op in ops {
        list.push(*op)?;
    }
    Ok(list)
}

/// Of what is taken in: the first operation, one that makes all that waits live, one that forks a stamp, and another.
#[test]
fn growths_of_take(rt: HostRuntime) -> Result<(), Fail> {
    let waits = [
        deleted(at(4, 2), at(3, 1)),
        typed(at(3, 1), at(2, 1), 'c'),
        typed(at(2, 2), at(1, 1), 'x'),
        typed(at(2, 1), at(1, 1), 'b'),
    ];
    let first = typed(at(1, 1), Stamp::HEAD, 'a');
    let faults = [forked(at(2, 1))];
    let forks = Want {
        faults: &faults,
        ..four_with("a", 144)
    };
    let four = four();
    let (waits, full) = (filled(rt.alloc(), &waits)?, filled(rt.alloc(), &four)?);
    let (waits, full) = (waits.as_slice(), full.as_slice());
    let table: [(&[Op], Op, Want<'_>); 4] = [
        (&[], first, plain("a")),
        (waits, first, four_with("axb", 120)),
        (&four, typed(at(2, 1), at(1, 1), 'x'), forks),
        (full, typed(at(5, 2), at(2, 1), 'c'), four_with("abc", 144)),
    ];
    for (held, op, after) in table {
        let case = Case {
            held,
            call: Call::Take(op),
            answer: Answer::Took(Took::New),
            after,
        };
        assert!(rt; is_refused_in_turn(rt.alloc(), case)?);
    }
    Ok(())
}

#[test]
fn growths_of_edits(rt: HostRuntime) -> Result<(), Fail> {
    let four = filled(rt.alloc(), &four())?;
    let typed = typed(at(1, 1), Stamp::HEAD, 'x');
    let deleted = deleted(at(5, 1), at(1, 1));
    let set = measure(at(1, 1), 100);
    let table: [(&[Op], Call<'_>, Op, Want<'_>); 3] = [
        (&[], Call::Insert(0, 'x'), typed, plain("x")),
        (
            four.as_slice(),
            Call::Delete(0),
            deleted,
            four_with("b", 144),
        ),
        (&[], Call::Set(100), set, four_with("", 100)),
    ];
    for (held, call, op, after) in table {
        let case = Case {
            held,
            call,
            answer: Answer::Made(op),
            after,
        };
        assert!(rt; is_refused_in_turn(rt.alloc(), case)?);
    }
    Ok(())
}

/// Forty settings of the measure, a list that is long enough to be joined at once.
fn forty(alloc: Global) -> Result<Vec<Op>, NoMemory> {
    let mut ops = Vec::new(alloc);
    for before in 0..40u32 {
        let stamp = at(u64::from(before).saturating_add(1), 1);
        ops.push(measure(stamp, before.saturating_add(12)))?;
    }
    Ok(ops)
}

/// Whether lists of so many new operations, taken in by each call that takes a list, are refused in turn.
fn are_lists_refused(alloc: Global, ops: &[Op], after: Want<'_>) -> Result<bool, Fail> {
    let (new, known) = (ops.len(), 0);
    let all = Answer::Counted(Count { new, known });
    for (call, answer) in [
        (Call::TakeAll(ops), all),
        (Call::Merge(ops), all),
        (Call::Open(ops), Answer::Opened(ops.len())),
    ] {
        let case = Case {
            held: &[],
            call,
            answer,
            after,
        };
        if !is_refused_in_turn(alloc, case)? {
            return Ok(false);
        }
    }
    Ok(true)
}

/// Of the five arrivals in their order. Each growth of their list is refused in turn: it stops before the last at the
/// latest, and as many stand as it counted. With memory the same list then gives the whole copy.
#[test]
fn each_growth_of_five_arrivals(rt: HostRuntime) -> Result<(), Fail> {
    let arrivals = arrivals();
    let case = Case {
        held: &[],
        call: Call::TakeAll(&arrivals),
        answer: Answer::Counted(Count { new: 5, known: 0 }),
        after: plain("zaceb"),
    };
    for is_flat in [true, false] {
        let (refused, most) = refuse_each(rt.alloc(), is_flat, case)?;
        assert!(rt; 0 < refused && refused < HEAPS && most <= 4);
    }
    Ok(())
}

/// Of a few operations, which are taken in one by one.
#[test]
fn growths_of_short_lists(rt: HostRuntime) -> Result<(), Fail> {
    let [a, c, e, b, z] = arrivals();
    assert!(rt; are_lists_refused(rt.alloc(), &[a, b, c, e, z], plain("zaceb"))?);
    Ok(())
}

/// Of lists with an operation that forks a stamp, for which all is made anew, on a replica that holds something: some
/// stop once all before it are taken in, for which there is room. A list is taken in its own order, and what another
/// replica holds by stamp and then by bytes.
#[test]
fn stopped_at_k(rt: HostRuntime) -> Result<(), Fail> {
    let [a, c, e, b, z] = arrivals();
    let fork = typed(at(2, 1), at(1, 1), 'x');
    let (listed, sorted) = ([a, c, e, b, z, fork], [a, b, fork, c, e, z]);
    let faults = [forked(at(2, 1))];
    let after = Want {
        faults: &faults,
        ..four_with("zace", 120)
    };
    for (call, taken) in [(Call::TakeAll(&listed), 5), (Call::Merge(&sorted), 2)] {
        let case = Case {
            held: &[measure(at(1, 7), 120)],
            call,
            answer: Answer::Counted(Count { new: 6, known: 0 }),
            after,
        };
        assert!(rt; is_stopped_after(rt.alloc(), case, taken)?);
    }
    Ok(())
}

/// Of many, which are taken in at once.
#[test]
fn growths_of_long_lists(rt: HostRuntime) -> Result<(), Fail> {
    let many = forty(rt.alloc())?;
    assert!(rt; are_lists_refused(rt.alloc(), &many, four_with("", 51))?);
    Ok(())
}

/// Nine inserts after 1.1, which is not held.
fn nine() -> [Op; 9] {
    let ops = |counter| typed(at(counter, 1), at(1, 1), 'a');
    [
        ops(2),
        ops(3),
        ops(4),
        ops(5),
        ops(6),
        ops(7),
        ops(8),
        ops(9),
        ops(10),
    ]
}

/// Of answers in memory of their own, and of room.
#[test]
fn growths_of_answers(rt: HostRuntime) -> Result<(), Fail> {
    let four = four();
    for (call, answer) in [
        (Call::Copy, Answer::Read(2)),
        (Call::Order, Answer::Read(4)),
        (Call::Feed, Answer::Read(68)),
        (Call::Reserve(500), Answer::Reserved),
    ] {
        let case = Case {
            held: &four,
            call,
            answer,
            after: four_with("ab", 144),
        };
        assert!(rt; is_refused_in_turn(rt.alloc(), case)?);
    }
    Ok(())
}

/// Of the copy faults.
#[test]
fn growths_of_copy_faults(rt: HostRuntime) -> Result<(), Fail> {
    let nine = nine();
    let mut faults = Vec::new(rt.alloc());
    for op in nine {
        faults.push(waiting(op.stamp()))?;
    }
    let case = Case {
        held: &nine,
        call: Call::Faults,
        answer: Answer::Read(9),
        after: Want {
            faults: faults.as_slice(),
            waiting: 9,
            ..plain("")
        },
    };
    assert!(rt; is_refused_in_turn(rt.alloc(), case)?);
    Ok(())
}

/// A known operation, what is refused for another cause, and a look for faults where there are none, are never refused
/// for memory.
#[test]
fn known_and_wrong_take_no_memory(rt: HostRuntime) -> Result<(), Fail> {
    let four = four();
    let table = [
        (Call::Take(four[0]), Answer::Took(Took::Known)),
        (Call::Set(11), Answer::Refused(Refusal::Value)),
        (Call::Insert(3, 'x'), Answer::Refused(Refusal::Place)),
        (Call::Insert(0, '\t'), Answer::Refused(Refusal::Value)),
        (Call::Delete(2), Answer::Refused(Refusal::Place)),
        (Call::Faults, Answer::Read(0)),
    ];
    for (call, answer) in table {
        let case = Case {
            held: &four,
            call,
            answer,
            after: four_with("ab", 144),
        };
        for is_flat in [true, false] {
            assert!(rt; refuse_each(rt.alloc(), is_flat, case)?.0 == 0);
        }
    }
    Ok(())
}
