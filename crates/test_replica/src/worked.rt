//! Worked rows: tables of calls, each with its answer and what the replica answers then.
use crate::calls::{Answer, Call, ask, takes};
use crate::cases::{
    Want, answers, are_alike, arrivals, at, deleted, forked, is_list, measure, plain, roman, typed,
    void, waiting,
};
use desk_blocks::Blocks;
use desk_ops::op::MAX_COUNTER;
use desk_ops::{Op, Stamp};
use desk_replica::{Count, Refusal, Replica, Took};
use desk_seq::{Flat, Sequence};
use std::alloc::Global;

/// A call, its answer, and what the replica answers after it.
type Step<'a> = (Call<'a>, Answer, Want<'a>);

/// Whether a call is answered so, and the other replica took in its list.
fn is_asked<Q: Sequence>(
    memory: Q::Memory,
    replica: &mut Replica<Q>,
    call: Call<'_>,
    answer: Answer,
) -> bool {
    let mut other = Replica::<Q>::new(memory, 99);
    takes(&mut other, call.list()) && ask(memory, replica, call, &other) == answer
}

/// Whether a replica goes a step.
fn goes<Q: Sequence>(memory: Q::Memory, replica: &mut Replica<Q>, step: Step<'_>) -> bool {
    let (call, answer, want) = step;
    is_asked(memory, replica, call, answer) && answers(replica, want)
}

/// Whether a replica goes these steps.
fn play<Q: Sequence>(memory: Q::Memory, replica: &mut Replica<Q>, steps: &[Step<'_>]) -> bool {
    for step in steps {
        if !goes(memory, replica, *step) {
            return false;
        }
    }
    true
}

/// Whether sites 1 and 2 go these steps and are alike in the end.
fn meet_over<P: Sequence, Q: Sequence>(
    first: P::Memory,
    second: Q::Memory,
    one: &[Step<'_>],
    two: &[Step<'_>],
) -> bool {
    let mut left = Replica::<P>::new(first, 1);
    let mut right = Replica::<Q>::new(second, 2);
    play(first, &mut left, one) && play(second, &mut right, two) && are_alike(&left, &right)
}

/// The same of one over a plain list and one over blocks.
fn meet(alloc: Global, one: &[Step<'_>], two: &[Step<'_>]) -> bool {
    meet_over::<Flat<Global>, Blocks<Global>>(alloc, alloc, one, two)
}

/// Whether site 1 goes these steps.
fn plays<Q: Sequence>(memory: Q::Memory, steps: &[Step<'_>]) -> bool {
    let mut replica = Replica::<Q>::new(memory, 1);
    play(memory, &mut replica, steps) && replica.site() == 1
}

/// Whether site 1 goes these steps, over a plain list and over blocks.
fn is_alone(alloc: Global, steps: &[Step<'_>]) -> bool {
    plays::<Flat<Global>>(alloc, steps) && plays::<Blocks<Global>>(alloc, steps)
}

/// An operation that is new.
fn new(op: Op, want: Want<'_>) -> Step<'_> {
    (Call::Take(op), Answer::Took(Took::New), want)
}

fn counted(new: usize, known: usize) -> Answer {
    Answer::Counted(Count { new, known })
}

/// The symbols `a` of 1.1 and `b` of 2.1.
fn both() -> [Op; 2] {
    [
        typed(at(1, 1), Stamp::HEAD, 'a'),
        typed(at(2, 1), at(1, 1), 'b'),
    ]
}

/// Their feed: one run.
const FEED_AB: [u8; 36] = [
    0x4d, 0x46, 0x44, 0x32, 4, 0, 0, 0, 0, 0, 0, 0, 1, 0, 1, 0, 0, 0, 0, 0, 0, 0, 0, 0, 0, 2, 0, 0,
    0, 0, 0x61, 0, 0, 0, 0, 0x62,
];

/// Whether a replica of the two at site 7 writes this feed, and answers its site and what it holds.
fn is_like_both<Q: Sequence>(replica: &Replica<Q>) -> bool {
    is_list(replica.write_feed(), &FEED_AB)
        && replica.has(&both()[1])
        && replica.len() == 2
        && replica.site() == 7
        && !replica.is_empty()
}

/// Whether an empty replica is so once it took in the two.
fn is_of_both<Q: Sequence>(memory: Q::Memory) -> bool {
    let mut replica = Replica::<Q>::new(memory, 7);
    replica.is_empty() && takes(&mut replica, &both()) && is_like_both(&replica)
}

#[test]
fn two_sites_show_ab(rt: HostRuntime) {
    let ops = both();
    let one = [
        (Call::Insert(0, 'a'), Answer::Made(ops[0]), plain("a")),
        (Call::Insert(1, 'b'), Answer::Made(ops[1]), plain("ab")),
    ];
    let two = [
        (Call::TakeAll(&ops), counted(2, 0), plain("ab")),
        (Call::TakeAll(&ops), counted(0, 2), plain("ab")),
        (Call::Open(&ops), Answer::Opened(2), plain("ab")),
    ];
    assert!(rt; meet(rt.alloc(), &one, &two));
    assert!(rt; is_of_both::<Flat<Global>>(rt.alloc()));
}

#[test]
fn later_sibling_first(rt: HostRuntime) {
    let first = typed(at(1, 1), Stamp::HEAD, 'a');
    let earlier = typed(at(2, 1), at(1, 1), 'b');
    let later = typed(at(2, 2), at(1, 1), 'c');
    let one = [
        new(first, plain("a")),
        new(earlier, plain("ab")),
        new(later, plain("acb")),
    ];
    let two = [
        new(first, plain("a")),
        new(later, plain("ac")),
        new(earlier, plain("acb")),
    ];
    assert!(rt; meet(rt.alloc(), &one, &two));
}

#[test]
fn five_arrivals(rt: HostRuntime) {
    let [a, c, e, b, z] = arrivals();
    let steps = [
        new(a, plain("a")),
        new(c, plain("ac")),
        new(e, plain("ace")),
        new(b, plain("aceb")),
        new(z, plain("zaceb")),
        (Call::Take(e), Answer::Took(Took::Known), plain("zaceb")),
    ];
    assert!(rt; meet(rt.alloc(), &steps, &steps));
}

/// Site 1 deletes what site 2 inserts after.
#[test]
fn concurrent_delete_and_insert(rt: HostRuntime) {
    let a = typed(at(1, 1), Stamp::HEAD, 'a');
    let gone = deleted(at(2, 1), at(1, 1));
    let b = typed(at(2, 2), at(1, 1), 'b');
    let one = [
        new(a, plain("a")),
        (Call::Delete(0), Answer::Made(gone), plain("")),
        new(b, plain("b")),
    ];
    let two = [
        new(a, plain("a")),
        (Call::Insert(1, 'b'), Answer::Made(b), plain("ab")),
        new(gone, plain("b")),
    ];
    assert!(rt; meet(rt.alloc(), &one, &two));
}

/// Whether a merge with the other counts so.
fn merges<Q: Sequence>(
    memory: Q::Memory,
    one: &mut Replica<Q>,
    other: &Replica<Q>,
    answer: Answer,
) -> bool {
    ask(memory, one, Call::Merge(&[]), other) == answer
}

/// Whether site 1 can delete, and site 2 insert after what is deleted.
fn edit_apart<Q: Sequence>(one: &mut Replica<Q>, two: &mut Replica<Q>) -> bool {
    let first = [typed(at(1, 1), Stamp::HEAD, 'a')];
    takes(one, &first)
        && takes(two, &first)
        && one.delete_at(0).is_ok()
        && two.insert_at(1, roman('b')).is_ok()
}

/// Whether their merges count so, and leave them alike.
fn merge_counted<Q: Sequence>(
    memory: Q::Memory,
    one: &mut Replica<Q>,
    two: &mut Replica<Q>,
) -> bool {
    merges(memory, one, two, counted(1, 1))
        && merges(memory, one, two, counted(0, 2))
        && merges(memory, two, one, counted(1, 2))
        && are_alike(one, two)
}

/// Whether site 1 that deletes, and site 2 that inserts after what is deleted, are alike once each merged with the
/// other.
fn merge_both<Q: Sequence>(memory: Q::Memory) -> bool {
    let mut one = Replica::<Q>::new(memory, 1);
    let mut two = Replica::<Q>::new(memory, 2);
    edit_apart(&mut one, &mut two) && merge_counted(memory, &mut one, &mut two)
}

#[test]
fn merge_counts(rt: HostRuntime) {
    assert!(rt; merge_both::<Flat<Global>>(rt.alloc()));
    assert!(rt; merge_both::<Blocks<Global>>(rt.alloc()));
}

/// Of two settings the one with the greater stamp stays, and once that is forked the other is there again.
#[test]
fn settings_by_stamp(rt: HostRuntime) {
    let set = |value, faults| Want {
        measure: value,
        faults,
        ..plain("")
    };
    let faults = [forked(at(5, 2))];
    let steps = [
        new(measure(at(5, 2), 144), set(Some(144), &[])),
        new(measure(at(5, 1), 120), set(Some(144), &[])),
        new(measure(at(5, 2), 100), set(Some(120), &faults)),
    ];
    assert!(rt; meet(rt.alloc(), &steps, &steps));
}

/// What waits shows nothing; once what it hangs on has come it is live.
#[test]
fn waiting_then_live(rt: HostRuntime) {
    let faults = [waiting(at(2, 1)), waiting(at(3, 1)), waiting(at(4, 2))];
    let waits = |faults, waiting| Want {
        faults,
        waiting,
        ..plain("")
    };
    let steps = [
        new(deleted(at(4, 2), at(3, 1)), waits(&faults[2..], 1)),
        new(typed(at(3, 1), at(2, 1), 'c'), waits(&faults[1..], 2)),
        new(typed(at(2, 1), at(1, 1), 'b'), waits(&faults, 3)),
        new(typed(at(1, 1), Stamp::HEAD, 'a'), plain("ab")),
    ];
    assert!(rt; meet(rt.alloc(), &steps, &steps));
}

/// What hangs on a stamp waits for it, is void once a set bears it, and stays so once that is forked.
#[test]
fn void_on_a_set(rt: HostRuntime) {
    let (last, nine) = (at(3, 2), at(2, 9));
    let (wait, lost, both) = ([waiting(last)], [void(last)], [forked(nine), void(last)]);
    let hangs = |faults, measure| Want {
        copy: "",
        faults,
        waiting: 1,
        measure,
    };
    let steps = [
        new(typed(last, nine, 'c'), hangs(&wait, None)),
        new(measure(nine, 144), hangs(&lost, Some(144))),
        new(measure(nine, 120), hangs(&both, None)),
    ];
    assert!(rt; meet(rt.alloc(), &steps, &steps));
}

/// An edit that is refused, and changes nothing.
fn refused<'a>(call: Call<'a>, refusal: Refusal, want: Want<'a>) -> Step<'a> {
    (call, Answer::Refused(refusal), want)
}

/// Each edit makes one operation, and refuses a place and a value that there is not.
#[test]
fn edits_and_refusals(rt: HostRuntime) {
    let [a, b] = both();
    let set = Want {
        measure: Some(144),
        ..plain("b")
    };
    let steps = [
        refused(Call::Insert(5, 'a'), Refusal::Place, plain("")),
        refused(Call::Insert(0, '\t'), Refusal::Value, plain("")),
        new(a, plain("a")),
        new(b, plain("ab")),
        (
            Call::Delete(0),
            Answer::Made(deleted(at(3, 1), at(1, 1))),
            plain("b"),
        ),
        refused(Call::Delete(1), Refusal::Place, plain("b")),
        refused(Call::Set(11), Refusal::Value, plain("b")),
        (Call::Set(144), Answer::Made(measure(at(4, 1), 144)), set),
    ];
    assert!(rt; is_alone(rt.alloc(), &steps));
}

/// One operation is left below the greatest counter, and then none.
#[test]
fn full_clock(rt: HostRuntime) {
    let last = typed(at(MAX_COUNTER, 1), Stamp::HEAD, 'a');
    let steps = [
        new(typed(at(MAX_COUNTER - 1, 2), Stamp::HEAD, 'q'), plain("q")),
        (Call::Insert(0, 'a'), Answer::Made(last), plain("aq")),
        refused(Call::Insert(0, 'a'), Refusal::ClockFull, plain("aq")),
        refused(Call::Delete(0), Refusal::ClockFull, plain("aq")),
        refused(Call::Set(144), Refusal::ClockFull, plain("aq")),
        refused(Call::Set(11), Refusal::Value, plain("aq")),
        refused(Call::Insert(3, 'a'), Refusal::Place, plain("aq")),
    ];
    assert!(rt; is_alone(rt.alloc(), &steps));
}
