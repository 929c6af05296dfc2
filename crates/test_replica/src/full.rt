//! A replica that holds as many operations as may be.
use crate::calls::{Answer, Call, ask, open};
use crate::cases::{at, measure, measured, typed};
use desk_blocks::Blocks;
use desk_held::AddRefusal;
use desk_memory::NoMemory;
use desk_ops::{Key, Op, Stamp};
use desk_replica::{Refusal, Replica, Stopped, Took};
use desk_seq::Sequence;
use std::alloc::Global;
use std::test::Fail;

/// Sets the measure to 12; the first is held by the full replica, the other is not.
const HELD: Op = Op::Set {
    stamp: Stamp {
        counter: 1,
        site: 1,
    },
    key: Key::Measure,
    value: 12,
};

const OTHER: Op = Op::Set {
    stamp: Stamp {
        counter: 1,
        site: 2,
    },
    key: Key::Measure,
    value: 12,
};

const LIST: [Op; 2] = [HELD, OTHER];

const FULL: Answer = Answer::Refused(Refusal::Full);

const PLACE: Answer = Answer::Refused(Refusal::Place);

/// How a list stops at a full replica after one operation, and at once.
const FULL_AFTER_ONE: Answer = Answer::Stopped(Stopped {
    taken: 1,
    why: AddRefusal::Full,
});

const FULL_AT_ONCE: Answer = Answer::Stopped(Stopped {
    taken: 0,
    why: AddRefusal::Full,
});

/// The calls of a full replica, and what each is answered.
const CALLS: [(Call<'static>, Answer); 11] = [
    (Call::Take(HELD), Answer::Took(Took::Known)),
    (Call::Take(OTHER), FULL),
    (Call::Insert(0, 'a'), FULL),
    (Call::Insert(2, 'a'), PLACE),
    (Call::Delete(0), FULL),
    (Call::Delete(1), PLACE),
    (Call::Set(144), FULL),
    (Call::Set(11), Answer::Refused(Refusal::Value)),
    (Call::TakeAll(&LIST), FULL_AFTER_ONE),
    (Call::TakeAll(&[OTHER]), FULL_AT_ONCE),
    (Call::Merge(&LIST), FULL_AFTER_ONE),
];

/// Of so many counters from 1 on the setting of the measure by the first site, and one insert.
fn million(alloc: Global, sets: u64) -> Result<Vec<Op>, NoMemory> {
    let mut ops = Vec::new(alloc);
    for before in 0..sets {
        ops.push(measure(at(before.saturating_add(1), 1), 12))?;
    }
    ops.push(typed(at(1, 9), Stamp::HEAD, 'q'))?;
    Ok(ops)
}

/// Whether a replica answers each call of the table so.
fn answers_each<Q: Sequence>(
    memory: Q::Memory,
    replica: &mut Replica<Q>,
    other: &Replica<Q>,
) -> bool {
    let mut right = true;
    for (call, answer) in &CALLS {
        right = right && ask(memory, replica, *call, other) == *answer;
    }
    right
}

/// Whether a replica holds as many as may be, which set the measure to 12.
fn has_million<Q: Sequence>(replica: &Replica<Q>) -> bool {
    replica.len() == 1_048_576 && replica.settings() == measured(Some(12))
}

/// Whether a replica of these answers each call so, and does not change.
fn is_full<Q: Sequence>(memory: Q::Memory, ops: &[Op]) -> bool {
    let mut replica = Replica::<Q>::new(memory, 2);
    let mut other = Replica::<Q>::new(memory, 3);
    open(memory, &mut other, &LIST);
    open(memory, &mut replica, ops) == Answer::Opened(1_048_576)
        && answers_each(memory, &mut replica, &other)
        && has_million(&replica)
}

/// What an opening of a list answers.
fn opens<Q: Sequence>(memory: Q::Memory, ops: &[Op]) -> Answer {
    let mut replica = Replica::<Q>::new(memory, 2);
    open(memory, &mut replica, ops)
}

/// One of the operations is known, each other is refused; an edit is refused by its first cause.
#[test]
fn full_set_and_stored_feed(rt: HostRuntime) -> Result<(), Fail> {
    let mut ops = million(rt.alloc(), 1_048_575)?;
    assert!(rt; is_full::<Blocks<Global>>(rt.alloc(), &ops));
    ops.push(OTHER)?;
    assert!(rt; opens::<Blocks<Global>>(rt.alloc(), &ops) == FULL_AT_ONCE);
    Ok(())
}
