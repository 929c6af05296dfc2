//! Where a stamp stands, or would stand, in a list by stamp.

ghost use Rattle.std.specs.Prelude.{◌≡◌, true};
ghost use Rattle.desk_ops.specs.declared.op.Stamp.{Stamp};
ghost use Rattle.desk_replica.specs.Seats.{IsSeat, Rise};

use desk_ops::{CopyFault, Op, Stamp};

/// What bears a stamp.
pub trait Stamped: Copy {
    /// The stamp that it bears.
    ghost borne: { Self → Stamp };

    fn stamp_of(&self) -> Stamp
        ensures { result ≡ borne self.now };
}

impl Stamped for Op {
    ghost use Rattle.desk_ops.specs.Op.{stamp_of};

    ghost borne = { stamp_of };

    fn stamp_of(&self) -> Stamp {
        self.stamp()
    }
}

impl Stamped for CopyFault {
    ghost use Rattle.desk_replica.specs.Seats.{fault_stamp};

    ghost borne = { fault_stamp };

    fn stamp_of(&self) -> Stamp {
        self.stamp
    }
}

/// A counter that differs by so many at most is near.
const NEAR: u64 = 64;

/// About so many places of a list by stamp have so many counters, if its counters are spread evenly.
fn even_steps<T: Stamped>(items: &[T], counters: u64) -> usize {
    let (Some(first), Some(last)) = (items.first(), items.last()) else {
        return 0;
    };
    let spread = last
        .stamp_of()
        .counter
        .saturating_sub(first.stamp_of().counter);
    if spread == 0 {
        return 0;
    }
    let steps = items.len().saturating_sub(1) as u64;
    (steps.saturating_mul(counters) / spread) as usize
}

/// Where a counter is about in a list by stamp: as far from the first as it is if the counters are spread evenly, and
/// from there as far as that misses it.
fn even_place<T: Stamped>(items: &[T], counter: u64) -> usize {
    let Some(first) = items.first() else {
        return 0;
    };
    let least = first.stamp_of().counter;
    let place = even_steps(items, counter.saturating_sub(least));
    let Some(met) = items.get(place) else {
        return place;
    };
    let there = met.stamp_of().counter;
    if there < counter {
        return place.saturating_add(even_steps(items, counter - there));
    }
    place.saturating_sub(even_steps(items, there - counter))
}

/// Where a search begins: near a place, if the counter there is near, and else where the counter is about.
fn start<T: Stamped>(items: &[T], near: usize, counter: u64) -> usize {
    let Some(met) = items.get(near) else {
        return even_place(items, counter);
    };
    let there = met.stamp_of().counter;
    if there.max(counter) - there.min(counter) <= NEAR {
        return near;
    }
    even_place(items, counter)
}

/// Some steps behind a place or before another where the other is an end of a list, and else between the two.
fn next_place(from: usize, until: usize, len: usize, steps: usize) -> usize {
    if until == len {
        return from.saturating_add(steps);
    }
    if from == 0 {
        return until.saturating_sub(steps);
    }
    from.saturating_add(until.saturating_sub(from) / 2)
}

/// Whether a place is the first whose stamp is not smaller, and not behind all.
fn is_seat<T: Stamped>(items: &[T], place: usize, stamp: Stamp) -> bool
    requires { Rise T.borne items.now }
    ensures { result ≡ true → IsSeat T.borne items.now stamp place }
{
    if place >= items.len() || items[place].stamp_of().is_before(stamp) {
        return false;
    }
    place == 0 || items[place - 1].stamp_of().is_before(stamp)
}

/// The first place whose stamp is not smaller. It is looked for near a place first, or where its counter is about, by
/// steps that double, and then by halves.
pub fn seat<T: Stamped>(items: &[T], near: usize, stamp: Stamp) -> usize
    requires { Rise T.borne items.now }
    ensures { IsSeat T.borne items.now stamp result }
{
    if is_seat(items, near, stamp) {
        return near;
    }
    let mut from = 0;
    let mut until = items.len();
    let mut steps = start(items, near, stamp.counter);
    let mut next: usize = 0;
    while from < until {
        let place = next_place(from, until, items.len(), steps);
        let at = place.max(from).min(until - 1);
        if items[at].stamp_of().is_before(stamp) {
            from = at + 1;
        } else {
            until = at;
        }
        steps = next;
        next = next.saturating_add(next).saturating_add(1);
    }
    from
}
