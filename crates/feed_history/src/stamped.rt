//! Lists by stamp, and what in them bears a stamp.

ghost use Rattle.std.specs.Prelude.{◌≡◌, ◌<◌, ◌^◌, ◌++◌, OnOk, length, true};
ghost use Rattle.desk_ops.specs.declared.op.Stamp.{Stamp};
ghost use Rattle.desk_replica.specs.Seats.{IsSeat, Rise};
ghost use Rattle.feed_history.specs.Rows.{bearing_by, first, row_of};

use crate::corrections::Correction;
use desk_ops::Stamp;
use desk_replica::{Stamped, seat};
use std::alloc::{AllocError, Allocator};

/// Whether a place is the first whose stamp is not smaller, and not behind all.
fn is_seat<T: Stamped>(items: &[T], place: usize, stamp: Stamp) -> bool
    requires { Rise T.borne items.now }
    ensures { result ≡ true → IsSeat T.borne items.now stamp place }
{
    if place >= items.len() || items[place].stamp_of().is_before(stamp) {
        return false;
    }
    place == 0 || items[place - 1].stamp_of().is_before(stamp)
}

/// The first place whose stamp is not smaller. The place behind another is looked at first, and then that one.
fn next_seat<T: Stamped>(items: &[T], near: usize, stamp: Stamp) -> usize
    requires { Rise T.borne items.now }
    ensures { IsSeat T.borne items.now stamp result }
{
    let behind = near.saturating_add(1);
    if is_seat(items, behind, stamp) {
        return behind;
    }
    seat(items, near, stamp)
}

/// The first that bears a stamp, of a list by stamp. It is looked for near a place first, which then is where it would
/// be.
pub fn first_bearing<T: Stamped>(items: &[T], near: &mut usize, stamp: Stamp) -> Option<T>
    requires { Rise T.borne items.now }
    ensures { result ≡ first (bearing_by T.borne items.now stamp) }
{
    let from = next_seat(items, *near, stamp);
    *near = from;
    if from == items.len() || !items[from].stamp_of().is_same(stamp) {
        return None;
    }
    Some(items[from])
}

/// The first that bears a stamp, of a list by stamp. It is looked for first where its counter is about.
pub fn any_bearing<T: Stamped>(items: &[T], stamp: Stamp) -> Option<T>
    requires { Rise T.borne items.now }
    ensures { result ≡ first (bearing_by T.borne items.now stamp) }
{
    let mut near = items.len();
    first_bearing(items, &mut near, stamp)
}

/// Those that bear a stamp, of a list by stamp. They are looked for near a place first, which then is that of the
/// first.
fn bearing<'a, T: Stamped>(items: &'a [T], near: &mut usize, stamp: Stamp) -> &'a [T]
    requires rising { Rise T.borne items.now }
    requires few { length items.now < 2 ^ 63 }
    ensures { result.now ≡ bearing_by T.borne items.now stamp }
{
    let from = next_seat(items, *near, stamp);
    *near = from;
    let mut until = from;
    while until < items.len() && items[until].stamp_of().is_same(stamp) {
        until += 1;
    }
    &items[from..until]
}

/// Adds those that bear the stamps of a correction, by stamp, of a list by stamp. They are looked for near a place
/// first, which then is that of the last.
pub fn put_row<T: Stamped, A: Allocator + Copy>(
    row: &mut Vec<T, A>,
    items: &[T],
    near: &mut usize,
    correction: Correction,
) -> Result<(), AllocError>
    requires rising { Rise T.borne items.now }
    requires few { length items.now < 2 ^ 63 }
    requires last { correction.last < 2 ^ 63 }
    ensures { OnOk result (row.new.items ≡ row.old.items ++ row_of T.borne items.now correction) }
{
    if items.is_empty() {
        return Ok(());
    }
    let site = correction.site;
    let mut steps = 0;
    for counter in correction.first..correction.last + 1 {
        let mut place = near.saturating_add(steps);
        row.extend_from_slice(bearing(items, &mut place, Stamp { counter, site }))?;
        steps = place.saturating_sub(*near).saturating_sub(1);
        *near = place;
    }
    Ok(())
}
