//! The words in which two copies differ.

ghost use Rattle.std.specs.Prelude.{◌≡◌, ◌↔◌, ◌⊎◌, ◌+◌, ◌<◌, IfOk, OnOk, length, true};
ghost use Rattle.feed_sites.specs.Stretches.{AreApart, AreStretches, BeginsApart, DifferIn, IsReached, ends};
ghost use Rattle.feed_sites.specs.Stretches.{is_whole, of_one, of_other, start};
ghost use Rattle.feed_sites.specs.Walking.{EndBefore, HasReported, IsStep};

use crate::stretch::{Point, Stretch, is_whole};
use desk_memory::NoMemory;
use desk_ops::Symbol;
use std::alloc::{AllocError, Allocator};
use text_copy::{Change, changes};

/// How far two copies were compared: their stretches are known up to `open`, and words are whole at `last`.
#[derive(Clone, Copy)]
pub struct Front {
    pub open: Point,
    pub last: Point,
}

/// Whether the copies are the same between two points.
fn are_same(one: &[Symbol], other: &[Symbol], from: Point, to: Point) -> bool
    requires { IsReached one.now other.now from to }
    ensures { result ≡ true ↔ (of_one one.now from to ≡ of_other other.now from to) }
{
    one[from.one..to.one] == other[from.other..to.other]
}

/// Whether there are symbols between two points, and they are the same.
fn are_kept(one: &[Symbol], other: &[Symbol], from: Point, to: Point) -> bool
    requires { IsReached one.now other.now from to }
    ensures { result ≡ true ↔ ((from.one < to.one) × (of_one one.now from to ≡ of_other other.now from to)) }
{
    from.one < to.one && are_same(one, other, from, to)
}

/// The point behind the next step of two copies, of which one at least has symbols left. Where they have the same
/// symbol both go on. Else a change that is due at the point goes on in one of them.
fn step(one: &[Symbol], other: &[Symbol], change: Option<Change>, point: Point) -> Point
    requires within { IsReached one.now other.now point point }
    requires left { (point.one < length one.now) ⊎ (point.other < length other.now) }
    ensures { IsStep one.now other.now point result }
{
    let gone = Point {
        one: point.one.saturating_add(1),
        other: point.other,
    };
    let come = Point {
        one: point.one,
        other: point.other.saturating_add(1),
    };
    if point.one >= one.len() {
        return come;
    }
    if point.other >= other.len() {
        return gone;
    }
    if one[point.one] == other[point.other] {
        return Point {
            one: gone.one,
            other: come.other,
        };
    }
    match change {
        Some(Change::Delete { place }) if place == point.other => gone,
        Some(Change::Insert { place, .. }) if place == point.other => come,
        _ => Point {
            one: gone.one,
            other: come.other,
        },
    }
}

/// Writes the stretch between two points at the end, if the copies differ there.
fn close<A: Allocator + Copy>(
    one: &[Symbol],
    other: &[Symbol],
    stretches: &mut Vec<Stretch, A>,
    from: Point,
    to: Point,
) -> Result<(), AllocError>
    requires reported { DifferIn one.now other.now start stretches.old.items from }
    requires apart { AreApart stretches.old.items }
    requires behind { EndBefore from.one stretches.old.items }
    requires from { is_whole one.now other.now from ≡ true }
    requires to { is_whole one.now other.now to ≡ true }
    requires reached { IsReached one.now other.now from to }
    requires begins { BeginsApart one.now other.now from to.one }
    ensures reported { OnOk result (DifferIn one.now other.now start stretches.new.items to) }
    ensures apart { OnOk result (AreApart stretches.new.items) }
    ensures behind { OnOk result (EndBefore (to.one + 1) stretches.new.items) }
{
    if !are_same(one, other, from, to) {
        stretches.push(Stretch { from, to })?;
    }
    Ok(())
}

/// What was reported once a walk comes to a point. Where words are whole there, those behind the last such point are
/// one stretch with what is open, if they differ; else they are kept, and what was open is a stretch.
fn pass<A: Allocator + Copy>(
    one: &[Symbol],
    other: &[Symbol],
    stretches: &mut Vec<Stretch, A>,
    front: Front,
    point: Point,
) -> Result<Front, NoMemory>
    requires { HasReported one.now other.now stretches.old.items front point point.one }
    ensures { IfOk result (λ f. HasReported one.now other.now stretches.new.items f point (point.one + 1)) }
{
    if !is_whole(one, other, point) {
        return Ok(front);
    }
    if !are_kept(one, other, front.last, point) {
        return Ok(Front {
            open: front.open,
            last: point,
        });
    }
    close(one, other, stretches, front.open, front.last)?;
    Ok(Front {
        open: point,
        last: point,
    })
}

/// How many changes were made once a step was taken that goes on in both copies or is a change.
fn made_by(made: usize, from: Point, to: Point) -> usize {
    if from.one < to.one && from.other < to.other {
        made
    } else {
        made.saturating_add(1)
    }
}

/// The stretches of two copies, by changes that make the one the other.
fn walk<A: Allocator + Copy>(
    alloc: A,
    one: &[Symbol],
    other: &[Symbol],
    changes: &[Change],
) -> Result<Vec<Stretch, A>, NoMemory>
    ensures reported { IfOk result (λ v. DifferIn one.now other.now start v.items (ends one.now other.now)) }
    ensures apart { IfOk result (λ v. AreApart v.items) }
{
    let mut stretches = Vec::new(alloc);
    let mut point = Point::START;
    let mut front = Front {
        open: Point::START,
        last: Point::START,
    };
    let mut made = 0;
    while point.one < one.len() || point.other < other.len() {
        let next = step(one, other, changes.get(made).copied(), point);
        made = made_by(made, point, next);
        point = next;
        front = pass(one, other, &mut stretches, front, point)?;
    }
    close(one, other, &mut stretches, front.open, point)?;
    Ok(stretches)
}

/// The words in which two copies differ.
pub fn stretches_of<A: Allocator + Copy>(
    alloc: A,
    one: &[Symbol],
    other: &[Symbol],
) -> Result<Vec<Stretch, A>, NoMemory>
    ensures { IfOk result (λ v. AreStretches one.now other.now v.items) }
{
    if one == other {
        return Ok(Vec::new(alloc));
    }
    let changes = changes(alloc, one, other)?;
    let stretches = walk(alloc, one, other, &changes)?;
    Ok(stretches)
}
