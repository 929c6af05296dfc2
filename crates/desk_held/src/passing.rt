//! A pass over the operations that are held, beside a list that rises.
ghost use Rattle.std.specs.Prelude.{◌≡◌, ◌+◌, ◌-◌, ◌≤◌, ◌<◌, T, true, false, length, slice_index_or};
ghost use Rattle.std.specs.Ordering.{is_lt};
ghost use Rattle.desk_ops.specs.Order.{op_cmp};
ghost use Rattle.desk_ops.specs.OpSet.{has_op, is_rising, from_rising};
ghost use Rattle.list_pages.specs.Pages.{IsEdge};
ghost use Rattle.desk_held.specs.Passing.{IsPart, IsPassed};

use crate::Slot;
use crate::search::comes_before;
use desk_ops::Op;
use list_pages::Pages;
use std::alloc::Allocator;

/// The first place of a stretch, from a place on, of what does not come before an operation. Where the last of it does,
/// all do: that is looked at first.
fn skip(part: &[Slot], from: usize, op: &Op) -> usize
    requires { from ≤ length part.now }
    ensures order { from ≤ result }
    ensures within { result ≤ length part.now }
    ensures passed { from < result → IsPassed part.now result op.now }
    ensures stops { result < length part.now → is_lt (op_cmp (slice_index_or part.now result op.now) op.now) ≡ false }
{
    let len = part.len();
    if from < len && comes_before(part[len - 1], op) {
        return len;
    }
    let mut at = from;
    while at < len && comes_before(part[at], op) {
        at += 1;
    }
    at
}

/// Passes what comes before an operation, from a place of a stretch on: where the stretch begins in which the first
/// stands that does not, that stretch, and its place there.
fn onward<'a, A: Allocator + Copy>(
    ops: &'a Pages<Slot, (), A>,
    start: usize,
    part: &'a [Slot],
    from: usize,
    op: &Op,
) -> (usize, &'a [Slot], usize)
    requires part { IsPart ops.now.entries start part.now from }
    requires passed { IsPassed ops.now.entries (start + from) op.now }
    ensures part { IsPart ops.now.entries result.0 result.1.now result.2 }
    ensures edge { IsEdge (λ x. is_lt (op_cmp x op.now)) ops.now.entries (result.0 + result.2) }
    ensures inside { length result.1.now ≤ result.2 → result.0 + result.2 ≡ length ops.now.entries }
{
    let len = ops.len();
    let mut start = start;
    let mut part = part;
    let mut at = skip(part, from, op);
    while at == part.len() && start + at < len {
        start += at;
        part = ops.stretch(start);
        at = skip(part, 0, op);
    }
    (start, part, at)
}

/// The same, and whether it is the operation itself that stands there: whether it is held.
pub fn look<'a, A: Allocator + Copy>(
    ops: &'a Pages<Slot, (), A>,
    start: usize,
    part: &'a [Slot],
    from: usize,
    op: &Op,
) -> (usize, &'a [Slot], usize, bool)
    requires rising { T (is_rising ops.now.entries) }
    requires part { IsPart ops.now.entries start part.now from }
    requires passed { IsPassed ops.now.entries (start + from) op.now }
    ensures part { IsPart ops.now.entries result.0 result.1.now result.2 }
    ensures passed { IsPassed ops.now.entries (result.0 + result.2) op.now }
    ensures held { result.3 ≡ has_op (from_rising ops.now.entries) op.now }
{
    let (start, part, at) = onward(ops, start, part, from, op);
    if at >= part.len() {
        return (start, part, at, false);
    }
    let found = part[at].op();
    (start, part, at, found == *op)
}
