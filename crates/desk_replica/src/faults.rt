//! The copy faults of a held set, found in one pass from the oldest operation to the newest.
ghost use Rattle.std.specs.Prelude.{◌≡◌, ◌+◌, ◌<◌, ◌≤◌, ◌++◌, [], ◌∷◌, false, IfOk, OnOk, MatchOption, Some, length, take};
ghost use Rattle.std.specs.Prelude.{drop};
ghost use Rattle.std.specs.List.{cons_option};
ghost use Rattle.desk_ops.specs.declared.op.Stamp.{Stamp};
ghost use Rattle.desk_ops.specs.Op.{stamp_of, target_of};
ghost use Rattle.desk_ops.specs.OpSet.{AllLawful};
ghost use Rattle.desk_ops.specs.Held.{is_borne};
ghost use Rattle.desk_ops.specs.Faults.{faults_of, fault_of, marked};
ghost use Rattle.desk_replica.specs.Seats.{Rise};
ghost use Rattle.desk_replica.specs.Ways.{AreBefore, AreReported, IsBearer, IsInOrder, begins_with, ends_with};
ghost use Rattle.desk_replica.specs.Ways.{ways_before, hanging_on, kind_at};

use crate::seats::seat;
use desk_held::Held;
use desk_memory::NoMemory;
use desk_ops::{CopyFault, FaultKind, Op, Stamp};
use std::alloc::Allocator;

/// The place of the first operation that bears the stamp. It is looked for near a place first, which then is where it
/// would be.
fn place_of(ops: &[Op], near: &mut usize, stamp: Stamp) -> Option<usize>
    requires { Rise stamp_of ops.now }
    ensures { MatchOption result (is_borne ops.now stamp ≡ false) (λ k. IsBearer ops.now stamp k) }
{
    let place = seat(ops, *near, stamp);
    *near = place;
    if place == ops.len() || !ops[place].stamp().is_same(stamp) {
        return None;
    }
    Some(place)
}

/// The fault of a clear operation with the target, by what hangs on each of the older operations.
fn kind_of(
    ops: &[Op],
    hanging: &[Option<FaultKind>],
    near: &mut usize,
    target: Stamp,
) -> Option<FaultKind>
    requires order { IsInOrder ops.now }
    requires hanging { hanging.now ≡ ways_before ops.now (length hanging.now) }
    requires older { AreBefore ops.now target (length hanging.now) }
    ensures { result ≡ kind_at ops.now target }
{
    if target.is_head() {
        return None;
    }
    let Some(place) = place_of(ops, near, target) else {
        return Some(FaultKind::Waiting);
    };
    hanging[place]
}

/// Whether the operation before the place bears the stamp.
fn is_repeated(ops: &[Op], place: usize, stamp: Stamp) -> bool
    requires { place ≤ length ops.now }
    ensures { result ≡ ends_with (take place ops.now) stamp }
{
    place > 0 && ops[place - 1].stamp().is_same(stamp)
}

/// Whether the operation behind the place bears the stamp.
fn is_followed(ops: &[Op], place: usize, stamp: Stamp) -> bool
    requires { place < length ops.now }
    ensures { result ≡ begins_with (drop (place + 1) ops.now) stamp }
{
    place + 1 < ops.len() && ops[place + 1].stamp().is_same(stamp)
}

/// The fault of a clear operation, by what hangs on each of the older ones.
fn fault_of(
    ops: &[Op],
    hanging: &[Option<FaultKind>],
    near: &mut usize,
    op: &Op,
) -> Option<FaultKind>
    requires order { IsInOrder ops.now }
    requires hanging { hanging.now ≡ ways_before ops.now (length hanging.now) }
    requires older { (t : Stamp) → target_of op.now ≡ Some t → AreBefore ops.now t (length hanging.now) }
    ensures { result ≡ fault_of ops.now op.now }
{
    match op {
        Op::Insert { parent, .. } => kind_of(ops, hanging, near, *parent),
        Op::Delete { target, .. } => kind_of(ops, hanging, near, *target),
        Op::Set { .. } => None,
    }
}

/// Reports the stamp's fault, if it has one.
fn report<A: Allocator>(
    faults: &mut Vec<CopyFault, A>,
    stamp: Stamp,
    kind: Option<FaultKind>,
) -> Result<(), NoMemory>
    ensures { OnOk result (faults.new.items ≡ faults.old.items ++ cons_option (marked stamp kind) []) }
{
    if let Some(kind) = kind {
        faults.push(CopyFault { stamp, kind })?;
    }
    Ok(())
}

/// The fault of a clear operation whose target is a clear one with the fault: none but an insert is a place.
fn hanging_on(op: &Op, kind: Option<FaultKind>) -> Option<FaultKind>
    ensures { result ≡ hanging_on op.now kind }
{
    match op {
        Op::Insert { .. } => kind,
        _ => Some(FaultKind::Void),
    }
}

/// Notes what hangs on one operation more.
fn note<A: Allocator>(
    hanging: &mut Vec<Option<FaultKind>, A>,
    kind: Option<FaultKind>,
) -> Result<(), NoMemory>
    ensures { OnOk result (hanging.new.items ≡ hanging.old.items ++ kind ∷ []) }
{
    hanging.push(kind)?;
    Ok(())
}

/// Reports the operation at the place.
fn pass<A: Allocator>(
    ops: &[Op],
    place: usize,
    near: &mut usize,
    hanging: &mut Vec<Option<FaultKind>, A>,
    faults: &mut Vec<CopyFault, A>,
) -> Result<(), NoMemory>
    requires order { IsInOrder ops.now }
    requires within { place < length ops.now }
    requires reported { AreReported ops.now place hanging.old.items faults.old.items }
    ensures { OnOk result (AreReported ops.now (place + 1) hanging.new.items faults.new.items) }
{
    let op = ops[place];
    let stamp = op.stamp();
    if is_repeated(ops, place, stamp) {
        return note(hanging, Some(FaultKind::Void));
    }
    if is_followed(ops, place, stamp) {
        report(faults, stamp, Some(FaultKind::Forked))?;
        return note(hanging, Some(FaultKind::Void));
    }
    let kind = fault_of(ops, hanging, near, &op);
    report(faults, stamp, kind)?;
    note(hanging, hanging_on(&op, kind))
}

/// The faults of a held set, by stamp.
pub fn faults_of<A: Allocator + Copy>(
    alloc: A,
    held: &Held<A>,
) -> Result<Vec<CopyFault, A>, NoMemory>
    requires { AllLawful held.now.ops }
    ensures { IfOk result (λ v. v.items ≡ faults_of held.now.ops) }
{
    let ops = held.in_order()?;
    let mut hanging = Vec::with_capacity(alloc, ops.len())?;
    let mut faults = Vec::new(alloc);
    let mut near = 0;
    for place in 0..ops.len() {
        pass(&ops, place, &mut near, &mut hanging, &mut faults)?;
    }
    Ok(faults)
}
