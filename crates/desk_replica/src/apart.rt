//! Whether operations bear stamps of their own.
ghost use Rattle.std.specs.Prelude.{◌≡◌, IsTrue};
ghost use Rattle.std.specs.List.{list_any};
ghost use Rattle.desk_ops.specs.Op.{stamp_of};
ghost use Rattle.desk_ops.specs.Stamp.{before};
ghost use Rattle.desk_ops.specs.Held.{is_borne_in};
ghost use Rattle.desk_replica.specs.State.{AreApart, RiseByStamp};

use desk_held::Held;
use desk_ops::Op;
use std::alloc::Allocator;

/// Whether the stamp of the first comes before that of the second.
fn is_older(one: &Op, next: &Op) -> bool
    ensures { result ≡ before (stamp_of one.now) (stamp_of next.now) }
{
    one.stamp().is_before(next.stamp())
}

/// Whether each operation's stamp is greater than that of the one before it.
fn rise_by_stamp(ops: &[Op]) -> bool
    ensures { IsTrue result → RiseByStamp ops.now }
{
    for at in 1..ops.len() {
        if !is_older(&ops[at - 1], &ops[at]) {
            return false;
        }
    }
    true
}

/// Whether an operation of a list bears a stamp that is borne.
fn is_one_borne<A: Allocator + Copy>(held: &Held<A>, ops: &[Op]) -> bool
    ensures { result ≡ list_any (λ op. is_borne_in held.now.ops (stamp_of op)) ops.now }
{
    for op in ops {
        if held.holds(op.stamp()) {
            return true;
        }
    }
    false
}

/// Whether no operation of a list that rises forks a stamp: none bears one that is borne, and no two of them the same.
pub fn are_apart<A: Allocator + Copy>(held: &Held<A>, ops: &[Op]) -> bool
    ensures { IsTrue result → AreApart held.now.ops ops.now }
{
    rise_by_stamp(ops) && !is_one_borne(held, ops)
}
