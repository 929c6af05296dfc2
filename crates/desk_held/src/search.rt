//! Searches among operations that strictly rise.
ghost use Rattle.std.specs.Prelude.{◌≡◌, T, IsTrue};
ghost use Rattle.std.specs.Ordering.{is_lt};
ghost use Rattle.desk_ops.specs.Order.{op_cmp};
ghost use Rattle.desk_ops.specs.OpSet.{is_rising};

use crate::Slot;
use desk_ops::{Op, Stamp};
use list_pages::Pick;

/// Whether the first operation comes before the second. Their stamps decide it, but where these are one.
fn is_earlier(a: &Op, b: &Op) -> bool
    ensures { result ≡ is_lt (op_cmp a.now b.now) }
{
    let (its, stamp) = (a.stamp(), b.stamp());
    if !its.is_same(stamp) {
        return its.is_before(stamp);
    }
    a < b
}

/// The same of a held one.
pub fn comes_before(x: Slot, op: &Op) -> bool
    ensures { result ≡ is_lt (op_cmp x op.now) }
{
    let (its, stamp) = (x.stamp(), op.stamp());
    if !its.is_same(stamp) {
        return its.is_before(stamp);
    }
    is_earlier(&x.op(), op)
}

/// Picks what comes before an operation.
#[derive(Clone, Copy)]
pub struct Earlier {
    pub op: Op,
}

impl Pick<Slot, ()> for Earlier {
    ghost use Rattle.std.specs.Ordering.{is_lt};
    ghost use Rattle.desk_ops.specs.Order.{op_cmp};

    ghost picked = { λ s x. is_lt (op_cmp x s.op) };

    fn picks(&self, x: Slot) -> bool {
        comes_before(x, &self.op)
    }
}

/// Picks what comes before an operation, and that itself.
#[derive(Clone, Copy)]
pub struct UpTo {
    pub op: Op,
}

impl Pick<Slot, ()> for UpTo {
    ghost use Rattle.std.specs.Prelude.{not};
    ghost use Rattle.std.specs.Ordering.{is_lt};
    ghost use Rattle.desk_ops.specs.Order.{op_cmp};

    ghost picked = { λ s x. not (is_lt (op_cmp s.op x)) };

    fn picks(&self, x: Slot) -> bool {
        !is_earlier(&self.op, &x.op())
    }
}

/// Picks what bears a smaller stamp.
#[derive(Clone, Copy)]
pub struct Below {
    pub stamp: Stamp,
}

impl Pick<Slot, ()> for Below {
    ghost use Rattle.desk_ops.specs.Op.{stamp_of};
    ghost use Rattle.desk_ops.specs.Stamp.{before};

    ghost picked = { λ s x. before (stamp_of x) s.stamp };

    fn picks(&self, x: Slot) -> bool {
        x.stamp().is_before(self.stamp)
    }
}

/// Whether each operation comes before the next.
pub fn is_rising(ops: &[Op]) -> bool
    ensures { IsTrue result → T (is_rising ops.now) }
{
    let mut i = 1;
    while i < ops.len() {
        if !is_earlier(&ops[i - 1], &ops[i]) {
            return false;
        }
        i += 1;
    }
    true
}

/// The same of held ones.
pub fn are_rising(slots: &[Slot]) -> bool
    ensures { IsTrue result → T (is_rising slots.now) }
{
    let mut i = 1;
    while i < slots.len() {
        if !comes_before(slots[i - 1], &slots[i].op()) {
            return false;
        }
        i += 1;
    }
    true
}
