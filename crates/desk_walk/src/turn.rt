//! The order in which waiting operations are kept: those of the greatest target first, and those of one target by stamp
//! and bytes. Of a chain that comes last element first, each waits for a smaller target than those before it: it is put
//! at the end of the list, which is quick, and taken out of there.
ghost use Rattle.std.specs.Prelude.{◌≡◌, IsTrue};
ghost use Rattle.std.specs.Ordering.{is_lt};
ghost use Rattle.desk_walk.specs.Turn.{target_or_head, turn_cmp, IsInTurn};

use desk_held::Slot;
use desk_ops::{Op, Stamp};
use list_pages::Pick;
use std::cmp::Ordering;

/// The target, and the head where there is none.
pub fn target_of(op: &Op) -> Stamp
    ensures { result ≡ target_or_head op.now }
{
    match op.target() {
        Some(target) => target,
        None => Stamp::HEAD,
    }
}

/// Whether the first operation is kept before the second.
fn is_earlier(a: &Op, b: &Op) -> bool
    ensures { result ≡ is_lt (turn_cmp a.now b.now) }
{
    let first = target_of(a);
    let second = target_of(b);
    if second.is_same(first) {
        return a < b;
    }
    second.is_before(first)
}

/// Which of the two is kept first: for a sort, after which `is_in_turn` looks.
pub fn compare(a: &Op, b: &Op) -> Ordering {
    if is_earlier(a, b) {
        Ordering::Less
    } else if is_earlier(b, a) {
        Ordering::Greater
    } else {
        Ordering::Equal
    }
}

/// Whether each operation is kept before the next.
pub fn is_in_turn(ops: &[Slot]) -> bool
    ensures { IsTrue result → IsInTurn ops.now }
{
    let mut i = 1;
    while i < ops.len() {
        if !is_earlier(&ops[i - 1].op(), &ops[i].op()) {
            return false;
        }
        i += 1;
    }
    true
}

/// Picks what is kept before an operation.
#[derive(Clone, Copy)]
pub struct Earlier {
    pub op: Op,
}

impl Pick<Slot, ()> for Earlier {
    ghost use Rattle.std.specs.Ordering.{is_lt};
    ghost use Rattle.desk_walk.specs.Turn.{turn_cmp};

    ghost picked = { λ s x. is_lt (turn_cmp x s.op) };

    fn picks(&self, x: Slot) -> bool {
        is_earlier(&x.op(), &self.op)
    }
}

/// Picks what waits for a greater target.
#[derive(Clone, Copy)]
pub struct Above {
    pub target: Stamp,
}

impl Pick<Slot, ()> for Above {
    ghost use Rattle.desk_ops.specs.Stamp.{before};
    ghost use Rattle.desk_walk.specs.Turn.{target_or_head};

    ghost picked = { λ s x. before s.target (target_or_head x) };

    fn picks(&self, x: Slot) -> bool {
        self.target.is_before(target_of(&x.op()))
    }
}
