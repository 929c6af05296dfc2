//! What each of two lists of operations has that the other has not, by one pass over both.

ghost use Rattle.std.specs.Prelude.{◌≡◌, ◌++◌, ◌∷◌, [], All, IfOk, IfSome, IsTrue, List};
ghost use Rattle.desk_ops.specs.Op.{IsLawful};
ghost use Rattle.desk_ops.specs.declared.op.Op.{Op};
ghost use Rattle.feed_readings.specs.Sides.{AreSides, IsPass};

use crate::parts::{Beside, Targets, put_target_of};
use desk_held::put_in_turn;
use desk_memory::NoMemory;
use desk_ops::{Op, Stamp};
use std::alloc::Allocator;
use std::collections::BTreeMap;

/// What the one of two lists has alone, with the targets of the deletes that both have, and what the other has alone.
#[derive(Drop)]
pub struct Sides<A: Allocator + Copy> {
    pub olds: Beside<A>,
    pub news: Vec<Op, A>,
}

/// What was passed of two lists: what the one has alone and what the other, the targets of the deletes that both have,
/// and the last stamp.
#[derive(Drop)]
pub struct Pass<A: Allocator + Copy> {
    olds: Vec<Op, A>,
    news: Vec<Op, A>,
    shared: Targets<A>,
    last: Stamp,
}

impl<A: Allocator + Copy> Pass<A> {
    fn new(alloc: A) -> Self
        ensures { IsPass [] [] result }
    {
        Pass {
            olds: Vec::new(alloc),
            news: Vec::new(alloc),
            shared: BTreeMap::new(alloc),
            last: Stamp::HEAD,
        }
    }

    /// Passes an operation of the one list alone; whether its stamp comes after the last.
    fn put_old(&mut self, op: &Op) -> Result<bool, NoMemory>
        ensures { (ones ops : List Op) → IsPass ones ops self.old
            → IfOk result (λ b. IsTrue b → IsPass (ones ++ op.now ∷ []) ops self.new) }
    {
        let stamp = op.stamp();
        if !self.last.is_before(stamp) {
            return Ok(false);
        }
        self.olds.push(*op)?;
        self.last = stamp;
        Ok(true)
    }

    /// Passes an operation of the other list alone; whether its stamp comes after the last.
    fn put_new(&mut self, op: &Op) -> Result<bool, NoMemory>
        ensures { (ones ops : List Op) → IsPass ones ops self.old
            → IfOk result (λ b. IsTrue b → IsPass ones (ops ++ op.now ∷ []) self.new) }
    {
        let stamp = op.stamp();
        if !self.last.is_before(stamp) {
            return Ok(false);
        }
        self.news.push(*op)?;
        self.last = stamp;
        Ok(true)
    }

    /// Passes an operation of each list; whether they are one, and its stamp comes after the last.
    fn put_both(&mut self, one: &Op, op: &Op) -> Result<bool, NoMemory>
        ensures { (ones ops : List Op) → IsPass ones ops self.old
            → IfOk result (λ b. IsTrue b → IsPass (ones ++ one.now ∷ []) (ops ++ op.now ∷ []) self.new) }
    {
        let stamp = op.stamp();
        if one != op || !self.last.is_before(stamp) {
            return Ok(false);
        }
        put_target_of(&mut self.shared, op)?;
        self.last = stamp;
        Ok(true)
    }
}

/// Passes both lists side by side; none where a list does not rise by stamp, or two operations bear one stamp.
fn passed<A: Allocator + Copy>(
    alloc: A,
    ones: &[Op],
    ops: &[Op],
) -> Result<Option<Pass<A>>, NoMemory>
    ensures { IfOk result (λ o. IfSome o (IsPass ones.now ops.now)) }
{
    let mut pass = Pass::new(alloc);
    let mut at = 0;
    let mut place = 0;
    while at < ones.len() && place < ops.len() {
        let (its, stamp) = (ones[at].stamp(), ops[place].stamp());
        if its.is_before(stamp) {
            if !pass.put_old(&ones[at])? {
                return Ok(None);
            }
            at += 1;
        } else if stamp.is_before(its) {
            if !pass.put_new(&ops[place])? {
                return Ok(None);
            }
            place += 1;
        } else {
            if !pass.put_both(&ones[at], &ops[place])? {
                return Ok(None);
            }
            at += 1;
            place += 1;
        }
    }
    while at < ones.len() {
        if !pass.put_old(&ones[at])? {
            return Ok(None);
        }
        at += 1;
    }
    while place < ops.len() {
        if !pass.put_new(&ops[place])? {
            return Ok(None);
        }
        place += 1;
    }
    Ok(Some(pass))
}

/// What each of two lists has that the other has not, where both rise by stamp; none where one does not, or where two
/// operations bear one stamp.
fn sides_of_rising<A: Allocator + Copy>(
    alloc: A,
    ones: &[Op],
    ops: &[Op],
) -> Result<Option<Sides<A>>, NoMemory>
    requires ones { All IsLawful ones.now }
    requires ops { All IsLawful ops.now }
    ensures { IfOk result (λ o. IfSome o (AreSides ones.now ops.now)) }
{
    let Some(pass) = passed(alloc, ones, ops)? else {
        return Ok(None);
    };
    let Pass {
        olds,
        news,
        shared,
        last: _,
    } = pass;
    Ok(Some(Sides {
        olds: Beside {
            alone: olds,
            shared,
        },
        news,
    }))
}

/// What each of two lists has that the other has not; the second may come in any order. None where the first does not
/// rise by stamp, two operations bear one stamp, or memory does not allow a copy of the second in order.
pub fn sides_of<A: Allocator + Copy>(
    alloc: A,
    ones: &[Op],
    ops: &[Op],
) -> Result<Option<Sides<A>>, NoMemory>
    requires ones { All IsLawful ones.now }
    requires ops { All IsLawful ops.now }
    ensures { IfOk result (λ o. IfSome o (AreSides ones.now ops.now)) }
{
    if ops.is_sorted() {
        return sides_of_rising(alloc, ones, ops);
    }
    let Ok(mut list) = Vec::from_slice(alloc, ops) else {
        return Ok(None);
    };
    put_in_turn(&mut list);
    sides_of_rising(alloc, ones, &list)
}
