//! Lists of operations, taken in one by one or all at once.
ghost use Rattle.std.specs.Prelude.{◌≡◌, ◌+◌, ◌≤◌, ◌⊎◌, All, IfErr, IfOk, IfSome, IsOk, OnOk, length, take, true};
ghost use Rattle.std.specs.Prelude.{false, vec_len};
ghost use Rattle.desk_ops.specs.Op.{IsLawful};
ghost use Rattle.desk_ops.specs.OpSet.{with_all, size};
ghost use Rattle.desk_replica.specs.Orders.{KeepsOrder};

use crate::apart::are_apart;
use crate::{Count, Replica, Stopped};
use desk_held::{Held, LIMIT};
use desk_ops::Op;
use desk_seq::Sequence;

/// A list is long from this number of operations on,
const MANY: usize = 32;

/// and from this part of what is held on: making anew costs a pass over all of it.
const PART: usize = 6;

impl<Q: Sequence> Replica<Q> {
    ghost use Rattle.desk_held.specs.Joining.{IsStopped};
    ghost use Rattle.desk_replica.specs.State.{AreApart, HasRoom, IsCounted};

    /// Takes in the operations of a list of which none bears a stamp that is borne, where there is room for them. No
    /// memory is taken.
    fn enter_all(&mut self, ops: &[Op])
        requires lawful { All IsLawful ops.now }
        requires apart { AreApart self.old.ops ops.now }
        requires below { size self.old.ops + length ops.now ≤ LIMIT }
        requires spare { length ops.now ≤ self.old.spare }
        ensures site { self.new.site ≡ self.old.site }
        ensures ops { self.new.ops ≡ with_all self.old.ops ops.now }
    {
        for op in ops {
            self.enter(*op, None);
        }
    }

    /// Whether the operation would wait for what it hangs on.
    fn would_wait(&self, op: &Op) -> bool {
        match op.target() {
            Some(target) => !target.is_head() && self.sequence.find(target).is_none(),
            None => false,
        }
    }

    /// Turns a list round where its oldest operation would wait, and with it what hangs on it: where a chain is sent
    /// end first, each is then put before all that is held, and behind all that waits.
    fn put_in_turn(&self, ops: &mut Vec<Op, Q::Memory>)
        requires lawful { All IsLawful ops.old.items }
        requires apart { AreApart self.now.ops ops.old.items }
        ensures lawful { All IsLawful ops.new.items }
        ensures apart { AreApart self.now.ops ops.new.items }
        ensures len { vec_len ops.new ≡ vec_len ops.old }
        ensures same { with_all self.now.ops ops.new.items ≡ with_all self.now.ops ops.old.items }
    {
        if ops.len() > 0 && self.would_wait(&ops[0]) {
            ops.reverse();
        }
    }

    /// The set with the operations of a list that rises and of which none is held; the list is gone then.
    fn joined(&self, ops: Vec<Op, Q::Memory>) -> Option<Held<Q::Memory>>
        requires { All IsLawful ops.items }
        ensures ops { IfSome result (λ held. held.ops ≡ with_all self.now.ops ops.items) }
        ensures within { IfSome result (λ held. size held.ops ≤ LIMIT) }
    {
        self.held.joined(&ops)
    }

    /// Takes in the operations of a list that rises and of which none is held: where they are many, or one of them
    /// forks a stamp, by making all anew; else one by one, once there is room for all. False where memory does not
    /// allow it: then the set stays.
    fn take_new(&mut self, ops: Vec<Op, Q::Memory>) -> bool
        requires lawful { All IsLawful ops.items }
        requires below { size self.old.ops + vec_len ops ≤ LIMIT }
        ensures site { self.new.site ≡ self.old.site }
        ensures taken { result ≡ true → self.new.ops ≡ with_all self.old.ops ops.items }
        ensures none { result ≡ false → self.new.ops ≡ self.old.ops }
        ensures spare { result ≡ false → self.old.spare ≤ self.new.spare }
    {
        let are_many = ops.len() >= MANY && ops.len() >= self.held.len() / PART;
        if are_many || !are_apart(&self.held, &ops) {
            if self.held.is_empty() {
                return self.begin(&ops);
            }
            return match self.joined(ops) {
                Some(held) => self.hold_anew(held),
                None => false,
            };
        }
        let Ok(()) = self.reserve(ops.len()) else {
            return false;
        };
        let mut ops = ops;
        self.sequence.prepare_find();
        self.put_in_turn(&mut ops);
        self.enter_all(&ops);
        true
    }

    /// Takes in a list by what is missing of it; false where memory or the limit does not allow it: then the set stays.
    fn take_missing(&mut self, ops: &[Op]) -> bool
        requires { All IsLawful ops.now }
        ensures site { self.new.site ≡ self.old.site }
        ensures taken { result ≡ true → self.new.ops ≡ with_all self.old.ops ops.now }
        ensures none { result ≡ false → self.new.ops ≡ self.old.ops }
        ensures spare { result ≡ false → self.old.spare ≤ self.new.spare }
    {
        // Where nothing is held all of a list is missing, and one that rises is laid out as it is.
        if ops.len() >= MANY && self.held.is_empty() && self.begin(ops) {
            return true;
        }
        let Ok(missing) = self.held.missing(ops) else {
            return false;
        };
        if missing.len() > LIMIT - self.held.len() {
            return false;
        }
        self.take_new(missing)
    }

    /// How many operations of a list, from its first on, were taken in at once: all, or as many as can be held in any
    /// case.
    fn take_first(&mut self, ops: &[Op]) -> usize
        requires { All IsLawful ops.now }
        ensures site { self.new.site ≡ self.old.site }
        ensures within { result ≤ length ops.now }
        ensures joined { self.new.ops ≡ with_all self.old.ops (take result ops.now) }
        ensures whole { size self.old.ops + length ops.now ≤ LIMIT → (result ≡ length ops.now)
            ⊎ ((result ≡ 0) × (self.old.spare ≤ self.new.spare)) }
    {
        if ops.len() == 1 {
            return 0;
        }
        if self.take_missing(ops) {
            return ops.len();
        }
        let many = LIMIT - self.held.len();
        if many < ops.len() && self.take_missing(&ops[..many]) {
            return many;
        }
        0
    }

    /// Takes in operations one after the other, up to the first that is refused.
    fn take_in(&mut self, ops: &[Op]) -> Result<(), Stopped>
        requires { All IsLawful ops.now }
        ensures site { self.new.site ≡ self.old.site }
        ensures ok { OnOk result (self.new.ops ≡ with_all self.old.ops ops.now) }
        ensures stopped { IfErr result (λ s. IsStopped self.old.ops self.new.ops ops.now s) }
        ensures room { HasRoom self.old.ops self.old.spare ops.now → IsOk result }
    {
        let first = self.take_first(ops);
        for taken in first..ops.len() {
            if let Err(why) = self.put(ops[taken]) {
                return Err(Stopped { taken, why });
            }
        }
        Ok(())
    }

    /// Takes in the operations of a list, one after the other, up to the first that is refused: `Full` comes exactly
    /// where 1,048,576 operations are held and the next is not among them. None is refused where all can be held, there
    /// is room for as many, and none forks a stamp. Elements that are shown before and after keep their order, whatever
    /// the outcome.
    pub fn take_all(&mut self, ops: &[Op]) -> Result<Count, Stopped>
        requires { All IsLawful ops.now }
        ensures site { self.new.site ≡ self.old.site }
        ensures ok { OnOk result (self.new.ops ≡ with_all self.old.ops ops.now) }
        ensures counts { IfOk result (λ c. IsCounted self.old.ops self.new.ops ops.now c) }
        ensures within { OnOk result (size self.new.ops ≤ LIMIT) }
        ensures stopped { IfErr result (λ s. IsStopped self.old.ops self.new.ops ops.now s) }
        ensures room { HasRoom self.old.ops self.old.spare ops.now → IsOk result }
        ensures order { KeepsOrder self.old.ops self.new.ops }
    {
        let before = self.len();
        self.take_in(ops)?;
        let new = self.len() - before;
        Ok(Count {
            new,
            known: ops.len() - new,
        })
    }
}
