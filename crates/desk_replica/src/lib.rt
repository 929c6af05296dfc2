//! One site's copy: what it holds, what its operations add, and what they show.
//!
//! The meaning is that of the set of operations (`desk_ops`). The sequence, the room and the registers follow the set,
//! so an edit makes none of them anew. What is shown keeps its order for good. Where no stamp of all that the sites
//! hold is forked, it has that order at every site. That is the strong list specification (Attiya et al. 2016,
//! "Specification and complexity of collaborative text editing").
//!
//! A replica holds at most 1,048,576 operations, and refuses any further one. It refuses an edit for its place, its
//! value, a full set or a full clock, in this order. A refused call changes nothing, but a list that stops leaves its
//! first operations.
#![tactic(auto)]

ghost use Rattle.std.specs.Prelude.{◌≡◌, ◌+◌, ◌-◌, ◌≤◌, ◌<◌, ◌↔◌, ◌⊎◌, ◌++◌, ◌^◌, [], drop, All, IfOk, IfErr, IfSome};
ghost use Rattle.std.specs.Prelude.{IsNone, IsOk, OnOk, OnErr, IsErrOf, length, take, true, false};
ghost use Rattle.std.specs.List.{AllByRecursion, list_all};
ghost use Rattle.desk_ops.specs.Op.{IsLawful};
ghost use Rattle.desk_ops.specs.OpSet.{no_ops, has_op, with_op, with_all, union, in_order, size, AllLawful};
ghost use Rattle.desk_ops.specs.Op.{stamp_of};
ghost use Rattle.desk_ops.specs.Held.{greatest_counter_of, is_borne_in, IsUnforked};
ghost use Rattle.desk_ops.specs.Shown.{copy_of, shown_of};
ghost use Rattle.desk_ops.specs.Settings.{setting_of};
ghost use Rattle.desk_ops.specs.Faults.{faults_of};
ghost use Rattle.std.specs.List.Sorted.{IsPermutation};
ghost use Rattle.desk_codec.specs.Feed.{IsFeed};
ghost use Rattle.desk_codec.specs.Runs.{runs_ops, set_feed};
ghost use Rattle.desk_replica.specs.JobSettings.{AreKept, settings_of};
ghost use Rattle.desk_registers.specs.Registers.{kept};
ghost use Rattle.desk_walk.specs.Following.{entries_of, IsSettled, IsWaiting};
ghost use Rattle.desk_replica.specs.Orders.{KeepsOrder, ShareOneOrder};
ghost use Rattle.desk_replica.specs.Edits.{new_stamp, parent_at, stamp_at, edit_refusal, insert_refusal};
ghost use Rattle.desk_replica.specs.Edits.{delete_refusal, set_refusal, IsInserted, IsDeleted, IsSetTo};

use desk_codec::write_runs;
use desk_held::{AddRefusal, Held, LIMIT};
use desk_memory::NoMemory;
use desk_ops::op::MAX_COUNTER;
use desk_ops::{CopyFault, Key, Op, Stamp, Symbol};
use desk_registers::Registers;
use desk_seq::{Entry, Sequence};
use desk_walk::{Room, enter, made_of, made_of_list};
use faults::faults_of;
use settings::{keep, kept_in};
use std::alloc::Allocator;
use std::marker::Model;
use thiserror::Error;

mod apart;
mod faults;
pub mod laws;
mod seats;
mod settings;
mod taking;

pub use desk_held::Stopped;
pub use seats::{Stamped, seat};
pub use settings::Settings;

/// What taking in an operation did.
#[derive(Clone, Copy, Debug, PartialEq, Eq)]
pub enum Took {
    /// It was not held, and now is.
    New,
    /// It was held already.
    Known,
}

/// Why an operation was not taken in or made. The set is then as it was.
#[derive(Clone, Copy, Debug, PartialEq, Eq, Error)]
pub enum Refusal {
    #[error("as many operations are held as may be")]
    Full,
    #[error("the greatest counter is held")]
    ClockFull,
    #[error("the copy has no such place")]
    Place,
    #[error("the value is out of its range")]
    Value,
    #[error("no memory")]
    NoMemory,
}

impl From<AddRefusal> for Refusal {
    ghost use Rattle.std.specs.Prelude.{◌≡◌};
    ghost use Rattle.desk_replica.specs.State.{refusal_of};

    ghost from_gives = { λ why refusal. refusal ≡ refusal_of why };

    fn from(why: AddRefusal) -> Refusal {
        match why {
            AddRefusal::Full => Refusal::Full,
            AddRefusal::NoMemory => Refusal::NoMemory,
        }
    }
}

impl From<NoMemory> for Refusal {
    ghost use Rattle.std.specs.Prelude.{◌≡◌};
    ghost use Rattle.desk_replica.specs.declared.Refusal.TheVariants as refusals;

    ghost from_gives = { λ _ refusal. refusal ≡ refusals.NoMemory };

    fn from(_: NoMemory) -> Refusal {
        Refusal::NoMemory
    }
}

/// How many operations of a list were new, and how many were known.
#[derive(Clone, Copy, Debug, PartialEq, Eq)]
pub struct Count {
    pub new: usize,
    pub known: usize,
}

/// A site, and the operations that it holds; with them a sequence that is their walk, a room of what waits, and
/// registers of the settings. These follow the set: an operation that comes is put where it acts, with all that waited
/// for it; they are made anew where one forks a stamp, and for a list that is long beside what is held. The place where
/// the last one acted is kept as a hint: what is typed or comes in order hangs there.
pub struct Replica<Q: Sequence> {
    site: u16,
    held: Held<Q::Memory>,
    sequence: Q,
    room: Room<Q::Memory>,
    registers: Registers,
    near: usize,
    alloc: Q::Memory,
}

// Written out: what drops one calls this, and does not take it apart once more.
impl<Q: Sequence> Drop for Replica<Q> {
    fn drop(self) {
        let Replica {
            site: _,
            held,
            sequence,
            room,
            registers: _,
            near: _,
            alloc: _,
        } = self;
        drop(held);
        drop(sequence);
        drop(room);
    }
}

impl<Q: Sequence> Model for Replica<Q> {
    ghost use Rattle.desk_replica.specs.State.{State, state_code};
    ghost use Rattle.desk_replica.specs.Shows.{IsSound, spare_of};

    ghost Value = { State };

    ghost coded = { state_code };

    ghost view = { λ a. record {
      site = a.site;
      ops = a.held.ops;
      spare = spare_of a.held.spare a.room.spare
          (Q.free a.sequence) a.room.ops;
    } };

    ghost invariant = { λ a. IsSound a.site a.held.ops a.registers (Q.entries a.sequence) a.room.ops (Q.free a.sequence) };
}

/// Makes room for at least `n` more in all three: in the sequence for all that waits too.
fn reserve_all<Q: Sequence>(
    held: &mut Held<Q::Memory>,
    sequence: &mut Q,
    room: &mut Room<Q::Memory>,
    n: usize,
) -> Result<(), NoMemory>
    requires { size room.old.ops + n < 2 ^ 32 }
    ensures held { held.new.ops ≡ held.old.ops }
    ensures entries { Q.entries sequence.new ≡ Q.entries sequence.old }
    ensures waiting { room.new.ops ≡ room.old.ops }
    ensures held_grows { held.old.spare ≤ held.new.spare }
    ensures free_grows { Q.free sequence.old ≤ Q.free sequence.new }
    ensures room_grows { room.old.spare ≤ room.new.spare }
    ensures some { OnOk result ((n ≤ held.new.spare) × (n ≤ room.new.spare)
        × (size room.new.ops + n ≤ Q.free sequence.new)) }
    ensures enough { n ≤ held.old.spare → n ≤ room.old.spare → size room.old.ops + n ≤ Q.free sequence.old
        → IsOk result }
{
    held.reserve(n)?;
    room.reserve(n)?;
    sequence.reserve(room.len() + n)?;
    Ok(())
}

/// Whether the operation is held: looked for only where its stamp is borne.
fn is_known<A: Allocator + Copy>(held: &Held<A>, op: &Op, is_borne: bool) -> bool
    requires { is_borne ≡ is_borne_in held.now.ops (stamp_of op.now) }
    ensures { result ≡ has_op held.now.ops op.now }
{
    is_borne && held.has(op)
}

impl<Q: Sequence> Replica<Q> {
    ghost use Rattle.desk_held.specs.Joining.{IsStopped};
    ghost use Rattle.desk_replica.specs.State.{took_by, IsCounted, IsKept, HasRoom};

    /// A replica that holds nothing.
    pub fn new(alloc: Q::Memory, site: u16) -> Self
        requires { 1 ≤ site }
        ensures site { result.site ≡ site }
        ensures ops { result.ops ≡ no_ops }
    {
        Replica {
            site,
            held: Held::new(alloc),
            sequence: Q::empty(alloc),
            room: Room::new(alloc),
            registers: Registers::new(),
            near: 0,
            alloc,
        }
    }

    /// A replica that holds the operations of a list. `Full` comes only where the list has more than 1,048,576
    /// different operations, and of such a list none is made, since no replica holds more. Nothing is taken in of a
    /// refused list, and an empty list is never refused.
    pub fn open(alloc: Q::Memory, site: u16, ops: &[Op]) -> Result<Self, Stopped>
        requires numbered { 1 ≤ site }
        requires lawful { All IsLawful ops.now }
        ensures site { IfOk result (λ r. r.site ≡ site) }
        ensures ops { IfOk result (λ r. r.ops ≡ with_all no_ops ops.now) }
        ensures within { IfOk result (λ r. size r.ops ≤ LIMIT) }
        ensures none { IfErr result (λ s. s.taken ≡ 0) }
        ensures full { IfErr result (λ s. s.why ≡ AddRefusal.Full → LIMIT < size (with_all no_ops ops.now)) }
        ensures empty { ops.now ≡ [] → IsOk result }
    {
        let mut replica = Replica::new(alloc, site);
        if let Err(stopped) = replica.take_all(ops) {
            return Err(Stopped {
                taken: 0,
                why: stopped.why,
            });
        }
        Ok(replica)
    }

    /// The site's number.
    pub fn site(&self) -> u16
        ensures value { result ≡ self.now.site }
        ensures some { 1 ≤ result }
        ensures lawful { AllLawful self.now.ops }
    {
        self.site
    }

    /// The number of operations held.
    pub fn len(&self) -> usize
        ensures value { result ≡ size self.now.ops }
        ensures within { result ≤ LIMIT }
        ensures lawful { AllLawful self.now.ops }
    {
        self.held.len()
    }

    /// Whether no operation is held.
    pub fn is_empty(&self) -> bool
        ensures { result ≡ true ↔ (size self.now.ops ≡ 0) }
    {
        self.held.is_empty()
    }

    /// Whether the operation is held.
    pub fn has(&self, op: &Op) -> bool
        ensures { result ≡ has_op self.now.ops op.now }
    {
        self.held.has(op)
    }

    /// Whether each operation of a list is held. A list that rises and is not short is passed beside what is held: one
    /// look at
    /// each operation. It cannot run out of memory.
    pub fn has_all(&self, ops: &[Op]) -> bool
        ensures { result ≡ list_all (has_op self.now.ops) ops.now }
    {
        self.held.has_all(ops)
    }

    /// The sequence: the walk of the set, with exactly the targets of live deletes marked.
    pub fn sequence(&self) -> &Q
        ensures { Q.entries result.now ≡ entries_of self.now.ops }
    {
        &self.sequence
    }

    /// What waits: exactly the clear inserts and deletes that are not live.
    pub fn room(&self) -> &Room<Q::Memory>
        ensures { (op : Op) → (has_op result.now.ops op ≡ true) ↔ IsWaiting self.now.ops op }
    {
        &self.room
    }

    /// How many more operations that fork no stamp can be taken in with no new memory.
    pub fn spare(&self) -> usize
        ensures { result ≡ self.now.spare }
    {
        let free = self.sequence.spare() - self.room.len();
        self.held.spare().min(self.room.spare().min(free))
    }

    /// Makes room for at least `n` more operations. Where a growth was refused the set stays, and spare may have grown.
    pub fn reserve(&mut self, n: usize) -> Result<(), NoMemory>
        requires { n ≤ LIMIT }
        ensures site { self.new.site ≡ self.old.site }
        ensures ops { self.new.ops ≡ self.old.ops }
        ensures grows { self.old.spare ≤ self.new.spare }
        ensures room { OnOk result (n ≤ self.new.spare) }
        ensures enough { n ≤ self.old.spare → IsOk result }
    {
        reserve_all(&mut self.held, &mut self.sequence, &mut self.room, n)
    }

    /// Takes in an operation whose stamp none bears, where there is room for it. It cannot run out of memory. Its
    /// target is looked for at the place first, or where the last one acted.
    fn enter(&mut self, op: Op, place: Option<usize>)
        requires lawful { IsLawful op }
        requires new { is_borne_in self.old.ops (stamp_of op) ≡ false }
        requires below { size self.old.ops < LIMIT }
        requires spare { 1 ≤ self.old.spare }
        ensures site { self.new.site ≡ self.old.site }
        ensures ops { self.new.ops ≡ with_op self.old.ops op }
        ensures spare { self.old.spare ≤ self.new.spare + 1 }
    {
        self.held.put(op);
        keep(&mut self.registers, &op);
        let near = place.unwrap_or(self.near);
        self.near = enter(&mut self.sequence, &mut self.room, op, near);
    }

    /// Holds this set, with what was made of it, in place of its own.
    fn replace(
        &mut self,
        held: Held<Q::Memory>,
        registers: Registers,
        sequence: Q,
        room: Room<Q::Memory>,
    )
        requires lawful { AllByRecursion IsLawful (in_order held.ops) }
        requires few { size held.ops ≤ LIMIT }
        requires kept { AreKept held.ops (kept registers) }
        requires settled { IsSettled held.ops (Q.entries sequence) room.ops }
        requires waiting { size room.ops ≤ size held.ops }
        requires free { size room.ops ≤ Q.free sequence }
        ensures site { self.new.site ≡ self.old.site }
        ensures ops { self.new.ops ≡ held.ops }
    {
        self.registers = registers;
        self.held = held;
        self.sequence = sequence;
        self.room = room;
    }

    /// Holds this set in place of its own, by the list of its operations in order: all is made anew, whole before it
    /// replaces
    /// the old; false where memory does not allow it.
    fn lay_out(&mut self, held: Held<Q::Memory>, list: &[Op]) -> bool
        requires lawful { All IsLawful list.now }
        requires listed { list.now ≡ in_order held.ops }
        requires few { size held.ops ≤ LIMIT }
        ensures site { self.new.site ≡ self.old.site }
        ensures whole { result ≡ true → self.new.ops ≡ held.ops }
        ensures none { result ≡ false → self.new.ops ≡ self.old.ops }
        ensures spare { result ≡ false → self.new.spare ≡ self.old.spare }
    {
        let Ok((sequence, room)) = made_of(self.alloc, &held, list) else {
            return false;
        };
        let registers = kept_in(&held, list);
        self.replace(held, registers, sequence, room);
        true
    }

    /// The same by a list that is made here, and gone before the sequence is made.
    fn hold_anew(&mut self, held: Held<Q::Memory>) -> bool
        requires few { size held.ops ≤ LIMIT }
        ensures site { self.new.site ≡ self.old.site }
        ensures whole { result ≡ true → self.new.ops ≡ held.ops }
        ensures none { result ≡ false → self.new.ops ≡ self.old.ops }
        ensures spare { result ≡ false → self.new.spare ≡ self.old.spare }
    {
        let Ok(list) = held.in_order() else {
            return false;
        };
        let registers = kept_in(&held, &list);
        let Ok((sequence, room)) = made_of_list(self.alloc, &held, list) else {
            return false;
        };
        self.replace(held, registers, sequence, room);
        true
    }

    /// Takes in a list that rises where nothing is held: it is laid out as it is. False where it does not rise or
    /// memory does not allow it.
    fn begin(&mut self, ops: &[Op]) -> bool
        requires lawful { All IsLawful ops.now }
        requires none { size self.old.ops ≡ 0 }
        ensures site { self.new.site ≡ self.old.site }
        ensures begun { result ≡ true → self.new.ops ≡ with_all self.old.ops ops.now }
        ensures none { result ≡ false → self.new.ops ≡ self.old.ops }
        ensures spare { result ≡ false → self.new.spare ≡ self.old.spare }
    {
        let Some(held) = Held::of_rising(self.alloc, ops) else {
            return false;
        };
        self.lay_out(held, ops)
    }

    /// Takes in the operations of a list that rises and of which none is held by making all anew, whole before it
    /// replaces
    /// the old; false where memory does not allow it.
    fn join(&mut self, ops: &[Op]) -> bool
        requires { All IsLawful ops.now }
        ensures site { self.new.site ≡ self.old.site }
        ensures joined { result ≡ true → self.new.ops ≡ with_all self.old.ops ops.now }
        ensures none { result ≡ false → self.new.ops ≡ self.old.ops }
        ensures spare { result ≡ false → self.new.spare ≡ self.old.spare }
    {
        if self.held.is_empty() {
            return self.begin(ops);
        }
        let Some(held) = self.held.joined(ops) else {
            return false;
        };
        self.hold_anew(held)
    }

    /// Adds an operation to what is held.
    fn put(&mut self, op: Op) -> Result<Took, AddRefusal>
        requires { IsLawful op }
        ensures site { self.new.site ≡ self.old.site }
        ensures took { IfOk result (λ t. t ≡ took_by self.old.ops op) }
        ensures ok { OnOk result (self.new.ops ≡ with_op self.old.ops op) }
        ensures err { OnErr result (self.new.ops ≡ self.old.ops) }
        ensures full { IsErrOf result AddRefusal.Full
            ↔ ((has_op self.old.ops op ≡ false) × (size self.old.ops ≡ LIMIT)) }
        ensures memory { IsErrOf result AddRefusal.NoMemory → (has_op self.old.ops op ≡ false)
            × ((self.old.spare ≡ 0) ⊎ (is_borne_in self.old.ops (stamp_of op) ≡ true)) }
        ensures spare { is_borne_in self.old.ops (stamp_of op) ≡ false → self.old.spare ≤ self.new.spare + 1 }
        ensures err_spare { OnErr result (self.old.spare ≤ self.new.spare) }
        ensures known_spare { has_op self.old.ops op ≡ true → self.new.spare ≡ self.old.spare }
        ensures lawful { AllLawful self.old.ops }
    {
        let is_borne = self.held.holds(op.stamp());
        if is_known(&self.held, &op, is_borne) {
            return Ok(Took::Known);
        }
        if self.held.len() == LIMIT {
            return Err(AddRefusal::Full);
        }
        if is_borne {
            return if self.join(&[op]) {
                Ok(Took::New)
            } else {
                Err(AddRefusal::NoMemory)
            };
        }
        self.reserve(1)?;
        self.enter(op, None);
        Ok(Took::New)
    }

    /// Takes in an operation, and with it all that waited for it. `Full` comes exactly where 1,048,576 operations are
    /// held and this one is not; out of memory only where this one is not held and there was no room, or it forks a
    /// stamp. No other refusal comes, and after one the set is as it was. Elements that are shown before and after keep
    /// their order.
    pub fn take(&mut self, op: Op) -> Result<Took, Refusal>
        requires { IsLawful op }
        ensures site { self.new.site ≡ self.old.site }
        ensures took { IfOk result (λ t. t ≡ took_by self.old.ops op) }
        ensures ok { OnOk result (self.new.ops ≡ with_op self.old.ops op) }
        ensures err { OnErr result (self.new.ops ≡ self.old.ops) }
        ensures full { IsErrOf result Refusal.Full ↔ ((has_op self.old.ops op ≡ false) × (size self.old.ops ≡ LIMIT)) }
        ensures memory { IsErrOf result Refusal.NoMemory → has_op self.old.ops op ≡ false }
        ensures growth { IsErrOf result Refusal.NoMemory → (self.old.spare ≡ 0)
            ⊎ (is_borne_in self.old.ops (stamp_of op) ≡ true) }
        ensures causes { IfErr result (λ e. (e ≡ Refusal.Full) ⊎ (e ≡ Refusal.NoMemory)) }

        // An operation that forks no stamp takes at most one place, and a refusal or a known one none.
        ensures spare { is_borne_in self.old.ops (stamp_of op) ≡ false → self.old.spare ≤ self.new.spare + 1 }
        ensures err_spare { OnErr result (self.old.spare ≤ self.new.spare) }
        ensures known_spare { has_op self.old.ops op ≡ true → self.new.spare ≡ self.old.spare }
        ensures order { KeepsOrder self.old.ops self.new.ops }
    {
        Ok(self.put(op)?)
    }

    /// Takes in the operations of another replica, by stamp and then by bytes, up to the first that is refused: `Full`
    /// comes exactly where 1,048,576 operations are held and the next is not among them. None is refused where all can
    /// be held, there is room for as many, and none forks a stamp. The other is only read. A long list takes memory for
    /// both sets, where that is to be had. Elements that are shown before and after keep their order, whatever the
    /// outcome, and so do those that the other shows, where the merge succeeds; where no stamp of the union is forked,
    /// its path order is one total order in which stands what both showed and what is shown after.
    pub fn merge(&mut self, other: &Replica<Q>) -> Result<Count, Stopped>
        ensures site { self.new.site ≡ self.old.site }
        ensures ok { OnOk result (self.new.ops ≡ union self.old.ops other.now.ops) }
        ensures counts { IfOk result (λ c. IsCounted self.old.ops self.new.ops (in_order other.now.ops) c) }
        ensures stopped { IfErr result (λ s. IsStopped self.old.ops self.new.ops (in_order other.now.ops) s) }
        ensures room { HasRoom self.old.ops self.old.spare (in_order other.now.ops) → IsOk result }
        ensures order { KeepsOrder self.old.ops self.new.ops }
        ensures other_order { OnOk result (KeepsOrder other.now.ops self.new.ops) }
        ensures one_order { IsUnforked (union self.old.ops other.now.ops)
            → ShareOneOrder self.old.ops other.now.ops self.new.ops }
    {
        let _ = &self.site;
        match other.held.in_order() {
            Ok(ops) => self.take_all(&ops),
            Err(NoMemory) => self.take_each(&other.held),
        }
    }

    /// Takes in the operations of a set one by one, up to the first that is refused.
    fn take_each(&mut self, ops: &Held<Q::Memory>) -> Result<Count, Stopped>
        ensures site { self.new.site ≡ self.old.site }
        ensures ok { OnOk result (self.new.ops ≡ union self.old.ops ops.now.ops) }
        ensures counts { IfOk result (λ c. IsCounted self.old.ops self.new.ops (in_order ops.now.ops) c) }
        ensures stopped { IfErr result (λ s. IsStopped self.old.ops self.new.ops (in_order ops.now.ops) s) }
        ensures room { HasRoom self.old.ops self.old.spare (in_order ops.now.ops) → IsOk result }
    {
        let before = self.len();
        for taken in 0..ops.len() {
            if let Err(why) = self.put(ops.op(taken)) {
                return Err(Stopped { why, taken });
            }
        }
        let new = self.len() - before;
        Ok(Count {
            new,
            known: ops.len() - new,
        })
    }

    /// The operations held, by stamp and then by bytes.
    pub fn in_order(&self) -> Result<Vec<Op, Q::Memory>, NoMemory>
        ensures items { IfOk result (λ v. v.items ≡ in_order self.now.ops) }
        ensures lawful { IfOk result (λ v. All IsLawful v.items) }
    {
        self.held.in_order()
    }

    /// The operations from place `from` up to place `until`, by stamp and then by bytes. It reads those alone.
    pub fn range(&self, from: usize, until: usize) -> Result<Vec<Op, Q::Memory>, NoMemory>
        requires order { from ≤ until }
        requires within { until ≤ size self.now.ops }
        ensures items { IfOk result (λ v. v.items ≡ take (until - from) (drop from (in_order self.now.ops))) }
        ensures lawful { IfOk result (λ v. All IsLawful v.items) }
    {
        self.held.range(from, until)
    }

    /// The feed of the operations held: by stamp and then by bytes, but what a site typed in one go together, in runs.
    /// It is
    /// read as these operations, each once.
    pub fn write_feed(&self) -> Result<Vec<u8, Q::Memory>, NoMemory>
        ensures bytes { IfOk result (λ v. v.items ≡ set_feed self.now.ops) }
        ensures grammar { IfOk result (λ v. IsFeed v.items (runs_ops (in_order self.now.ops))) }
        ensures same { IfOk result (λ _. IsPermutation (in_order self.now.ops) (runs_ops (in_order self.now.ops))) }
    {
        let ops = self.held.in_order()?;
        write_runs(self.alloc, &ops)
    }

    /// The copy faults: of each stamp whose operations do not act why they do not, by stamp. Where there are none it is
    /// never out of memory.
    pub fn copy_faults(&self) -> Result<Vec<CopyFault, Q::Memory>, NoMemory>
        ensures faults { IfOk result (λ v. v.items ≡ faults_of self.now.ops) }
        ensures none { faults_of self.now.ops ≡ [] → IsOk result }
    {
        if self.room.is_empty() && self.held.is_unforked() {
            return Ok(Vec::new(self.alloc));
        }
        faults_of(self.alloc, &self.held)
    }

    /// The copy: the symbols that the set shows. It is read from the sequence.
    pub fn copy(&self) -> Result<Vec<Symbol, Q::Memory>, NoMemory>
        ensures copy { IfOk result (λ v. v.items ≡ copy_of self.now.ops) }
        ensures within { size self.now.ops ≤ LIMIT }
        ensures lawful { AllLawful self.now.ops }
    {
        Ok(self.sequence.symbols(self.alloc)?)
    }

    /// How many symbols the copy has. It cannot run out of memory.
    pub fn copy_len(&self) -> usize
        ensures { result ≡ length (copy_of self.now.ops) }
    {
        self.sequence.shown_len()
    }

    /// The value of a setting.
    fn setting(&self, key: Key) -> Option<u32>
        ensures { result ≡ setting_of self.now.ops key }
    {
        self.registers.value(key)
    }

    /// The settings of the job: of each key the value of the live set with the greatest stamp. It cannot run
    /// out of memory.
    pub fn settings(&self) -> Settings
        ensures { result ≡ settings_of self.now.ops }
    {
        Settings {
            measure: self.setting(Key::Measure),
            tight: self.setting(Key::Tight),
            loose: self.setting(Key::Loose),
            case: self.setting(Key::Case),
            wedge: self.setting(Key::Wedge),
        }
    }

    /// The stamp of the element that is shown at the place; with it a hint where in the sequence it stands.
    fn stamp_at(&self, place: usize) -> Option<(Stamp, usize)>
        ensures within { IfSome result (λ r. place < length (shown_of self.now.ops)) }
        ensures is { IfSome result (λ r. r.0 ≡ stamp_at (shown_of self.now.ops) place) }
        ensures none { IsNone result → length (shown_of self.now.ops) ≤ place }
    {
        match self.sequence.shown_place(place) {
            Some(at) => Some((self.sequence.entry(at).stamp, at.saturating_add(1))),
            None => None,
        }
    }

    /// What an element at the place stands after: the head, or the element that is shown before it; with it a hint
    /// where in the sequence that stands.
    fn parent_at(&self, place: usize) -> Option<(Stamp, usize)>
        ensures within { IfSome result (λ r. place ≤ length (shown_of self.now.ops)) }
        ensures is { IfSome result (λ r. r.0 ≡ parent_at (shown_of self.now.ops) place) }
        ensures none { IsNone result → length (shown_of self.now.ops) < place }
    {
        if place == 0 {
            return Some((Stamp::HEAD, 0));
        }
        Some(self.stamp_at(place - 1)?)
    }

    /// The stamp of the next operation that is made here, or why none can be made: as many operations are held as may
    /// be,
    /// or the greatest counter is.
    fn next_stamp(&self) -> Result<Stamp, Refusal>
        ensures stamp { IfOk result (λ s. s ≡ new_stamp self.now) }
        ensures kept { IsKept self.now.site self.now.ops }
        ensures below { OnOk result (size self.now.ops < LIMIT) }
        ensures clock { OnOk result (greatest_counter_of self.now.ops < MAX_COUNTER) }
        ensures free { OnOk result (edit_refusal self.now.ops true true ≡ None) }
        ensures refused { IfErr result (λ e. edit_refusal self.now.ops true true ≡ Some e) }
    {
        if self.held.len() == LIMIT {
            return Err(Refusal::Full);
        }
        let counter = self.held.greatest_counter();
        if counter >= MAX_COUNTER {
            return Err(Refusal::ClockFull);
        }
        Ok(Stamp {
            counter: counter + 1,
            site: self.site,
        })
    }

    /// Adds an operation that was made here. Its target is looked for at the place first.
    fn make(&mut self, op: Op, place: Option<usize>) -> Result<Op, Refusal>
        requires lawful { IsLawful op }
        requires new { greatest_counter_of self.old.ops < (stamp_of op).counter }
        requires below { size self.old.ops < LIMIT }
        ensures site { self.new.site ≡ self.old.site }
        ensures op { IfOk result (λ o. o ≡ op) }
        ensures ok { OnOk result (self.new.ops ≡ with_op self.old.ops op) }
        ensures err { OnErr result (self.new.ops ≡ self.old.ops) }
        ensures memory { IfErr result (λ e. e ≡ Refusal.NoMemory) }
        ensures growth { OnErr result (self.old.spare ≡ 0) }
        ensures spare { self.old.spare ≤ self.new.spare + 1 }
        ensures err_spare { OnErr result (self.old.spare ≤ self.new.spare) }
    {
        self.reserve(1)?;
        self.enter(op, place);
        Ok(op)
    }

    /// Inserts a symbol at a place of the copy, and returns the operation made. `Place` comes where the place is above
    /// the copy's length, `Value` where the symbol is not lawful, `Full` and `ClockFull` where nothing more can be
    /// made, the first of these that holds. Out of memory comes only where none of them holds and there was no room.
    pub fn insert_at(&mut self, place: usize, symbol: Symbol) -> Result<Op, Refusal>
        ensures site { self.new.site ≡ self.old.site }
        ensures made { IfOk result (λ op. IsInserted self.old self.new place symbol op) }
        ensures allowed { OnOk result (insert_refusal self.old.ops place symbol ≡ None) }
        ensures same { OnErr result (self.new.ops ≡ self.old.ops) }
        ensures refused { IfErr result (λ e. (e ≡ Refusal.NoMemory)
            ⊎ (insert_refusal self.old.ops place symbol ≡ Some e)) }
        ensures memory { IsErrOf result Refusal.NoMemory → (insert_refusal self.old.ops place symbol ≡ None)
            × (self.old.spare ≡ 0) }
        ensures spare { self.old.spare ≤ self.new.spare + 1 }
        ensures err_spare { OnErr result (self.old.spare ≤ self.new.spare) }
    {
        let Some((parent, at)) = self.parent_at(place) else {
            return Err(Refusal::Place);
        };
        if symbol.check().is_err() {
            return Err(Refusal::Value);
        }
        let stamp = self.next_stamp()?;
        self.make(
            Op::Insert {
                stamp,
                parent,
                symbol,
            },
            Some(at),
        )
    }

    /// Deletes the element at a place of the copy, and returns the operation made. `Place` comes where the place is not
    /// below the copy's length, `Full` and `ClockFull` where nothing more can be made, the first of these that holds.
    /// Out of memory comes only where none of them holds and there was no room.
    pub fn delete_at(&mut self, place: usize) -> Result<Op, Refusal>
        ensures site { self.new.site ≡ self.old.site }
        ensures made { IfOk result (λ op. IsDeleted self.old self.new place op) }
        ensures allowed { OnOk result (delete_refusal self.old.ops place ≡ None) }
        ensures same { OnErr result (self.new.ops ≡ self.old.ops) }
        ensures refused { IfErr result (λ e. (e ≡ Refusal.NoMemory) ⊎ (delete_refusal self.old.ops place ≡ Some e)) }
        ensures memory { IsErrOf result Refusal.NoMemory → (delete_refusal self.old.ops place ≡ None)
            × (self.old.spare ≡ 0) }
        ensures spare { self.old.spare ≤ self.new.spare + 1 }
        ensures err_spare { OnErr result (self.old.spare ≤ self.new.spare) }
    {
        let Some((target, at)) = self.stamp_at(place) else {
            return Err(Refusal::Place);
        };
        let stamp = self.next_stamp()?;
        self.make(Op::Delete { stamp, target }, Some(at))
    }

    /// Gives a setting of the job a value, and returns the operation made. `Value` comes where the key does not take
    /// the value, `Full` and `ClockFull` where nothing more can be made, the first of these that holds. Out of memory
    /// comes only where none of them holds and there was no room.
    pub fn set(&mut self, key: Key, value: u32) -> Result<Op, Refusal>
        ensures site { self.new.site ≡ self.old.site }
        ensures made { IfOk result (λ op. IsSetTo self.old self.new key value op) }
        ensures allowed { OnOk result (set_refusal self.old.ops key value ≡ None) }
        ensures same { OnErr result (self.new.ops ≡ self.old.ops) }
        ensures refused { IfErr result (λ e. (e ≡ Refusal.NoMemory) ⊎ (set_refusal self.old.ops key value ≡ Some e)) }
        ensures memory { IsErrOf result Refusal.NoMemory → (set_refusal self.old.ops key value ≡ None)
            × (self.old.spare ≡ 0) }
        ensures spare { self.old.spare ≤ self.new.spare + 1 }
        ensures err_spare { OnErr result (self.old.spare ≤ self.new.spare) }
    {
        if !key.takes(value) {
            return Err(Refusal::Value);
        }
        let stamp = self.next_stamp()?;
        self.make(Op::Set { stamp, key, value }, None)
    }
}
