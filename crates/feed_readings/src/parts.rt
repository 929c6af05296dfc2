//! What two sets of operations have alone, and what they delete: by this and the walk of both, what each of them shows.

ghost use Rattle.std.specs.Prelude.{◌≡◌, ◌||◌, IfOk, IfSome, OnOk};
ghost use Rattle.std.specs.List.{list_any};
ghost use Rattle.desk_ops.specs.Held.{is_borne_in};
ghost use Rattle.desk_ops.specs.OpSet.{no_ops, with_all};
ghost use Rattle.desk_ops.specs.Shown.{deletes};
ghost use Rattle.desk_ops.specs.Stamp.{same};
ghost use Rattle.desk_ops.specs.declared.op.Stamp.{Stamp};
ghost use Rattle.desk_seq.specs.declared.Entry.{Entry};
ghost use Rattle.feed_readings.specs.From.{IsFrom};
ghost use Rattle.feed_readings.specs.Parts.{AreNews, AreParts, AreTargets, IsBeside, base_shows, hangs_on, is_target};
ghost use Rattle.feed_readings.specs.Parts.{one_shows, other_shows};

use desk_held::Held;
use desk_memory::NoMemory;
use desk_ops::{Op, Stamp};
use desk_seq::Entry;
use std::alloc::Allocator;
use std::collections::BTreeMap;
use std::marker::Model;

/// Stamps that some deletes target.
pub type Targets<A> = BTreeMap<Stamp, (), A>;

/// What a list of operations has that another has not, and the targets of the deletes that both have.
#[derive(Drop)]
pub struct Beside<A: Allocator + Copy> {
    pub alone: Vec<Op, A>,
    pub shared: Targets<A>,
}

/// What a set has that another has not, and a stamp from which on these operations bear theirs.
struct Alone<A: Allocator + Copy> {
    held: Held<A>,
    first: Stamp,
}

// Written out: what drops one calls this, and does not take it apart once more.
impl<A: Allocator + Copy> Drop for Alone<A> {
    fn drop(self) {
        let Alone { held, first: _ } = self;
        drop(held);
    }
}

impl<A: Allocator + Copy> Model for Alone<A> {
    ghost use Rattle.desk_ops.specs.OpSet.{OpSet, op_set_code};
    ghost use Rattle.feed_readings.specs.From.{IsFrom};

    ghost Value = { OpSet };

    ghost coded = { op_set_code };

    ghost view = { λ a. a.held.ops };

    ghost invariant = { λ a. IsFrom a.held.ops a.first };
}

/// What the other of two sets has alone, what the one has, and the targets of the deletes of both of these and of what
/// the two have in common.
#[derive(Drop)]
pub struct Parts<A: Allocator + Copy> {
    news: Alone<A>,
    olds: Alone<A>,
    by_news: Targets<A>,
    by_olds: Targets<A>,
    by_both: Targets<A>,
}

/// Whether a stamp is among targets.
fn is_target<A: Allocator + Copy>(targets: &Targets<A>, stamp: Stamp) -> bool
    ensures { result ≡ is_target targets.now stamp }
{
    targets.contains_key(&stamp)
}

/// Whether a stamp is among the targets of one of two.
fn is_one_of<A: Allocator + Copy>(one: &Targets<A>, other: &Targets<A>, stamp: Stamp) -> bool
    ensures { result ≡ (is_target one.now stamp || is_target other.now stamp) }
{
    is_target(one, stamp) || is_target(other, stamp)
}

/// Adds a target to others.
fn put_target<A: Allocator + Copy>(targets: &mut Targets<A>, target: Stamp) -> Result<(), NoMemory>
    ensures { OnOk result ((s : Stamp) → is_target targets.new s ≡ (same target s || is_target targets.old s)) }
{
    targets.insert(target, ())?;
    Ok(())
}

/// Adds the target of an operation, if it is a delete.
pub fn put_target_of<A: Allocator + Copy>(targets: &mut Targets<A>, op: &Op) -> Result<(), NoMemory>
    ensures { OnOk result ((s : Stamp) → is_target targets.new s ≡ (deletes s op.now || is_target targets.old s)) }
{
    match op {
        Op::Delete { target, .. } => put_target(targets, *target),
        Op::Insert { .. } | Op::Set { .. } => Ok(()),
    }
}

/// The targets of the deletes of a list.
fn targets_of<A: Allocator + Copy>(alloc: A, ops: &[Op]) -> Result<Targets<A>, NoMemory>
    ensures { IfOk result (AreTargets ops.now) }
{
    let mut targets = BTreeMap::new(alloc);
    for op in ops {
        put_target_of(&mut targets, op)?;
    }
    Ok(targets)
}

/// A stamp, before which no operation that is held bears one.
fn first_of<A: Allocator + Copy>(held: &Held<A>) -> Stamp
    ensures { IsFrom held.now.ops result }
{
    if held.is_empty() {
        return Stamp::HEAD;
    }
    held.op(0).stamp()
}

impl<A: Allocator + Copy> Alone<A> {
    fn of(held: Held<A>) -> Self
        ensures { result ≡ held.ops }
    {
        let first = first_of(&held);
        Alone { held, first }
    }

    /// Whether one of the operations bears the stamp. What comes before all of them is not looked for.
    fn bears(&self, stamp: Stamp) -> bool
        ensures { result ≡ is_borne_in self.now stamp }
    {
        !stamp.is_before(self.first) && self.held.holds(stamp)
    }
}

/// Whether the operation is an insert, and one of others its parent.
fn hangs_on<A: Allocator + Copy>(op: &Op, others: &Alone<A>) -> bool
    ensures { result ≡ hangs_on others.now op.now }
{
    match op {
        Op::Insert { parent, .. } => others.bears(*parent),
        Op::Delete { .. } | Op::Set { .. } => false,
    }
}

/// Whether one of the operations is an insert, and one of others its parent.
fn one_hangs_on<A: Allocator + Copy>(ops: &[Op], others: &Alone<A>) -> bool
    ensures { result ≡ list_any (hangs_on others.now) ops.now }
{
    for op in ops {
        if hangs_on(op, others) {
            return true;
        }
    }
    false
}

/// What two lists have alone, and what is deleted, by what each has that the other has not; none where an insert of a
/// list hangs on what the list has not, or memory does not allow it.
pub fn parts_of<A: Allocator + Copy>(
    alloc: A,
    ones: &[Op],
    others: &[Op],
    news: &[Op],
    olds: Beside<A>,
) -> Result<Option<Parts<A>>, NoMemory>
    requires news { AreNews (with_all no_ops ones.now) others.now news.now }
    requires olds { IsBeside (with_all no_ops others.now) ones.now olds }
    ensures { IfOk result (λ o. IfSome o (AreParts (with_all no_ops ones.now) (with_all no_ops others.now))) }
{
    let Beside { alone, shared } = olds;
    let Some(newer) = Held::of_rising(alloc, news) else {
        return Ok(None);
    };
    let Some(older) = Held::of_rising(alloc, &alone) else {
        return Ok(None);
    };
    let by_news = targets_of(alloc, news)?;
    let by_olds = targets_of(alloc, &alone)?;
    let news = Alone::of(newer);
    let olds = Alone::of(older);
    if one_hangs_on(ones, &news) || one_hangs_on(others, &olds) {
        return Ok(None);
    }
    Ok(Some(Parts {
        news,
        olds,
        by_news,
        by_olds,
        by_both: shared,
    }))
}

impl<A: Allocator + Copy> Parts<A> {
    /// How many elements the one of the two sets shows at most that both do not.
    pub fn one_more(&self) -> usize {
        self.by_news.len()
    }

    /// How many elements the other shows at most that both do not.
    pub fn other_more(&self) -> usize {
        self.by_olds.len()
    }

    /// Whether the one shows an element of the walk of both.
    pub fn one_shows(&self, entry: &Entry) -> bool
        ensures { result ≡ one_shows self.now entry.now }
    {
        let stamp = entry.stamp;
        let is_new = self.news.bears(stamp);
        let is_gone = entry.deleted && is_one_of(&self.by_both, &self.by_olds, stamp);
        !is_new && !is_gone
    }

    /// Whether the other does.
    pub fn other_shows(&self, entry: &Entry) -> bool
        ensures { result ≡ other_shows self.now entry.now }
    {
        let stamp = entry.stamp;
        let is_old = self.olds.bears(stamp);
        let is_gone = entry.deleted && is_one_of(&self.by_both, &self.by_news, stamp);
        !is_old && !is_gone
    }

    /// Whether what they have in common does.
    pub fn base_shows(&self, entry: &Entry) -> bool
        ensures { result ≡ base_shows self.now entry.now }
    {
        let stamp = entry.stamp;
        let is_alone = self.news.bears(stamp) || self.olds.bears(stamp);
        let is_gone = entry.deleted && is_target(&self.by_both, stamp);
        !is_alone && !is_gone
    }
}
