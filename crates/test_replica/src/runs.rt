//! The calls of a replica over any kind of sequence: each answers what `Allows` lets it, by its contract alone.
ghost use Rattle.std.specs.Prelude.{◌≡◌, ◌≤◌, ◌↔◌, All, IfSome, IsTrue, map};
ghost use Rattle.std.specs.List.{AllByRecursion};
ghost use Rattle.desk_ops.specs.Op.{IsLawful};
ghost use Rattle.desk_ops.specs.OpSet.{size};
ghost use Rattle.desk_replica.specs.Calls.{Allows, HasMemory, Runs};
ghost use Rattle.desk_replica.specs.Calls as law;
ghost use Rattle.test_replica.specs.Asked.{answer_of, call_of, MayAsk};

use crate::asked::{Asked, Given};
use crate::cases::{are_lawful, arrivals, at, roman, typed};
use desk_blocks::Blocks;
use desk_held::LIMIT;
use desk_memory::NoMemory;
use desk_ops::{Key, Op, Stamp, Symbol};
use desk_replica::Replica;
use desk_replica::laws::one_run;
use desk_seq::{Flat, Sequence};
use std::alloc::{Allocator, Global};

fn inserted<Q: Sequence>(replica: &mut Replica<Q>, place: usize, symbol: Symbol) -> Given<Q::Memory>
    ensures { Allows replica.old (law.Insert place symbol) (answer_of result) replica.new }
{
    Given::Edited(replica.insert_at(place, symbol))
}

fn deleted<Q: Sequence>(replica: &mut Replica<Q>, place: usize) -> Given<Q::Memory>
    ensures { Allows replica.old (law.Delete place) (answer_of result) replica.new }
{
    Given::Edited(replica.delete_at(place))
}

fn set<Q: Sequence>(replica: &mut Replica<Q>, key: Key, value: u32) -> Given<Q::Memory>
    ensures { Allows replica.old (law.Set key value) (answer_of result) replica.new }
{
    Given::Edited(replica.set(key, value))
}

fn taken<Q: Sequence>(replica: &mut Replica<Q>, op: Op) -> Given<Q::Memory>
    requires { IsLawful op }
    ensures { Allows replica.old (law.Take op) (answer_of result) replica.new }
{
    Given::Taken(replica.take(op))
}

fn taken_all<Q: Sequence>(replica: &mut Replica<Q>, ops: &[Op]) -> Given<Q::Memory>
    requires { All IsLawful ops.now }
    ensures { Allows replica.old (law.TakeAll ops.now) (answer_of result) replica.new }
{
    Given::Joined(replica.take_all(ops))
}

fn merged<Q: Sequence>(replica: &mut Replica<Q>, other: &Replica<Q>) -> Given<Q::Memory>
    ensures { Allows replica.old (law.Merge other.now.ops) (answer_of result) replica.new }
{
    let joined = replica.merge(other);
    let _ = replica.len();
    Given::Joined(joined)
}

fn reserved<Q: Sequence>(replica: &mut Replica<Q>, n: usize) -> Given<Q::Memory>
    requires { n ≤ LIMIT }
    ensures { Allows replica.old (law.Reserve n) (answer_of result) replica.new }
{
    Given::Reserved(replica.reserve(n))
}

fn sited<Q: Sequence>(replica: &Replica<Q>) -> Given<Q::Memory>
    ensures { Allows replica.now law.Site (answer_of result) replica.now }
{
    Given::Number(usize::from(replica.site()))
}

fn counted<Q: Sequence>(replica: &Replica<Q>) -> Given<Q::Memory>
    ensures { Allows replica.now law.Length (answer_of result) replica.now }
{
    Given::Number(replica.len())
}

fn looked_for<Q: Sequence>(replica: &Replica<Q>, ops: &[Op]) -> Given<Q::Memory>
    ensures { Allows replica.now (law.HasAll ops.now) (answer_of result) replica.now }
{
    Given::Truth(replica.has_all(ops))
}

fn copied<Q: Sequence>(replica: &Replica<Q>) -> Given<Q::Memory>
    ensures { Allows replica.now law.Text (answer_of result) replica.now }
{
    Given::Symbols(replica.copy())
}

fn measured<Q: Sequence>(replica: &Replica<Q>) -> Given<Q::Memory>
    ensures { Allows replica.now law.Letters (answer_of result) replica.now }
{
    Given::Number(replica.copy_len())
}

fn valued<Q: Sequence>(replica: &Replica<Q>) -> Given<Q::Memory>
    ensures { Allows replica.now law.Settings (answer_of result) replica.now }
{
    Given::Values(replica.settings())
}

fn faulted<Q: Sequence>(replica: &Replica<Q>) -> Given<Q::Memory>
    ensures { Allows replica.now law.Faults (answer_of result) replica.now }
{
    Given::CopyFaults(replica.copy_faults())
}

fn ordered<Q: Sequence>(replica: &Replica<Q>) -> Given<Q::Memory>
    ensures { Allows replica.now law.Order (answer_of result) replica.now }
{
    Given::Operations(replica.in_order())
}

fn ranged<Q: Sequence>(replica: &Replica<Q>, from: usize, until: usize) -> Given<Q::Memory>
    requires order { from ≤ until }
    requires within { until ≤ size replica.now.ops }
    ensures { Allows replica.now (law.Range from until) (answer_of result) replica.now }
{
    Given::Operations(replica.range(from, until))
}

fn fed<Q: Sequence>(replica: &Replica<Q>) -> Given<Q::Memory>
    ensures { Allows replica.now law.Feed (answer_of result) replica.now }
{
    Given::Bytes(replica.write_feed())
}

/// Whether the replica may be asked this.
fn may_be_asked<Q: Sequence>(replica: &Replica<Q>, call: &Asked<'_>) -> bool
    ensures { IsTrue result → MayAsk replica.now.ops call.now }
{
    match call {
        Asked::Take(op) => op.check().is_ok(),
        Asked::TakeAll(ops) => are_lawful(ops),
        Asked::Reserve(n) => *n <= LIMIT,
        Asked::Range(from, until) => from <= until && *until <= replica.len(),
        _ => true,
    }
}

/// Makes a call. A merge reads the other replica.
fn answered<Q: Sequence>(
    replica: &mut Replica<Q>,
    other: &Replica<Q>,
    call: &Asked<'_>,
) -> Given<Q::Memory>
    requires { MayAsk replica.old.ops call.now }
    ensures { Allows replica.old (call_of other.now.ops call.now) (answer_of result) replica.new }
{
    match call {
        Asked::Insert(place, symbol) => inserted(replica, *place, *symbol),
        Asked::Delete(place) => deleted(replica, *place),
        Asked::Set(key, value) => set(replica, *key, *value),
        Asked::Take(op) => taken(replica, *op),
        Asked::TakeAll(ops) => taken_all(replica, ops),
        Asked::Merge => merged(replica, other),
        Asked::Reserve(n) => reserved(replica, *n),
        Asked::Site => sited(replica),
        Asked::Length => counted(replica),
        Asked::HasAll(ops) => looked_for(replica, ops),
        Asked::Text => copied(replica),
        Asked::Letters => measured(replica),
        Asked::Settings => valued(replica),
        Asked::Faults => faulted(replica),
        Asked::Order => ordered(replica),
        Asked::Range(from, until) => ranged(replica, *from, *until),
        Asked::Feed => fed(replica),
    }
}

/// Makes calls, one after the other. None where one may not be made, or memory for the answers is refused.
fn all_answered<Q: Sequence>(
    alloc: Global,
    replica: &mut Replica<Q>,
    other: &Replica<Q>,
    calls: &[Asked<'_>],
) -> Option<Vec<Given<Q::Memory>>>
    ensures { IfSome result (λ answers. Runs replica.old (map (call_of other.now.ops) calls.now)
        (map answer_of answers.items) replica.new) }
{
    let mut answers = Vec::new(alloc);
    for call in calls {
        if !may_be_asked(replica, call) {
            return None;
        }
        let answer = answered(replica, other, call);
        let Ok(()) = answers.push(answer) else {
            return None;
        };
    }
    Some(answers)
}

/// Makes calls of two replicas of one site and equal operations, over any two kinds of sequence. What merges read holds
/// equal operations too. The answers are the same, refusals for memory aside.
fn both_answered<P: Sequence, Q: Sequence>(
    alloc: Global,
    one: &mut Replica<P>,
    other: &mut Replica<Q>,
    read: &Replica<P>,
    beside: &Replica<Q>,
    calls: &[Asked<'_>],
) -> Option<(Vec<Given<P::Memory>>, Vec<Given<Q::Memory>>)>
    requires site { one.old.site ≡ other.old.site }
    requires ops { one.old.ops ≡ other.old.ops }
    requires read { read.now.ops ≡ beside.now.ops }
    ensures same { IfSome result (λ both. AllByRecursion HasMemory (map answer_of both.0.items)
        → AllByRecursion HasMemory (map answer_of both.1.items)
        → map answer_of both.0.items ≡ map answer_of both.1.items) }
{
    one_run();
    let answers = all_answered(alloc, one, read, calls)?;
    let others = all_answered(alloc, other, beside, calls)?;
    Some((answers, others))
}

/// Whether two lists that were read are the same.
fn are_lists_same<T: PartialEq + Drop, A: Allocator, B: Allocator>(
    one: &Result<Vec<T, A>, NoMemory>,
    other: &Result<Vec<T, B>, NoMemory>,
) -> bool {
    match (one, other) {
        (Ok(one), Ok(other)) => one.as_slice() == other.as_slice(),
        _ => false,
    }
}

/// Whether two answers are the same, and memory was refused in neither where a list was read.
fn is_same<A: Allocator, B: Allocator>(one: &Given<A>, other: &Given<B>) -> bool {
    match (one, other) {
        (Given::Edited(one), Given::Edited(other)) => one == other,
        (Given::Taken(one), Given::Taken(other)) => one == other,
        (Given::Joined(one), Given::Joined(other)) => one == other,
        (Given::Reserved(one), Given::Reserved(other)) => one == other,
        (Given::Symbols(one), Given::Symbols(other)) => are_lists_same(one, other),
        (Given::CopyFaults(one), Given::CopyFaults(other)) => are_lists_same(one, other),
        (Given::Operations(one), Given::Operations(other)) => are_lists_same(one, other),
        (Given::Bytes(one), Given::Bytes(other)) => are_lists_same(one, other),
        (Given::Number(one), Given::Number(other)) => one == other,
        (Given::Truth(one), Given::Truth(other)) => one == other,
        (Given::Values(one), Given::Values(other)) => one == other,
        _ => false,
    }
}

/// Whether two lists of answers are as long as the calls, and the same.
fn are_same<A: Allocator, B: Allocator>(
    calls: &[Asked<'_>],
    answers: &[Given<A>],
    others: &[Given<B>],
) -> bool {
    for at in 0..calls.len() {
        match (answers.get(at), others.get(at)) {
            (Some(one), Some(other)) if is_same(one, other) => {}
            _ => return false,
        }
    }
    answers.len() == calls.len() && others.len() == calls.len()
}

/// Whether calls have the same answers over two kinds of sequence. A merge reads a replica that holds the list.
fn play_alike<P: Sequence, Q: Sequence>(
    alloc: Global,
    memory: (P::Memory, Q::Memory),
    held: &[Op],
    calls: &[Asked<'_>],
) -> bool {
    if !are_lawful(held) {
        return false;
    }
    let (Ok(read), Ok(beside)) = (
        Replica::<P>::open(memory.0, 8, held),
        Replica::<Q>::open(memory.1, 8, held),
    ) else {
        return false;
    };
    let mut one = Replica::<P>::new(memory.0, 7);
    let mut other = Replica::<Q>::new(memory.1, 7);
    match both_answered(alloc, &mut one, &mut other, &read, &beside, calls) {
        Some((answers, others)) => are_same(calls, &answers, &others),
        None => false,
    }
}

/// Each call of a replica: edits, refused ones too, a list that is new, known and forked, a merge, and all that is
/// read.
fn each_call(ops: &[Op], op: Op) -> [Asked<'_>; 21] {
    [
        Asked::Merge,
        Asked::Insert(1, roman('y')),
        Asked::Insert(9, roman('y')),
        Asked::Insert(0, roman('\t')),
        Asked::Delete(0),
        Asked::Set(Key::Measure, 120),
        Asked::Set(Key::Measure, 11),
        Asked::Take(op),
        Asked::Reserve(100),
        Asked::HasAll(ops),
        Asked::TakeAll(ops),
        Asked::HasAll(ops),
        Asked::Site,
        Asked::Length,
        Asked::Text,
        Asked::Letters,
        Asked::Settings,
        Asked::Faults,
        Asked::Order,
        Asked::Range(2, 5),
        Asked::Feed,
    ]
}

#[test]
fn runs_are_allowed(rt: HostRuntime) {
    let [a, c, e, b, z] = arrivals();
    let ops = [a, c, e, b, z, typed(at(2, 1), at(1, 1), 'x')];
    let held = [
        typed(at(1, 8), Stamp::HEAD, 'm'),
        typed(at(5, 8), at(3, 8), 'w'),
    ];
    let calls = each_call(&ops, e);
    let alloc = rt.alloc();
    assert!(rt; play_alike::<Flat<Global>, Blocks<Global>>(alloc, (alloc, alloc), &held, &calls));
}
