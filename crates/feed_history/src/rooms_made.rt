//! What each site made, in one pass.

ghost use Rattle.std.specs.Prelude.{◌≡◌, ◌+◌, ◌<◌, ◌∷◌, ◌^◌, IfOk, List, length};
ghost use Rattle.desk_ops.specs.declared.op.Op.{Op};
ghost use Rattle.feed_history.specs.Rooms.{is_delete, is_insert, is_set, made_of};
ghost use Rattle.feed_history.specs.RoomsTables.{AreMade, AreTimes};

use desk_memory::NoMemory;
use desk_ops::Op;
use std::alloc::Allocator;

/// So many numbers have 16 bits. 0 is none of a site, and has no operation.
pub const SITES: usize = 65_536;

/// What some operations of one site are, in order: their least and greatest counter, 0 where there are none; whether
/// a counter between is missing; and how many there are of each kind.
#[derive(Clone, Copy)]
pub struct Made {
    pub least: u64,
    pub greatest: u64,
    pub gaps: bool,
    pub inserts: usize,
    pub deletes: usize,
    pub sets: usize,
}

/// What no operations are.
const NOTHING: Made = Made {
    least: 0,
    greatest: 0,
    gaps: false,
    inserts: 0,
    deletes: 0,
    sets: 0,
};

fn is_insert(op: &Op) -> bool
    ensures { result ≡ is_insert op.now }
{
    matches!(op, Op::Insert { .. })
}

fn is_delete(op: &Op) -> bool
    ensures { result ≡ is_delete op.now }
{
    matches!(op, Op::Delete { .. })
}

fn is_set(op: &Op) -> bool
    ensures { result ≡ is_set op.now }
{
    matches!(op, Op::Set { .. })
}

/// What operations are with one more before them.
fn with_first(op: &Op, made: Made) -> Made
    requires { (ops : List Op) × (made ≡ made_of ops) × (length ops + 1 < 2 ^ 64) }
    ensures { (ops : List Op) → made ≡ made_of ops → result ≡ made_of (op.now ∷ ops) }
{
    let counter = op.stamp().counter;
    Made {
        least: counter,
        greatest: counter.max(made.greatest),
        gaps: made.least.saturating_sub(counter) > 1 || made.gaps,
        inserts: usize::from(is_insert(op)) + made.inserts,
        deletes: usize::from(is_delete(op)) + made.deletes,
        sets: usize::from(is_set(op)) + made.sets,
    }
}

/// What all operations are.
pub fn made_of(ops: &[Op]) -> Made
    ensures { result ≡ made_of ops.now }
{
    let mut made = NOTHING;
    let mut at = ops.len();
    'ops: while at > 0 {
        at -= 1;
        made = with_first(&ops[at], made);
    }
    made
}

/// Notes one more operation, before those of its site.
fn note(rooms: &mut [Made], op: &Op)
    requires { (ops : List Op) × AreMade ops rooms.old × (length ops + 1 < 2 ^ 64) }
    ensures { (ops : List Op) → AreMade ops rooms.old → AreMade (op.now ∷ ops) rooms.new }
{
    let site = usize::from(op.stamp().site);
    rooms[site] = with_first(op, rooms[site]);
}

/// What each site made, by its number.
pub fn made_of_each<A: Allocator + Copy>(alloc: A, ops: &[Op]) -> Result<Vec<Made, A>, NoMemory>
    ensures { IfOk result (λ v. AreMade ops.now v.items) }
{
    let mut rooms = vec![in alloc; NOTHING; SITES]?;
    let mut at = ops.len();
    'ops: while at > 0 {
        at -= 1;
        note(&mut rooms, &ops[at]);
    }
    Ok(rooms)
}

/// How often each number of a site is among some.
pub fn times_of_each<A: Allocator + Copy>(
    alloc: A,
    sites: &[u16],
) -> Result<Vec<usize, A>, NoMemory>
    ensures { IfOk result (λ v. AreTimes sites.now v.items) }
{
    let mut times = vec![in alloc; 0usize; SITES]?;
    for site in sites {
        times[usize::from(*site)] += 1;
    }
    Ok(times)
}
