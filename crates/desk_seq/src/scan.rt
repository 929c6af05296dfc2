//! How a new element finds its place: RGA's skip scan, after Roh et al. 2011 ("Replicated abstract data types: building
//! blocks for collaborative applications"). From its parent on it passes by each element with a greater stamp, newer
//! siblings and what hangs on them, and stands before the first with a smaller one. That this is the timestamped
//! insertion
//! tree of Attiya et al. 2016 ("Specification and complexity of collaborative text editing"), walked with newer
//! siblings
//! first, is the clause `walk`.
ghost use Rattle.std.specs.Prelude.{◌≡◌, ℕ, ◌+◌, ◌≤◌, ◌⊎◌, length};
ghost use Rattle.std.specs.List.{insert, Contains};
ghost use Rattle.desk_ops.specs.Stamp.{head};
ghost use Rattle.desk_ops.specs.Place.{IsPlace, IsStart};
ghost use Rattle.desk_seq.specs.Entries.{stamps_of, IsAbsent, IsFirstBelow, KeepsWalk};

use crate::{Entry, Sequence};
use desk_ops::Stamp;

/// Where the scan for a new child of the parent begins.
fn start_of<Q: Sequence>(sequence: &Q, parent: Stamp) -> usize
    requires { (parent ≡ head) ⊎ Contains (stamps_of (Q.entries sequence.now)) parent }
    ensures within { result ≤ length (Q.entries sequence.now) }
    ensures start { IsStart (stamps_of (Q.entries sequence.now)) parent result }
{
    if Stamp::HEAD.is_same(parent) {
        return 0;
    }
    match sequence.find(parent) {
        Some(k) => k + 1,
        None => unreachable!(),
    }
}

/// Puts a new element where the scan from a place leads, and returns where that is. An arrival that knows its parent's
/// place takes this step, and `integrate` takes it once the parent is found.
pub fn integrate_at<Q: Sequence>(sequence: &mut Q, at: usize, entry: Entry) -> usize
    requires within { at ≤ length (Q.entries sequence.old) }
    requires spare { 1 ≤ Q.free sequence.old }
    requires absent { IsAbsent entry.stamp (Q.entries sequence.old) }
    ensures first { IsFirstBelow (stamps_of (Q.entries sequence.old)) at entry.stamp result }
    ensures put { Q.entries sequence.new ≡ insert (Q.entries sequence.old) result entry }
    ensures spare { Q.free sequence.old ≤ Q.free sequence.new + 1 }
{
    let place = sequence.first_below(at, entry.stamp);
    sequence.put(place, entry);
    place
}

/// Puts a new element where the scan from its parent leads: the entry handed in, all others unchanged. Where the stamps
/// are those of the walk of some inserts, of which none bears its stamp or hangs on it, and its parent is older, they
/// become
/// those of the walk with this one more.
pub fn integrate<Q: Sequence>(sequence: &mut Q, entry: Entry, parent: Stamp)
    requires spare { 1 ≤ Q.free sequence.old }
    requires absent { IsAbsent entry.stamp (Q.entries sequence.old) }
    requires parent { (parent ≡ head) ⊎ Contains (stamps_of (Q.entries sequence.old)) parent }
    ensures put { (i : ℕ) × IsPlace (stamps_of (Q.entries sequence.old)) parent entry.stamp i
        × (Q.entries sequence.new ≡ insert (Q.entries sequence.old) i entry) }
    ensures walk { KeepsWalk (Q.entries sequence.old) (Q.entries sequence.new) parent entry.stamp }
    ensures spare { Q.free sequence.old ≤ Q.free sequence.new + 1 }
{
    sequence.prepare_find();
    let from = start_of(sequence, parent);
    integrate_at(sequence, from, entry);
}
