//! The copy of a replica, made a text by operations of its site.

ghost use Rattle.std.specs.Prelude.{◌≡◌, ◌≢◌, ◌+◌, ◌≤◌, IfErr, IfOk, List, OnErr, OnOk, length};
ghost use Rattle.desk_ops.specs.declared.op.Op.{Op};
ghost use Rattle.desk_ops.specs.Shown.{copy_of};
ghost use Rattle.feed_edit.specs.Fault.{refusal_of};
ghost use Rattle.text_copy.specs.Laws.{AreLawful};
ghost use Rattle.feed_edit.specs.Editing.{AreMade, IsMade, IsRefusedAmong, IsRefusedBy, IsRevised, IsSparing};
ghost use Rattle.feed_edit.specs.Editing.{IsUnrevised, deletes_of, inserts_of};

use crate::fault::RevisionFault;
use desk_blocks::Blocks;
use desk_ops::Symbol;
use desk_replica::{Refusal, Replica};
use std::alloc::Allocator;
use text_copy::{Change, changes};

/// How many symbols were inserted, and how many deleted.
#[derive(Clone, Copy, Debug, PartialEq, Eq)]
pub struct Tally {
    pub inserted: usize,
    pub deleted: usize,
}

/// Makes one change of the copy, by one operation. A refusal leaves the set as it was, and says the first cause for
/// which the set refuses the change; out of memory comes only where there is none.
fn put_edit<A: Allocator + Copy>(
    replica: &mut Replica<Blocks<A>>,
    change: &Change,
) -> Result<(), Refusal>
    ensures site { replica.new.site ≡ replica.old.site }
    ensures made { OnOk result ((op : Op) × IsMade replica.old.site replica.old.ops replica.new.ops change.now op) }
    ensures same { OnErr result (replica.new.ops ≡ replica.old.ops) }
    ensures refused { IfErr result (IsRefusedBy replica.old.ops change.now) }
{
    match *change {
        Change::Insert { place, symbol } => replica.insert_at(place, symbol)?,
        Change::Delete { place } => replica.delete_at(place)?,
    };
    Ok(())
}

/// Makes changes of the copy, one after the other, up to one that is refused: then those before it are made, and no
/// other.
fn put_edits<A: Allocator + Copy>(
    replica: &mut Replica<Blocks<A>>,
    made: &[Change],
) -> Result<(), Refusal>
    ensures site { replica.new.site ≡ replica.old.site }
    ensures made { OnOk result ((ops : List Op)
        × AreMade replica.old.site replica.old.ops replica.new.ops made.now ops) }
    ensures refused { IfErr result (IsRefusedAmong replica.old.site replica.old.ops replica.new.ops made.now) }
{
    for change in made {
        put_edit(replica, change)?;
    }
    Ok(())
}

/// How many of the changes are inserts, and how many are deletes.
fn tally_of(made: &[Change]) -> Tally
    ensures inserted { result.inserted ≡ inserts_of made.now }
    ensures deleted { result.deleted ≡ deletes_of made.now }
{
    let mut inserted = 0;
    let mut deleted = 0;
    for change in made {
        match change {
            Change::Insert { .. } => inserted += 1,
            Change::Delete { .. } => deleted += 1,
        }
    }
    Tally { inserted, deleted }
}

/// The fault of a revision that a refusal of an edit is.
fn fault_of(why: Refusal) -> RevisionFault
    requires { why ≢ Refusal.Place }
    ensures { refusal_of result ≡ why }
{
    match why {
        Refusal::Full => RevisionFault::Full,
        Refusal::ClockFull => RevisionFault::ClockFull,
        Refusal::Value => RevisionFault::Value,
        Refusal::NoMemory => RevisionFault::NoMemory,
        Refusal::Place => unreachable!(),
    }
}

/// Makes the copy of a replica a text, by operations of its site alone, never more than the copy and the text have
/// symbols together between what both begin with, which stays, and what both end with. Where the text is the copy
/// already nothing changes, and only memory can run out. A change that is refused leaves those before it made, and no
/// other; the fault is the first cause for which the set that they left refuses it, and that is never its place, nor
/// its value where the text is lawful. Out of memory comes only where that set does not refuse the change, or where
/// nothing has changed.
pub fn revise<A: Allocator + Copy>(
    alloc: A,
    replica: &mut Replica<Blocks<A>>,
    text: &[Symbol],
) -> Result<Tally, RevisionFault>
    ensures site { replica.new.site ≡ replica.old.site }
    ensures ok { IfOk result
        (λ t. IsRevised replica.old.site replica.old.ops replica.new.ops text.now t.inserted t.deleted) }
    ensures few { IfOk result (λ t. t.inserted + t.deleted ≤ length (copy_of replica.old.ops) + length text.now) }
    ensures sparing { IfOk result (λ t. IsSparing (copy_of replica.old.ops) text.now (t.inserted + t.deleted)) }
    ensures none { copy_of replica.old.ops ≡ text.now → replica.new.ops ≡ replica.old.ops }
    ensures unrefused { copy_of replica.old.ops ≡ text.now → IfErr result (λ e. e ≡ RevisionFault.NoMemory) }
    ensures err { IfErr result (IsUnrevised replica.old.site replica.old.ops replica.new.ops text.now) }
    ensures value { AreLawful text.now → IfErr result (λ e. e ≢ RevisionFault.Value) }
{
    let copy = replica.copy()?;
    let made = changes(alloc, &copy, text)?;
    put_edits(replica, &made).map_err(fault_of)?;
    Ok(tally_of(&made))
}
