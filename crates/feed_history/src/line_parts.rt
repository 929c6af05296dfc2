//! What the line of a correction is made of.

ghost use Rattle.std.specs.Prelude.{◌≡◌, ◌<◌, ◌^◌, OnOk, length};
ghost use Rattle.desk_ops.specs.Op.{stamp_of};
ghost use Rattle.desk_replica.specs.Seats.{Rise, fault_stamp};
ghost use Rattle.feed_history.specs.Rows.{row_of};
ghost use Rattle.feed_history.specs.Spots.{first_of, spot_stamp, target_place};
ghost use Rattle.feed_history.specs.Taken.{AreTold};
ghost use Rattle.feed_history.specs.Texts.{deleted, inserted};

use crate::corrections::Correction;
use crate::spots::Spot;
use crate::stamped::put_row;
use crate::taken::Taken;
use crate::texts::add_inserted;
use desk_ops::{CopyFault, Op, Symbol};
use std::alloc::{AllocError, Allocator};

/// What a log is made from, each by stamp: the operations of a set, the elements of its walk, and its copy faults.
#[derive(Clone, Copy)]
pub struct History<'a> {
    pub ops: &'a [Op],
    pub spots: &'a [Spot],
    pub faults: &'a [CopyFault],
}

/// Where the last line found its operations, elements and copy faults: the next line's are near.
#[derive(Clone, Copy, Default)]
pub struct Near {
    pub ops: usize,
    pub spots: usize,
    pub faults: usize,
}

/// What the line of a correction is made of: its operations, what they insert and delete, and its copy faults. It is
/// made anew for each line, in the memory of the line before.
#[derive(Drop)]
pub struct Parts<A: Allocator> {
    pub ops: Vec<Op, A>,
    pub inserted: Vec<Symbol, A>,
    pub taken: Taken<A>,
    pub faults: Vec<CopyFault, A>,
}

impl<A: Allocator + Copy> Parts<A> {
    /// Those of nothing.
    pub fn new(alloc: A) -> Self {
        Parts {
            ops: Vec::new(alloc),
            inserted: Vec::new(alloc),
            taken: Taken::new(alloc),
            faults: Vec::new(alloc),
        }
    }

    /// Makes those of a correction, in place of what was there. They are looked for near a place first.
    pub fn take(
        &mut self,
        history: &History<'_>,
        near: &mut Near,
        correction: Correction,
    ) -> Result<(), AllocError>
        requires rising { Rise stamp_of history.now.ops.now }
        requires few { length history.now.ops.now < 2 ^ 63 }
        requires spots { Rise spot_stamp history.now.spots.now }
        requires few_spots { length history.now.spots.now < 2 ^ 63 }
        requires told { AreTold history.now.ops.now history.now.spots.now }
        requires faults { Rise fault_stamp history.now.faults.now }
        requires few_faults { length history.now.faults.now < 2 ^ 63 }
        requires last { correction.last < 2 ^ 63 }
        ensures ops { OnOk result (self.new.ops.items ≡ row_of stamp_of history.now.ops.now correction) }
        ensures inserted { OnOk result
            (self.new.inserted.items ≡ inserted (row_of stamp_of history.now.ops.now correction)) }
        ensures deleted { OnOk result
            (self.new.taken.symbols.items
            ≡ deleted history.now.ops.now (row_of stamp_of history.now.ops.now correction)) }
        ensures target { OnOk result (self.new.taken.place
            ≡ first_of (target_place history.now.spots.now) (row_of stamp_of history.now.ops.now correction)) }
        ensures faults { OnOk result (self.new.faults.items ≡ row_of fault_stamp history.now.faults.now correction) }
    {
        self.ops.clear();
        self.inserted.clear();
        self.taken.clear();
        self.faults.clear();
        put_row(&mut self.ops, history.ops, &mut near.ops, correction)?;
        add_inserted(&mut self.inserted, &self.ops)?;
        self.taken.add_all(history.ops, history.spots, &self.ops)?;
        put_row(
            &mut self.faults,
            history.faults,
            &mut near.faults,
            correction,
        )
    }
}
