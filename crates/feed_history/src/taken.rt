//! What deletes take.

ghost use Rattle.std.specs.Prelude.{[], None, ◌≡◌, ◌++◌, OnOk};
ghost use Rattle.desk_ops.specs.Op.{stamp_of};
ghost use Rattle.desk_replica.specs.Seats.{Rise};
ghost use Rattle.feed_history.specs.Spots.{first_of, or_else, spot_stamp, target_place};
ghost use Rattle.feed_history.specs.Taken.{AreTold};
ghost use Rattle.feed_history.specs.Texts.{deleted, taken_symbols};

use crate::spots::Spot;
use crate::stamped::{any_bearing, first_bearing};
use crate::texts::add_own;
use desk_ops::{Op, Symbol};
use std::alloc::{AllocError, Allocator};

/// What deletes take: the symbols that they target, and the place of the first element that one targets, shown or not.
/// The element of the next target is looked for near that of the last.
#[derive(Drop)]
pub struct Taken<A: Allocator> {
    pub symbols: Vec<Symbol, A>,
    pub place: Option<usize>,
    near: usize,
}

impl<A: Allocator + Copy> Taken<A> {
    /// What no delete takes.
    pub fn new(alloc: A) -> Self {
        Taken {
            symbols: Vec::new(alloc),
            place: None,
            near: 0,
        }
    }

    /// Makes it that of no delete again.
    pub fn clear(&mut self)
        ensures symbols { self.new.symbols.items ≡ [] }
        ensures place { self.new.place ≡ None }
    {
        self.symbols.clear();
        self.place = None;
    }

    /// Adds what an operation takes among all of a set, if it is a delete whose target is there. Of the operations of
    /// one stamp the inserts come first, and the first alone counts. An element has its symbol, and is looked for
    /// first: elements are half as large as operations.
    fn add(&mut self, all: &[Op], spots: &[Spot], op: &Op) -> Result<(), AllocError>
        requires rising { Rise stamp_of all.now }
        requires spots { Rise spot_stamp spots.now }
        requires told { AreTold all.now spots.now }
        ensures symbols { OnOk result
            (self.new.symbols.items ≡ self.old.symbols.items ++ taken_symbols all.now op.now) }
        ensures place { OnOk result (self.new.place ≡ or_else self.old.place (target_place spots.now op.now)) }
    {
        let Op::Delete { target, .. } = op else {
            return Ok(());
        };
        if let Some(spot) = first_bearing(spots, &mut self.near, *target) {
            if self.place.is_none() {
                self.place = Some(spot.place);
            }
            self.symbols.push(spot.symbol())?;
        } else if let Some(first) = any_bearing(all, *target) {
            add_own(&mut self.symbols, &first)?;
        }
        Ok(())
    }

    /// Adds what operations of a set take, in their order.
    pub fn add_all(&mut self, all: &[Op], spots: &[Spot], ops: &[Op]) -> Result<(), AllocError>
        requires rising { Rise stamp_of all.now }
        requires spots { Rise spot_stamp spots.now }
        requires told { AreTold all.now spots.now }
        ensures symbols { OnOk result
            (self.new.symbols.items ≡ self.old.symbols.items ++ deleted all.now ops.now) }
        ensures place { OnOk result
            (self.new.place ≡ or_else self.old.place (first_of (target_place spots.now) ops.now)) }
    {
        for op in ops {
            self.add(all, spots, op)?;
        }
        Ok(())
    }
}
