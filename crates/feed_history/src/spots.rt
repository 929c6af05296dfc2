//! Where elements are in the copy.

ghost use Rattle.std.specs.Prelude.{◌≡◌, ◌<◌, ◌^◌, IfOk, length};
ghost use Rattle.desk_ops.specs.declared.op.Stamp.{Stamp};
ghost use Rattle.desk_replica.specs.Seats.{Rise};
ghost use Rattle.feed_history.specs.Rows.{bearing_by};
ghost use Rattle.feed_history.specs.Spots.{first_of, own_place, place_of, spot_stamp, spots_from, symbol_of};
ghost use Rattle.feed_history.specs.Spots.{target_place};

use crate::stamped::first_bearing;
use desk_memory::NoMemory;
use desk_ops::{Op, Stamp, Style, Symbol};
use desk_replica::Stamped;
use desk_seq::Sequence;
use std::alloc::Allocator;

/// An element of the walk, by its stamp: whether it is shown, its symbol, and how many are shown before it. It has the
/// parts of both and not them, so that it is small: a log of deletes looks at these in any order.
#[derive(Clone, Copy, Debug, PartialEq, Eq, PartialOrd, Ord)]
pub struct Spot {
    pub counter: u64,
    pub site: u16,
    pub shown: bool,
    pub style: Style,
    pub ch: char,
    pub place: usize,
}

impl Spot {
    /// Its symbol.
    pub fn symbol(&self) -> Symbol
        ensures { result ≡ symbol_of self.now }
    {
        let ch = self.ch;
        Symbol {
            style: self.style,
            ch,
        }
    }
}

impl Stamped for Spot {
    ghost use Rattle.feed_history.specs.Spots.{spot_stamp};

    ghost borne = { spot_stamp };

    fn stamp_of(&self) -> Stamp {
        Stamp {
            counter: self.counter,
            site: self.site,
        }
    }
}

/// The elements of a sequence, by stamp.
pub fn spots_of<Q: Sequence>(
    alloc: Q::Memory,
    sequence: &Q,
) -> Result<Vec<Spot, Q::Memory>, NoMemory>
    ensures rise { IfOk result (λ v. Rise spot_stamp v.items) }
    ensures same { IfOk result (λ v. (s : Stamp) → bearing_by spot_stamp v.items s
        ≡ bearing_by spot_stamp (spots_from 0 (Q.entries sequence.now)) s) }
{
    let mut spots = Vec::with_capacity(alloc, sequence.len())?;
    let mut place = 0;
    for at in 0..sequence.len() {
        let entry = sequence.entry(at);
        let shown = !entry.deleted;
        let ch = entry.symbol.ch;
        spots.push(Spot {
            counter: entry.stamp.counter,
            site: entry.stamp.site,
            shown,
            style: entry.symbol.style,
            ch,
            place,
        })?;
        if shown {
            place += 1;
        }
    }
    spots.sort_unstable();
    Ok(spots)
}

/// The place of an insert's element, if it is shown.
fn own_place(spots: &[Spot], near: &mut usize, op: &Op) -> Option<usize>
    requires rising { Rise spot_stamp spots.now }
    requires few { length spots.now < 2 ^ 63 }
    ensures { result ≡ own_place spots.now op.now }
{
    let Op::Insert { stamp, .. } = op else {
        return None;
    };
    match first_bearing(spots, near, *stamp) {
        Some(spot) if spot.shown => Some(spot.place),
        _ => None,
    }
}

/// Where operations are in the copy: at the first element of theirs that is shown, which is looked for near a place
/// first; where there is none, at the first that they target.
pub fn place_of(
    spots: &[Spot],
    near: &mut usize,
    ops: &[Op],
    target: Option<usize>,
) -> Option<usize>
    requires rising { Rise spot_stamp spots.now }
    requires few { length spots.now < 2 ^ 63 }
    requires target { target ≡ first_of (target_place spots.now) ops.now }
    ensures { result ≡ place_of spots.now ops.now }
{
    for op in ops {
        if let Some(place) = own_place(spots, near, op) {
            return Some(place);
        }
    }
    target
}
