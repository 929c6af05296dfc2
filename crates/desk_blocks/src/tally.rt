//! What is kept of a page of elements, and the two searches that it serves.

use crate::slot::Slot;
use desk_ops::Stamp;
use list_pages::{Pick, Summary};

/// How many are shown, and a stamp that none is smaller than.
#[derive(Clone, Copy)]
pub struct Tally {
    pub shown: usize,
    pub least: Stamp,
}

/// Greater than every stamp that a lawful operation bears.
const NONE: Stamp = Stamp {
    counter: u64::MAX,
    site: u16::MAX,
};

impl Summary<Slot> for Tally {
    ghost use Rattle.desk_blocks.specs.Tally.{IsTally};

    ghost sums_up = { IsTally };

    fn of(page: &[Slot]) -> Tally {
        let mut tally = Tally {
            shown: 0,
            least: NONE,
        };
        for slot in page {
            tally = tally.with(*slot);
        }
        tally
    }

    fn with(self, x: Slot) -> Tally {
        let stamp = x.stamp();
        Tally {
            shown: if x.is_deleted() {
                self.shown
            } else {
                self.shown.saturating_add(1)
            },
            least: if stamp.is_before(self.least) {
                stamp
            } else {
                self.least
            },
        }
    }

    fn replaced(self, old: Slot, new: Slot) -> Tally {
        let tally = self.with(new);
        if old.is_deleted() {
            return tally;
        }
        Tally {
            shown: tally.shown.saturating_sub(1),
            least: tally.least,
        }
    }

    fn join(self, other: Tally) -> Tally {
        let shown = self.shown.saturating_add(other.shown);
        if other.least.is_before(self.least) {
            return Tally {
                shown,
                least: other.least,
            };
        }
        Tally {
            shown,
            least: self.least,
        }
    }
}

/// Those that are shown.
#[derive(Clone, Copy)]
pub struct Shown;

impl Pick<Slot, Tally> for Shown {
    ghost use Rattle.desk_seq.specs.Entries.{is_shown};

    ghost picked = { λ s e. is_shown e };

    fn picks(&self, x: Slot) -> bool {
        !x.is_deleted()
    }

    fn count(&self, summary: Tally, _len: usize) -> Option<usize> {
        Some(summary.shown)
    }
}

/// Those with a smaller stamp.
#[derive(Clone, Copy)]
pub struct Below {
    pub stamp: Stamp,
}

impl Pick<Slot, Tally> for Below {
    ghost use Rattle.desk_blocks.specs.Tally.{is_smaller};

    ghost picked = { λ s e. is_smaller s.stamp e };

    fn picks(&self, x: Slot) -> bool {
        x.stamp().is_before(self.stamp)
    }

    fn count(&self, summary: Tally, _len: usize) -> Option<usize> {
        if summary.least.is_before(self.stamp) {
            None
        } else {
            Some(0)
        }
    }
}

/// Those of a stamp.
#[derive(Clone, Copy)]
pub struct Bearing {
    pub stamp: Stamp,
}

impl Pick<Slot, Tally> for Bearing {
    ghost use Rattle.desk_blocks.specs.Tally.{is_of};

    ghost picked = { λ s e. is_of s.stamp e };

    fn picks(&self, x: Slot) -> bool {
        x.stamp().is_same(self.stamp)
    }
}
