//! The faults of a set of operations: which stamps do not act, and why.

use crate::op::Stamp;

/// Why the operations of a stamp do not act.
#[derive(Clone, Copy, Debug, PartialEq, Eq)]
pub enum FaultKind {
    /// More than one operation bears the stamp.
    Forked,
    /// Followed from insert to insert, what it hangs on ends at a stamp that is held, but not by one insert alone.
    Void,
    /// Followed from insert to insert, what it hangs on ends at a stamp that has not come yet.
    Waiting,
}

/// A held stamp whose operations do not act.
#[derive(Clone, Copy, Debug, PartialEq, Eq)]
pub struct CopyFault {
    pub stamp: Stamp,
    pub kind: FaultKind,
}
