//! The job: the ribbon of a copy by its settings, a case and a wedge, or the faults for which there is none.
//!
//! `make` takes a replica, and `make_from` a copy of at most 1,048,576 symbols with its settings. The rules are those
//! of "Lines and the caster" in docs/FORMATS.md. Widths are in atoms (`desk_units`).
//!
//! It refuses first for the settings, the case and the wedge, then for symbols that the case lacks, then for lines at
//! fault. Out of memory can come in place of any answer.
//!
//! Work is linear in the copy and its fills; no clause says so. Beside the words' places and the ribbon it keeps one
//! paragraph's widths and groups, and one line's matrices.
#![tactic(auto)]

pub mod making;
pub mod punch;
mod ribbon;
pub mod setting;
pub mod terms;

use desk_memory::NoMemory;
use desk_ops::Key;
pub use ribbon::{given, make, make_from};
use std::alloc::Allocator;
use std::marker::Model;
use thiserror::Error;

/// Why a copy can't be set. Places count from 0 in the copy, lines from 1.
#[derive(Clone, Copy, PartialEq, Eq, Debug, Error)]
pub enum JobFault {
    /// The least key without a value.
    #[error("{0} has no value")]
    MissingSetting(Key),
    /// The case set is not the file's.
    #[error("the setting names another case")]
    OtherCase,
    /// The wedge set is not the file's.
    #[error("the setting names another wedge")]
    OtherWedge,
    #[error("tight is above loose")]
    Crossed,
    #[error("the units of the fills do not descend")]
    FillOrder,
    #[error("a space at tight is not wider than 0")]
    SpaceVanishes,
    /// The case lacks the symbol at this place.
    #[error("the case has no matrix for the symbol at place {0}")]
    NoMatrix(usize),
    /// This line has no space.
    #[error("line {0} is too wide")]
    TooWide(usize),
    /// The wedge sum of this line, which is not to be filled, is above loose.
    #[error("line {0} is too loose")]
    TooLoose(usize),
    /// The wedge sum of this line, which is to be filled, is below tight or above the greatest.
    #[error("line {0} cannot be filled")]
    CannotFill(usize),
}

/// Faults, in their order.
#[derive(Drop)]
#[derive_where(Debug)]
pub struct JobFaults<A: Allocator> {
    faults: Vec<JobFault, A>,
}

impl<A: Allocator> Model for JobFaults<A> {
    ghost use Rattle.std.specs.Prelude.{List};
    ghost use Rattle.desk_job.specs.declared.JobFault.{JobFault};

    ghost Value = { List JobFault };

    ghost view = { λ f. f.faults.items };
}

impl<A: Allocator> PartialEq for JobFaults<A> {
    ghost use Rattle.std.specs.Cmp.Lexicographic.{lists_per, pointwise};
    ghost use Rattle.desk_job.specs.contracts.JobFaultPartialEq.TheImpl as fault;
    ghost use Rattle.desk_job.specs.contracts.JobFaultPartialEq.TheImpl.Laws.{laws-law};

    ghost eq = { pointwise (fault.ghosts).eq };

    ghost laws = { lists_per laws-law };

    fn eq(&self, other: &Self) -> bool {
        self.faults == other.faults
    }
}

impl<A: Allocator> Eq for JobFaults<A> {
    ghost use Rattle.std.specs.Cmp.Lexicographic.{lists_equiv};
    ghost use Rattle.desk_job.specs.contracts.JobFaultEq.TheImpl.Laws.{laws-law};

    ghost laws = { lists_equiv laws-law };
}

impl<A: Allocator> JobFaults<A> {
    ghost use Rattle.std.specs.Prelude.{◌≡◌};

    fn from_vec(faults: Vec<JobFault, A>) -> JobFaults<A>
        ensures { result ≡ faults.items }
    {
        JobFaults { faults }
    }

    pub fn as_slice(&self) -> &[JobFault]
        ensures { result.now ≡ self.now }
    {
        self.faults.as_slice()
    }
}

/// Why no ribbon was made: the faults of the job, or out of memory.
#[derive(Drop)]
#[derive_where(PartialEq, Eq, Debug)]
pub enum JobRefusal<A: Allocator> {
    Faults(JobFaults<A>),
    NoMemory,
}

impl<A: Allocator> From<NoMemory> for JobRefusal<A> {
    ghost use Rattle.std.specs.Prelude.{◌≡◌};
    ghost use Rattle.desk_job.specs.declared.JobRefusal.TheVariants as refusal;

    ghost from_gives = { λ _ why. why ≡ refusal.NoMemory };

    fn from(_: NoMemory) -> JobRefusal<A> {
        JobRefusal::NoMemory
    }
}
