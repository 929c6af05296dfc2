//! What two stored feeds have that the other has not, and the numbers of sites in them: renumbered where two rooms used
//! one, or all made anew by one site.
//!
//! `report_difference` reports the operations of each feed alone, and the words of their copies that differ. Stamps go
//! by site and then by counter. A stretch of words begins and ends where words are whole in both copies. `text_copy`
//! only advises where copies part, so no clause says that stretches are few. Last come the readings that a merge would
//! open (`feed_readings`), unless both together are more than a replica holds. It takes no name. It refuses a feed that
//! is missing or does not open, the first before the other.
//!
//! Two rooms used one number, and a merge alone would fork their stamps and hide both. `renumber_feed` gives one of
//! them another number for what collides, and for all that it made behind that. After a merge the corrections of both
//! stand. It refuses a number that a stamp of either feed bears or names. It refuses moved operations of two sites
//! with one counter, and an operation that stays and names one that moves.
//!
//! `renew_feed` makes a new feed with the copy and the settings of a stored one, all by one site, from counter 1. It is
//! the way out of forks that never go away, of a full feed and of the last counter. It takes the new name for the run
//! alone, and only reads the old feed. It refuses a new name that has a file.
#![tactic(auto)]

mod alone;
mod anew;
mod collisions;
mod counters;
mod difference_fault;
mod difference_laws;
mod differences;
mod fault;
mod laws;
mod making;
mod moving;
mod refusals;
mod renew_fault;
mod renewing;
mod renumbering;
mod reported;
mod reporting;
mod stretch;
mod stretches;
mod words;

pub use difference_fault::DifferenceFault;
pub use difference_laws::equals_have_no_differences;
pub use differences::report_difference;
pub use fault::{NumberFault, RenumberFault};
pub use laws::both_stand_after_a_merge;
pub use renew_fault::RenewFault;
pub use renewing::renew_feed;
pub use renumbering::renumber_feed;
pub use reported::put_words;
