//! The calls on stored feeds by hand: merge the feeds of other files, export the copy as text, import a text as the
//! copy, replace a text of the copy.
//!
//! A merge, an import and a replacement take the stored feed's name for the run alone; a missing file is an empty
//! feed. Other feeds are read without a hold: a store is a rename, so what is read is a whole feed.
//!
//! A text has at most 8,388,608 bytes, eight for each symbol that a copy may have. An import makes the changes of
//! `text_copy`, each by one operation of the site. A replacement refuses a text that has no place or several, and
//! writes the places. An empty text can be replaced in an empty copy alone.
//!
//! A merge refuses to fork a stamp. An import refuses to wipe the copy, and neither it nor a replacement goes on with
//! an older feed (`feed_stored`). The caller can ask for each of these. Each fault names the phase that stopped.
//!
//! `take_feed`, `open_feed`, `open_version`, `revise` and `report_and_keep` are steps of these calls, for the crates
//! above.
#![tactic(auto)]

mod counters;
mod editing;
mod exporting;
mod fault;
mod forks;
mod importing;
mod keeping;
mod merging;
mod replace_fault;
mod replacing;
mod reporting;
mod room;
mod stamps;
mod texts;

pub use counters::{Naming, put_counters};
pub use editing::{Tally, revise};
pub use exporting::{Version, export_feed, open_feed, open_version};
pub use fault::{
    ExportFault, FeedTrouble, ImportFault, InputFault, KeepFault, MergeFault, RevisionFault,
    TakeFault,
};
pub use forks::forks_line;
pub use importing::{ImportMode, MAX_TEXT, import_text};
pub use keeping::{Origin, report_and_keep, write_and_keep};
pub use merging::{ANY_SITE, merge_feeds, take_feed};
pub use replace_fault::{ExchangeFault, PlaceFault, ReplaceFault};
pub use replacing::replace_text;
pub use reporting::taken_cover_all;
pub use room::Room;
pub use stamps::{SiteStamp, SiteStamps};
pub use texts::{Exchange, Where};
