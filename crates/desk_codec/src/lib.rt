//! The bytes of operations, and of feeds of them.
//!
//! One grammar has both forms of feed, of single operations and of runs: a magic, and then items, each an operation
//! alone or a run. A run is 2 to 64 inserts of one site, each hung on the one before. A long run takes about a fifth of
//! the bytes of its inserts. The form without runs stays, so what older readers take keeps its bytes. Bytes are read
//! item by item, whole or in pieces, so a feed need not fit into memory.
//!
//! A reader refuses bytes that are no feed, with the first fault from the left and its place. All pieces of one reader
//! have fewer than 2^63 bytes.
#![tactic(auto)]

mod fault;
mod fields;
mod form;
mod gathered;
mod items;
mod laws;
mod reader;
mod reading;
mod runs;
mod writing;

pub use fault::{FeedFault, FeedWhy, ReadFault};
pub use laws::{
    each_kind_has_its_size, feed_or_fault_holds, feeds_are_of_one_list, item_or_fault_holds,
    operations_are_prefix_free, operations_have_one_feed, order_goes_by_bytes, pieces_are_the_feed,
    runs_are_read,
};
pub use reader::FeedReader;
pub use reading::{next_op, read_feed};
pub use runs::write_runs;
pub use writing::{write_feed, write_op};
