//! A line for each file: what it holds as a feed, a ribbon, a case or a wedge, or its first fault.
//!
//! The content decides: the first four bytes, or else the keys of a TOML document; one with keys of both is a case. A
//! case and a wedge are compared where each is the only one in order. A copy with faults leaves its feed in order.
//!
//! A file has at most 67,108,864 bytes, and a feed 1,048,576 different operations. Bytes and rows of a ribbon count
//! from 0, rows of a case or a wedge from 1. `toml` says only that its fault lies in the bytes, so that line may not be
//! the first wrong one.
//!
//! It takes no name. It refuses no file: one that it cannot read has a line too.
#![tactic(auto)]

mod cases;
mod checking;
mod fault;
mod feeds;
mod kinds;
mod metal;
mod reported;
mod ribbons;
mod room;
mod room_flaws;
mod room_options;
mod rows;
mod strange;
mod texts;
mod wedges;

pub use checking::check_files;
pub use fault::CheckFault;
pub use kinds::{Kind, kind_of};
pub use metal::Found;
pub use reported::{Reported, reported_of};
pub use room::{MAX_ROOM, ROOM_FILE, RoomFile, is_room_file, room_of};
pub use room_options::{RoomKey, RoomOption};
