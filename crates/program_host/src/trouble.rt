//! What the system would not do, in words.

use crate::plain::Plain;
use feed_files::NoFiles;
use feed_files::trial::TrialFiles;
use std::alloc::Allocator;
use std::fmt::{Display, Formatter};
use std::io::Write;
use std::{fmt, io};

/// What was asked of a feed's files.
#[derive(Clone, Copy, Debug, PartialEq, Eq)]
pub enum Asked {
    /// To find where the name leads.
    Find,
    /// To be the file of a feed that can be stored.
    Replace,
    /// To open the file that is locked.
    Lock,
    /// To lock it, where another run has done so, or this one holds a name already.
    Hold,
    Read,
    /// To write the file that takes the feed's name.
    Write,
    Rename,
}

impl Display for Asked {
    fn fmt<W: fmt::Write>(&self, f: &mut Formatter<W>) -> fmt::Result {
        f.write_str(match self {
            Asked::Find => ": it cannot be found",
            Asked::Replace => ": it cannot be stored anew",
            Asked::Lock => ".lock: it cannot be opened",
            Asked::Hold => ": another desk has it open",
            Asked::Read => ": it cannot be read",
            Asked::Write => ".new: it cannot be written",
            Asked::Rename => ".new: it cannot take the feed's name",
        })
    }
}

/// A call that failed.
#[derive(Debug, Drop)]
pub struct Trouble {
    pub asked: Asked,
    pub error: io::Error,
}

/// Files that say in words why they refused a feed, and streams of which it is known whether they are closed.
pub trait Explains {
    /// Writes a line on the refusal that came last.
    fn explain<E: Write>(&self, feed: &str, faults: &mut E) -> io::Result<()>;

    /// Whether the reader of standard output has closed it, so that nobody waits for more.
    fn is_output_closed(&self) -> bool;
}

/// Writes a line on a call that failed.
pub fn write_trouble<E: Write>(feed: &str, trouble: &Trouble, faults: &mut E) -> io::Result<()> {
    let (feed, asked) = (Plain(feed), trouble.asked);
    if asked == Asked::Hold {
        return writeln!(faults, "{feed}{asked}");
    }
    let error = &trouble.error;
    writeln!(faults, "{feed}{asked}: {error}")
}

impl Explains for NoFiles {
    fn explain<E: Write>(&self, feed: &str, faults: &mut E) -> io::Result<()> {
        writeln!(faults, "{}: no file can be", Plain(feed))
    }

    fn is_output_closed(&self) -> bool {
        false
    }
}

impl<A: Allocator + Copy> Explains for TrialFiles<A> {
    fn explain<E: Write>(&self, feed: &str, faults: &mut E) -> io::Result<()> {
        writeln!(faults, "{}: a call failed", Plain(feed))
    }

    fn is_output_closed(&self) -> bool {
        false
    }
}
