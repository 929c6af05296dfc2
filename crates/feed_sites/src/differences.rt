//! The difference of two stored feeds, written as text.

ghost use Rattle.std.specs.Prelude.{◌≡◌, IfErr, IfOk, OnOk};
ghost use Rattle.feed_files.specs.Files.{Stays};
ghost use Rattle.feed_edit.specs.Exporting.{IsSetOf, IsVersion};
ghost use Rattle.feed_sites.specs.Reporting.{IsReported, IsWritten, IsUnopened, IsUnreported, IsUnwritten};

use crate::difference_fault::DifferenceFault;
use crate::reported::reported_of;
use desk_blocks::Blocks;
use desk_replica::Replica;
use feed_edit::{Version, open_feed, open_version};
use feed_files::Files;
use feed_stored::write_out;
use std::alloc::Allocator;
use std::io::Write;

/// Opens a version of a stored feed, and then another feed.
fn open_both<F: Files, A: Allocator + Copy>(
    alloc: A,
    files: &mut F,
    one: Version<'_>,
    other: &str,
) -> Result<(Replica<Blocks<A>>, Replica<Blocks<A>>), DifferenceFault>
    ensures one { IfOk result (λ r. IsVersion one.entry (F.shelf files.old) r.0.ops) }
    ensures other { IfOk result (λ r. IsSetOf other.now (F.shelf files.old) r.1.ops) }
    ensures counted { OnOk result ((F.shelf files.new).failures ≡ (F.shelf files.old).failures) }
    ensures err { IfErr result (IsUnopened one.entry other.now (F.shelf files.old) (F.shelf files.new)) }
    ensures stays { Stays (F.shelf files.old) (F.shelf files.new) }
{
    let first = open_version(alloc, files, one).map_err(DifferenceFault::One)?;
    let second = open_feed(alloc, files, other).map_err(DifferenceFault::Other)?;
    Ok((first, second))
}

/// Writes in what two replicas differ, and answers whether they hold the same operations.
fn write_difference<W: Write, A: Allocator + Copy>(
    alloc: A,
    writer: &mut W,
    one: &str,
    other: &str,
    first: Replica<Blocks<A>>,
    second: &Replica<Blocks<A>>,
) -> Result<bool, DifferenceFault>
    ensures ok { IfOk result
        (IsWritten one.now other.now first.ops second.now.ops (W.contents writer.old) (W.contents writer.new)) }
    ensures err { IfErr result
        (IsUnwritten one.now other.now first.ops second.now.ops (W.contents writer.old) (W.contents writer.new)) }
{
    let (text, same) = reported_of(alloc, one, other, first, second)?;
    write_out(writer, &text)?;
    Ok(same)
}

/// Writes in what a version of a stored feed and another feed, or the same, differ, and answers whether they hold the
/// same operations. Each feed has a line,
/// `one.feed alone 1: 20..25 31, 3: 7` or `one.feed alone none`: the stamps of the operations that it holds and the
/// other does not, by site, each site with its counters, and two or more that follow one another as the first and the
/// last. An operation whose stamp the other holds with other content is one of them. Then each stretch of words in
/// which the copies differ has two lines, `- 12 the quick` with its place in the first copy, from 0, and the words
/// there, and `+ 12 the slow` with those of the other: text with marks for its styles, the end of a line as a space.
/// Outside the stretches the copies are the same. Last stand the readings that would be open, if the other feed were
/// merged into the first, as `merge_feeds` has them; none where both are more than a replica holds. Both files must be
/// there. No name is taken, and no file changes. A refusal of a feed or of memory comes before anything is written.
pub fn report_difference<W: Write, F: Files, A: Allocator + Copy>(
    alloc: A,
    writer: &mut W,
    files: &mut F,
    one: Version<'_>,
    other: &str,
) -> Result<bool, DifferenceFault>
    ensures ok { IfOk result
        (IsReported one.entry other.now (F.shelf files.old) (W.contents writer.old) (W.contents writer.new)) }
    ensures counted { OnOk result ((F.shelf files.new).failures ≡ (F.shelf files.old).failures) }
    ensures err { IfErr result
        (IsUnreported one.entry other.now (F.shelf files.old) (F.shelf files.new) (W.contents writer.old)
        (W.contents writer.new)) }
    ensures stays { Stays (F.shelf files.old) (F.shelf files.new) }
{
    let (first, second) = open_both(alloc, files, one, other)?;
    write_difference(alloc, writer, one.feed, other, first, &second)
}
