//! The ribbon of stored feeds, one galley after the other, stored under a name.

ghost use Rattle.std.specs.Prelude.{◌≡◌, ◌≤◌, IfErr, IfOk, OnOk, length};
ghost use Rattle.feed_files.specs.Files.{HoldsOn, Stays, max_file};
ghost use Rattle.feed_files.specs.Outputs.{destination};
ghost use Rattle.view_preview.specs.Faults.{of_output};
ghost use Rattle.view_punch.specs.Adding.{Adds, IsBegun, IsUnaddedTo, IsUnbegunAt};
ghost use Rattle.view_punch.specs.Punching.{AreMade, AreUnmade, IsPunched, IsUnpunched, source_of};

use crate::joining::{fits, join};
use crate::making::{Means, ribbon_of};
use desk_case::MatrixCase;
use desk_wedge::Wedge;
use feed_edit::{Version, open_feed};
use feed_files::{Files, Kind, OutputFault, Target, store_over};
use script_answers::Memory;
use std::alloc::Allocator;
use std::io::Write;
use view_preview::{PreviewFault, Sources, take_in};

/// What a ribbon is made of: the names of a stored feed and of others, in their order, and those of a case file and of
/// a wedge file.
#[derive(Clone, Copy)]
pub struct Galleys<'a> {
    pub first: &'a str,
    pub others: &'a [&'a str],
    pub case: &'a str,
    pub wedge: &'a str,
}

/// Why no ribbon is stored, and by which feed: 0 is the first, and 1 the first of the others. A fault of the target
/// comes by the last.
#[derive(Clone, Copy, Debug, PartialEq, Eq)]
pub struct Stop {
    pub feed: usize,
    pub why: PreviewFault,
}

/// One of the feeds, with the case and the wedge.
fn source_of<'a>(from: &Galleys<'a>, feed: &'a str) -> Sources<'a>
    ensures { result ≡ source_of from.now feed.entry }
{
    Sources {
        version: Version::whole(feed),
        case: from.case,
        wedge: from.wedge,
    }
}

/// Opens the first feed, reads the case and the wedge, and makes the ribbon of that feed.
fn begin<W: Write, F: Files, A: Allocator + Copy>(
    memory: Memory<A>,
    writer: &mut W,
    files: &mut F,
    from: &Galleys<'_>,
    faulty: bool,
) -> Result<(Vec<u8, A>, MatrixCase, Wedge), PreviewFault>
    ensures ok { IfOk result (λ t. IsBegun from.now faulty (F.shelf files.old) t.0.items t.1 t.2) }
    ensures silent { OnOk result (W.contents writer.new ≡ W.contents writer.old) }
    ensures still { OnOk result (F.shelf files.new ≡ F.shelf files.old) }
    ensures err { IfErr result
        (IsUnbegunAt from.now faulty (F.shelf files.old) (F.shelf files.new) (W.contents writer.old)
        (W.contents writer.new)) }
    ensures stays { Stays (F.shelf files.old) (F.shelf files.new) }
{
    let source = source_of(from, from.first);
    let (replica, case, wedge) = take_in(memory, files, &source)?;
    let means = Means {
        case: &case,
        wedge: &wedge,
        faulty,
    };
    let ribbon = ribbon_of(memory.own, writer, &replica, &means)?;
    fits(&ribbon)?;
    Ok((ribbon, case, wedge))
}

/// The ribbon of the first feed, with the case and the wedge. What stops it is of that feed.
fn first_of<W: Write, F: Files, A: Allocator + Copy>(
    memory: Memory<A>,
    writer: &mut W,
    files: &mut F,
    from: &Galleys<'_>,
    faulty: bool,
) -> Result<(Vec<u8, A>, MatrixCase, Wedge), Stop>
    ensures ok { IfOk result (λ t. IsBegun from.now faulty (F.shelf files.old) t.0.items t.1 t.2) }
    ensures silent { OnOk result (W.contents writer.new ≡ W.contents writer.old) }
    ensures still { OnOk result (F.shelf files.new ≡ F.shelf files.old) }
    ensures err { IfErr result
        (AreUnmade from.now faulty (F.shelf files.old) (F.shelf files.new) (W.contents writer.old)
        (W.contents writer.new)) }
    ensures stays { Stays (F.shelf files.old) (F.shelf files.new) }
{
    match begin(memory, writer, files, from, faulty) {
        Ok(begun) => Ok(begun),
        Err(why) => Err(Stop { feed: 0, why }),
    }
}

/// Opens another feed, makes its ribbon, and adds its rows.
fn add_feed<W: Write, F: Files, A: Allocator + Copy>(
    alloc: A,
    writer: &mut W,
    files: &mut F,
    joined: &mut Vec<u8, A>,
    feed: &str,
    means: &Means<'_>,
) -> Result<(), PreviewFault>
    requires { 8 ≤ length joined.old.items }
    ensures ok { OnOk result
        (Adds (means.now).faulty (means.now).case.now (means.now).wedge.now (F.shelf files.old) feed.now
        joined.old.items joined.new.items) }
    ensures within { OnOk result (length joined.new.items ≤ max_file) }
    ensures silent { OnOk result (W.contents writer.new ≡ W.contents writer.old) }
    ensures still { OnOk result (F.shelf files.new ≡ F.shelf files.old) }
    ensures err { IfErr result
        (IsUnaddedTo (means.now).faulty (means.now).case.now (means.now).wedge.now feed.now joined.old.items
        (F.shelf files.old) (F.shelf files.new) (W.contents writer.old) (W.contents writer.new)) }
    ensures stays { Stays (F.shelf files.old) (F.shelf files.new) }
{
    let replica = match open_feed(alloc, files, feed) {
        Ok(replica) => replica,
        Err(why) => return Err(PreviewFault::Feed(why)),
    };
    let next = ribbon_of(alloc, writer, &replica, means)?;
    join(joined, &next)?;
    Ok(())
}

/// The ribbon of all feeds, one galley after the other.
fn joined_of<W: Write, F: Files, A: Allocator + Copy>(
    memory: Memory<A>,
    writer: &mut W,
    files: &mut F,
    from: &Galleys<'_>,
    faulty: bool,
) -> Result<Vec<u8, A>, Stop>
    ensures ok { IfOk result (λ v. AreMade from.now faulty (F.shelf files.old) v.items) }
    ensures silent { OnOk result (W.contents writer.new ≡ W.contents writer.old) }
    ensures still { OnOk result (F.shelf files.new ≡ F.shelf files.old) }
    ensures err { IfErr result
        (AreUnmade from.now faulty (F.shelf files.old) (F.shelf files.new) (W.contents writer.old)
        (W.contents writer.new)) }
    ensures stays { Stays (F.shelf files.old) (F.shelf files.new) }
{
    let (mut joined, case, wedge) = first_of(memory, writer, files, from, faulty)?;
    let means = Means {
        case: &case,
        wedge: &wedge,
        faulty,
    };
    for at in 0..from.others.len() {
        let feed = from.others[at];
        let added = add_feed(memory.own, writer, files, &mut joined, feed, &means);
        if let Err(why) = added {
            return Err(Stop { feed: at + 1, why });
        }
    }
    Ok(joined)
}

/// What a ribbon that is not stored is for a punch.
fn stored_fault(why: OutputFault) -> PreviewFault
    ensures { result ≡ of_output why }
{
    PreviewFault::from(why)
}

/// Makes the ribbon of stored feeds by a case and a wedge, and stores it under the name of a target; nothing is written
/// then. Its rows are those of each feed's job, by the feed's own settings, in the order of the feeds. The feeds are
/// opened and made in that order. The case and the wedge are read once, after the first feed was opened. The first feed
/// that is not made stops the rest, and nothing is stored.
///
/// Where its copy has faults, and these are not let through as `faulty`, the line that the command `faults` has for
/// them is written, and the fault is `CopyFaults`. Else, where its job has faults, the line that the command `ribbon`
/// has for them is written, with all the settings that are missing. The fault is `Faulty` then, with the number that is
/// another, if one is. It is another where such a line is not written. It is `TooLong` where the ribbon up to this feed
/// would have more than 67,108,864 bytes.
///
/// No file changes then, nor where a file that is no ribbon stands under the target, which is not forced: the fault is
/// `Taken` then. No name is taken: a feed is stored by a rename, so what is read is a whole feed, and so is the ribbon.
/// A target that is forced, and is a feed, the case or the wedge, is replaced as any other.
pub fn punch_feeds<W: Write, F: Files, A: Allocator + Copy>(
    memory: Memory<A>,
    writer: &mut W,
    files: &mut F,
    from: &Galleys<'_>,
    target: &Target<'_>,
    faulty: bool,
) -> Result<(), Stop>
    ensures ok { OnOk result
        (IsPunched from.now (destination target.now.name.now target.now.force) faulty
        (F.shelf files.old) (F.shelf files.new)) }
    ensures silent { OnOk result (W.contents writer.new ≡ W.contents writer.old) }
    ensures counted { OnOk result ((F.shelf files.new).failures ≡ (F.shelf files.old).failures) }
    ensures err { IfErr result
        (IsUnpunched from.now (destination target.now.name.now target.now.force) faulty
        (F.shelf files.old) (F.shelf files.new) (W.contents writer.old) (W.contents writer.new)) }
    ensures held { HoldsOn (F.shelf files.old).held (F.shelf files.new).held }
{
    let ribbon = joined_of(memory, writer, files, from, faulty)?;
    match store_over(memory.own, files, target, &ribbon, Kind::Ribbon) {
        Ok(()) => Ok(()),
        Err(why) => Err(Stop {
            feed: from.others.len(),
            why: stored_fault(why),
        }),
    }
}
