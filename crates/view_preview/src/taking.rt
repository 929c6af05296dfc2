//! What the files of a proof or a picture give.

ghost use Rattle.std.specs.Prelude.{◌≡◌, IfErr, IfOk, OnOk};
ghost use Rattle.feed_files.specs.Files.{Stays};
ghost use Rattle.view_preview.specs.Taking.{Gives, GivesFeed, GivesNone, GivesText, NoFeed, NoText};

use crate::fault::SourcesFault;
use crate::job::{Job, Source};
use crate::matter::Matter;
use crate::sources::{Sources, take_in};
use crate::texts::text_in;
use feed_files::Files;
use script_answers::{Memory, both};
use std::alloc::Allocator;

/// The matter of a version of a stored feed.
fn take_feed<F: Files, A: Allocator + Copy>(
    memory: Memory<A>,
    files: &mut F,
    from: &Sources<'_>,
) -> Result<Matter<A>, SourcesFault>
    ensures ok { IfOk result (GivesFeed from.now (F.shelf files.old)) }
    ensures still { OnOk result (F.shelf files.new ≡ F.shelf files.old) }
    ensures err { IfErr result (NoFeed from.now (F.shelf files.old) (F.shelf files.new)) }
    ensures stays { Stays (F.shelf files.old) (F.shelf files.new) }
{
    let (replica, case, wedge) = take_in(memory, files, from)?;
    Ok(Matter::of_replica(memory.own, &replica, case, wedge)?)
}

/// The matter of a text, which is read before the case.
fn take_text<F: Files, A: Allocator + Copy>(
    memory: Memory<A>,
    files: &mut F,
    name: &str,
    plain: bool,
    case: &str,
    wedge: &str,
) -> Result<Matter<A>, SourcesFault>
    ensures ok { IfOk result (GivesText plain name.now case.now wedge.now (F.shelf files.old)) }
    ensures still { OnOk result (F.shelf files.new ≡ F.shelf files.old) }
    ensures err { IfErr result (NoText plain name.now case.now wedge.now (F.shelf files.old) (F.shelf files.new)) }
    ensures stays { Stays (F.shelf files.old) (F.shelf files.new) }
{
    let (text, copy) = text_in(memory.own, files, name, plain)?;
    let (case, wedge) = both(memory, files, case, wedge)?;
    Ok(Matter::of_text(memory.own, text, plain, copy, case, wedge))
}

/// Reads what a proof and a picture are made of: a version of a stored feed, or a text, and then a case and a wedge. A
/// text is read as `text_copy` reads it, before the case; it has no setting but the numbers of the case and the wedge,
/// and no fault of the copy. No name is taken, and no file changes. `NoMemory` comes only where the device did not fail
/// in the call, and the feed was opened or the file of the text read.
pub fn take_job<F: Files, A: Allocator + Copy>(
    memory: Memory<A>,
    files: &mut F,
    job: &Job<'_>,
) -> Result<Matter<A>, SourcesFault>
    ensures ok { IfOk result (Gives job.now (F.shelf files.old)) }
    ensures still { OnOk result (F.shelf files.new ≡ F.shelf files.old) }
    ensures err { IfErr result (GivesNone job.now (F.shelf files.old) (F.shelf files.new)) }
    ensures stays { Stays (F.shelf files.old) (F.shelf files.new) }
{
    match job.source {
        Source::Feed(version) => {
            let from = Sources {
                version,
                case: job.case,
                wedge: job.wedge,
            };
            take_feed(memory, files, &from)
        }
        Source::Text { name, plain } => take_text(memory, files, name, plain, job.case, job.wedge),
    }
}
