//! What the words of the command line ask for, done.

ghost use Rattle.std.specs.Prelude.{◌≡◌, ◌≢◌, ◌≤◌, ◌⊎◌, Bool, map, string_bytes};
ghost use Rattle.clap.specs.Words.{kind_of};
ghost use Rattle.program_desk.specs.Headlines.{said_line};
ghost use Rattle.program_desk.specs.Runs.{Does, IsRun, IsStopped, Stops, other_of, where_of};
ghost use Rattle.program_desk.specs.Told.{Tells};
ghost use Rattle.program_words.specs.Words.{AsksHelp, AsksNothing, IsLawful};

use crate::by_hand::{
    Import, Merge, Renewal, Renumbering, exported, imported, merged, renewed, renumbered,
};
use crate::causes::Said;
use crate::compared::{cast_compared, compared};
use crate::history::{Sieve, logged, roomed, sought};
use crate::previews::{Punch, proofed, punched};
use crate::readings::{Listing, listed, read_whole};
use crate::reporting::out_of_memory;
use crate::sheets::{Desk, on_desk, scripted};
use crate::sources::{galleys_of, preview_of, reading_of};
use crate::texts::{checked, replaced};
use crate::told::{Ending, ended};
use clap::Error;
use clap::error::ErrorKind;
use feed_edit::{Exchange, ImportMode, Room, Version, Where};
use feed_files::{Files, Target};
use program_host::{Explains, Plain};
use program_words::{Wish, read_words};
use std::alloc::Global;
use std::io::{Read, Write};
use view_punch::Wanted;
use view_ribbon::Pair;

/// The feed that is compared with a version of one: the other, or the same.
fn other_of<'a>(one: &'a str, other: Option<&'a str>) -> &'a str
    ensures { result ≡ other_of one.entry other.entry }
{
    match other {
        Some(other) => other,
        None => one,
    }
}

/// Where a text is replaced: at a place, at all, or at the only one.
fn where_of(at: Option<u64>, all: bool) -> Where
    ensures { result ≡ where_of at all }
{
    match at {
        Some(place) => Where::At(place as usize),
        None if all => Where::All,
        None => Where::Once,
    }
}

/// Does what is asked for, and says how it ended, and whether the lines on a stop were written whole.
fn fulfilled<R: Read, W: Write, E: Write, F: Files + Explains>(
    alloc: Global,
    wish: &Wish<'_>,
    reader: &mut R,
    writer: &mut W,
    faults: &mut E,
    files: &mut F,
) -> Ending
    requires { IsLawful wish.now }
    ensures within { result.status ≤ 1 }
    ensures done { result.status ≡ 0
        → Does wish.now (F.shelf files.old) (F.shelf files.new) (R.remaining reader.old) (W.contents writer.old)
        (W.contents writer.new) }
    ensures stopped { result.status ≡ 1
        → Stops wish.now (F.shelf files.old) (F.shelf files.new) (R.remaining reader.old) (W.contents writer.old)
        (W.contents writer.new) result.told.is_whole (E.contents faults.old) (E.contents faults.new) }
{
    match wish {
        Wish::Script { manner } => scripted(alloc, *manner, reader, writer, faults, files),
        Wish::Desk {
            feed,
            site,
            older,
            why,
            manner,
        } => {
            let desk = Desk {
                room: desk_script::Room {
                    feed,
                    site: *site,
                    older: *older,
                },
                why: *why,
                manner: *manner,
            };
            on_desk(alloc, desk, reader, writer, faults, files)
        }
        Wish::Merge {
            feed,
            others,
            forks,
            review,
        } => {
            let merge = Merge {
                feed,
                others,
                forks: *forks,
                review: *review,
            };
            merged(alloc, merge, writer, faults, files)
        }
        Wish::Diff { one, until, other } => {
            let version = Version {
                feed: one,
                until: *until,
            };
            compared(alloc, version, other_of(one, *other), writer, faults, files)
        }
        Wish::Compare {
            one,
            other,
            case,
            wedge,
        } => {
            let pair = Pair {
                one,
                other,
                case,
                wedge,
            };
            cast_compared(alloc, &pair, writer, faults, files)
        }
        Wish::Export { feed, until } => {
            let version = Version {
                feed,
                until: *until,
            };
            exported(alloc, version, writer, faults, files)
        }
        Wish::Import {
            feed,
            site,
            older,
            plain,
            all,
        } => {
            let import = Import {
                room: Room {
                    feed,
                    site: *site,
                    older: *older,
                },
                mode: ImportMode {
                    plain: *plain,
                    all: *all,
                },
            };
            imported(alloc, import, reader, writer, faults, files)
        }
        Wish::Replace {
            feed,
            site,
            older,
            old,
            new,
            plain,
            at,
            all,
        } => {
            let exchange = Exchange {
                from: old,
                to: new,
                plain: *plain,
                at: where_of(*at, *all),
            };
            let room = Room {
                feed,
                site: *site,
                older: *older,
            };
            replaced(alloc, room, &exchange, writer, faults, files)
        }
        Wish::Check { files: names } => checked(alloc, names, writer, faults, files),
        Wish::Proof {
            galley,
            drawings,
            sets,
        } => {
            let asked = preview_of(galley, *drawings);
            proofed(alloc, &asked, sets, writer, faults, files)
        }
        Wish::Punch {
            feeds,
            case,
            wedge,
            target,
            force,
            faulty,
        } => {
            let punch = Punch {
                from: galleys_of(feeds, case, wedge),
                target: Target {
                    name: target,
                    force: *force,
                },
                faulty: *faulty,
            };
            punched(alloc, &punch, writer, faults, files)
        }
        Wish::Read {
            from,
            extent,
            picture,
            force,
        } => {
            let asked = reading_of(from, *extent, *picture, *force);
            read_whole(alloc, &asked, writer, faults, files)
        }
        Wish::Sorts {
            feed,
            until,
            case,
            layout,
        } => {
            let asked = Listing {
                version: Version {
                    feed,
                    until: *until,
                },
                case,
                layout: *layout,
            };
            listed(alloc, asked, writer, faults, files)
        }
        Wish::Renumber { feed, other, site } => {
            let asked = Renumbering {
                feed,
                other,
                site: *site,
            };
            renumbered(alloc, asked, writer, faults, files)
        }
        Wish::Renew { new, feed, site } => {
            let renewal = Renewal {
                new,
                feed,
                site: *site,
            };
            renewed(alloc, renewal, writer, faults, files)
        }
        Wish::Rooms { feed } => roomed(alloc, feed, writer, faults, files),
        Wish::Log {
            feed,
            site,
            since,
            text,
        } => {
            let sieve = Sieve {
                site: *site,
                since: *since,
                text: *text,
            };
            logged(alloc, feed, &sieve, writer, faults, files)
        }
        Wish::Find {
            feed,
            text,
            plain,
            metal,
        } => {
            let asked = Wanted {
                text,
                plain: *plain,
                metal: *metal,
            };
            sought(alloc, feed, &asked, writer, faults, files)
        }
    }
}

/// Writes what `clap` says of words that it refuses, with the words as a terminal shows them.
fn report_words<E: Write>(alloc: Global, faults: &mut E, error: &Error) {
    let Ok(text) = format!(in alloc; "{error}") else {
        let _ = writeln!(faults, "error: the words of the command line are refused");
        return;
    };
    for line in text.as_str().lines() {
        let _ = writeln!(faults, "{}", Plain(line));
    }
}

/// What `clap` says of the words: its help and the version go to the writer, and a refusal to the faults.
fn refused<W: Write, E: Write>(
    alloc: Global,
    writer: &mut W,
    faults: &mut E,
    error: &Error,
) -> Ending
    ensures within { result.status ≤ 2 }
    ensures help { result.status ≡ 0 → (kind_of error.now ≡ ErrorKind.DisplayHelp)
        ⊎ (kind_of error.now ≡ ErrorKind.DisplayVersion) }
    ensures memory { result.status ≡ 1 → (kind_of error.now ≡ ErrorKind.OutOfMemory) × (writer.new ≡ writer.old)
        × Tells result.told.is_whole (E.contents faults.old) (E.contents faults.new) (said_line Said.NoMemory) }
    ensures reported { result.status ≢ 1 → kind_of error.now ≢ ErrorKind.OutOfMemory }
    ensures fault { result.status ≡ 2 → (kind_of error.now ≢ ErrorKind.DisplayHelp)
        × (kind_of error.now ≢ ErrorKind.DisplayVersion) × (writer.new ≡ writer.old) }
{
    let kind = error.kind();
    if kind == ErrorKind::OutOfMemory {
        return out_of_memory(faults);
    }
    if kind == ErrorKind::DisplayHelp || kind == ErrorKind::DisplayVersion {
        let _ = write!(writer, "{error}");
        return ended(0);
    }
    report_words(alloc, faults, error);
    ended(2)
}

/// Says that words do not go together, and gives the status of it.
fn idle<E: Write>(faults: &mut E) -> u8
    ensures { result ≡ 2 }
{
    let _ = writeln!(faults, "error: these words do not go together; see --help");
    2
}

/// Does what the words ask for, and gives the status: 0 only where it was done and no fault or difference found, or
/// help or the version was asked for; 1 where it stopped, or a fault or a difference was found; and 2 where the words
/// were refused. A failure to write the help or a fault's line changes no status.
pub fn program<R: Read, W: Write, E: Write, F: Files + Explains>(
    alloc: Global,
    words: &[String],
    reader: &mut R,
    writer: &mut W,
    faults: &mut E,
    files: &mut F,
) -> u8
    ensures status { result ≤ 2 }
    ensures done { result ≡ 0
        → IsRun (F.shelf files.old) (F.shelf files.new) (map string_bytes words.now) (R.remaining reader.old)
        (W.contents writer.old) (W.contents writer.new)
        ⊎ (AsksHelp (map string_bytes words.now) × (reader.new ≡ reader.old) × (files.new ≡ files.old)) }
    ensures stopped { result ≡ 1
        → IsStopped (F.shelf files.old) (F.shelf files.new) (map string_bytes words.now) (R.remaining reader.old)
        (W.contents writer.old) (W.contents writer.new) (E.contents faults.old) (E.contents faults.new)
        ⊎ ((reader.new ≡ reader.old) × (writer.new ≡ writer.old) × (files.new ≡ files.old) × (whole : Bool)
        × Tells whole (E.contents faults.old) (E.contents faults.new) (said_line Said.NoMemory)) }
    ensures refused { result ≡ 2 → AsksNothing (map string_bytes words.now) × (reader.new ≡ reader.old)
        × (writer.new ≡ writer.old) × (files.new ≡ files.old) }
{
    match read_words(alloc, words) {
        Ok(Some(wish)) => fulfilled(alloc, &wish, reader, writer, faults, files).status,
        Ok(None) => idle(faults),
        Err(error) => refused(alloc, writer, faults, &error).status,
    }
}
