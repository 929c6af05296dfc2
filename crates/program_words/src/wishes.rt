//! What the matches of the command line hold.

ghost use Rattle.std.specs.Prelude.{◌≡◌, ◌≢◌, ℕ, None, IfOk, IfSome, IsErr, IsNone, codes};
ghost use Rattle.clap.specs.Words.{Text, all_of, found_of, rows_of, subcommand_rows_of};
ghost use Rattle.program_words.specs.Words.{AreCopied, AreDrawn, AreFormed, AreGalley, AreRibbon, AreShown};
ghost use Rattle.program_words.specs.Words.{AreMetal, AreNames, Chooses, HasFlag, HasList, HasManner};
ghost use Rattle.program_words.specs.Words.{HasNumber, HasRoom, HasSite};
ghost use Rattle.program_words.specs.Words.{IsReported, IsWished, ListsNames, NamesDesk, all_given, name_of, texts_of};

use crate::choices::{Extent, Form, Source, extent_by, form_by, page_by, source_by};
use clap::ArgMatches;
use std::alloc::{AllocError, Global};

/// The subcommands.
#[derive(Clone, Copy, Debug, PartialEq, Eq)]
pub enum Subcommand {
    Script,
    Desk,
    Merge,
    Diff,
    Export,
    Import,
    Replace,
    Check,
    Proof,
    Punch,
    Read,
    Sorts,
    Renumber,
    Renew,
    Rooms,
    Log,
    Find,
}

/// The galley that is asked for: what it is of, the names of a case file and of a wedge file, how it is written, and
/// whether second looks are wanted.
#[derive(Clone, Copy, Debug, PartialEq, Eq)]
pub struct Galley<'a> {
    pub source: Source<'a>,
    pub case: &'a str,
    pub wedge: &'a str,
    pub form: Form,
    pub looks: bool,
}

/// The names of a stored ribbon, of a case file and of a wedge file.
#[derive(Clone, Copy, Debug, PartialEq, Eq)]
pub struct Ribbon<'a> {
    pub ribbon: &'a str,
    pub case: &'a str,
    pub wedge: &'a str,
}

/// The names of the files that a galley is drawn in, a picture and a document; the height of their pages in points, if
/// one is given; and whether whatever stands there is replaced.
#[derive(Clone, Copy, Debug, PartialEq, Eq)]
pub struct Drawings<'a> {
    pub picture: Option<&'a str>,
    pub document: Option<&'a str>,
    pub page: Option<u16>,
    pub force: bool,
}

/// How commands are to be carried out and answered, as the flags say.
#[derive(Clone, Copy, Debug, PartialEq, Eq)]
pub struct Manner {
    /// The run ends at the first line that is refused.
    pub strict: bool,
    /// The number of its line stands before each answer.
    pub number: bool,
}

/// What the words ask for.
#[derive(Drop)]
pub enum Wish<'a> {
    /// A script, and how it is carried out.
    Script {
        manner: Manner,
    },
    /// A script on a stored feed, for a site, whether an older feed is taken, whether a line is to say why a run
    /// stopped, and how it is carried out.
    Desk {
        feed: &'a str,
        site: u16,
        older: bool,
        why: bool,
        manner: Manner,
    },
    /// The feeds of other files, merged into a stored one, whether numbers that were used twice are merged too, and
    /// whether words that a person must look at are a fault.
    Merge {
        feed: &'a str,
        others: Vec<&'a str>,
        forks: bool,
        review: bool,
    },
    /// What each of two stored feeds has alone: of one as it was at a counter, where one is given, and the other feed
    /// or, where none is named, the same.
    Diff {
        one: &'a str,
        until: Option<u64>,
        other: Option<&'a str>,
    },
    /// What a caster casts of each of two ribbons, line by line, by a case and a wedge.
    Compare {
        one: &'a str,
        other: &'a str,
        case: &'a str,
        wedge: &'a str,
    },
    /// The copy of a stored feed as text, as it was at a counter, where one is given.
    Export {
        feed: &'a str,
        until: Option<u64>,
    },
    /// A text, made the copy of a stored feed by operations of a site, whether an older feed is taken, whether all of
    /// the text is Roman, and whether it may delete most of the copy.
    Import {
        feed: &'a str,
        site: u16,
        older: bool,
        plain: bool,
        all: bool,
    },
    /// A text in the copy of a stored feed, made another by operations of a site, whether an older feed is taken,
    /// whether all of both is Roman, and the place at which it is, or whether all places are meant; not both.
    Replace {
        feed: &'a str,
        site: u16,
        older: bool,
        old: &'a str,
        new: &'a str,
        plain: bool,
        at: Option<u64>,
        all: bool,
    },
    /// Files, known by their content.
    Check {
        files: Vec<&'a str>,
    },
    /// A galley, the files that it is drawn in, and the settings that are tried in place of the copy's.
    Proof {
        galley: Galley<'a>,
        drawings: Drawings<'a>,
        sets: Vec<&'a str>,
    },
    /// The ribbon of stored feeds, one at least, by a case and a wedge, stored under the name of a target; whether
    /// whatever stands there is replaced, and whether a copy with faults is punched.
    Punch {
        feeds: Vec<&'a str>,
        case: &'a str,
        wedge: &'a str,
        target: &'a str,
        force: bool,
        faulty: bool,
    },
    /// What a caster would cast of a stored ribbon by a case and a wedge, how much of that is written, the name of the
    /// file that its picture is stored in, and whether whatever stands there is replaced.
    Read {
        from: Ribbon<'a>,
        extent: Extent,
        picture: Option<&'a str>,
        force: bool,
    },
    /// The sorts that the copy of a stored feed wants of a case, as it was at a counter, where one is given, and
    /// whether the case's layout is wanted too.
    Sorts {
        feed: &'a str,
        until: Option<u64>,
        case: &'a str,
        layout: bool,
    },
    /// Another number for the operations of a stored feed whose stamps another feed bears with other content.
    Renumber {
        feed: &'a str,
        other: &'a str,
        site: u16,
    },
    /// A new feed, with the copy and the settings of a stored one, made by a site.
    Renew {
        new: &'a str,
        feed: &'a str,
        site: u16,
    },
    /// The sites of a stored feed.
    Rooms {
        feed: &'a str,
    },
    /// The corrections of a stored feed: of a site, from a counter on, and with a text, where these are given.
    Log {
        feed: &'a str,
        site: Option<u16>,
        since: Option<u64>,
        text: Option<&'a str>,
    },
    /// The places of a text in the copy of a stored feed, whether all of it is Roman, and the case and the wedge by
    /// which places have lines, if any.
    Find {
        feed: &'a str,
        text: &'a str,
        plain: bool,
        metal: Option<(&'a str, &'a str)>,
    },
}

/// The subcommand of a name.
fn subcommand_named(name: &str) -> Option<Subcommand>
    ensures some { IfSome result (λ subcommand. name.now ≡ name_of subcommand) }
    ensures none { IsNone result → (subcommand : _) → name.now ≢ name_of subcommand }
{
    match name {
        "script" => Some(Subcommand::Script),
        "desk" => Some(Subcommand::Desk),
        "merge" => Some(Subcommand::Merge),
        "diff" => Some(Subcommand::Diff),
        "export" => Some(Subcommand::Export),
        "import" => Some(Subcommand::Import),
        "replace" => Some(Subcommand::Replace),
        "check" => Some(Subcommand::Check),
        "proof" => Some(Subcommand::Proof),
        "punch" => Some(Subcommand::Punch),
        "read" => Some(Subcommand::Read),
        "sorts" => Some(Subcommand::Sorts),
        "renumber" => Some(Subcommand::Renumber),
        "renew" => Some(Subcommand::Renew),
        "rooms" => Some(Subcommand::Rooms),
        "log" => Some(Subcommand::Log),
        "find" => Some(Subcommand::Find),
        _ => None,
    }
}

/// The site's number that a subcommand's matches hold.
fn site_of(matches: &ArgMatches<'_>) -> Option<u16>
    ensures some { IfSome result (HasSite (rows_of (found_of matches.now))) }
    ensures none { IsNone result → (site : ℕ) → HasSite (rows_of (found_of matches.now)) site → ⊥ }
{
    match matches.get_one::<u16>("site") {
        Some(site) => {
            if site == 0 {
                return None;
            }
            Some(site)
        }
        None => None,
    }
}

/// Whether a flag is set.
fn flag_of(matches: &ArgMatches<'_>, name: &str) -> bool
    ensures { HasFlag name.now (rows_of (found_of matches.now)) result }
{
    match matches.get_one::<bool>(name) {
        Some(flag) => flag,
        None => false,
    }
}

/// The number that an option gives.
fn number_of(matches: &ArgMatches<'_>, name: &str) -> Option<u64>
    ensures { HasNumber name.now (rows_of (found_of matches.now)) result }
{
    matches.get_one::<u64>(name)
}

/// The number of a site that an option gives.
fn room_of(matches: &ArgMatches<'_>) -> Option<u16>
    ensures { HasRoom (rows_of (found_of matches.now)) result }
{
    match site_of(matches) {
        Some(site) => Some(site),
        None => None,
    }
}

/// The feed's name and the site's number that a subcommand's matches hold.
fn feed_and_site<'a>(matches: &ArgMatches<'a>) -> Option<(&'a str, u16)>
    ensures some { IfSome result (λ p. NamesDesk (rows_of (found_of matches.now)) p.0.now p.1) }
    ensures none { IsNone result → (feed : Text) (site : ℕ) → NamesDesk (rows_of (found_of matches.now)) feed site → ⊥ }
{
    match matches.get_str("feed") {
        Some(feed) => match site_of(matches) {
            Some(site) => Some((feed, site)),
            None => None,
        },
        None => None,
    }
}

/// How the commands of a subcommand's matches are carried out.
fn manner_of(matches: &ArgMatches<'_>) -> Manner
    ensures { HasManner (rows_of (found_of matches.now)) result }
{
    Manner {
        strict: flag_of(matches, "strict"),
        number: flag_of(matches, "number"),
    }
}

fn desk_wish<'a>(matches: &ArgMatches<'a>) -> Option<Wish<'a>>
    ensures { IsReported (rows_of (found_of matches.now)) Subcommand.Desk result }
{
    match feed_and_site(matches) {
        Some((feed, site)) => Some(Wish::Desk {
            feed,
            site,
            older: flag_of(matches, "older"),
            why: flag_of(matches, "why"),
            manner: manner_of(matches),
        }),
        None => None,
    }
}

/// All the names that an argument of a subcommand's matches has.
fn names_of<'a>(
    alloc: Global,
    matches: &ArgMatches<'a>,
    argument: &str,
) -> Result<Option<Vec<&'a str>>, AllocError>
    ensures names { IfOk result (AreNames (all_of argument.now (rows_of (found_of matches.now)))) }
    ensures memory { IsErr result → all_of argument.now (rows_of (found_of matches.now)) ≢ None }
{
    match matches.get_strs(argument) {
        Some(names) => Ok(Some(Vec::from_slice(alloc, names)?)),
        None => Ok(None),
    }
}

fn merge_wish<'a>(alloc: Global, matches: &ArgMatches<'a>) -> Result<Option<Wish<'a>>, AllocError>
    ensures wish { IfOk result (IsReported (rows_of (found_of matches.now)) Subcommand.Merge) }
    ensures memory { IsErr result → HasList (rows_of (found_of matches.now)) Subcommand.Merge }
{
    let Some(feed) = matches.get_str("feed") else {
        return Ok(None);
    };
    match names_of(alloc, matches, "other")? {
        Some(others) => {
            let forks = flag_of(matches, "forks");
            let review = flag_of(matches, "review");
            Ok(Some(Wish::Merge {
                feed,
                others,
                forks,
                review,
            }))
        }
        None => Ok(None),
    }
}

fn diff_wish<'a>(matches: &ArgMatches<'a>) -> Option<Wish<'a>>
    ensures { IsReported (rows_of (found_of matches.now)) Subcommand.Diff result }
{
    let Some(one) = matches.get_str("feed") else {
        return None;
    };
    let until = number_of(matches, "at");
    let other = choice_of(matches, "other");
    match metal_of(matches) {
        Some(Some((case, wedge))) => {
            if until.is_some() {
                return None;
            }
            match other {
                Some(other) => Some(Wish::Compare {
                    one,
                    other,
                    case,
                    wedge,
                }),
                None => None,
            }
        }
        Some(None) => {
            if until.is_none() && other.is_none() {
                return None;
            }
            Some(Wish::Diff { one, until, other })
        }
        None => None,
    }
}

fn export_wish<'a>(matches: &ArgMatches<'a>) -> Option<Wish<'a>>
    ensures { IsReported (rows_of (found_of matches.now)) Subcommand.Export result }
{
    match matches.get_str("feed") {
        Some(feed) => {
            let until = number_of(matches, "at");
            Some(Wish::Export { feed, until })
        }
        None => None,
    }
}

fn import_wish<'a>(matches: &ArgMatches<'a>) -> Option<Wish<'a>>
    ensures { IsReported (rows_of (found_of matches.now)) Subcommand.Import result }
{
    match feed_and_site(matches) {
        Some((feed, site)) => Some(Wish::Import {
            feed,
            site,
            older: flag_of(matches, "older"),
            plain: flag_of(matches, "plain"),
            all: flag_of(matches, "all"),
        }),
        None => None,
    }
}

fn replace_wish<'a>(matches: &ArgMatches<'a>) -> Option<Wish<'a>>
    ensures { IsReported (rows_of (found_of matches.now)) Subcommand.Replace result }
{
    let Some((feed, site)) = feed_and_site(matches) else {
        return None;
    };
    let Some(old) = matches.get_str("old") else {
        return None;
    };
    let Some(new) = matches.get_str("new") else {
        return None;
    };
    let at = number_of(matches, "at");
    let all = flag_of(matches, "all");
    if at.is_some() && all {
        return None;
    }
    let plain = flag_of(matches, "plain");
    let older = flag_of(matches, "older");
    Some(Wish::Replace {
        feed,
        site,
        older,
        old,
        new,
        plain,
        at,
        all,
    })
}

fn check_wish<'a>(alloc: Global, matches: &ArgMatches<'a>) -> Result<Option<Wish<'a>>, AllocError>
    ensures wish { IfOk result (IsReported (rows_of (found_of matches.now)) Subcommand.Check) }
    ensures memory { IsErr result → HasList (rows_of (found_of matches.now)) Subcommand.Check }
{
    match names_of(alloc, matches, "file")? {
        Some(files) => Ok(Some(Wish::Check { files })),
        None => Ok(None),
    }
}

/// The name that an option gives.
fn choice_of<'a>(matches: &ArgMatches<'a>, name: &str) -> Option<&'a str>
    ensures { Chooses name.now (rows_of (found_of matches.now)) result }
{
    matches.get_str(name)
}

/// The texts of the option that sets values to be tried.
fn sets_of<'a>(alloc: Global, matches: &ArgMatches<'a>) -> Result<Vec<&'a str>, AllocError>
    ensures texts { IfOk result (λ v. texts_of v.items
        ≡ all_given (all_of (codes "set") (rows_of (found_of matches.now)))) }
    ensures memory { IsErr result → all_of (codes "set") (rows_of (found_of matches.now)) ≢ None }
{
    match names_of(alloc, matches, "set")? {
        Some(sets) => Ok(sets),
        None => Ok(Vec::new(alloc)),
    }
}

/// What the galley that a subcommand's matches ask for is of.
fn source_of<'a>(matches: &ArgMatches<'a>) -> Option<Source<'a>>
    ensures { AreCopied (rows_of (found_of matches.now)) result }
{
    source_by(
        choice_of(matches, "feed"),
        choice_of(matches, "text"),
        number_of(matches, "at"),
        flag_of(matches, "plain"),
    )
}

/// How that galley is written.
fn form_of(matches: &ArgMatches<'_>) -> Option<Form>
    ensures { AreFormed (rows_of (found_of matches.now)) result }
{
    form_by(choice_of(matches, "format"), flag_of(matches, "faults"))
}

/// The galley that a subcommand's matches ask for.
fn galley_of<'a>(matches: &ArgMatches<'a>) -> Option<Galley<'a>>
    ensures { AreGalley (rows_of (found_of matches.now)) result }
{
    let Some(source) = source_of(matches) else {
        return None;
    };
    let Some(form) = form_of(matches) else {
        return None;
    };
    let Some(case) = matches.get_str("case") else {
        return None;
    };
    match matches.get_str("wedge") {
        Some(wedge) => {
            let looks = flag_of(matches, "warn");
            Some(Galley {
                source,
                case,
                wedge,
                form,
                looks,
            })
        }
        None => None,
    }
}

/// The files that this galley is drawn in.
fn drawings_of<'a>(matches: &ArgMatches<'a>) -> Option<Drawings<'a>>
    ensures { AreDrawn (rows_of (found_of matches.now)) result }
{
    let picture = choice_of(matches, "svg");
    let document = choice_of(matches, "html");
    let height = choice_of(matches, "page");
    match page_by(height, picture, document) {
        Some(page) => {
            let force = flag_of(matches, "force");
            Some(Drawings {
                picture,
                document,
                page,
                force,
            })
        }
        None => None,
    }
}

fn proof_wish<'a>(alloc: Global, matches: &ArgMatches<'a>) -> Result<Option<Wish<'a>>, AllocError>
    ensures wish { IfOk result (IsReported (rows_of (found_of matches.now)) Subcommand.Proof) }
    ensures memory { IsErr result → HasList (rows_of (found_of matches.now)) Subcommand.Proof }
{
    let Some(galley) = galley_of(matches) else {
        return Ok(None);
    };
    let Some(drawings) = drawings_of(matches) else {
        return Ok(None);
    };
    let sets = sets_of(alloc, matches)?;
    Ok(Some(Wish::Proof {
        galley,
        drawings,
        sets,
    }))
}

/// How much is written of the ribbon that a subcommand's matches ask for.
fn extent_of(matches: &ArgMatches<'_>) -> Option<Extent>
    ensures { AreShown (rows_of (found_of matches.now)) result }
{
    extent_by(
        choice_of(matches, "lines"),
        flag_of(matches, "stats"),
        choice_of(matches, "pitch"),
    )
}

/// The names of a ribbon, a case and a wedge that a subcommand's matches hold.
fn ribbon_of<'a>(matches: &ArgMatches<'a>) -> Option<Ribbon<'a>>
    ensures { AreRibbon (rows_of (found_of matches.now)) result }
{
    let Some(ribbon) = matches.get_str("ribbon") else {
        return None;
    };
    let Some(case) = matches.get_str("case") else {
        return None;
    };
    match matches.get_str("wedge") {
        Some(wedge) => Some(Ribbon {
            ribbon,
            case,
            wedge,
        }),
        None => None,
    }
}

fn read_wish<'a>(matches: &ArgMatches<'a>) -> Option<Wish<'a>>
    ensures { IsReported (rows_of (found_of matches.now)) Subcommand.Read result }
{
    let Some(from) = ribbon_of(matches) else {
        return None;
    };
    match extent_of(matches) {
        Some(extent) => {
            let picture = choice_of(matches, "svg");
            let force = flag_of(matches, "force");
            Some(Wish::Read {
                from,
                extent,
                picture,
                force,
            })
        }
        None => None,
    }
}

fn sorts_wish<'a>(matches: &ArgMatches<'a>) -> Option<Wish<'a>>
    ensures { IsReported (rows_of (found_of matches.now)) Subcommand.Sorts result }
{
    let Some(feed) = matches.get_str("feed") else {
        return None;
    };
    match matches.get_str("case") {
        Some(case) => {
            let until = number_of(matches, "at");
            let layout = flag_of(matches, "layout");
            Some(Wish::Sorts {
                feed,
                until,
                case,
                layout,
            })
        }
        None => None,
    }
}

fn punch_wish<'a>(alloc: Global, matches: &ArgMatches<'a>) -> Result<Option<Wish<'a>>, AllocError>
    ensures wish { IfOk result (IsReported (rows_of (found_of matches.now)) Subcommand.Punch) }
    ensures memory { IsErr result → HasList (rows_of (found_of matches.now)) Subcommand.Punch }
{
    let Some(case) = matches.get_str("case") else {
        return Ok(None);
    };
    let Some(wedge) = matches.get_str("wedge") else {
        return Ok(None);
    };
    let Some(target) = matches.get_str("output") else {
        return Ok(None);
    };
    match names_of(alloc, matches, "feed")? {
        Some(feeds) => {
            if feeds.is_empty() {
                return Ok(None);
            }
            let force = flag_of(matches, "force");
            let faulty = flag_of(matches, "faulty");
            Ok(Some(Wish::Punch {
                feeds,
                case,
                wedge,
                target,
                force,
                faulty,
            }))
        }
        None => Ok(None),
    }
}

fn renumber_wish<'a>(matches: &ArgMatches<'a>) -> Option<Wish<'a>>
    ensures { IsReported (rows_of (found_of matches.now)) Subcommand.Renumber result }
{
    let Some((feed, site)) = feed_and_site(matches) else {
        return None;
    };
    match matches.get_str("other") {
        Some(other) => Some(Wish::Renumber { feed, other, site }),
        None => None,
    }
}

fn renew_wish<'a>(matches: &ArgMatches<'a>) -> Option<Wish<'a>>
    ensures { IsReported (rows_of (found_of matches.now)) Subcommand.Renew result }
{
    let Some((feed, site)) = feed_and_site(matches) else {
        return None;
    };
    match matches.get_str("new") {
        Some(new) => Some(Wish::Renew { new, feed, site }),
        None => None,
    }
}

fn rooms_wish<'a>(matches: &ArgMatches<'a>) -> Option<Wish<'a>>
    ensures { IsReported (rows_of (found_of matches.now)) Subcommand.Rooms result }
{
    match matches.get_str("feed") {
        Some(feed) => Some(Wish::Rooms { feed }),
        None => None,
    }
}

fn log_wish<'a>(matches: &ArgMatches<'a>) -> Option<Wish<'a>>
    ensures { IsReported (rows_of (found_of matches.now)) Subcommand.Log result }
{
    match matches.get_str("feed") {
        Some(feed) => {
            let site = room_of(matches);
            let since = number_of(matches, "since");
            let text = choice_of(matches, "text");
            Some(Wish::Log {
                feed,
                site,
                since,
                text,
            })
        }
        None => None,
    }
}

/// The names of a case and a wedge, if any; nothing where one alone is there.
fn metal_of<'a>(matches: &ArgMatches<'a>) -> Option<Option<(&'a str, &'a str)>>
    ensures { AreMetal (rows_of (found_of matches.now)) result }
{
    match matches.get_str("case") {
        Some(case) => match matches.get_str("wedge") {
            Some(wedge) => Some(Some((case, wedge))),
            None => None,
        },
        None => match matches.get_str("wedge") {
            Some(_) => None,
            None => Some(None),
        },
    }
}

fn find_wish<'a>(matches: &ArgMatches<'a>) -> Option<Wish<'a>>
    ensures { IsReported (rows_of (found_of matches.now)) Subcommand.Find result }
{
    let Some(feed) = matches.get_str("feed") else {
        return None;
    };
    let Some(text) = matches.get_str("text") else {
        return None;
    };
    match metal_of(matches) {
        Some(metal) => {
            let plain = flag_of(matches, "plain");
            Some(Wish::Find {
                feed,
                text,
                plain,
                metal,
            })
        }
        None => None,
    }
}

/// What the matches of a subcommand hold.
fn reported<'a>(
    alloc: Global,
    subcommand: Subcommand,
    matches: &ArgMatches<'a>,
) -> Result<Option<Wish<'a>>, AllocError>
    ensures wish { IfOk result (IsReported (rows_of (found_of matches.now)) subcommand) }
    ensures memory { IsErr result → HasList (rows_of (found_of matches.now)) subcommand }
{
    match subcommand {
        Subcommand::Script => Ok(Some(Wish::Script {
            manner: manner_of(matches),
        })),
        Subcommand::Desk => Ok(desk_wish(matches)),
        Subcommand::Merge => merge_wish(alloc, matches),
        Subcommand::Diff => Ok(diff_wish(matches)),
        Subcommand::Export => Ok(export_wish(matches)),
        Subcommand::Import => Ok(import_wish(matches)),
        Subcommand::Replace => Ok(replace_wish(matches)),
        Subcommand::Check => check_wish(alloc, matches),
        Subcommand::Proof => proof_wish(alloc, matches),
        Subcommand::Punch => punch_wish(alloc, matches),
        Subcommand::Read => Ok(read_wish(matches)),
        Subcommand::Sorts => Ok(sorts_wish(matches)),
        Subcommand::Renumber => Ok(renumber_wish(matches)),
        Subcommand::Renew => Ok(renew_wish(matches)),
        Subcommand::Rooms => Ok(rooms_wish(matches)),
        Subcommand::Log => Ok(log_wish(matches)),
        Subcommand::Find => Ok(find_wish(matches)),
    }
}

/// What the matches ask for. Out of memory comes only of a subcommand that was given a list: feeds, files, or settings
/// to be tried.
pub fn wish_of<'a>(alloc: Global, matches: &ArgMatches<'a>) -> Result<Option<Wish<'a>>, AllocError>
    ensures wish { IfOk result (IsWished (subcommand_rows_of matches.now)) }
    ensures memory { IsErr result → ListsNames (subcommand_rows_of matches.now) }
{
    let Some((name, inner)) = matches.subcommand() else {
        return Ok(None);
    };
    match subcommand_named(name) {
        Some(subcommand) => reported(alloc, subcommand, inner),
        None => Ok(None),
    }
}
