//! The words of the command line that the program takes.

ghost use Rattle.std.specs.Prelude.{◌≡◌, Some, IfOk, false};
ghost use Rattle.clap.specs.Words.{app_of, new_app, new_rule, rule_of};
ghost use Rattle.clap.specs.declared.builder.command.Command.TheViews.{out-Command};
ghost use Rattle.program_words.specs.Arguments.{read_as, with_all};
ghost use Rattle.program_words.specs.Help.{HasTexts, IsMade, IsShown, version_of};
ghost use Rattle.program_words.specs.Words.{check_app, copydesk, desk_app, diff_app, export_app, find_app, import_app};
ghost use Rattle.program_words.specs.Words.{log_app, merge_app, no_subcommand, proof_app, punch_app, read_app, renew_app};
ghost use Rattle.program_words.specs.Words.{renumber_app, replace_app, rooms_app, script_app, sorts_app, up_to_import};
ghost use Rattle.program_words.specs.Words.{up_to_merge, up_to_proof, up_to_rooms, up_to_sorts, with_version};

use crate::help::{
    ABOUT, CHECK, COMMANDS, DESK, DIFF, EXPORT, FIND, IMPORT, LOG, MERGE, ON_A_FEED, ON_CHECK,
    ON_DIFF, ON_EXPORT, ON_FIND, ON_IMPORT, ON_LOG, ON_MERGE, ON_PROOF, ON_PUNCH, ON_READ,
    ON_RENEW, ON_RENUMBER, ON_REPLACE, ON_ROOMS, ON_SORTS, ON_SUBCOMMANDS, PROOF, PUNCH, READ,
    RENEW, RENUMBER, REPLACE, ROOMS, SCRIPT, SORTS, VERSION,
};
use clap::{Arg, ArgAction, Command, value_parser};
use std::alloc::{AllocError, Global};

/// What stands under the name of an argument.
#[derive(Clone, Copy)]
enum Kind {
    /// One text.
    Text,
    /// One name or more.
    Names,
    /// The number of a site.
    Site,
    /// A flag without a value.
    Flag,
    /// An option with the name of a file.
    File,
    /// The same, by one letter too.
    Target,
    /// An option with the name of a file, which may be left out.
    Choice,
    /// One text, which may be left out.
    Extra,
    /// An option with a counter or a place.
    Number,
    /// An option with the number of a site.
    Room,
    /// An option that may stand more than once.
    Each,
}

/// An argument: its kind, its name and its help.
type Argument = (Kind, &'static str, &'static str);

const FEED: Argument = (
    Kind::Text,
    "feed",
    "The name of the file that the feed is stored in.",
);

const SITE: Argument = (
    Kind::Site,
    "site",
    "The number of the site whose feed it is, from 1 to 65535.",
);

const CASE: Argument = (Kind::File, "case", "The name of the case file.");

const WEDGE: Argument = (Kind::File, "wedge", "The name of the wedge file.");

const FORCE: Argument = (
    Kind::Flag,
    "force",
    "Replaces the file that the output goes to, whatever it is.",
);

const OLDER: Argument = (
    Kind::Flag,
    "older",
    "Goes on with a feed that is older than what this room stored there.",
);

const AT: Argument = (
    Kind::Number,
    "at",
    "Takes the feed as it was: its operations with a counter up to this one.",
);

const STRICT: Argument = (
    Kind::Flag,
    "strict",
    "Ends at the first line that is refused; empty lines and lines that begin with # are passed over.",
);

const NUMBER: Argument = (
    Kind::Flag,
    "number",
    "Writes the number of its line before each answer.",
);

/// The argument with this help, in which it is shown.
fn with_help<'a>(arg: Arg<'a>, help: &'a str) -> Arg<'a>
    ensures rule { rule_of result ≡ rule_of arg.entry }
    ensures local { result.global ≡ arg.entry.global }
    ensures help { IsShown result help.now }
    ensures only { result
        ≡ record arg.entry { help = result.help; hide = false; hide_short_help = false; hide_long_help = false } }
{
    arg.help(help)
        .hide(false)
        .hide_short_help(false)
        .hide_long_help(false)
}

/// The argument with what its kind sets.
fn with_kind<'a>(arg: Arg<'a>, kind: Kind, name: &'a str) -> Arg<'a>
    requires { rule_of arg ≡ new_rule name.now }
    ensures rule { rule_of result ≡ read_as kind name.now }
    ensures local { result.global ≡ arg.entry.global }
{
    match kind {
        Kind::Text => arg.required(true),
        Kind::Names => arg.required(true).action(ArgAction::Append),
        Kind::Site => arg
            .long(name)
            .required(true)
            .value_parser(value_parser!(u16).range(1..)),
        Kind::Flag => arg.long(name).action(ArgAction::SetTrue),
        Kind::File => arg.long(name).required(true),
        Kind::Target => arg.long(name).short('o').required(true),
        Kind::Choice => arg.long(name),
        Kind::Extra => arg,
        Kind::Number => arg.long(name).value_parser(value_parser!(u64)),
        Kind::Room => arg.long(name).value_parser(value_parser!(u16).range(1..)),
        Kind::Each => arg.long(name).action(ArgAction::Append),
    }
}

fn argument<'a>(alloc: Global, of: Argument) -> Arg<'a>
    ensures rule { rule_of result ≡ read_as of.entry.0 of.entry.1.now }
    ensures local { result.global ≡ false }
    ensures help { IsShown result of.entry.2.now }
{
    let (kind, name, help) = of;
    with_help(with_kind(Arg::new(alloc, name), kind, name), help)
}

/// The command with these arguments.
fn with_arguments<'a>(
    alloc: Global,
    bare: Command<'a>,
    arguments: &[Argument],
) -> Result<Command<'a>, AllocError>
    ensures app { IfOk result (λ c. app_of c ≡ with_all (app_of bare.entry) arguments.now) }
    ensures local { IfOk result (λ c. (out-Command c).has_globals ≡ (out-Command bare.entry).has_globals) }
{
    let mut command = bare;
    for &of in arguments {
        command = command.arg(argument(alloc, of))?;
    }
    Ok(command)
}

/// The command with its texts: in one line, and below its help.
fn with_texts<'a>(command: Command<'a>, about: &'a str, help: &'a str) -> Command<'a>
    ensures app { app_of result ≡ app_of command.entry }
    ensures local { (out-Command result).has_globals ≡ (out-Command command.entry).has_globals }
    ensures texts { HasTexts result about.now help.now }
    ensures only { out-Command result
        ≡ record (out-Command command.entry)
        { about = (out-Command result).about; after_help = (out-Command result).after_help } }
{
    command.about(about).after_help(help)
}

/// A subcommand with its name, its arguments and its texts.
fn subcommand<'a>(
    alloc: Global,
    name: &'a str,
    arguments: &[Argument],
    above: &'a str,
    below: &'a str,
) -> Result<Command<'a>, AllocError>
    ensures { IfOk result (IsMade (with_all (new_app name.now) arguments.now) above.now below.now) }
{
    let command = with_arguments(alloc, Command::new(alloc, name), arguments)?;
    Ok(with_texts(command, above, below))
}

fn script_command<'a>(alloc: Global) -> Result<Command<'a>, AllocError>
    ensures { IfOk result (IsMade script_app SCRIPT.now COMMANDS.now) }
{
    let arguments = [STRICT, NUMBER];
    subcommand(alloc, "script", &arguments, SCRIPT, COMMANDS)
}

fn desk_command<'a>(alloc: Global) -> Result<Command<'a>, AllocError>
    ensures { IfOk result (IsMade desk_app DESK.now ON_A_FEED.now) }
{
    let arguments = [
        FEED,
        SITE,
        OLDER,
        (
            Kind::Flag,
            "why",
            "Says in a second line why a run stopped.",
        ),
        STRICT,
        NUMBER,
    ];
    subcommand(alloc, "desk", &arguments, DESK, ON_A_FEED)
}

fn merge_command<'a>(alloc: Global) -> Result<Command<'a>, AllocError>
    ensures { IfOk result (IsMade merge_app MERGE.now ON_MERGE.now) }
{
    let arguments = [
        FEED,
        (
            Kind::Names,
            "other",
            "The names of the files whose feeds are merged into it, in this order.",
        ),
        (
            Kind::Flag,
            "forks",
            "Merges feeds in which one number was used twice too.",
        ),
        (
            Kind::Flag,
            "review",
            "Ends with status 1 where words are open that a person must look at.",
        ),
    ];
    subcommand(alloc, "merge", &arguments, MERGE, ON_MERGE)
}

fn diff_command<'a>(alloc: Global) -> Result<Command<'a>, AllocError>
    ensures { IfOk result (IsMade diff_app DIFF.now ON_DIFF.now) }
{
    let arguments = [
        FEED,
        (
            Kind::Extra,
            "other",
            "The name of the other feed's file, or ribbon's; with --at the same feed, if left out.",
        ),
        AT,
        (
            Kind::Choice,
            "case",
            "The name of the case file, for two ribbons.",
        ),
        (
            Kind::Choice,
            "wedge",
            "The name of the wedge file, for two ribbons.",
        ),
    ];
    subcommand(alloc, "diff", &arguments, DIFF, ON_DIFF)
}

fn export_command<'a>(alloc: Global) -> Result<Command<'a>, AllocError>
    ensures { IfOk result (IsMade export_app EXPORT.now ON_EXPORT.now) }
{
    let arguments = [FEED, AT];
    subcommand(alloc, "export", &arguments, EXPORT, ON_EXPORT)
}

fn rooms_command<'a>(alloc: Global) -> Result<Command<'a>, AllocError>
    ensures { IfOk result (IsMade rooms_app ROOMS.now ON_ROOMS.now) }
{
    let arguments = [FEED];
    subcommand(alloc, "rooms", &arguments, ROOMS, ON_ROOMS)
}

fn log_command<'a>(alloc: Global) -> Result<Command<'a>, AllocError>
    ensures { IfOk result (IsMade log_app LOG.now ON_LOG.now) }
{
    let arguments = [
        FEED,
        (
            Kind::Extra,
            "text",
            "The text that a correction inserted or deleted, with marks.",
        ),
        (
            Kind::Room,
            "site",
            "Lists the corrections of this site alone.",
        ),
        (
            Kind::Number,
            "since",
            "Lists the corrections that end at this counter or later.",
        ),
    ];
    subcommand(alloc, "log", &arguments, LOG, ON_LOG)
}

fn find_command<'a>(alloc: Global) -> Result<Command<'a>, AllocError>
    ensures { IfOk result (IsMade find_app FIND.now ON_FIND.now) }
{
    let arguments = [
        FEED,
        (
            Kind::Text,
            "text",
            "The text that stands in the copy, with marks.",
        ),
        (
            Kind::Flag,
            "plain",
            "Takes every character of the text as Roman: it has no marks.",
        ),
        (
            Kind::Choice,
            "case",
            "The name of the case file, for the line of a place.",
        ),
        (
            Kind::Choice,
            "wedge",
            "The name of the wedge file, for the line of a place.",
        ),
    ];
    subcommand(alloc, "find", &arguments, FIND, ON_FIND)
}

fn import_command<'a>(alloc: Global) -> Result<Command<'a>, AllocError>
    ensures { IfOk result (IsMade import_app IMPORT.now ON_IMPORT.now) }
{
    let arguments = [
        FEED,
        SITE,
        OLDER,
        (
            Kind::Flag,
            "plain",
            "Takes every character as Roman: the text has no marks.",
        ),
        (
            Kind::Flag,
            "all",
            "Imports a text that deletes most of the copy too.",
        ),
    ];
    subcommand(alloc, "import", &arguments, IMPORT, ON_IMPORT)
}

fn replace_command<'a>(alloc: Global) -> Result<Command<'a>, AllocError>
    ensures { IfOk result (IsMade replace_app REPLACE.now ON_REPLACE.now) }
{
    let arguments = [
        FEED,
        SITE,
        OLDER,
        (
            Kind::Flag,
            "plain",
            "Takes every character of both texts as Roman: they have no marks.",
        ),
        (
            Kind::Text,
            "old",
            "The text that stands in the copy, with marks.",
        ),
        (
            Kind::Text,
            "new",
            "The text that takes its place, with marks.",
        ),
        (
            Kind::Number,
            "at",
            "Exchanges the text at this place alone.",
        ),
        (Kind::Flag, "all", "Exchanges the text at each place."),
    ];
    subcommand(alloc, "replace", &arguments, REPLACE, ON_REPLACE)
}

fn check_command<'a>(alloc: Global) -> Result<Command<'a>, AllocError>
    ensures { IfOk result (IsMade check_app CHECK.now ON_CHECK.now) }
{
    let arguments = [(
        Kind::Names,
        "file",
        "The names of feeds, ribbons, cases and wedges.",
    )];
    subcommand(alloc, "check", &arguments, CHECK, ON_CHECK)
}

fn proof_command<'a>(alloc: Global) -> Result<Command<'a>, AllocError>
    ensures { IfOk result (IsMade proof_app PROOF.now ON_PROOF.now) }
{
    let arguments = [
        (
            Kind::Extra,
            "feed",
            "The name of the file that the feed is stored in.",
        ),
        CASE,
        WEDGE,
        (
            Kind::Choice,
            "text",
            "Sets the text of this file, in place of a feed's copy.",
        ),
        (
            Kind::Flag,
            "plain",
            "Takes every character of that text as Roman: it has no marks.",
        ),
        (Kind::Flag, "faults", "Writes the faults alone."),
        (
            Kind::Choice,
            "format",
            "With gcc writes each fault on one line with its place in the text, for editors.",
        ),
        (
            Kind::Flag,
            "warn",
            "Writes what may deserve a second look too.",
        ),
        (
            Kind::Choice,
            "svg",
            "Stores a picture of the galley in this file too.",
        ),
        (
            Kind::Choice,
            "html",
            "Stores the galley as a document with pages in this file too.",
        ),
        (
            Kind::Choice,
            "page",
            "How high a page of the picture or the document is: a4, letter, or so many points.",
        ),
        FORCE,
        (
            Kind::Each,
            "set",
            "Tries a setting, as loose=200, in place of the copy's; nothing is stored.",
        ),
        AT,
    ];
    subcommand(alloc, "proof", &arguments, PROOF, ON_PROOF)
}

fn punch_command<'a>(alloc: Global) -> Result<Command<'a>, AllocError>
    ensures { IfOk result (IsMade punch_app PUNCH.now ON_PUNCH.now) }
{
    let arguments = [
        (
            Kind::Names,
            "feed",
            "The names of the files that the feeds are stored in, in the order of their galleys.",
        ),
        CASE,
        WEDGE,
        (
            Kind::Target,
            "output",
            "The name of the file that the ribbon is stored in.",
        ),
        FORCE,
        (
            Kind::Flag,
            "faulty",
            "Punches a copy of which a correction is not shown too.",
        ),
    ];
    subcommand(alloc, "punch", &arguments, PUNCH, ON_PUNCH)
}

fn read_command<'a>(alloc: Global) -> Result<Command<'a>, AllocError>
    ensures { IfOk result (IsMade read_app READ.now ON_READ.now) }
{
    let arguments = [
        (
            Kind::Text,
            "ribbon",
            "The name of the file that the ribbon is stored in.",
        ),
        CASE,
        WEDGE,
        (Kind::Choice, "lines", "Takes these lines alone, as 2..4."),
        (
            Kind::Flag,
            "stats",
            "Writes figures of the whole ribbon in place of its lines.",
        ),
        (
            Kind::Choice,
            "pitch",
            "With --stats: the way of a row in inches, as 1/8.",
        ),
        (
            Kind::Choice,
            "svg",
            "Stores a picture of the ribbon in this file too.",
        ),
        FORCE,
    ];
    subcommand(alloc, "read", &arguments, READ, ON_READ)
}

fn sorts_command<'a>(alloc: Global) -> Result<Command<'a>, AllocError>
    ensures { IfOk result (IsMade sorts_app SORTS.now ON_SORTS.now) }
{
    let arguments = [
        FEED,
        CASE,
        (Kind::Flag, "layout", "Writes the layout of the case too."),
        AT,
    ];
    subcommand(alloc, "sorts", &arguments, SORTS, ON_SORTS)
}

fn renumber_command<'a>(alloc: Global) -> Result<Command<'a>, AllocError>
    ensures { IfOk result (IsMade renumber_app RENUMBER.now ON_RENUMBER.now) }
{
    let arguments = [
        FEED,
        (
            Kind::Text,
            "other",
            "The name of the file of a feed that bears the same number.",
        ),
        SITE,
    ];
    subcommand(alloc, "renumber", &arguments, RENUMBER, ON_RENUMBER)
}

fn renew_command<'a>(alloc: Global) -> Result<Command<'a>, AllocError>
    ensures { IfOk result (IsMade renew_app RENEW.now ON_RENEW.now) }
{
    let arguments = [
        (Kind::Text, "new", "The name of the new feed's file."),
        FEED,
        SITE,
    ];
    subcommand(alloc, "renew", &arguments, RENEW, ON_RENEW)
}

/// The program's command without its subcommands.
fn bare_command<'a>(alloc: Global) -> Result<Command<'a>, AllocError>
    ensures { IfOk result (λ c. app_of c ≡ no_subcommand) }
{
    Command::new(alloc, "copydesk")
        .no_binary_name(true)
        .subcommand_required(true)
        .bin_name("copydesk")
}

/// The program's command with its version and its texts.
fn with_version<'a>(command: Command<'a>) -> Command<'a>
    ensures app { app_of result ≡ with_version (app_of command.entry) }
    ensures version { version_of result ≡ Some VERSION.now }
    ensures texts { HasTexts result ABOUT.now ON_SUBCOMMANDS.now }
    ensures only { out-Command result
        ≡ record (out-Command command.entry) {
          about = (out-Command result).about;
          after_help = (out-Command result).after_help;
          version =
              (out-Command result).version;
        } }
{
    with_texts(command, ABOUT, ON_SUBCOMMANDS).version(VERSION)
}

/// The program's command with its first subcommands, up to `merge`.
fn up_to_merge<'a>(alloc: Global) -> Result<Command<'a>, AllocError>
    ensures { IfOk result (λ c. app_of c ≡ up_to_merge) }
{
    let script = script_command(alloc)?;
    let with_script = bare_command(alloc)?.subcommand(script)?;
    let desk = desk_command(alloc)?;
    let with_desk = with_script.subcommand(desk)?;
    let merge = merge_command(alloc)?;
    with_desk.subcommand(merge)
}

/// With those up to `import`.
fn up_to_import<'a>(alloc: Global) -> Result<Command<'a>, AllocError>
    ensures { IfOk result (λ c. app_of c ≡ up_to_import) }
{
    let first = up_to_merge(alloc)?;
    let diff = diff_command(alloc)?;
    let with_diff = first.subcommand(diff)?;
    let export = export_command(alloc)?;
    let with_export = with_diff.subcommand(export)?;
    let import = import_command(alloc)?;
    with_export.subcommand(import)
}

/// With those up to `proof`.
fn up_to_proof<'a>(alloc: Global) -> Result<Command<'a>, AllocError>
    ensures { IfOk result (λ c. app_of c ≡ up_to_proof) }
{
    let first = up_to_import(alloc)?;
    let replace = replace_command(alloc)?;
    let with_replace = first.subcommand(replace)?;
    let check = check_command(alloc)?;
    let with_check = with_replace.subcommand(check)?;
    let proof = proof_command(alloc)?;
    with_check.subcommand(proof)
}

/// With those up to `sorts`.
fn up_to_sorts<'a>(alloc: Global) -> Result<Command<'a>, AllocError>
    ensures { IfOk result (λ c. app_of c ≡ up_to_sorts) }
{
    let first = up_to_proof(alloc)?;
    let punch = punch_command(alloc)?;
    let with_punch = first.subcommand(punch)?;
    let read = read_command(alloc)?;
    let with_read = with_punch.subcommand(read)?;
    let sorts = sorts_command(alloc)?;
    with_read.subcommand(sorts)
}

/// With those up to `rooms`.
fn up_to_rooms<'a>(alloc: Global) -> Result<Command<'a>, AllocError>
    ensures { IfOk result (λ c. app_of c ≡ up_to_rooms) }
{
    let first = up_to_sorts(alloc)?;
    let renumber = renumber_command(alloc)?;
    let with_renumber = first.subcommand(renumber)?;
    let renew = renew_command(alloc)?;
    let with_renew = with_renumber.subcommand(renew)?;
    let rooms = rooms_command(alloc)?;
    with_renew.subcommand(rooms)
}

/// The program's command, with its subcommands.
pub fn command<'a>(alloc: Global) -> Result<Command<'a>, AllocError>
    ensures app { IfOk result (λ c. app_of c ≡ copydesk) }
    ensures version { IfOk result (λ c. version_of c ≡ Some VERSION.now) }
    ensures texts { IfOk result (λ c. HasTexts c ABOUT.now ON_SUBCOMMANDS.now) }
{
    let first = up_to_rooms(alloc)?;
    let log = log_command(alloc)?;
    let with_log = first.subcommand(log)?;
    let find = find_command(alloc)?;
    let with_find = with_log.subcommand(find)?;
    Ok(with_version(with_find))
}
