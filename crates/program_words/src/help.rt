//! What the help says.

/// The version of the program.
pub const VERSION: &str = "0.2.0";

/// What the program is.
pub const ABOUT: &str = "A copy desk for Monotype composition.";

/// What each subcommand does, in one line.
pub const SCRIPT: &str = "Runs commands from standard input to standard output.";

pub const DESK: &str = "Runs commands from standard input to standard output on a stored feed.";

pub const MERGE: &str = "Merges the feeds of other files into a stored feed.";

pub const DIFF: &str =
    "Says what each of two stored feeds has alone, and which words differ; or which lines of two ribbons.";

pub const EXPORT: &str = "Writes the copy of a stored feed to standard output as text.";

pub const IMPORT: &str = "Makes the copy of a stored feed the text of standard input.";

pub const REPLACE: &str =
    "Makes a text of the copy of a stored feed another, where it stands once, at a place, or everywhere.";

pub const CHECK: &str = "Says of files what they are, and what is wrong in them.";

pub const ROOMS: &str = "Lists the sites of a stored feed, and what each made.";

pub const LOG: &str = "Lists the corrections of a stored feed, newest last.";

pub const FIND: &str = "Lists the places of a text in the copy of a stored feed.";

pub const RENUMBER: &str = "Gives another number to what another feed has made under the same.";

pub const RENEW: &str = "Begins a new feed with the copy and the settings of a stored feed.";

pub const PROOF: &str =
    "Writes the galley of a stored feed or of a text, and each fault at its text.";

pub const PUNCH: &str = "Stores the ribbon of one or more stored feeds in a file.";

pub const READ: &str = "Writes what a caster would cast of a stored ribbon.";

pub const SORTS: &str =
    "Writes which sorts the copy of a stored feed wants, and which the case lacks.";

/// What the subcommands are for.
pub const ON_SUBCOMMANDS: &str = "\
As in:
  copydesk script < letter.script           commands, and an answer to each
  copydesk desk one.feed --site 1           the same, on a stored feed
  copydesk desk one.feed --site 1 --strict < sheet.txt
                                            all of a sheet of commands, or nothing of it
  copydesk merge one.feed two.feed          takes what the feed of another site holds
  copydesk renumber one.feed two.feed --site 9
                                            another number for what both rooms made under one
  copydesk diff one.feed two.feed           what each has alone
  copydesk diff one.rib two.rib --case case12.toml --wedge wedge5.toml
                                            the lines that the two cast otherwise
  copydesk export one.feed > one.txt        the copy as text
  copydesk export one.feed --at 774         the copy as it was once counter 774 was made
  copydesk import one.feed --site 1 < one.txt
                                            makes that text the copy
  copydesk replace one.feed --site 1 Tuesday Thursday
                                            one text for another, where it stands once
  copydesk renew new.feed one.feed --site 1 a new feed with that copy and its settings
  copydesk rooms one.feed                   the sites, and what each made
  copydesk log one.feed --site 1            the corrections of a site, newest last
  copydesk find one.feed Tuesday            the places of a text
  copydesk check one.feed case12.toml wedge5.toml one.rib
                                            what files are, and what is wrong in them
  copydesk proof one.feed --case case12.toml --wedge wedge5.toml
                                            its lines as they are cast, and each fault at its text
  copydesk proof --text one.txt --case case12.toml --wedge wedge5.toml --set measure=150 --set tight=40 --set loose=150
                                            the same, of a text
  copydesk proof one.feed --case case12.toml --wedge wedge5.toml --html one.html
                                            the same, as a document to be read and printed too
  copydesk punch one.feed --case case12.toml --wedge wedge5.toml -o one.rib
                                            the ribbon, in a file
  copydesk read one.rib --case case12.toml --wedge wedge5.toml
                                            what a caster would cast of a ribbon
  copydesk sorts one.feed --case case12.toml
                                            the sorts that the copy wants, and those that are missing

The file copydesk.toml in the current folder gives what is required and not typed, and settings to be tried:
  site = 1
  case = \"case12.toml\"
  wedge = \"wedge5.toml\"
  [set]
  measure = 150
`copydesk check copydesk.toml` says what it gives. `renumber` takes no number from it.

Status: 0 done; 1 it stopped, with a line on standard error; 2 the words were refused.
`copydesk SUBCOMMAND --help` says more; `copydesk script --help` lists the commands.";

/// What the commands of a script are.
pub const COMMANDS: &str = "\
As in: copydesk script < commands

Each line is a command, and each has one line in answer:
  site S                    begins site S, from 1 to 65535
  insert S I SYMBOLS        inserts at place I, counted from 0: insert 1 0 r\"of\" r\" \" i\"the\"
  delete S I                deletes the symbol at place I
  set S KEY VALUE           sets measure, tight, loose, case or wedge
  send A B, send A B F..T   gives B the operations of A, or those from F to T - 1, in order
  take S HEX                gives S the operations of a feed
  merge A B                 gives A all that B holds
  restart S                 opens S anew from its operations
  show S, faults S, settings S, feed S
                            the copy, its faults, the settings, the feed in hex
  ribbon S CASE WEDGE       the ribbon of the copy, in hex, by the two files
  cast S CASE WEDGE         the lines that the ribbon casts

A line that cannot be carried out is answered `refused` or `stopped`, and the run goes on. With `--strict` it ends
there: `copydesk: line 226 refused`, status 1. With `--strict` or `--number` the commands are read to their end
first, and the answers written together.";

/// What a run on a feed is.
pub const ON_A_FEED: &str = "\
As in: copydesk desk one.feed --site 1 < commands

The feed is stored once all commands were answered: an `ok` stands when the run has ended with status 0.
At a terminal it prompts for each command: `help` lists them, Ctrl-D ends them, and a last line says whether the feed is
stored.
While a run has a feed, no other can have it. FEED.lock, beside it, is the sign of that, and stays.
A number belongs to one feed: go on with a copied or restored feed under a new number. FEED.last, beside it, has the
last counter that each site stored there: a feed that holds less is refused, unless `--older` is given.
With `--strict` a sheet of commands is stored as a whole or not at all: the first line that is refused ends the run,
its number stands on standard error, and the feed is as it was.

Status: 0 done; 1 the run stopped, with one line on standard error; 2 the words were refused.
`copydesk script --help` lists the commands.";

/// What a merge is.
pub const ON_MERGE: &str = "\
As in: copydesk merge one.feed two.feed three.feed

The feed then holds what it held and what the others hold; a missing one is made. Each of the others has a
line, `two.feed ok new 45 known 29857`, and at the end stand the faults of the copy, or `faults none`.
The others do not change. Merging twice, or in another order, gives the same feed.
Where two rooms made corrections under one number the merge is refused, and standard error has their counters:
`copydesk renumber` mends that. With `--forks` they are merged, and neither of the two corrections is shown.
Where both rooms changed a word, or a change is not shown as its room made it, the words stand below the line of
that feed, `open at 33`: as they are now, as they were here and there, and as they were in both. Look at them, and
settle them by `copydesk replace`.

Status: 0 the feed is stored; 1 it is not, and nothing has changed: a second line on standard error names
the file and the cause; or, with `--review`, it is stored and words are open; 2 the words were refused.";

/// What a renumbering is.
pub const ON_RENUMBER: &str = "\
As in: copydesk renumber one.feed two.feed --site 9

Where a feed was copied, or an old one restored, two rooms may make corrections under one number, and a merge is
refused. What one.feed has made since then under that number gets the number 9, which no feed may bear yet: the
merge then keeps both. The answer is `ok renumbered 17`; where the copy reads otherwise the words stand below, as
`copydesk diff` writes them. Go on in that room as site 9.

Status: 0 the feed is stored; 1 it is not, and nothing has changed: standard error says why; 2 the words were refused.";

/// What a renewal is.
pub const ON_RENEW: &str = "\
As in: copydesk renew new.feed one.feed --site 1

The new feed has the copy and the settings of one.feed as they stand, all made by site 1: no fault of the copy, no
deleted symbol and no old number. The answer is `ok renewed 28746`, the symbols of the copy. No file may stand under
the name of the new feed. Merge no old feed into it: the copy would stand there twice.

Status: 0 the new feed is stored; 1 it is not, and nothing has changed: standard error says why; 2 the words were
refused.";

/// What a difference is.
pub const ON_DIFF: &str = "\
As in: copydesk diff one.feed two.feed

First stand the stamps of what each feed has alone, by site and counters: `one.feed alone 1: 20..25 31, 3: 7`. Then
each stretch of words that differ, with its place in the one copy and in the other: `- 12 the quick` and
`+ 12 the slow`. Last stand the words that a merge of the two would leave open, as `copydesk merge` writes them.
Nothing changes. With `--at 774` the first is the feed as it was: its operations with a counter up to 774. Without
TWO it is compared with the same feed as it is now.
With `--case` and `--wedge` the two are ribbons. Their lines are compared in turn by what a caster casts, and those that
differ follow, as `copydesk read` writes them: `-` of the first ribbon, `+` of the second.

Status: 0 the two hold the same; 1 they do not, or a file cannot be read, or the text not be written, and then
standard error says why; 2 the words were refused.";

/// What the rooms are.
pub const ON_ROOMS: &str = "\
As in: copydesk rooms one.feed

Each site has a line: its first and last stamp, its inserts, deletes and settings, its symbols in the copy, and the
faults of its operations. `with gaps` follows where counters between the two are not its own. The last line has the
sums. Nothing changes.

Status: 0 done; 1 the feed cannot be read, or the text not be written; 2 the words were refused.";

/// What a log is.
pub const ON_LOG: &str = "\
As in: copydesk log one.feed --site 1 --since 700 Tuesday

A correction is a row of operations of one site whose counters follow one another. Each has a line, newest last: its
stamps, its place in the copy, what it inserted and deleted, the settings, and its faults. `--site` lists those of one
site, `--since` those that end at this counter or later, TEXT those that inserted or deleted this text, with the marks
of `copydesk export`. Nothing changes.

Status: 0 done; 1 the feed cannot be read, or the text not be written; 2 the words were refused.";

/// What a search is.
pub const ON_FIND: &str = "\
As in: copydesk find one.feed Tuesday --case case12.toml --wedge wedge5.toml

Each place of the text, with the marks of `copydesk export`, has a line with the words around:
`place 17, line 2: sent out on Tuesday by the`. With `--plain` the text has no marks. The line of the galley is there
only with `--case` and `--wedge`. Nothing changes. A TEXT that begins with `-` comes after `--`.

Status: 0 the text is there; 1 it is not, or the feed cannot be read, or the text not be written, and then standard
error says why; 2 the words were refused.";

/// What an export is.
pub const ON_EXPORT: &str = "\
As in: copydesk export one.feed > one.txt

The text is UTF-8. Italic stands as _italic_, small capitals as ^small capitals^; a backslash stands before
`_`, `^` and `\\` where they are symbols of the copy. The feed is not taken and does not change. With `--at 774` it is
the copy as it was: of the operations with a counter up to 774, of every site.

Status: 0 done; 1 the feed cannot be read, or the text not be written; 2 the words were refused.";

/// What an import is.
pub const ON_IMPORT: &str = "\
As in: copydesk import one.feed --site 1 < one.txt

The copy is made that text, with the marks of `copydesk export`, by few deletes and inserts: what other
sites have changed elsewhere is kept when the feeds are merged. The answer is `ok inserted 12 deleted 7`.
A missing feed is made. A carriage return before a line feed is dropped.
A text that is empty, or that deletes more than half of a copy of 200 symbols or more, is refused: `--all` takes it.

Status: 0 the feed is stored; 1 it is not, and nothing has changed: standard error has the cause, of a text
that is refused by line and column; 2 the words were refused.";

/// What a replacement is.
pub const ON_REPLACE: &str = "\
As in: copydesk replace one.feed --site 1 'on Tuesday' 'on _Thursday_'

Both are texts with the marks of `copydesk export`. Where OLD stands once in the copy NEW takes its place, and the
answer is `ok inserted 8 deleted 2`. Where it stands nowhere, or more than once, nothing is done, and its places stand
on standard output with what is around them: `place 17: sent out on Tuesday by the`.
With `--at 17` the text at this place alone is exchanged, with `--all` that at each place, from the left.
An OLD or a NEW that begins with `-` comes after `--`.

Status: 0 the feed is stored; 1 it is not, and nothing has changed: standard error says why; 2 the words were refused.";

/// What a check is.
pub const ON_CHECK: &str = "\
As in: copydesk check one.feed case12.toml wedge5.toml one.rib

Each file is known by its content as a feed, a ribbon, a case or a wedge, and has a line: what is in it, or its
first fault with its place. Nothing changes.

Status: 0 all files are in order; 1 one is not, or a line was not written, and standard error says why; 2 the words
were refused.";

/// What a proof is.
pub const ON_PROOF: &str = "\
As in: copydesk proof one.feed --case case12.toml --wedge wedge5.toml

First stand the faults of the copy: each is a correction that is not shown. Then each line has its number, its
places in the copy, its wedge pair with a gauge between tight and loose, its words, and its fills; at the end each
fault stands at its text, with the way out in figures. With `--faults` the faults stand alone.
`--svg one.svg` stores a picture of the galley too, for any browser. It replaces only a picture or an empty file:
`--force` replaces any.
`--html one.html` stores a document too, for any browser, to be read and printed: a table of the lines at fault,
with links to them, and the lines on pages. It replaces only a document or an empty file. `--page letter` says how
high a page is: `a4`, `letter`, or so many points, 200 to 14400. A document without it has pages of `a4`; a picture
with it is in pages, and of more than one each has a file: `one.1.svg`, `one.2.svg` and so on.
`--set loose=200` tries a setting in place of the copy's, and may stand more than once. With `--at 774` it is the
galley of the copy as it was. The feed does not change.
`--text one.txt` sets the text of a file, with the marks of `copydesk export`: `--set` gives its measure, tight and
loose. With `--plain` it has no marks. `--format gcc` writes each fault on one line for editors, `one.txt:12:40: too
loose (wedge sum 190, limit 150)`, with line and column of the text, or of what `copydesk export` writes. `--warn`
adds second looks, which are no faults: a hyphen inside a line, two spaces, a space before a point or a comma, a
straight quote, a word repeated, three lines that end alike.

Status: 0 no fault stands; 1 a fault stands, or the proof was not written, and standard error says so; 2 the
words were refused.";

/// What a punch is.
pub const ON_PUNCH: &str = "\
As in: copydesk punch one.feed --case case12.toml --wedge wedge5.toml -o one.rib

The ribbon of the feed's copy is stored as a feed is: written whole beside the name, and then renamed. Where the job
has faults nothing is stored, and they stand in one line on standard output; `copydesk proof` shows them at their
text. So where the copy has faults: a correction is not shown then. `--faulty` punches all the same.
Of several feeds, as in `copydesk punch one.feed two.feed ..`, one ribbon has the galleys: one after the other, each
by its own settings. Where one of them has faults, or is not there, nothing is stored.
The ribbon replaces only a ribbon or an empty file: `--force` replaces any, but the feeds, the case and the wedge.

Status: 0 the ribbon is stored; 1 it is not, and standard error says why; 2 the words were refused.";

/// What a reading is.
pub const ON_READ: &str = "\
As in: copydesk read one.rib --case case12.toml --wedge wedge5.toml

Each line that a caster would cast has its number, its wedge pair, its width, how short of the longest it is, and
its text as read; or the first fault stands there with its row.
Where a ribbon has several galleys, `-- end of galley 1 --` stands behind the last line of the first, and so on.
`--lines 2..4` takes these lines alone. `--stats` writes figures in place of lines: the widest and the tightest
line, how long the ribbon is, its matrices by the rows of the case. A row takes 1/8 inch, or the `--pitch` that is
given. `--svg one.svg` stores a picture of the ribbon too: its rows as the caster meets them, with the meaning of
each. It replaces only a picture or an empty file: `--force` replaces any.

Status: 0 the ribbon is cast whole; 1 it has a fault, or a file cannot be read, or the text not be written, and standard
error says so; 2 the words were refused.";

/// What the sorts are.
pub const ON_SORTS: &str = "\
As in: copydesk sorts one.feed --case case12.toml

Each symbol of the copy has its cell in the case and how often it is wanted; those that the case lacks stand first,
with their places. With `--layout` the case stands below as a table, with `--at 774` the copy is as it was. Nothing
changes.

Status: 0 the case has every sort; 1 a sort is missing, or a file cannot be read, or the text not be written, and
standard error says so; 2 the words were refused.";
