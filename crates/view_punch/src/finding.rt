//! The places of a text in the copy of a stored feed, each with its line of the galley.

ghost use Rattle.std.specs.Prelude.{◌≡◌, ◌++◌, ◌==◌, ℕ, List, [], IfErr, IfOk, OnOk, None, Some, codes, string_bytes};
ghost use Rattle.std.specs.List.{flat_map};
ghost use Rattle.std.specs.Fmt.{decimal};
ghost use Rattle.desk_ops.specs.Lists.{RiseFrom};
ghost use Rattle.desk_ops.specs.Shown.{copy_of};
ghost use Rattle.feed_files.specs.Files.{Stays};
ghost use Rattle.view_punch.specs.Finding.{HasLines, IsFound, IsFoundIn, IsSearchless, IsUnfound, begins_of, begun};
ghost use Rattle.view_punch.specs.Finding.{found_text, is_found, line_of, line_text, numbered, place_text};
ghost use Rattle.view_proof.specs.Proof.{no_galley_text};

use desk_blocks::Blocks;
use desk_memory::NoMemory;
use desk_ops::Symbol;
use desk_replica::Replica;
use feed_edit::{Version, open_feed};
use feed_files::Files;
use feed_stored::write_out;
use script_answers::Memory;
use std::alloc::{AllocError, Allocator};
use std::io::Write;
use text_copy::{places_of, read_text, reported_places};
use view_galley::Line;
use view_preview::{Job, Matter, PreviewFault, Source, SourcesFault, Unset, no_trial, take_job};
use view_proof::{NoGalley, begin_of, put_no_galley};

/// What is looked for: a text, with marks for its styles or plain. The names of a case and a wedge are given where the
/// line of each place is wanted.
#[derive(Clone, Copy)]
pub struct Wanted<'a> {
    pub text: &'a str,
    pub plain: bool,
    pub metal: Option<(&'a str, &'a str)>,
}

// ---- a line for each place

/// The beginning of the line for a place.
fn head<A: Allocator + Copy>(alloc: A, place: usize) -> Result<String<A>, AllocError>
    ensures { IfOk result (λ s. string_bytes s ≡ codes "place " ++ decimal place) }
{
    format!(in alloc; "place {place}")
}

/// The part of it that says in which line of the galley the place is.
fn part<A: Allocator + Copy>(alloc: A, line: usize) -> Result<String<A>, AllocError>
    ensures { IfOk result (λ s. string_bytes s ≡ codes ", line " ++ decimal line) }
{
    format!(in alloc; ", line {line}")
}

/// Writes in which line of the galley a place is at the end, if it is in one.
fn put_line<A: Allocator + Copy>(
    alloc: A,
    out: &mut Vec<u8, A>,
    line: Option<usize>,
) -> Result<(), NoMemory>
    ensures { OnOk result (out.new.items ≡ out.old.items ++ line_text line) }
{
    if let Some(line) = line {
        let part = part(alloc, line)?;
        out.extend_from_slice(part.as_bytes())?;
    }
    Ok(())
}

/// Writes the line for a place of a text of so many symbols at the end: that which a replacement reports, with its line
/// of the galley.
fn put_place<A: Allocator + Copy>(
    alloc: A,
    out: &mut Vec<u8, A>,
    count: usize,
    copy: &[Symbol],
    place: usize,
    line: Option<usize>,
) -> Result<(), NoMemory>
    ensures { OnOk result (out.new.items ≡ out.old.items ++ place_text count copy.now place line) }
{
    let reported = reported_places(alloc, count, copy, &[place])?;
    let head = head(alloc, place)?;
    out.extend_from_slice(head.as_bytes())?;
    put_line(alloc, out, line)?;
    out.extend_from_slice(&reported[head.len()..])?;
    Ok(())
}

/// How many lines begin up to a place, before the first that begins behind it.
fn begun(begins: &[usize], place: usize) -> usize
    ensures { result ≡ begun place begins.now }
{
    let mut count = 0;
    for begin in begins {
        if *begin > place {
            return count;
        }
        count += 1;
    }
    count
}

/// The line of a place up to which so many lines begin.
fn numbered(count: usize) -> Option<usize>
    ensures { result ≡ numbered count }
{
    if count == 0 { None } else { Some(count) }
}

/// Writes a line for each place of a text of so many symbols at the end.
fn put_places<A: Allocator + Copy>(
    alloc: A,
    out: &mut Vec<u8, A>,
    count: usize,
    copy: &[Symbol],
    begins: &[usize],
    places: &[usize],
) -> Result<(), NoMemory>
    requires { RiseFrom 0 places.now }
    ensures { OnOk result (out.new.items ≡ out.old.items
        ++ flat_map (λ place. place_text count copy.now place (line_of place begins.now)) places.now) }
{
    let mut passed = 0;
    for place in places {
        passed += begun(&begins[passed..], *place);
        put_place(alloc, out, count, copy, *place, numbered(passed))?;
    }
    Ok(())
}

/// All places of a text in a copy behind a head, by where the lines of its galley begin, and whether there is one.
fn found_behind<A: Allocator + Copy>(
    alloc: A,
    head: &[u8],
    text: &[Symbol],
    copy: &[Symbol],
    begins: &[usize],
) -> Result<(Vec<u8, A>, bool), NoMemory>
    ensures text { IfOk result (λ t. t.0.items ≡ head.now ++ found_text text.now copy.now begins.now) }
    ensures found { IfOk result (λ t. t.1 ≡ is_found text.now copy.now) }
{
    let places = places_of(alloc, text, copy)?;
    let mut out = Vec::new(alloc);
    out.extend_from_slice(head)?;
    if places.is_empty() {
        out.extend_from_slice(b"no place\n")?;
        return Ok((out, false));
    }
    put_places(alloc, &mut out, text.len(), copy, begins, &places)?;
    Ok((out, true))
}

// ---- the lines of a galley

/// Where lines begin.
fn begins_of<A: Allocator + Copy>(alloc: A, lines: &[Line<A>]) -> Result<Vec<usize, A>, NoMemory>
    ensures { IfOk result (λ v. v.items ≡ begins_of lines.now) }
{
    let mut begins = Vec::new(alloc);
    for line in lines {
        begins.push(begin_of(line.words()))?;
    }
    Ok(begins)
}

/// The line that says why there is no galley.
fn refusal_of<A: Allocator + Copy>(alloc: A, why: &NoGalley) -> Result<String<A>, NoMemory>
    ensures { IfOk result (λ s. string_bytes s ≡ no_galley_text [] why.now) }
{
    let mut out = String::new(alloc);
    put_no_galley(&mut out, &[], why)?;
    Ok(out)
}

/// The places of a text in the copy of a replica.
fn found_of<A: Allocator + Copy>(
    alloc: A,
    replica: &Replica<Blocks<A>>,
    text: &[Symbol],
) -> Result<(Vec<u8, A>, bool), NoMemory>
    ensures text { IfOk result (λ t. t.0.items ≡ found_text text.now (copy_of replica.now.ops) []) }
    ensures found { IfOk result (λ t. t.1 ≡ is_found text.now (copy_of replica.now.ops)) }
{
    let copy = replica.copy()?;
    found_behind(alloc, b"", text, &copy, &[])
}

/// The places of a text in the copy of a matter, each with its line of the galley, or first why there is none.
fn found_by<A: Allocator + Copy>(
    alloc: A,
    matter: &Matter<A>,
    text: &[Symbol],
) -> Result<(Vec<u8, A>, bool), NoMemory>
    ensures text { IfOk result (λ t. (head : List ℕ) × (begins : List ℕ) × HasLines matter.now head begins
        × (t.0.items ≡ head ++ found_text text.now (matter.now).copy begins)) }
    ensures found { IfOk result (λ t. t.1 ≡ is_found text.now (matter.now).copy) }
{
    match matter.galley(alloc, &no_trial()) {
        Ok(galley) => {
            let begins = begins_of(alloc, galley.lines())?;
            found_behind(alloc, b"", text, matter.copy(), &begins)
        }
        Err(Unset::Reason(why)) => {
            let head = refusal_of(alloc, &why)?;
            found_behind(alloc, head.as_bytes(), text, matter.copy(), &[])
        }
        Err(Unset::NoMemory) => Err(NoMemory),
    }
}

// ---- in a stored feed

/// The places of a text in the copy of a stored feed.
fn found_alone<F: Files, A: Allocator + Copy>(
    memory: Memory<A>,
    files: &mut F,
    feed: &str,
    text: &[Symbol],
) -> Result<(Vec<u8, A>, bool), SourcesFault>
    ensures ok { IfOk result (λ t. IsFoundIn feed.entry None text.now (F.shelf files.old) t.0.items t.1) }
    ensures still { OnOk result (F.shelf files.new ≡ F.shelf files.old) }
    ensures err { IfErr result (IsSearchless feed.entry None (F.shelf files.old) (F.shelf files.new)) }
    ensures stays { Stays (F.shelf files.old) (F.shelf files.new) }
{
    let replica = open_feed(memory.own, files, feed)?;
    Ok(found_of(memory.own, &replica, text)?)
}

/// The places of a text in the copy of a stored feed, each with its line of the galley by a case and a wedge.
fn found_with<F: Files, A: Allocator + Copy>(
    memory: Memory<A>,
    files: &mut F,
    feed: &str,
    case: &str,
    wedge: &str,
    text: &[Symbol],
) -> Result<(Vec<u8, A>, bool), SourcesFault>
    ensures ok { IfOk result
        (λ t. IsFoundIn feed.entry (Some (case.entry, wedge.entry)) text.now (F.shelf files.old) t.0.items t.1) }
    ensures still { OnOk result (F.shelf files.new ≡ F.shelf files.old) }
    ensures err { IfErr result
        (IsSearchless feed.entry (Some (case.entry, wedge.entry)) (F.shelf files.old) (F.shelf files.new)) }
    ensures stays { Stays (F.shelf files.old) (F.shelf files.new) }
{
    let version = Version { feed, until: None };
    let job = Job {
        source: Source::Feed(version),
        case,
        wedge,
    };
    let matter = take_job(memory, files, &job)?;
    Ok(found_by(memory.own, &matter, text)?)
}

/// The places of a text in the copy of a stored feed, with their lines where a case and a wedge are given.
fn found_in<F: Files, A: Allocator + Copy>(
    memory: Memory<A>,
    files: &mut F,
    feed: &str,
    asked: &Wanted<'_>,
    text: &[Symbol],
) -> Result<(Vec<u8, A>, bool), SourcesFault>
    ensures ok { IfOk result
        (λ t. IsFoundIn feed.entry (asked.now).metal text.now (F.shelf files.old) t.0.items t.1) }
    ensures still { OnOk result (F.shelf files.new ≡ F.shelf files.old) }
    ensures err { IfErr result
        (IsSearchless feed.entry (asked.now).metal (F.shelf files.old) (F.shelf files.new)) }
    ensures stays { Stays (F.shelf files.old) (F.shelf files.new) }
{
    match asked.metal {
        Some((case, wedge)) => found_with(memory, files, feed, case, wedge, text),
        None => found_alone(memory, files, feed, text),
    }
}

/// Writes each place of a text in the copy of a stored feed, in a line as `place 17: sent out on Tuesday by the`, with
/// the words around it as `feed_edit::replace_text` reports them; where there is none the line `no place`. It is true
/// exactly where there is one. Places that overlap count each, and an empty text is at each place. The text is read as
/// `text_copy` reads it, with marks for its styles or plain, before anything is begun.
///
/// Where a case and a wedge are given each place comes with its line of the galley that would be cast, as `place 402,
/// line 9: back by Tuesday. The`. Lines count from 1. A space between two lines is in the one before it, and so is the
/// end of a paragraph. In an empty copy no place has a line. Where there is no galley none has one either, and the line
/// that a proof has for that comes first, as `no galley: the setting measure has no value`.
///
/// All places are written, each with the whole text, so long texts that overlap themselves make long lines. No name is
/// taken, and no file changes. A refusal of the text, the feed, the case or the wedge, or of memory, comes before
/// anything is written.
pub fn find_text<W: Write, F: Files, A: Allocator + Copy>(
    memory: Memory<A>,
    writer: &mut W,
    files: &mut F,
    feed: &str,
    asked: &Wanted<'_>,
) -> Result<bool, PreviewFault>
    ensures ok { IfOk result
        (IsFound feed.entry asked.now (F.shelf files.old) (W.contents writer.old) (W.contents writer.new)) }
    ensures still { OnOk result (F.shelf files.new ≡ F.shelf files.old) }
    ensures err { IfErr result
        (IsUnfound feed.entry asked.now (F.shelf files.old) (F.shelf files.new) (W.contents writer.old)
        (W.contents writer.new)) }
    ensures stays { Stays (F.shelf files.old) (F.shelf files.new) }
{
    let text = read_text(memory.own, asked.text.as_bytes(), asked.plain)?;
    let (reported, found) = found_in(memory, files, feed, asked, &text)?;
    write_out(writer, &reported)?;
    Ok(found)
}
