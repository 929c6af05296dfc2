//! Files of the machine.

ghost use Rattle.std.specs.Prelude.{◌≡◌, ◌≢◌, ◌↔◌, ◌<◌, ◌≤◌, Err, IfErr, IfOk, IfSome, IsErr, IsErrAnd, IsNone, IsOk};
ghost use Rattle.std.specs.Prelude.{IsSomeAnd, IsTrue, MatchOption, MatchResult, None, Ok, Some, length, string_bytes, true};
ghost use Rattle.std.specs.Fs.{metadata_mode};
ghost use Rattle.std.specs.IoError.{error_kind};
ghost use Rattle.feed_files.specs.Files.{Counts, Free, IsCounted, Unknown, max_file, shelf, touched};
ghost use Rattle.program_host.specs.Host.{IsHeldAs, IsReportedOf, LeadsTo, held_in};

use crate::hold::{Hold, missing_or};
use crate::plain::Plain;
use crate::progress::{Progress, Step, Watched};
use crate::trouble::{Asked, Explains, Trouble, write_trouble};
use feed_files::{FileRefusal, Files, MAX_FILE};
use std::alloc::Allocator;
use std::fs::{self, File, Metadata, OpenFile, OpenOptions};
use std::io::{self, ErrorKind, Read, Write};
use std::os::unix::fs::{OpenOptionsExt, PermissionsExt};
use std::path::Path;

/// Files of the machine, by their paths, with a count of the failures, the name that is held, and what failed last.
/// What is read of them and written is reported as the run's progress.
#[derive(Drop)]
pub struct HostFiles<'a> {
    host: &'a HostRuntime,
    progress: &'a Progress<'a>,
    failures: u64,
    hold: Option<Hold>,
    trouble: Option<Trouble>,
    /// The name of the file whose reading was refused last, where there was memory for it.
    unread: Option<String>,
    /// Whether a file has taken the held feed's name since.
    is_stored: bool,
}

impl<'a> HostFiles<'a> {
    /// Files of the machine, of which no call has failed yet.
    pub fn new(host: &'a HostRuntime, progress: &'a Progress<'a>) -> Self
        ensures failures { result.failures ≡ 0 }
        ensures free { result.hold ≡ None }
    {
        HostFiles {
            host,
            progress,
            failures: 0,
            hold: None,
            trouble: None,
            unread: None,
            is_stored: false,
        }
    }

    /// Counts a failed call, if it was the device that failed, and keeps it to be reported.
    fn refused(&mut self, trouble: Trouble) -> FileRefusal
        ensures reported { IsReportedOf (error_kind trouble.error) result }
        ensures counted { IsCounted result (shelf (λ _. Unknown) self.old.failures Free)
            (shelf (λ _. Unknown) self.new.failures Free) }
        ensures held { self.new.hold ≡ self.old.hold }
        ensures kept { self.new.trouble ≡ Some trouble }
        ensures stored { self.new.is_stored ≡ self.old.is_stored }
    {
        let why = refusal_of(&trouble.error);
        if why == FileRefusal::Device {
            self.failures = self.failures.saturating_add(1);
        }
        self.trouble = Some(trouble);
        why
    }

    /// A writing or a renaming was asked for.
    fn touch(&mut self)
        ensures held { held_in self.new.hold ≡ touched (held_in self.old.hold) }
        ensures failures { self.new.failures ≡ self.old.failures }
    {
        if let Some(hold) = &mut self.hold {
            hold.is_touched = true;
        }
    }

    /// Whether a name is that of the held feed.
    fn is_held(&self, name: &str) -> bool
        ensures { IsTrue result ↔ IsHeldAs self.now.hold name.now }
    {
        match &self.hold {
            Some(hold) => hold.name.as_str() == name,
            None => false,
        }
    }

    /// Keeps the name of a file whose reading was refused. At a terminal a held feed that is not there is reported as
    /// new.
    fn note_unread(&mut self, name: &str, why: FileRefusal)
        ensures failures { self.new.failures ≡ self.old.failures }
        ensures held { self.new.hold ≡ self.old.hold }
        ensures kept { self.new.trouble ≡ self.old.trouble }
    {
        if why == FileRefusal::Missing && self.is_held(name) {
            self.progress.note(Step::New(name));
        }
        self.unread = String::from_str(self.host.alloc(), name).ok();
    }

    /// A file has taken a name: that of the held feed is stored then, which a conversation reports at once.
    fn note_stored(&mut self, name: &str)
        ensures stored { IsHeldAs self.old.hold name.now → self.new.is_stored ≡ true }
        ensures other { ¬ IsHeldAs self.old.hold name.now → self.new.is_stored ≡ self.old.is_stored }
        ensures failures { self.new.failures ≡ self.old.failures }
        ensures held { self.new.hold ≡ self.old.hold }
    {
        if self.is_held(name) {
            self.is_stored = true;
            self.progress.report_stored(name);
        } else {
            self.progress.report(Step::Stored(name));
        }
    }

    /// Says at the end of a conversation that the held feed has not changed, where it was not stored.
    pub fn report_end(&self) {
        if self.is_stored {
            return;
        }
        if let Some(hold) = &self.hold {
            self.progress.tell_same(hold.name.as_str());
        }
    }

    /// Where a name leads: that of the held feed and that of its writing past their links, any other as it is.
    fn place<'b>(&'b self, name: &'b str) -> &'b str
        ensures { MatchOption self.now.hold (result.now ≡ name.now) (λ hold. LeadsTo hold name.now result.now) }
    {
        match &self.hold {
            Some(hold) => hold.place_of(name),
            None => name,
        }
    }

    /// The file whose mode a writing takes: that of the held feed, where the writing will take its place.
    fn model_of<'b>(&'b self, name: &str) -> Option<&'b str>
        ensures writing { IfSome self.now.hold (λ hold. name.now ≡ string_bytes hold.new
            → IsSomeAnd result (λ place. place.now ≡ string_bytes hold.place)) }
        ensures other { MatchOption self.now.hold (IsNone result) (λ hold. name.now ≢ string_bytes hold.new
            → IsNone result) }
    {
        match &self.hold {
            Some(hold) => {
                if name != hold.new.as_str() {
                    return None;
                }
                Some(hold.place.as_str())
            }
            None => None,
        }
    }

    /// The mode that a file is written with: that of the held feed's file, where it will take its place.
    fn mode_of(&self, name: &str) -> io::Result<Option<u32>>
        ensures other { MatchOption self.now.hold (result ≡ Ok None) (λ hold. name.now ≢ string_bytes hold.new
            → result ≡ Ok None) }
        ensures missing { IfErr result (λ error. error_kind error ≢ ErrorKind.NotFound) }
    {
        match self.model_of(name) {
            Some(place) => mode_in(fs::metadata(self.host, place)),
            None => Ok(None),
        }
    }

    /// What a reading comes to: the bytes, that there are too many, or why the system gave none.
    fn given<A: Allocator + Copy>(
        &mut self,
        read: io::Result<Option<Vec<u8, A>>>,
    ) -> Result<Vec<u8, A>, FileRefusal>
        ensures given { MatchResult read (λ o. MatchOption o (result ≡ Err FileRefusal.Large) (λ bytes. result
            ≡ Ok bytes)) (λ error. IsErrAnd result (IsReportedOf (error_kind error))) }
        ensures kept { MatchResult read (λ o. MatchOption o (self.new.trouble ≡ None) (λ _. self.new.trouble
            ≡ self.old.trouble)) (λ error. IsSomeAnd self.new.trouble (λ t. (t.asked ≡ Asked.Read)
            × (t.error ≡ error))) }
        ensures counted { Counts result (shelf (λ _. Unknown) self.old.failures Free)
            (shelf (λ _. Unknown) self.new.failures Free) }
        ensures held { self.new.hold ≡ self.old.hold }
    {
        match read {
            Ok(Some(bytes)) => Ok(bytes),
            Ok(None) => {
                self.trouble = None;
                Err(FileRefusal::Large)
            }
            Err(error) => {
                let asked = Asked::Read;
                Err(self.refused(Trouble { asked, error }))
            }
        }
    }

    /// What a renaming to a name comes to. Only one that is done, to that of the held feed, stores the feed.
    fn renamed(&mut self, name: &str, done: io::Result<()>) -> Result<(), FileRefusal>
        ensures given { MatchResult done (λ _. IsOk result) (λ error. IsErrAnd result (IsReportedOf (error_kind error))) }
        ensures stored { IsOk done → IsHeldAs self.old.hold name.now → self.new.is_stored ≡ true }
        ensures other { IsOk done → ¬ IsHeldAs self.old.hold name.now → self.new.is_stored ≡ self.old.is_stored }
        ensures failed { IsErr done → self.new.is_stored ≡ self.old.is_stored }
        ensures counted { Counts result (shelf (λ _. Unknown) self.old.failures Free)
            (shelf (λ _. Unknown) self.new.failures Free) }
        ensures held { self.new.hold ≡ self.old.hold }
    {
        match done {
            Ok(()) => {
                self.note_stored(name);
                Ok(())
            }
            Err(error) => {
                let asked = Asked::Rename;
                Err(self.refused(Trouble { asked, error }))
            }
        }
    }

    fn write_at(&self, name: &str, bytes: &[u8]) -> io::Result<()> {
        let mode = self.mode_of(name)?;
        let file = new_file(self.host, self.place(name), mode)?;
        Watched::to(self.progress, name, &file).write_all(bytes)?;
        file.sync_all()
    }
}

/// The mode that the system reports of a file, if one is there.
fn mode_in(found: io::Result<Metadata>) -> io::Result<Option<u32>>
    ensures there { IfOk found (λ file. result ≡ Ok (Some (metadata_mode file))) }
    ensures missing { IfErr found (λ error. error_kind error ≡ ErrorKind.NotFound → result ≡ Ok None) }
    ensures failed { IfErr found (λ error. error_kind error ≢ ErrorKind.NotFound → result ≡ Err error) }
{
    match found {
        Ok(file) => Ok(Some(file.permissions().mode())),
        Err(why) => missing_or(why, None),
    }
}

/// What a failed call says: that something is not there, that memory ran out, or else that the device failed.
fn refusal_of(error: &io::Error) -> FileRefusal
    ensures { IsReportedOf (error_kind error.now) result }
{
    match error.kind() {
        ErrorKind::NotFound => FileRefusal::Missing,
        ErrorKind::NotADirectory => FileRefusal::Missing,
        ErrorKind::OutOfMemory => FileRefusal::NoMemory,
        _ => FileRefusal::Device,
    }
}

/// All that a reader has left, or none where it is more than the limit. No more is read than one byte above the limit.
fn whole<R: Read + Drop, A: Allocator + Copy>(alloc: A, reader: R) -> io::Result<Option<Vec<u8, A>>>
    ensures within { IfOk result (λ o. IfSome o (λ v. length v.items ≤ max_file)) }
    ensures bytes { IfOk result (λ o. IfSome o (λ v. IfSome (R.remaining reader) (λ input. v.items ≡ input))) }
    ensures large { IfOk result (λ o. IsNone o → IfSome (R.remaining reader) (λ input. max_file < length input)) }
{
    let mut bytes = Vec::new(alloc);
    let mut prefix = reader.take(MAX_FILE as u64 + 1);
    prefix.read_to_end(&mut bytes)?;
    if bytes.len() > MAX_FILE {
        return Ok(None);
    }
    Ok(Some(bytes))
}

/// The bytes of the file at a place, reported by its name.
fn read_file<A: Allocator + Copy>(
    host: &HostRuntime,
    progress: &Progress<'_>,
    alloc: A,
    name: &str,
    place: &str,
) -> io::Result<Option<Vec<u8, A>>>
    ensures { IfOk result (λ o. IfSome o (λ v. length v.items ≤ max_file)) }
{
    let file = File::open(host, place)?;
    whole(alloc, Watched::from(progress, name, file))
}

/// Removes what has a name, a link and not what it leads to. Where nothing has it, that is fine.
fn remove(host: &HostRuntime, name: &str) -> io::Result<()> {
    match fs::remove_file(host, name) {
        Ok(()) => Ok(()),
        Err(error) => missing_or(error, ()),
    }
}

/// Makes a file anew, to be written, in place of what has the name and never through it.
fn new_file(host: &HostRuntime, name: &str, mode: Option<u32>) -> io::Result<File> {
    remove(host, name)?;
    let mut how = OpenOptions::new();
    how.write(true).create_new(true);
    if let Some(mode) = mode {
        how.mode(mode & 0o777);
    }
    let file = how.open(host, name)?;
    if let Some(mode) = mode {
        file.set_permissions(PermissionsExt::from_mode(mode))?;
    }
    Ok(file)
}

/// The folder that a file stands in, open, where the system lets it be opened.
fn folder_of(host: &HostRuntime, name: &str) -> Option<File> {
    let folder = match Path::new(name).parent() {
        Some(parent) => parent.as_str(),
        None => "",
    };
    if folder.is_empty() {
        return File::open(host, ".").ok();
    }
    File::open(host, folder).ok()
}

/// Gives a file another name, and waits until the device has that, where the system lets it wait for the folder. A
/// folder that was not synced is not reported: the file has its name by then.
fn rename_file(host: &HostRuntime, from: &str, to: &str) -> io::Result<()> {
    let folder = folder_of(host, to);
    fs::rename(host, from, to)?;
    if let Some(folder) = folder {
        let _ = folder.sync_all();
    }
    Ok(())
}

impl<'a> Files for HostFiles<'a> {
    // std does not say what a file of the machine holds
    ghost shelf = { λ f. shelf (λ _. Unknown) f.failures (held_in f.hold) };

    fn failures(&self) -> u64 {
        self.failures
    }

    fn hold(&mut self, name: &str) -> Result<(), FileRefusal> {
        if self.hold.is_some() {
            let error = io::Error::from(ErrorKind::WouldBlock);
            let asked = Asked::Hold;
            return Err(self.refused(Trouble { asked, error }));
        }
        match Hold::take(self.host, name) {
            Ok(hold) => {
                self.hold = Some(hold);
                Ok(())
            }
            Err(trouble) => Err(self.refused(trouble)),
        }
    }

    fn read<A: Allocator + Copy>(
        &mut self,
        alloc: A,
        name: &str,
    ) -> Result<Vec<u8, A>, FileRefusal> {
        let read = read_file(self.host, self.progress, alloc, name, self.place(name));
        let given = self.given(read);
        if let Err(why) = &given {
            self.note_unread(name, *why);
        }
        given
    }

    fn write_new(&mut self, name: &str, bytes: &[u8]) -> Result<(), FileRefusal> {
        self.touch();
        match self.write_at(name, bytes) {
            Ok(()) => Ok(()),
            Err(error) => {
                let asked = Asked::Write;
                Err(self.refused(Trouble { asked, error }))
            }
        }
    }

    fn rename(&mut self, from: &str, to: &str) -> Result<(), FileRefusal> {
        self.touch();
        let done = rename_file(self.host, self.place(from), self.place(to));
        self.renamed(to, done)
    }
}

impl<'a> Explains for HostFiles<'a> {
    fn explain<E: Write>(&self, feed: &str, faults: &mut E) -> io::Result<()> {
        let unread = match &self.unread {
            Some(name) => name.as_str(),
            None => feed,
        };
        match &self.trouble {
            Some(trouble) => match trouble.asked {
                Asked::Read => write_trouble(unread, trouble, faults),
                _ => write_trouble(feed, trouble, faults),
            },
            None => {
                let unread = Plain(unread);
                writeln!(faults, "{unread}: it has more than {MAX_FILE} bytes")
            }
        }
    }

    fn is_output_closed(&self) -> bool {
        self.progress.is_closed()
    }
}
