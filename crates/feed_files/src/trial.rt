//! A reader, a writer and files in memory, which fail where a test wants it. For tests.

ghost use Rattle.std.specs.Prelude.{◌≡◌, ◌≤◌, ◌<◌, ◌≢◌, ◌⊎◌, ◌↔◌, ◌-◌, [], IfErr, IfOk, IsErr, IsErrOf, IsFalse, IsOk};
ghost use Rattle.std.specs.Prelude.{IsTrue, nat_eq, Some, length, option_map, string_bytes};
ghost use Rattle.std.specs.Io.{ReadsAtMost, WritesAtMost};
ghost use Rattle.std.specs.IoError.{error_kind};
ghost use Rattle.std.specs.Io.KnownBytes.{Keeps, ReadConsumes, WriteAppends};
ghost use Rattle.feed_files.specs.Files.{CanBe, Counts, Free, HasRisen, IsGone, IsNowHeld, IsNowhere, IsRenamed};
ghost use Rattle.feed_files.specs.Files.{IsThere, IsWritten, Reads, Spares, Stays, bytes_read, max_file, touched};
ghost use Rattle.feed_files.specs.Trial.{HasEnded, HasFailed, IsDue, IsPut, IsTurn, TakesMemory, bytes_in, calls_left};
ghost use Rattle.feed_files.specs.Trial.{held_in, kept_in, most_given, most_taken, one_more, shelf_in};

use crate::files::{FileRefusal, Files, MAX_FILE};
use std::alloc::{AllocError, Allocator};
use std::io::{self, ErrorKind, Read, Write};

/// Gives its bytes, some in each call, and may fail at one call.
#[derive(Drop)]
pub struct TrialReader<'a> {
    bytes: &'a [u8],
    step: usize,
    calls: u64,
    failing_call: u64,
}

impl<'a> TrialReader<'a> {
    /// Gives the bytes, as many in each call as fit, and never fails.
    pub fn new(bytes: &'a [u8]) -> Self
        ensures bytes { result.bytes ≡ bytes.entry }
        ensures step { result.step ≡ usize.MAX }
        ensures fine { (result.calls ≡ 0) × (result.failing_call ≡ 0) }
    {
        TrialReader {
            bytes,
            step: usize::MAX,
            calls: 0,
            failing_call: 0,
        }
    }

    /// Gives in each call as many bytes as are left and fit, and no more than `step`, where 0 counts as 1.
    pub fn in_steps_of(self, step: usize) -> Self
        ensures { result ≡ record self.entry { step = step } }
    {
        TrialReader { step, ..self }
    }

    /// Fails at the k-th call, counted from 1.
    pub fn failing_at_call(self, k: u64) -> Self
        ensures { result ≡ record self.entry { failing_call = k } }
    {
        TrialReader {
            failing_call: k,
            ..self
        }
    }
}

impl<'a> Read for TrialReader<'a> {
    ghost remaining = { λ r. Some r.bytes.now };

    fn read(&mut self, buf: &mut [u8]) -> io::Result<usize>
        ensures bound { ReadsAtMost result buf.new }
        ensures bytes { ReadConsumes (Some self.old.bytes.now) (Some self.new.bytes.now) result buf.new }
        ensures calls { self.new.calls ≡ one_more self.old.calls }
        ensures failed { IsErr result ↔ (self.new.calls ≡ self.old.failing_call) }
        ensures kind { IfErr result (λ e. error_kind e ≢ ErrorKind.Interrupted) }
        ensures count { IfOk result (λ n. n ≡ most_given self.old.step self.old.bytes.now buf.old) }
        ensures kept { (self.new.step ≡ self.old.step) × (self.new.failing_call ≡ self.old.failing_call) }
    {
        self.calls = self.calls.saturating_add(1);
        if self.calls == self.failing_call {
            return Err(io::Error::from(ErrorKind::Other));
        }
        let n = buf.len().min(self.step.max(1)).min(self.bytes.len());
        let (now, later) = self.bytes.split_at(n);
        buf[..n].copy_from_slice(now);
        self.bytes = later;
        Ok(n)
    }
}

/// What a writer does where its room ends.
#[derive(Clone, Copy, Debug, PartialEq, Eq)]
pub enum AtEnd {
    Fails,
    /// Takes no byte, and says so.
    TakesNone,
}

/// Keeps what is written, up to a number of bytes or of calls.
#[derive(Drop)]
pub struct TrialWriter<A: Allocator + Copy> {
    written: Vec<u8, A>,
    room: usize,
    calls: u64,
    at_end: AtEnd,
}

impl<A: Allocator + Copy> TrialWriter<A> {
    /// Takes all that is written.
    pub fn new(alloc: A) -> Self
        ensures empty { result.written.items ≡ [] }
        ensures room { (result.room ≡ usize.MAX) × (result.calls ≡ u64.MAX) }
    {
        TrialWriter {
            written: Vec::new(alloc),
            room: usize::MAX,
            calls: u64::MAX,
            at_end: AtEnd::Fails,
        }
    }

    /// Takes that many bytes, and then ends.
    pub fn with_room(self, bytes: usize, at_end: AtEnd) -> Self
        ensures { result ≡ record self { room = bytes; at_end = at_end } }
    {
        TrialWriter {
            room: bytes,
            at_end,
            ..self
        }
    }

    /// Takes that many calls, and then ends.
    pub fn with_calls(self, calls: u64, at_end: AtEnd) -> Self
        ensures { result ≡ record self { calls = calls; at_end = at_end } }
    {
        TrialWriter {
            calls,
            at_end,
            ..self
        }
    }

    /// What was written.
    pub fn written(&self) -> &[u8]
        ensures { result.now ≡ self.now.written.items }
    {
        &self.written
    }
}

impl<A: Allocator + Copy> Write for TrialWriter<A> {
    ghost contents = { λ w. Some w.written.items };

    fn write(&mut self, buf: &[u8]) -> io::Result<usize>
        ensures bound { WritesAtMost result buf.now }
        ensures bytes { WriteAppends (Some self.old.written.items) (Some self.new.written.items) result buf.now }
        ensures count { IfOk result (λ n. n ≡ most_taken self.old.calls self.old.room buf.now) }
        ensures room { IfOk result (λ n. self.new.room ≡ self.old.room - n) }
        ensures calls { IfOk result (λ n. self.new.calls ≡ calls_left self.old.calls self.old.room buf.now) }
        ensures failed { IfErr result (λ _. HasFailed self.old buf.now) }
        ensures ended { self.old.at_end ≡ AtEnd.Fails → HasEnded self.old buf.now → IsErr result }
        ensures same { IsErr result → (self.new.room ≡ self.old.room) × (self.new.calls ≡ self.old.calls) }
        ensures kind { IfErr result (λ e. error_kind e ≢ ErrorKind.Interrupted) }
        ensures kept { self.new.at_end ≡ self.old.at_end }
    {
        let n = buf.len().min(self.room);
        if self.calls == 0 || (n == 0 && !buf.is_empty()) {
            return match self.at_end {
                AtEnd::Fails => Err(io::Error::from(ErrorKind::Other)),
                AtEnd::TakesNone => Ok(0),
            };
        }
        self.written.extend_from_slice(&buf[..n])?;
        self.calls -= 1;
        self.room -= n;
        Ok(n)
    }

    fn flush(&mut self) -> io::Result<()>
        ensures bytes { Keeps (Some self.old.written.items) (Some self.new.written.items) }
        ensures ok { IsOk result }
        ensures same { self.new ≡ self.old }
    {
        Ok(())
    }
}

/// A change of files in memory.
#[derive(Drop)]
enum FileChange<A: Allocator + Copy> {
    Put { name: String<A>, bytes: Vec<u8, A> },
    Move { from: String<A>, to: String<A> },
}

/// The bytes of a file, by the changes, newest first.
fn bytes_in<'a, A: Allocator + Copy>(changes: &'a [FileChange<A>], name: &str) -> Option<&'a [u8]>
    ensures { option_map (λ b. b.now) result ≡ bytes_in changes.now name.now }
{
    let Some((change, older)) = changes.split_first() else {
        return None;
    };
    match change {
        FileChange::Put { name: put, bytes } => {
            if put.as_str() == name {
                Some(bytes.as_slice())
            } else {
                bytes_in(older, name)
            }
        }
        FileChange::Move { from, to } => {
            if to.as_str() == name {
                bytes_in(older, from.as_str())
            } else if from.as_str() == name {
                None
            } else {
                bytes_in(older, name)
            }
        }
    }
}

/// A name that is held, and whether a writing or a renaming was asked for since.
#[derive(Drop)]
struct HeldName<A: Allocator + Copy> {
    name: String<A>,
    is_touched: bool,
}

/// Files in memory, of which one call may fail. There are no folders.
pub struct TrialFiles<A: Allocator + Copy> {
    alloc: A,
    changes: Vec<FileChange<A>, A>,
    calls: u64,
    failing_call: u64,
    failures: u64,
    held: Option<HeldName<A>>,
}

// Written out: what drops one calls this, and does not take it apart once more.
impl<A: Allocator + Copy> Drop for TrialFiles<A> {
    fn drop(self) {
        let TrialFiles {
            alloc: _,
            changes,
            calls: _,
            failing_call: _,
            failures: _,
            held,
        } = self;
        drop(changes);
        drop(held);
    }
}

impl<A: Allocator + Copy> TrialFiles<A> {
    /// No file is there, and no call fails.
    pub fn new(alloc: A) -> Self
        ensures files { result.changes.items ≡ [] }
        ensures free { held_in result.held ≡ Free }
        ensures fine { (result.calls ≡ 0) × (result.failing_call ≡ 0) × (result.failures ≡ 0) }
    {
        TrialFiles {
            alloc,
            changes: Vec::new(alloc),
            calls: 0,
            failing_call: 0,
            failures: 0,
            held: None,
        }
    }

    /// Fails at the k-th call, counted from 1. That call changes no file.
    pub fn failing_at_call(mut self, k: u64) -> Self
        ensures { result ≡ record self { failing_call = k } }
    {
        self.failing_call = k;
        self
    }

    /// The files as the next run finds them: the name that was held is free.
    pub fn for_next_run(mut self) -> Self
        ensures free { held_in result.held ≡ Free }
        ensures files { result.changes ≡ self.changes }
        ensures same { result ≡ record self { held = result.held } }
    {
        self.held = None;
        self
    }

    /// The bytes of a file.
    pub fn bytes_of(&self, name: &str) -> Option<&[u8]>
        ensures { option_map (λ b. b.now) result ≡ bytes_in self.now.changes.items name.now }
    {
        bytes_in(&self.changes, name)
    }

    /// Whether a file of that name has these bytes.
    pub fn holds(&self, name: &str, bytes: &[u8]) -> bool
        ensures yes { IsTrue result → bytes_in self.now.changes.items name.now ≡ Some bytes.now }
        ensures no { IsFalse result → bytes_in self.now.changes.items name.now ≢ Some bytes.now }
    {
        match self.bytes_of(name) {
            Some(kept) => kept == bytes,
            None => false,
        }
    }

    /// Puts a file there, in place of one of its name. It is no call.
    pub fn put(&mut self, name: &str, bytes: &[u8]) -> Result<(), AllocError>
        ensures failures { self.new.failures ≡ self.old.failures }
        ensures calls { (self.new.calls ≡ self.old.calls) × (self.new.failing_call ≡ self.old.failing_call) }
        ensures held { self.new.held ≡ self.old.held }
        ensures ok { IfOk result (λ _. IsPut name.now bytes.now self.old.changes.items self.new.changes.items) }
        ensures err { IfErr result (λ _. self.new.changes.items ≡ self.old.changes.items) }
    {
        let mut kept = Vec::with_capacity(self.alloc, bytes.len())?;
        kept.extend_from_slice(bytes)?;
        let name = String::from_str(self.alloc, name)?;
        self.changes
            .insert(0, FileChange::Put { name, bytes: kept })?;
        Ok(())
    }

    /// Counts a failure of the device.
    fn count_failure(&mut self)
        ensures risen { HasRisen self.old.failures self.new.failures }
        ensures counted { self.old.failures ≤ self.new.failures }
        ensures once { self.new.failures ≡ one_more self.old.failures }
        ensures same { self.new ≡ record self.old { failures = self.new.failures } }
    {
        self.failures = self.failures.saturating_add(1);
    }

    /// Counts a call, and returns whether it fails.
    fn fails(&mut self) -> bool
        ensures answer { result ≡ nat_eq self.new.calls self.old.failing_call }
        ensures calls { self.new.calls ≡ one_more self.old.calls }
        ensures same { self.new.failing_call ≡ self.old.failing_call }
        ensures failed { IsTrue result → HasRisen self.old.failures self.new.failures }
        ensures once { IsTrue result → self.new.failures ≡ one_more self.old.failures }
        ensures fine { IsFalse result → self.new.failures ≡ self.old.failures }
        ensures counted { self.old.failures ≤ self.new.failures }
        ensures kept { self.new.changes ≡ self.old.changes }
        ensures held { self.new.held ≡ self.old.held }
    {
        self.calls = self.calls.saturating_add(1);
        if self.calls != self.failing_call {
            return false;
        }
        self.count_failure();
        true
    }

    /// A writing or a renaming was asked for.
    fn touch(&mut self)
        ensures held { held_in self.new.held ≡ touched (held_in self.old.held) }
        ensures failures { self.new.failures ≡ self.old.failures }
        ensures calls { (self.new.calls ≡ self.old.calls) × (self.new.failing_call ≡ self.old.failing_call) }
        ensures changes { self.new.changes ≡ self.old.changes }
    {
        if let Some(held) = &mut self.held {
            held.is_touched = true;
        }
    }

    /// Gives a file another name, in place of a file that had it.
    fn move_file(&mut self, from: &str, to: &str) -> Result<(), FileRefusal>
        ensures device { IfErr result (λ e. (e ≢ FileRefusal.Device) × (e ≢ FileRefusal.Large)) }
        ensures missing { IsErrOf result FileRefusal.Missing → IsGone (kept_in self.old.changes.items from.now) }
        ensures memory { IsErrOf result FileRefusal.NoMemory → IsThere (kept_in self.old.changes.items from.now) }
        ensures failures { self.new.failures ≡ self.old.failures }
        ensures calls { (self.new.calls ≡ self.old.calls) × (self.new.failing_call ≡ self.old.failing_call) }
        ensures held { self.new.held ≡ self.old.held }
        ensures ok { IfOk result (λ _. IsRenamed from.now to.now (kept_in self.old.changes.items)
            (kept_in self.new.changes.items)) }
        ensures err { IfErr result (λ _. self.new.changes.items ≡ self.old.changes.items) }
    {
        if self.bytes_of(from).is_none() {
            return Err(FileRefusal::Missing);
        }
        let from = String::from_str(self.alloc, from)?;
        let to = String::from_str(self.alloc, to)?;
        self.changes.insert(0, FileChange::Move { from, to })?;
        Ok(())
    }
}

impl<A: Allocator + Copy> Files for TrialFiles<A> {
    ghost shelf = { shelf_in };

    fn failures(&self) -> u64 {
        self.failures
    }

    fn hold(&mut self, name: &str) -> Result<(), FileRefusal>
        ensures counted { Counts result (shelf_in self.old) (shelf_in self.new) }
        ensures small { IfErr result (λ e. e ≢ FileRefusal.Large) }
        ensures missing { IsErrOf result FileRefusal.Missing → IsNowhere (kept_in self.old.changes.items name.now) }
        ensures memory { IsErrOf result FileRefusal.NoMemory → CanBe (kept_in self.old.changes.items name.now) }
        ensures free { IsErrOf result FileRefusal.NoMemory → held_in self.old.held ≡ Free }
        ensures taken { IfOk result (λ _. IsNowHeld name.now (shelf_in self.old) (shelf_in self.new)) }
        ensures refused { IfErr result (λ _. Stays (shelf_in self.old) (shelf_in self.new)) }
        ensures changes { self.new.changes ≡ self.old.changes }
        ensures device { IsErrOf result FileRefusal.Device → IsDue self.old ⊎ (held_in self.old.held ≢ Free) }
        ensures turn { IsTurn result self.old self.new }
    {
        if self.fails() {
            return Err(FileRefusal::Device);
        }
        if self.held.is_some() {
            self.count_failure();
            return Err(FileRefusal::Device);
        }
        let name = String::from_str(self.alloc, name)?;
        self.held = Some(HeldName {
            name,
            is_touched: false,
        });
        Ok(())
    }

    fn read<B: Allocator + Copy>(&mut self, alloc: B, name: &str) -> Result<Vec<u8, B>, FileRefusal>
        ensures counted { Counts result (shelf_in self.old) (shelf_in self.new) }
        ensures kept { kept_in self.new.changes.items ≡ kept_in self.old.changes.items }
        ensures changes { self.new.changes ≡ self.old.changes }
        ensures held { held_in self.new.held ≡ held_in self.old.held }
        ensures within { IfOk result (λ v. length v.items ≤ max_file) }
        ensures given { Reads (kept_in self.old.changes.items name.now) (bytes_read (λ v. v.items) result) }
        ensures device { IsErrOf result FileRefusal.Device → IsDue self.old }
        ensures memory { IsErrOf result FileRefusal.NoMemory → TakesMemory (kept_in self.old.changes.items name.now) }
        ensures turn { IsTurn result self.old self.new }
    {
        if self.fails() {
            return Err(FileRefusal::Device);
        }
        match self.bytes_of(name) {
            Some(bytes) => copied(alloc, bytes),
            None => Err(FileRefusal::Missing),
        }
    }

    fn write_new(&mut self, name: &str, bytes: &[u8]) -> Result<(), FileRefusal>
        ensures counted { Counts result (shelf_in self.old) (shelf_in self.new) }
        ensures small { IfErr result (λ e. e ≢ FileRefusal.Large) }
        ensures missing { IsErrOf result FileRefusal.Missing → IsNowhere (kept_in self.old.changes.items name.now) }
        ensures memory { IsErrOf result FileRefusal.NoMemory → CanBe (kept_in self.old.changes.items name.now) }
        ensures written { IfOk result
            (λ _. IsWritten bytes.now (kept_in self.old.changes.items name.now)
            (kept_in self.new.changes.items name.now)) }
        ensures held { held_in self.new.held ≡ touched (held_in self.old.held) }
        ensures others { Spares name.now (kept_in self.old.changes.items) (kept_in self.new.changes.items) }
        ensures device { IsErrOf result FileRefusal.Device → IsDue self.old }
        ensures refused { IfErr result (λ _. self.new.changes.items ≡ self.old.changes.items) }
        ensures turn { IsTurn result self.old self.new }
    {
        self.touch();
        if self.fails() {
            return Err(FileRefusal::Device);
        }
        self.put(name, bytes)?;
        Ok(())
    }

    fn rename(&mut self, from: &str, to: &str) -> Result<(), FileRefusal>
        ensures counted { Counts result (shelf_in self.old) (shelf_in self.new) }
        ensures small { IfErr result (λ e. e ≢ FileRefusal.Large) }
        ensures missing { IsErrOf result FileRefusal.Missing
            → IsGone (kept_in self.old.changes.items from.now) ⊎ IsNowhere (kept_in self.old.changes.items to.now) }
        ensures renamed { IfOk result
            (λ _. IsRenamed from.now to.now (kept_in self.old.changes.items) (kept_in self.new.changes.items)) }
        ensures held { held_in self.new.held ≡ touched (held_in self.old.held) }
        ensures refused { IfErr result (λ _. kept_in self.new.changes.items ≡ kept_in self.old.changes.items) }
        ensures device { IsErrOf result FileRefusal.Device → IsDue self.old }
        ensures memory { IsErrOf result FileRefusal.NoMemory
            → CanBe (kept_in self.old.changes.items from.now) × CanBe (kept_in self.old.changes.items to.now) }
        ensures kept { IsErrOf result FileRefusal.NoMemory → IsThere (kept_in self.old.changes.items from.now) }
        ensures turn { IsTurn result self.old self.new }
    {
        self.touch();
        if self.fails() {
            return Err(FileRefusal::Device);
        }
        self.move_file(from, to)
    }
}

/// A file's bytes, or `Large`.
fn copied<A: Allocator + Copy>(alloc: A, bytes: &[u8]) -> Result<Vec<u8, A>, FileRefusal>
    ensures bytes { IfOk result (λ v. v.items ≡ bytes.now) }
    ensures within { IfOk result (λ v. length v.items ≤ max_file) }
    ensures large { IsErrOf result FileRefusal.Large → max_file < length bytes.now }
    ensures memory { IsErrOf result FileRefusal.NoMemory → (0 < length bytes.now) × (length bytes.now ≤ max_file) }
    ensures other { IfErr result (λ e. (e ≢ FileRefusal.Device) × (e ≢ FileRefusal.Missing)) }
{
    if bytes.len() > MAX_FILE {
        return Err(FileRefusal::Large);
    }
    let mut kept = Vec::new(alloc);
    kept.extend_from_slice(bytes)?;
    Ok(kept)
}
