//! How far a run is, reported on standard error as bytes are read and written, once a second at most.

ghost use Rattle.std.specs.Prelude.{◌≡◌, false};

use crate::plain::Plain;
use std::cell::Cell;
use std::fmt::{self, Display, Formatter};
use std::io::{self, ErrorKind, IsTerminal, Read, Write};
use std::time::{Duration, Instant};

/// The most bytes that are handed to a writer at once, so that a slow one is reported on the way.
const PIECE: usize = 65_536;

/// When a line was written last, somebody typed or saw something, or the run began, whichever came last. None is
/// written where standard error is no terminal, or while the clock fails.
#[derive(Drop)]
pub struct Progress<'a> {
    host: &'a HostRuntime,
    last: Cell<Option<Instant>>,
    /// Whether the reader of standard output has closed it.
    closed: Cell<bool>,
    /// Whether the run is a conversation: somebody types the commands, and sees what standard error has.
    talks: bool,
}

impl<'a> Progress<'a> {
    /// A run that begins now, and is no conversation.
    pub fn new(host: &'a HostRuntime) -> Self
        ensures { result.talks ≡ false }
    {
        let last = if host.stderr().is_terminal() {
            Instant::now(host).ok()
        } else {
            None
        };
        Progress {
            host,
            last: Cell::new(last),
            closed: Cell::new(false),
            talks: false,
        }
    }

    /// The run of a desk that begins now. It is a conversation where standard input and standard error are terminals.
    pub fn of_desk(host: &'a HostRuntime) -> Self {
        let talks = host.stdin().is_terminal() && host.stderr().is_terminal();
        Progress {
            talks,
            ..Progress::new(host)
        }
    }

    /// Whether the run is a conversation.
    pub fn talks(&self) -> bool
        ensures { result ≡ self.now.talks }
    {
        self.talks
    }

    /// Whether the reader of standard output has closed it, as `head` does: then a write to it has failed.
    pub fn is_closed(&self) -> bool {
        self.closed.get()
    }

    /// Begins anew: somebody has typed or seen something just now.
    fn begin(&self) {
        if self.last.get().is_some() {
            self.last.set(Instant::now(self.host).ok());
        }
    }

    /// Whether a second has passed since `last`. Then a line is written now.
    fn is_due(&self) -> bool {
        let Some(last) = self.last.get() else {
            return false;
        };
        let Some(now) = Instant::now(self.host).ok() else {
            return false;
        };
        if now.saturating_duration_since(last) < Duration::from_secs(1) {
            return false;
        }
        self.last.set(Some(now));
        true
    }

    /// Writes a line on the run. Whether it can be written changes nothing.
    fn tell(&self, step: Step<'_>) {
        let _ = writeln!(self.host.stderr(), "copydesk: {step}");
    }

    /// Reports how far the run is, where a second has passed.
    pub fn report(&self, step: Step<'_>) {
        if self.is_due() {
            self.tell(step);
        }
    }

    /// Reports at once, at a terminal.
    pub fn note(&self, step: Step<'_>) {
        if self.last.get().is_some() {
            self.tell(step);
        }
    }

    /// Reports at once in a conversation, and else where a second has passed.
    pub fn report_stored(&self, name: &str) {
        if self.talks {
            self.tell(Step::Stored(name));
        } else {
            self.report(Step::Stored(name));
        }
    }

    /// Says at the end of a conversation that the feed of this name is as it was.
    pub fn tell_same(&self, name: &str) {
        if self.talks {
            self.tell(Step::Same(name));
        }
    }

    /// Writes to standard error in a conversation. Whether that can be written changes nothing.
    pub fn say(&self, text: &str) {
        let _ = write!(self.host.stderr(), "{text}");
    }
}

/// How far a run is, or what is to be known of it at once.
#[derive(Clone, Copy, Debug, PartialEq, Eq)]
pub enum Step<'a> {
    /// So many bytes of standard input are read.
    Input(u64),
    /// So many bytes of a file are read.
    Read(&'a str, u64),
    /// So many bytes of a file are written.
    Written(&'a str, u64),
    /// A file is stored under its name.
    Stored(&'a str),
    /// So many bytes of the answer are written.
    Answer(u64),
    /// The feed of this name was not there before.
    New(&'a str),
    /// The feed of this name has not changed.
    Same(&'a str),
}

impl<'a> Display for Step<'a> {
    fn fmt<W: fmt::Write>(&self, f: &mut Formatter<W>) -> fmt::Result {
        match self {
            Step::Input(bytes) => write!(f, "{bytes} bytes are read"),
            Step::Read(name, bytes) => write!(f, "{}: {bytes} bytes are read", Plain(name)),
            Step::Written(name, bytes) => write!(f, "{}: {bytes} bytes are written", Plain(name)),
            Step::Stored(name) => write!(f, "{} is stored", Plain(name)),
            Step::Answer(bytes) => write!(f, "{bytes} bytes of the answer are written"),
            Step::New(name) => write!(f, "{} is new", Plain(name)),
            Step::Same(name) => write!(
                f,
                "{} has not changed, and is not stored anew",
                Plain(name)
            ),
        }
    }
}

/// What the bytes of a stream are.
#[derive(Clone, Copy, Debug, PartialEq, Eq)]
enum Bytes<'a> {
    Input,
    Answer,
    /// Those that are read of a file.
    From(&'a str),
    /// Those that are written to a file.
    To(&'a str),
    /// Those that somebody types, or sees as they are written.
    Seen,
}

/// A reader or a writer of which it is reported how many bytes went through.
#[derive(Drop)]
pub struct Watched<'a, S: Drop> {
    progress: &'a Progress<'a>,
    stream: S,
    what: Bytes<'a>,
    bytes: u64,
}

impl<'a, S: Drop> Watched<'a, S> {
    fn new(progress: &'a Progress<'a>, stream: S, what: Bytes<'a>) -> Self
        ensures { result.stream ≡ stream }
    {
        Watched {
            progress,
            stream,
            what,
            bytes: 0,
        }
    }

    /// Standard input. What somebody types is not reported.
    pub fn input(progress: &'a Progress<'a>, reader: S) -> Self
    where
        S: Read + IsTerminal,
        ensures { result.stream ≡ reader }
    {
        let what = if reader.is_terminal() {
            Bytes::Seen
        } else {
            Bytes::Input
        };
        Watched::new(progress, reader, what)
    }

    /// Standard output. What somebody sees is not reported.
    pub fn answer(progress: &'a Progress<'a>, writer: S) -> Self
        ensures { result.stream ≡ writer }
    {
        let what = if progress.host.stdout().is_terminal() {
            Bytes::Seen
        } else {
            Bytes::Answer
        };
        Watched::new(progress, writer, what)
    }

    /// A file that is read.
    pub fn from(progress: &'a Progress<'a>, name: &'a str, reader: S) -> Self
        ensures { result.stream ≡ reader }
    {
        Watched::new(progress, reader, Bytes::From(name))
    }

    /// A file that is written.
    pub fn to(progress: &'a Progress<'a>, name: &'a str, writer: S) -> Self
        ensures { result.stream ≡ writer }
    {
        Watched::new(progress, writer, Bytes::To(name))
    }

    /// Counts the bytes of a call.
    fn count(&mut self, bytes: usize)
        ensures { self.new.stream ≡ self.old.stream }
    {
        self.bytes = self.bytes.saturating_add(bytes as u64);
        match self.what {
            Bytes::Input => self.progress.report(Step::Input(self.bytes)),
            Bytes::Answer => self.progress.report(Step::Answer(self.bytes)),
            Bytes::From(name) => self.progress.report(Step::Read(name, self.bytes)),
            Bytes::To(name) => self.progress.report(Step::Written(name, self.bytes)),
            Bytes::Seen => self.progress.begin(),
        }
    }

    /// Notes a write that failed since the other end of standard output is closed.
    fn note(&self, error: &io::Error) {
        if error.kind() == ErrorKind::BrokenPipe && self.what == Bytes::Answer {
            self.progress.closed.set(true);
        }
    }
}

impl<'a, R: Read + Drop> Read for Watched<'a, R> {
    ghost remaining = { λ w. R.remaining w.stream };

    fn read(&mut self, buf: &mut [u8]) -> io::Result<usize> {
        let count = self.stream.read(buf)?;
        self.count(count);
        Ok(count)
    }
}

impl<'a, W: Write + Drop> Write for Watched<'a, W> {
    ghost contents = { λ w. W.contents w.stream };

    fn write(&mut self, buf: &[u8]) -> io::Result<usize> {
        let most = buf.len().min(PIECE);
        match self.stream.write(&buf[..most]) {
            Ok(count) => {
                self.count(count);
                Ok(count)
            }
            Err(error) => {
                self.note(&error);
                Err(error)
            }
        }
    }

    fn flush(&mut self) -> io::Result<()> {
        self.stream.flush()
    }
}
