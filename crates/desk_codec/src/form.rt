//! The forms of feed: their magics, and the kinds of operations.

ghost use Rattle.std.specs.Prelude.{◌≡◌, ◌≢◌, ◌≤◌, length, MatchOption, None, Some};
ghost use Rattle.desk_codec.specs.declared.form.FeedForm.{FeedForm};
ghost use Rattle.desk_codec.specs.Feed.{magic_of};
ghost use Rattle.desk_codec.specs.Spelling.{size_of_kind, spelling};
ghost use Rattle.desk_codec.specs.Form.{kind_byte, kind_size};

use desk_ops::Op;

/// The two forms of feed, known by what a feed begins with.
#[derive(Clone, Copy, Debug, PartialEq, Eq)]
pub enum FeedForm {
    /// Single operations alone, after `MFD1`.
    Singles,
    /// Single operations and runs of inserts, after `MFD2`.
    Runs,
}

/// What a feed of single operations begins with.
pub const MAGIC: [u8; 4] = *b"MFD1";

/// What a feed of runs begins with.
pub const RUNS_MAGIC: [u8; 4] = *b"MFD2";

/// The fewest bytes that an operation or a run takes.
pub const LEAST_SIZE: usize = 16;

/// The most bytes that an operation or a run takes.
pub const MOST_SIZE: usize = 342;

/// The most bytes that an operation takes which is not in a run.
pub const MOST_OP_SIZE: usize = 26;

/// The byte that a run begins with.
pub const RUN_KIND: u8 = 4;

/// How many bytes of a run come before its symbols: its kind, its two stamps, and its count.
pub const RUN_PREFIX: usize = 22;

/// How many bytes a stamp takes.
pub const STAMP_SIZE: usize = 10;

/// How many bytes a symbol of a run takes.
pub const SYMBOL_SIZE: usize = 5;

/// The fewest inserts of a run.
pub const LEAST_RUN: usize = 2;

/// The most inserts of a run.
pub const MOST_RUN: usize = 64;

impl FeedForm {
    /// The form of the feeds that begin with these bytes, or none.
    pub fn of_magic(bytes: &[u8]) -> Option<FeedForm>
        ensures { MatchOption result ((form : FeedForm) → bytes.now ≡ magic_of form
            → ⊥) (λ form. bytes.now ≡ magic_of form) }
    {
        if bytes == MAGIC.as_slice() {
            Some(FeedForm::Singles)
        } else if bytes == RUNS_MAGIC.as_slice() {
            Some(FeedForm::Runs)
        } else {
            None
        }
    }

    /// How many operations room is kept for, to read so many bytes: each takes 16 bytes at least, or 5 in runs, of
    /// which one at
    /// least has a prefix.
    pub fn most_ops(self, size: usize) -> usize
        ensures { result ≢ 0 → 16 ≤ size }
    {
        let singles = size / LEAST_SIZE;
        match self {
            FeedForm::Singles => singles,
            FeedForm::Runs => singles.max(size.saturating_sub(RUN_PREFIX) / SYMBOL_SIZE),
        }
    }
}

/// The byte that an operation begins with.
#[derive(Clone, Copy)]
pub enum Kind {
    Insert = 1,
    Delete = 2,
    Set = 3,
}

impl Kind {
    /// The kind of an operation.
    pub fn of(op: &Op) -> Kind
        ensures { kind_size result ≡ length (spelling op.now) }
    {
        match op {
            Op::Insert { .. } => Kind::Insert,
            Op::Delete { .. } => Kind::Delete,
            Op::Set { .. } => Kind::Set,
        }
    }

    /// The kind of this byte, 1 to 3, or none.
    pub fn of_byte(byte: u8) -> Option<Kind>
        ensures { MatchOption result (size_of_kind byte ≡ None) (λ kind. kind_byte kind ≡ byte) }
    {
        match byte {
            1 => Some(Kind::Insert),
            2 => Some(Kind::Delete),
            3 => Some(Kind::Set),
            _ => None,
        }
    }

    /// How many bytes an operation of the kind takes.
    pub fn size(self) -> usize
        ensures size { result ≡ kind_size self }
        ensures is { size_of_kind (kind_byte self) ≡ Some result }
    {
        match self {
            Kind::Insert => 26,
            Kind::Delete => 21,
            Kind::Set => 16,
        }
    }
}
