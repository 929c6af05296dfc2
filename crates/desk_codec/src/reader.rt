//! Reading a feed in pieces.

ghost use Rattle.std.specs.Prelude.{◌≡◌, ◌≢◌, ℕ, ◌+◌, ◌*◌, ◌<◌, ◌≤◌, ◌^◌, List, ◌++◌, true, false, length, get_or};
ghost use Rattle.std.specs.Prelude.{IfSome, IfOk, IfErr, Some, None, Err};
ghost use Rattle.arrayvec.specs.ArrayVec.{array_vec_len};
ghost use Rattle.desk_codec.specs.declared.form.FeedForm.{FeedForm};
ghost use Rattle.desk_codec.specs.Feed.{magic_of};
ghost use Rattle.desk_codec.specs.Fault.{IsCut, IsWrong};
ghost use Rattle.desk_codec.specs.ItemReading.{GivesItem, GivesItems, GivesRest};
ghost use Rattle.desk_codec.specs.Pieces.{fresh, ended, Takes, Refuses, IsWhole, RefusesEnd, IsUnended, ShowsFirst};
ghost use Rattle.desk_codec.specs.PieceReading.{Lacks, LeavesSo, ReadsSo, Resumes, StopsOn, kept_after};
ghost use Rattle.desk_codec.specs.declared.fault.FeedWhy.TheVariants as why;
ghost use Rattle.desk_codec.specs.declared.fault.ReadFault.TheVariants as fault;

use crate::fault::{FeedFault, FeedWhy, ReadFault};
use crate::form::{FeedForm, Kind, MAGIC, MOST_SIZE, RUN_PREFIX, SYMBOL_SIZE};
use crate::gathered::Gathered;
use crate::items::next_item;
use crate::writing::put;
use arrayvec::ArrayVec;
use desk_ops::Op;
use std::alloc::Allocator;
use std::marker::Model;

/// Reads a feed that comes in pieces, cut anywhere. It is seen as the form of the feed, if its magic was read, the
/// number of
/// bytes taken, the bytes kept of a magic, operation or run that is not whole yet, and whether it returns `Failed`
/// from now on.
#[derive(Drop)]
pub struct FeedReader {
    form: Option<FeedForm>,
    taken: u64,
    kept: ArrayVec<u8, MOST_SIZE>,
    /// So many bytes at least are lacking until something is whole or wrong.
    missing: usize,
    failed: bool,
}

impl Model for FeedReader {
    ghost use Rattle.desk_codec.specs.Pieces.{Reader};
    ghost use Rattle.desk_codec.specs.PieceReading.{IsReader};

    ghost Value = { Reader };

    ghost view = { λ r. record { form = r.form; taken = r.taken; kept = r.kept.items; failed = r.failed } };

    ghost invariant = { λ r. IsReader (record {
      form = r.form;
      taken = r.taken;
      kept = r.kept.items;
      failed = r.failed;
    }) r.missing };
}

/// What was read of a piece: the form of the feed, the operations, and the end of the piece that is to be kept, behind
/// what was
/// kept before it or in place of that.
struct PieceRead<'a, A: Allocator> {
    form: FeedForm,
    ops: Gathered<A>,
    rest: &'a [u8],
    is_behind: bool,
}

impl FeedReader {
    /// A reader that has taken nothing.
    pub fn new() -> FeedReader
        ensures { result ≡ fresh }
    {
        FeedReader {
            form: None,
            taken: 0,
            kept: ArrayVec::new(),
            missing: MAGIC.len(),
            failed: false,
        }
    }

    /// The operations whose last byte comes in this piece, or the first fault that the pieces so far show. A run
    /// counts as one
    /// operation: all its inserts come with its last byte. After a fault every call returns `Failed`. `NoMemory` comes
    /// of a piece
    /// that shows no fault, and the piece was not taken. All pieces together have fewer than 2^63 bytes.
    pub fn feed<A: Allocator>(&mut self, alloc: A, piece: &[u8]) -> Result<Vec<Op, A>, ReadFault>
        requires { self.old.taken + length piece.now < 2 ^ 63 }
        ensures taken { IfOk result (λ ops. Takes self.old piece.now ops.items self.new) }
        ensures refused { IfErr result (λ fault. Refuses self.old piece.now fault self.new) }
        ensures latched { self.old.failed ≡ true → result ≡ Err fault.Failed }
    {
        if self.failed {
            return Err(ReadFault::Failed);
        }
        if piece.len() < self.missing {
            keep_more(&mut self.kept, piece);
            self.missing -= piece.len();
            self.taken += piece.len() as u64;
            return Ok(Vec::new(alloc));
        }
        self.feed_whole(alloc, piece)
    }

    /// The same for a piece that may make something whole.
    #[inline(never)]
    fn feed_whole<A: Allocator>(&mut self, alloc: A, piece: &[u8]) -> Result<Vec<Op, A>, ReadFault>
        requires few { self.old.taken + length piece.now < 2 ^ 63 }
        requires answers { self.old.failed ≡ false }
        requires enough { self.old.form ≡ None → 4 ≤ length self.old.kept + length piece.now }
        ensures taken { IfOk result (λ ops. Takes self.old piece.now ops.items self.new) }
        ensures refused { IfErr result (λ fault. Refuses self.old piece.now fault self.new) }
    {
        let place = self.taken - self.kept.len() as u64;
        match read_piece(alloc, self.form, place, &mut self.kept, piece) {
            Ok(
                PieceRead {
                    form,
                    ops,
                    rest,
                    is_behind,
                },
            ) => {
                let Some(ops) = ops.list() else {
                    return Err(ReadFault::NoMemory);
                };
                keep(&mut self.kept, is_behind, rest);
                self.missing = missing_after(form, self.kept.as_slice());
                self.form = Some(form);
                self.taken += piece.len() as u64;
                Ok(ops)
            }
            Err(fault) => {
                self.failed = true;
                Err(ReadFault::Fault(fault))
            }
        }
    }

    /// Whether the pieces so far are a whole feed, or else the fault of their end. From now on every call returns
    /// `Failed`.
    pub fn finish(&mut self) -> Result<(), ReadFault>
        ensures whole { IfOk result (λ _. IsWhole self.old) }
        ensures refused { IfErr result (λ fault. RefusesEnd self.old fault) }
        ensures ended { self.new ≡ ended self.old }
        ensures latched { self.old.failed ≡ true → result ≡ Err fault.Failed }
    {
        if self.failed {
            return Err(ReadFault::Failed);
        }
        self.failed = true;
        if self.form.is_none() {
            return Err(ReadFault::Fault(FeedFault {
                at: 0,
                why: FeedWhy::Magic,
            }));
        }
        if !self.kept.is_empty() {
            return Err(ReadFault::Fault(FeedFault {
                at: self.taken - self.kept.len() as u64,
                why: FeedWhy::Cut,
            }));
        }
        Ok(())
    }
}

/// Keeps a piece, behind what was kept before it. One byte needs no copy.
fn keep_more(kept: &mut ArrayVec<u8, MOST_SIZE>, piece: &[u8])
    requires { array_vec_len kept.old + length piece.now ≤ MOST_SIZE }
    ensures { kept.new.items ≡ kept.old.items ++ piece.now }
{
    match piece {
        [byte] => kept.push(*byte),
        _ => put(kept, piece),
    }
}

/// Keeps the end of a piece, behind what was kept before it or in place of that.
fn keep(kept: &mut ArrayVec<u8, MOST_SIZE>, is_behind: bool, rest: &[u8])
    requires { length (kept_after is_behind kept.old.items rest.now) ≤ MOST_SIZE }
    ensures { kept.new.items ≡ kept_after is_behind kept.old.items rest.now }
{
    if !is_behind {
        kept.clear();
    }
    put(kept, rest);
}

/// How many bytes a run takes that begins with these bytes, or how many come before its symbols where its count is
/// lacking.
fn run_size(bytes: &[u8]) -> usize
    ensures prefix { length bytes.now < 22 → result ≡ 22 }
    ensures whole { 22 ≤ length bytes.now → result ≡ 22 + 5 * get_or bytes.now 21 0 }
{
    match bytes.get(RUN_PREFIX - 1) {
        Some(&count) => RUN_PREFIX + SYMBOL_SIZE * count as usize,
        None => RUN_PREFIX,
    }
}

/// So many bytes at least are lacking until the operation or run that begins with these bytes is whole or wrong, or
/// until the
/// next kind is there where there are none.
fn missing_after(form: FeedForm, bytes: &[u8]) -> usize
    requires { IsUnended form bytes.now }
    ensures { Lacks form bytes.now result }
{
    let Some(&byte) = bytes.first() else {
        return 1;
    };
    match Kind::of_byte(byte) {
        Some(kind) => kind.size() - bytes.len(),
        None => run_size(bytes) - bytes.len(),
    }
}

/// The bytes of a magic one after the other.
fn join(prefix: &[u8], end: &[u8]) -> ArrayVec<u8, 4>
    requires { length prefix.now + length end.now ≤ 4 }
    ensures { result.items ≡ prefix.now ++ end.now }
{
    let mut all = ArrayVec::new();
    put(&mut all, prefix);
    put(&mut all, end);
    all
}

/// The form of the feed whose magic the start of the piece makes whole, and what follows it, or none where other bytes
/// stand.
fn after_magic<'a>(kept: &[u8], piece: &'a [u8]) -> Option<(FeedForm, &'a [u8])>
    requires few { length kept.now < 4 }
    requires enough { 4 ≤ length kept.now + length piece.now }
    ensures magic { IfSome result (λ read. kept.now ++ piece.now ≡ magic_of read.0 ++ read.1.now) }
    ensures none { result ≡ None → (form : FeedForm) (rest : List ℕ) → kept.now ++ piece.now ≡ magic_of form ++ rest
        → ⊥ }
{
    let (end, rest) = piece.split_at(MAGIC.len() - kept.len());
    match FeedForm::of_magic(join(kept, end).as_slice()) {
        Some(form) => Some((form, rest)),
        None => None,
    }
}

/// Appends the operations of the item at the start of these bytes, and gives how many bytes come after it; or what is
/// wrong.
fn item_in<A: Allocator>(
    form: FeedForm,
    bytes: &[u8],
    ops: &mut Gathered<A>,
) -> Result<usize, FeedWhy>
    requires { 0 < length bytes.now }
    ensures item { IfOk result (λ n. LeavesSo form bytes.now ops.old ops.new n) }
    ensures refused { IfErr result (λ w. IsWrong form bytes.now w) }
    ensures cut { result ≡ Err why.Cut → ops.new ≡ ops.old }
{
    let rest = next_item(form, bytes, ops)?;
    Ok(rest.len())
}

/// Appends the operations of the item whose prefix was kept and that the piece makes whole, and gives the rest of the
/// piece; or
/// what is wrong, `Cut` where it is not whole yet. What was kept stays.
fn first_item<'a, A: Allocator>(
    form: FeedForm,
    kept: &mut ArrayVec<u8, MOST_SIZE>,
    piece: &'a [u8],
    ops: &mut Gathered<A>,
) -> Result<&'a [u8], FeedWhy>
    requires { IsCut form kept.old.items }
    ensures item { IfOk result (λ rest. GivesItem form (kept.old.items ++ piece.now) ops.old ops.new rest.now) }
    ensures refused { IfErr result (λ w. IsWrong form (kept.old.items ++ piece.now) w) }
    ensures cut { result ≡ Err why.Cut → ops.new ≡ ops.old }
    ensures same { kept.new.items ≡ kept.old.items }
{
    let len = kept.len();
    let size = piece.len().min(MOST_SIZE - len);
    let (end, beyond) = piece.split_at(size);
    put(kept, end);
    let read = item_in(form, kept.as_slice(), ops);
    kept.truncate(len);
    let left = read?;
    Ok(&piece[size - left..])
}

/// Appends the operations of the items at the start of the bytes at a place, and gives the bytes of no whole item
/// after them.
fn read_whole<'a, A: Allocator>(
    form: FeedForm,
    place: u64,
    bytes: &'a [u8],
    ops: &mut Gathered<A>,
) -> Result<&'a [u8], FeedFault>
    requires { place + length bytes.now < 2 ^ 63 }
    ensures read { IfOk result (λ rest. GivesItems form bytes.now ops.old ops.new rest.now × IsUnended form rest.now) }
    ensures fault { IfErr result (λ fault. StopsOn form place bytes.now fault) }
{
    let mut rest = bytes;
    while !rest.is_empty() {
        match next_item(form, rest, ops) {
            Ok(after) => rest = after,
            Err(why) => match why {
                FeedWhy::Cut => return Ok(rest),
                _ => {
                    let at = place + (bytes.len() - rest.len()) as u64;
                    return Err(FeedFault { at, why });
                }
            },
        }
    }
    Ok(rest)
}

/// The operations given before and those of the items at the start of the bytes at a place, and the bytes to be kept
/// after.
fn read_rest<'a, A: Allocator>(
    form: FeedForm,
    place: u64,
    bytes: &'a [u8],
    ops: Gathered<A>,
) -> Result<PieceRead<'a, A>, FeedFault>
    requires { place + length bytes.now < 2 ^ 63 }
    ensures read { IfOk result (λ read. GivesRest form bytes.now ops read.form read.ops read.rest.now
        × (read.is_behind ≡ false)) }
    ensures fault { IfErr result (λ fault. StopsOn form place bytes.now fault) }
{
    let mut ops = ops;
    let rest = read_whole(form, place, bytes, &mut ops)?;
    Ok(PieceRead {
        form,
        ops,
        rest,
        is_behind: false,
    })
}

/// The operations of the items that the bytes kept and the piece after them make whole, and what is to be kept after.
fn read_items<'a, A: Allocator>(
    alloc: A,
    form: FeedForm,
    place: u64,
    kept: &mut ArrayVec<u8, MOST_SIZE>,
    piece: &'a [u8],
) -> Result<PieceRead<'a, A>, FeedFault>
    requires unended { IsUnended form kept.old.items }
    requires few { place + (length kept.old.items + length piece.now) < 2 ^ 63 }
    ensures read { IfOk result
        (λ read. ReadsSo (Some form) (kept.old.items ++ piece.now) read.ops read.form
        (kept_after read.is_behind kept.old.items read.rest.now)) }
    ensures fault { IfErr result (λ fault. ShowsFirst (Some form) place (kept.old.items ++ piece.now) fault) }
    ensures same { kept.new.items ≡ kept.old.items }
{
    let most = form.most_ops(kept.len() + piece.len());
    let mut ops = Gathered::with_capacity(alloc, most);
    if kept.is_empty() {
        return read_rest(form, place, piece, ops);
    }
    let len = kept.len();
    match first_item(form, kept, piece, &mut ops) {
        Ok(after) => {
            let at = place + (len + piece.len() - after.len()) as u64;
            read_rest(form, at, after, ops)
        }
        Err(why) => match why {
            FeedWhy::Cut => Ok(PieceRead {
                form,
                ops,
                rest: piece,
                is_behind: true,
            }),
            _ => Err(FeedFault { at: place, why }),
        },
    }
}

/// The operations of the bytes kept and a piece that makes the magic whole, or that follows it, and what is to be kept
/// after.
fn read_piece<'a, A: Allocator>(
    alloc: A,
    form: Option<FeedForm>,
    place: u64,
    kept: &mut ArrayVec<u8, MOST_SIZE>,
    piece: &'a [u8],
) -> Result<PieceRead<'a, A>, FeedFault>
    requires resumes { Resumes form place kept.old.items }
    requires enough { form ≡ None → 4 ≤ length kept.old.items + length piece.now }
    requires few { place + (length kept.old.items + length piece.now) < 2 ^ 63 }
    ensures read { IfOk result
        (λ read. ReadsSo form (kept.old.items ++ piece.now) read.ops read.form
        (kept_after read.is_behind kept.old.items read.rest.now)) }
    ensures fault { IfErr result (λ fault. ShowsFirst form place (kept.old.items ++ piece.now) fault) }
    ensures same { kept.new.items ≡ kept.old.items }
{
    if let Some(form) = form {
        return read_items(alloc, form, place, kept, piece);
    }
    match after_magic(kept.as_slice(), piece) {
        Some((form, rest)) => read_after_magic(alloc, form, rest),
        None => Err(FeedFault {
            at: 0,
            why: FeedWhy::Magic,
        }),
    }
}

/// The operations of the items behind a magic, and what is to be kept after.
fn read_after_magic<'a, A: Allocator>(
    alloc: A,
    form: FeedForm,
    piece: &'a [u8],
) -> Result<PieceRead<'a, A>, FeedFault>
    requires few { 4 + length piece.now < 2 ^ 63 }
    ensures read { IfOk result (λ read. ReadsSo (Some form) piece.now read.ops read.form read.rest.now
        × (read.is_behind ≡ false)) }
    ensures fault { IfErr result (λ fault. ShowsFirst (Some form) 4 piece.now fault) }
{
    let ops = Gathered::with_capacity(alloc, form.most_ops(piece.len()));
    read_rest(form, 4, piece, ops)
}
