//! Reading operations.

ghost use Rattle.std.specs.Prelude.{◌≡◌, ◌<◌, ◌++◌, List, length, All, IfOk, IfErr, Ok, Err};
ghost use Rattle.desk_ops.specs.declared.op.Op.{Op};
ghost use Rattle.desk_ops.specs.Op.{IsLawful};
ghost use Rattle.desk_codec.specs.Spelling.{spelling, IsHeld};
ghost use Rattle.desk_codec.specs.Feed.{IsFeed};
ghost use Rattle.desk_codec.specs.Fault.{IsWrong, IsFirstFault};
ghost use Rattle.desk_codec.specs.Reading.{Reports, Answers, MayHoldOne};
ghost use Rattle.desk_codec.specs.declared.form.FeedForm.TheVariants.{Singles};
ghost use Rattle.desk_codec.specs.declared.fault.FeedFault.{FeedFault};
ghost use Rattle.desk_codec.specs.declared.fault.ReadFault.TheVariants as fault;

use crate::fault::{FeedWhy, ReadFault};
use crate::fields::{Fields, take_byte};
use crate::form::Kind;
use crate::reader::FeedReader;
use desk_ops::Op;
use std::alloc::Allocator;

/// The operation at the start of bytes and the bytes after it, or what is wrong there. No run is read.
pub fn next_op(bytes: &[u8]) -> Result<(Op, &[u8]), FeedWhy>
    requires { 0 < length bytes.now }
    ensures op { IfOk result (λ next. IsHeld next.0 × (bytes.now ≡ spelling next.0 ++ next.1.now)) }
    ensures wrong { IfErr result (λ why. IsWrong Singles bytes.now why) }
{
    let (byte, rest) = take_byte(bytes);
    let Some(kind) = Kind::of_byte(byte) else {
        return Err(FeedWhy::Kind);
    };
    if bytes.len() < kind.size() {
        return Err(FeedWhy::Cut);
    }
    let (fields, rest) = Fields::take(kind, rest);
    let op = fields.op()?;
    Ok((op, rest))
}

/// One `feed` of all bytes, and one `finish`.
fn operations_of<A: Allocator>(alloc: A, bytes: &[u8]) -> Result<Vec<Op, A>, ReadFault>
    ensures feed { IfOk result (λ ops. IsFeed bytes.now ops.items) }
    ensures fault { IfErr result (λ fault. Reports bytes.now fault) }
    ensures memory { result ≡ Err fault.NoMemory → MayHoldOne bytes.now }
{
    let mut reader = FeedReader::new();
    let ops = reader.feed(alloc, bytes)?;
    reader.finish()?;
    Ok(ops)
}

/// The operations of a feed, or the first fault of bytes that are none. It never returns `Failed`.
pub fn read_feed<A: Allocator>(alloc: A, bytes: &[u8]) -> Result<Vec<Op, A>, ReadFault>
    ensures feed { IfOk result (λ ops. IsFeed bytes.now ops.items) }
    ensures lawful { IfOk result (λ ops. All IsLawful ops.items) }
    // A fault is the first from the left.
    ensures fault { IfErr result (λ fault. Reports bytes.now fault) }
    // The feed of a list is read as that list, and bytes with a first fault are refused with it, unless memory runs
    // out.
    ensures only { (ops : List Op) → IsFeed bytes.now ops → Answers (λ v. v.items) result (Ok ops) }
    ensures first { (fault : FeedFault) → IsFirstFault bytes.now fault → Answers (λ v. v.items) result (Err fault) }
    // Bytes without a magic, or with too few after it for an operation, are never reported as out of memory.
    ensures memory { result ≡ Err fault.NoMemory → MayHoldOne bytes.now }
{
    operations_of(alloc, bytes)
}
