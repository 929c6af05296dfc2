//! Reading the items of a feed: operations and runs.

ghost use Rattle.std.specs.Prelude.{◌≡◌, ◌*◌, ◌≤◌, ◌<◌, length, get_or, IfOk, IfErr, Err};
ghost use Rattle.desk_codec.specs.declared.form.FeedForm.TheVariants.{Runs};
ghost use Rattle.desk_codec.specs.declared.fault.FeedWhy.TheVariants as why;
ghost use Rattle.desk_codec.specs.Fault.{IsWrong};
ghost use Rattle.desk_codec.specs.ItemReading.{GivesItem, GivesInserts, HasUnlawful, RunPrefix};

use crate::fault::FeedWhy;
use crate::fields::{Fields, take_byte, take_stamp, take_u32};
use crate::form::{FeedForm, LEAST_RUN, MOST_RUN, RUN_KIND, RUN_PREFIX, SYMBOL_SIZE};
use crate::gathered::Gathered;
use crate::reading::next_op;
use desk_ops::{Stamp, Unlawful};
use std::alloc::Allocator;

/// Appends the inserts of a run from the bytes of so many symbols, and gives the bytes after them; or the first
/// cause of the first that is not lawful.
fn take_inserts<'a, A: Allocator>(
    stamp: Stamp,
    parent: Stamp,
    count: usize,
    bytes: &'a [u8],
    ops: &mut Gathered<A>,
) -> Result<&'a [u8], Unlawful>
    requires { 5 * count ≤ length bytes.now }
    ensures inserts { IfOk result (λ rest. GivesInserts stamp parent count bytes.now ops.old ops.new rest.now) }
    ensures refused { IfErr result (λ first. HasUnlawful stamp parent count bytes.now first) }
{
    if count == 0 {
        return Ok(bytes);
    }
    let (style, rest) = take_byte(bytes);
    let (ch, rest) = take_u32(rest);
    let fields = Fields::Insert {
        stamp,
        parent,
        style,
        ch,
    };
    let op = fields.op()?;
    ops.push(op);
    let next = Stamp {
        counter: stamp.counter + 1,
        site: stamp.site,
    };
    take_inserts(next, stamp, count - 1, rest, ops)
}

/// A run's first stamp, its parent and its count, and the bytes after them.
fn take_prefix(bytes: &[u8]) -> (Stamp, Stamp, u8, &[u8])
    requires kind { get_or bytes.now 0 0 ≡ 4 }
    requires whole { 22 ≤ length bytes.now }
    ensures prefix { RunPrefix bytes.now result.0 result.1 result.2 result.3.now }
{
    let (_, rest) = take_byte(bytes);
    let (stamp, rest) = take_stamp(rest);
    let (parent, rest) = take_stamp(rest);
    let (count, rest) = take_byte(rest);
    (stamp, parent, count, rest)
}

/// Appends the inserts of the run at the start of bytes, and gives the bytes after it; or what is wrong there.
fn next_run<'a, A: Allocator>(bytes: &'a [u8], ops: &mut Gathered<A>) -> Result<&'a [u8], FeedWhy>
    requires kind { get_or bytes.now 0 0 ≡ 4 }
    requires some { 0 < length bytes.now }
    ensures item { IfOk result (λ rest. GivesItem Runs bytes.now ops.old ops.new rest.now) }
    ensures refused { IfErr result (λ w. IsWrong Runs bytes.now w) }
    ensures cut { result ≡ Err why.Cut → ops.new ≡ ops.old }
{
    if bytes.len() < RUN_PREFIX {
        return Err(FeedWhy::Cut);
    }
    let (stamp, parent, count, rest) = take_prefix(bytes);
    let count = count as usize;
    if count < LEAST_RUN || count > MOST_RUN {
        return Err(FeedWhy::Run);
    }
    if rest.len() < SYMBOL_SIZE * count {
        return Err(FeedWhy::Cut);
    }
    let rest = take_inserts(stamp, parent, count, rest, ops)?;
    Ok(rest)
}

/// Appends the operations of the item at the start of bytes, and gives the bytes after it; or what is wrong there.
pub fn next_item<'a, A: Allocator>(
    form: FeedForm,
    bytes: &'a [u8],
    ops: &mut Gathered<A>,
) -> Result<&'a [u8], FeedWhy>
    requires { 0 < length bytes.now }
    ensures item { IfOk result (λ rest. GivesItem form bytes.now ops.old ops.new rest.now) }
    ensures refused { IfErr result (λ w. IsWrong form bytes.now w) }
    ensures cut { result ≡ Err why.Cut → ops.new ≡ ops.old }
{
    if bytes[0] == RUN_KIND {
        return match form {
            FeedForm::Singles => Err(FeedWhy::Kind),
            FeedForm::Runs => next_run(bytes, ops),
        };
    }
    let (op, rest) = next_op(bytes)?;
    ops.push(op);
    Ok(rest)
}
