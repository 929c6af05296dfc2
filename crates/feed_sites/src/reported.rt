//! What is reported of two replicas.

ghost use Rattle.std.specs.Prelude.{◌≡◌, ◌↔◌, ◌++◌, ℕ, IfOk, List, OnOk, T, string_bytes, true};
ghost use Rattle.desk_ops.specs.OpSet.{from_rising, is_rising};
ghost use Rattle.feed_sites.specs.Reported.{Reports, ReportsAlone, ReportsWords, readings_lines};

use crate::alone::alone_in;
use crate::counters::put_alone_line;
use crate::stretches::stretches_of;
use crate::words::put_stretches;
use desk_blocks::Blocks;
use desk_held::AddRefusal;
use desk_memory::NoMemory;
use desk_ops::Op;
use desk_replica::Replica;
use feed_readings::{before_of, report_after};
use std::alloc::Allocator;

/// Whether two lists of operations are one.
fn are_one(one: &[Op], other: &[Op]) -> bool
    ensures { result ≡ true ↔ (one.now ≡ other.now) }
{
    one == other
}

/// The lines of what each of two lists that rise has alone.
fn alone_lines<A: Allocator + Copy>(
    alloc: A,
    one: &str,
    other: &str,
    first: &[Op],
    second: &[Op],
) -> Result<String<A>, NoMemory>
    requires first { T (is_rising first.now) }
    requires second { T (is_rising second.now) }
    ensures { IfOk result
        (λ s. ReportsAlone one.now other.now (from_rising first.now) (from_rising second.now) (string_bytes s)) }
{
    let mut out = String::new(alloc);
    let ones = alone_in(alloc, first, second)?;
    put_alone_line(&mut out, one, &ones)?;
    let others = alone_in(alloc, second, first)?;
    put_alone_line(&mut out, other, &others)?;
    Ok(out)
}

/// The lines of what each of two replicas has alone, and whether they hold the same.
fn alone_of<A: Allocator + Copy>(
    alloc: A,
    one: &str,
    other: &str,
    first: &Replica<Blocks<A>>,
    second: &Replica<Blocks<A>>,
) -> Result<(String<A>, bool), NoMemory>
    ensures text { IfOk result (λ t. ReportsAlone one.now other.now first.now.ops second.now.ops (string_bytes t.0)) }
    ensures same { IfOk result (λ t. t.1 ≡ true ↔ (first.now.ops ≡ second.now.ops)) }
{
    let ones = first.in_order()?;
    let others = second.in_order()?;
    let lines = alone_lines(alloc, one, other, &ones, &others)?;
    Ok((lines, are_one(&ones, &others)))
}

/// Writes the lines of the words in which the copies of two replicas differ at the end: of each stretch `- 12 the
/// quick`, with its place in the first copy, from 0, and the words there, and `+ 12 the slow` with those of the second.
/// Where the copies are one it writes nothing.
pub fn put_words<A: Allocator + Copy>(
    alloc: A,
    out: &mut Vec<u8, A>,
    first: &Replica<Blocks<A>>,
    second: &Replica<Blocks<A>>,
) -> Result<(), NoMemory>
    ensures { OnOk result ((words : List ℕ) × ReportsWords first.now.ops second.now.ops words
        × (out.new.items ≡ out.old.items ++ words)) }
{
    let one = first.copy()?;
    let other = second.copy()?;
    let stretches = stretches_of(alloc, &one, &other)?;
    put_stretches(alloc, out, &one, &other, &stretches)
}

/// The lines of the readings that are open where the second replica joins the first. Where that brings nothing new, or
/// both are more than a replica holds, there are none.
fn readings_lines<A: Allocator + Copy>(
    alloc: A,
    mut first: Replica<Blocks<A>>,
    second: &Replica<Blocks<A>>,
) -> Result<Vec<u8, A>, NoMemory>
    ensures { IfOk result (λ v. v.items ≡ readings_lines first.ops second.now.ops) }
{
    let held = first.len();
    let ops = second.in_order()?;
    let before = before_of(alloc, &first, &ops)?;
    match first.take_all(&ops) {
        Ok(_) => {
            if first.len() == held {
                return Ok(Vec::new(alloc));
            }
            let (lines, _) = report_after(alloc, before, ops, &first)?;
            Ok(lines)
        }
        Err(stopped) => match stopped.why {
            AddRefusal::NoMemory => Err(NoMemory),
            AddRefusal::Full => Ok(Vec::new(alloc)),
        },
    }
}

/// What is reported of two replicas, and whether they hold the same.
pub fn reported_of<A: Allocator + Copy>(
    alloc: A,
    one: &str,
    other: &str,
    first: Replica<Blocks<A>>,
    second: &Replica<Blocks<A>>,
) -> Result<(Vec<u8, A>, bool), NoMemory>
    ensures { IfOk result (λ t. Reports one.now other.now first.ops second.now.ops t.0.items t.1) }
{
    let (lines, same) = alone_of(alloc, one, other, &first, second)?;
    let mut out = Vec::new(alloc);
    out.extend_from_slice(lines.as_bytes())?;
    put_words(alloc, &mut out, &first, second)?;
    let readings = readings_lines(alloc, first, second)?;
    out.extend_from_slice(&readings)?;
    Ok((out, same))
}
