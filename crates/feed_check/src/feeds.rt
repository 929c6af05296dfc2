//! What is said of the bytes of a feed.

ghost use Rattle.std.specs.Prelude.{◌≡◌, ◌++◌, IfOk, OnOk, false, string_bytes, true};
ghost use Rattle.feed_check.specs.Lines.{SaysFeed};
ghost use Rattle.feed_check.specs.Words.{crowded_words, feed_fault_words, operations_words, set_words, shown_words};
ghost use Rattle.feed_check.specs.Words.{why_words};

use crate::reported::Reported;
use desk_blocks::Blocks;
use desk_codec::{FeedFault, FeedWhy};
use desk_held::LIMIT;
use desk_memory::NoMemory;
use desk_replica::Replica;
use feed_edit::ANY_SITE;
use feed_stored::{OpenFault, open_replica};
use script_answers::{Reply, put};
use std::alloc::{AllocError, Allocator};

/// Writes what is wrong at a place of a feed.
fn put_why<A: Allocator + Copy>(out: &mut String<A>, why: FeedWhy) -> Result<(), AllocError>
    ensures { OnOk result (string_bytes out.new ≡ string_bytes out.old ++ why_words why) }
{
    match why {
        FeedWhy::Magic => out.push_str("no feed begins so"),
        FeedWhy::Kind => out.push_str("no such kind of operation"),
        FeedWhy::Unlawful(cause) => {
            out.push_str("unlawful: ")?;
            out.push_str(cause.words())
        }
        FeedWhy::Cut => out.push_str("cut off"),
        FeedWhy::Run => out.push_str("no run has so many"),
    }
}

/// Writes the first fault of a feed, with the byte that its operation or run begins at.
fn put_feed_fault<A: Allocator + Copy>(
    out: &mut String<A>,
    fault: FeedFault,
) -> Result<(), AllocError>
    ensures { OnOk result (string_bytes out.new ≡ string_bytes out.old ++ feed_fault_words fault) }
{
    write!(out, "feed refused: byte {}: ", fault.at)?;
    put_why(out, fault.why)
}

/// Writes how many operations there are.
fn put_operations<A: Allocator + Copy>(out: &mut String<A>, count: usize) -> Result<(), AllocError>
    ensures { OnOk result (string_bytes out.new ≡ string_bytes out.old ++ operations_words count) }
{
    write!(out, "ok: {count} operations, ")
}

/// Writes how many symbols are shown.
fn put_shown<A: Allocator + Copy>(out: &mut String<A>, count: usize) -> Result<(), AllocError>
    ensures { OnOk result (string_bytes out.new ≡ string_bytes out.old ++ shown_words count) }
{
    write!(out, "{count} symbols shown, ")
}

/// Writes how many operations a replica holds, how many symbols it shows, and the faults of its copy.
fn put_set<A: Allocator + Copy>(
    out: &mut String<A>,
    replica: &Replica<Blocks<A>>,
) -> Result<(), NoMemory>
    ensures { OnOk result (string_bytes out.new ≡ string_bytes out.old ++ set_words replica.now.ops) }
{
    let faults = Reply::Faults(replica.copy_faults()?);
    put_operations(out, replica.len())?;
    put_shown(out, replica.copy_len())?;
    Ok(put(out, &faults)?)
}

/// What is said of a replica.
fn set_reported<A: Allocator + Copy>(
    alloc: A,
    replica: &Replica<Blocks<A>>,
) -> Result<Reported<A>, NoMemory>
    ensures text { IfOk result (λ t. string_bytes t.text ≡ set_words replica.now.ops) }
    ensures well { IfOk result (λ t. t.well ≡ true) }
{
    let mut text = String::new(alloc);
    put_set(&mut text, replica)?;
    Ok(Reported { text, well: true })
}

/// What is said of a feed that has a fault.
fn wrong_reported<A: Allocator + Copy>(alloc: A, fault: FeedFault) -> Result<Reported<A>, NoMemory>
    ensures text { IfOk result (λ t. string_bytes t.text ≡ feed_fault_words fault) }
    ensures well { IfOk result (λ t. t.well ≡ false) }
{
    let mut text = String::new(alloc);
    put_feed_fault(&mut text, fault)?;
    Ok(Reported { text, well: false })
}

/// What is said of a feed of more operations than a replica holds.
fn crowded_reported<A: Allocator + Copy>(alloc: A) -> Result<Reported<A>, NoMemory>
    ensures text { IfOk result (λ t. string_bytes t.text ≡ crowded_words) }
    ensures well { IfOk result (λ t. t.well ≡ false) }
{
    let mut text = String::new(alloc);
    write!(text, "feed refused: more than {LIMIT} operations")?;
    Ok(Reported { text, well: false })
}

/// What is said of a feed: what it holds and shows, or its first fault, or that a replica holds fewer operations.
pub fn feed_reported<A: Allocator + Copy>(
    alloc: A,
    bytes: Vec<u8, A>,
) -> Result<Reported<A>, NoMemory>
    ensures { IfOk result (λ t. SaysFeed bytes.items (string_bytes t.text) t.well) }
{
    match open_replica(alloc, &Some(bytes), ANY_SITE) {
        Ok(replica) => set_reported(alloc, &replica),
        Err(OpenFault::Feed(fault)) => wrong_reported(alloc, fault),
        Err(OpenFault::Opening(_)) => crowded_reported(alloc),
        Err(OpenFault::NoMemory) => Err(NoMemory),
    }
}
