//! Writing feeds of runs.

ghost use Rattle.std.specs.Prelude.{◌≡◌, [], ◌+◌, ◌-◌, ◌*◌, ◌≤◌, ◌<◌, ◌++◌, ◌∷◌, T, true, false, if◌then◌else◌, List};
ghost use Rattle.std.specs.Prelude.{length, slice_index_or, All, IfOk, IfSome, OnOk, Some, None};
ghost use Rattle.std.specs.List.Sorted.{IsPermutation};
ghost use Rattle.desk_ops.specs.declared.op.Op.{Op};
ghost use Rattle.desk_ops.specs.declared.op.Op.TheVariants.{Insert};
ghost use Rattle.desk_ops.specs.declared.op.Stamp.{Stamp};
ghost use Rattle.desk_ops.specs.declared.op.Symbol.{Symbol};
ghost use Rattle.desk_ops.specs.Op.{IsLawful, stamp_of};
ghost use Rattle.desk_ops.specs.Stamp.{before, max_counter};
ghost use Rattle.desk_ops.specs.Held.{bearing, sole};
ghost use Rattle.desk_ops.specs.OpSet.{is_rising};
ghost use Rattle.desk_codec.specs.Spelling.{stamp_spelling, IsValue};
ghost use Rattle.desk_codec.specs.Items.{run_ops, item_ops, symbol_spelling, item_spelling};
ghost use Rattle.desk_codec.specs.Feed.{IsFeed};
ghost use Rattle.desk_codec.specs.Runs.{next_insert, chain, item_of, item_at, runs_feed, runs_ops};
ghost use Rattle.desk_codec.specs.RunSteps.{IsAt, IsNextAt, IsWrittenTo, MarksAlso};

use crate::form::{MOST_OP_SIZE, MOST_RUN, RUN_KIND, RUNS_MAGIC, STAMP_SIZE, SYMBOL_SIZE};
use crate::writing::{put_op, put_stamp, put_symbol};
use arrayvec::ArrayVec;
use desk_memory::NoMemory;
use desk_ops::{Op, Stamp, Symbol};
use std::alloc::{AllocError, Allocator};

/// The first place after `at` whose operation does not bear a smaller stamp, where the one at `at` does. What is near
/// is found first.
fn seek(ops: &[Op], at: usize, stamp: Stamp) -> usize
    requires within { at < length ops.now }
    requires smaller { (d : Op) → before (stamp_of (slice_index_or ops.now at d)) stamp ≡ true }
    ensures after { at < result }
    ensures within { result ≤ length ops.now }
    ensures smaller { (d : Op) → before (stamp_of (slice_index_or ops.now (result - 1) d)) stamp ≡ true }
    ensures found { (d : Op) → result < length ops.now
        → before (stamp_of (slice_index_or ops.now result d)) stamp ≡ false }
{
    let mut low = at;
    let mut step = 1;
    while step < ops.len() - low && ops[low + step].stamp().is_before(stamp) {
        low += step;
        step *= 2;
    }
    let mut high = if step < ops.len() - low {
        low + step
    } else {
        ops.len()
    };
    while 1 < high - low {
        let middle = low + (high - low) / 2;
        if ops[middle].stamp().is_before(stamp) {
            low = middle;
        } else {
            high = middle;
        }
    }
    high
}

/// Whether no other operation bears the stamp of the one at a place.
fn is_clear_at(ops: &[Op], at: usize) -> bool
    requires rising { T (is_rising ops.now) }
    requires within { at < length ops.now }
    ensures { (op : Op) → IsAt ops.now at op
        → sole (bearing ops.now (stamp_of op)) ≡ (if result then Some op else None) }
{
    let stamp = ops[at].stamp();
    if 0 < at && ops[at - 1].stamp().is_same(stamp) {
        return false;
    }
    if at + 1 < ops.len() && ops[at + 1].stamp().is_same(stamp) {
        return false;
    }
    true
}

/// The one operation that bears a stamp, if there is one: it stands at the first place whose operation does not bear a
/// smaller stamp.
fn clear_op(ops: &[Op], place: usize, stamp: Stamp) -> Option<Op>
    requires rising { T (is_rising ops.now) }
    requires some { 0 < place }
    requires within { place ≤ length ops.now }
    requires smaller { (d : Op) → before (stamp_of (slice_index_or ops.now (place - 1) d)) stamp ≡ true }
    requires found { (d : Op) → place < length ops.now
        → before (stamp_of (slice_index_or ops.now place d)) stamp ≡ false }
    ensures sole { result ≡ sole (bearing ops.now stamp) }
    ensures there { IfSome result (λ op. IsAt ops.now place op) }
{
    if place == ops.len() {
        return None;
    }
    if !ops[place].stamp().is_same(stamp) {
        return None;
    }
    if is_clear_at(ops, place) {
        Some(ops[place])
    } else {
        None
    }
}

/// The place and the symbol of the next insert of the stamp that the operation at `at` bears, if there is one.
fn find_next(ops: &[Op], at: usize, stamp: Stamp) -> Option<(usize, Symbol)>
    requires rising { T (is_rising ops.now) }
    requires within { at < length ops.now }
    requires borne { (d : Op) → stamp_of (slice_index_or ops.now at d) ≡ stamp }
    requires small { stamp.counter < 2 * max_counter }
    ensures some { IfSome result (λ next. IsNextAt ops.now stamp next.0 next.1) }
    ensures none { result ≡ None → next_insert ops.now stamp ≡ None }
{
    let next = Stamp {
        counter: stamp.counter + 1,
        site: stamp.site,
    };
    let place = seek(ops, at, next);
    match clear_op(ops, place, next) {
        Some(Op::Insert { parent, symbol, .. }) => {
            if parent.is_same(stamp) {
                Some((place, symbol))
            } else {
                None
            }
        }
        _ => None,
    }
}

/// Adds the symbols of the inserts that follow the clear insert at a place in its run, of which the list has the first.
/// The places of all are marked.
fn follow<A: Allocator>(
    ops: &[Op],
    at: usize,
    stamp: Stamp,
    symbols: &mut Vec<Symbol, A>,
    written: &mut [bool],
) -> Result<(), AllocError>
    requires rising { T (is_rising ops.now) }
    requires lawful { All IsLawful ops.now }
    requires within { at < length ops.now }
    requires borne { (d : Op) → stamp_of (slice_index_or ops.now at d) ≡ stamp }
    requires one { length symbols.old.items ≡ 1 }
    requires size { length written.old ≡ length ops.now }
    ensures symbols { OnOk result
        (symbols.new.items ≡ symbols.old.items ++ chain 63 ops.now (next_insert ops.now stamp)) }
    ensures few { OnOk result (length symbols.new.items ≤ MOST_RUN) }
    ensures marks { OnOk result ((parent : Stamp) (symbol : Symbol) → IsAt ops.now at (Insert stamp parent symbol)
        → symbols.old.items ≡ symbol ∷ []
        → MarksAlso ops.now written.old written.new (run_ops stamp parent symbols.new.items)) }
{
    written[at] = true;
    let mut last = at;
    let mut bearer = stamp;
    while symbols.len() < MOST_RUN {
        let Some((place, symbol)) = find_next(ops, last, bearer) else {
            break;
        };
        written[place] = true;
        symbols.push(symbol)?;
        last = place;
        bearer = Stamp {
            counter: bearer.counter + 1,
            site: bearer.site,
        };
    }
    Ok(())
}

/// The symbols of the item that begins with the operation at a place, or none where it is no clear insert. The places
/// of the item's operations are marked.
fn take_item<A: Allocator>(
    ops: &[Op],
    at: usize,
    symbols: &mut Vec<Symbol, A>,
    written: &mut [bool],
) -> Result<(), AllocError>
    requires rising { T (is_rising ops.now) }
    requires lawful { All IsLawful ops.now }
    requires within { at < length ops.now }
    requires size { length written.old ≡ length ops.now }
    ensures item { OnOk result ((op : Op) → IsAt ops.now at op → item_at ops.now op ≡ item_of op symbols.new.items) }
    ensures few { OnOk result (length symbols.new.items ≤ MOST_RUN) }
    ensures marks { OnOk result ((op : Op) → IsAt ops.now at op
        → MarksAlso ops.now written.old written.new (item_ops (item_of op symbols.new.items))) }
{
    symbols.clear();
    if is_clear_at(ops, at) {
        if let Op::Insert { stamp, symbol, .. } = ops[at] {
            symbols.push(symbol)?;
            follow(ops, at, stamp, symbols, written)?;
            return Ok(());
        }
    }
    written[at] = true;
    Ok(())
}

/// Appends a stamp.
fn push_stamp<A: Allocator>(out: &mut Vec<u8, A>, stamp: &Stamp) -> Result<(), AllocError>
    ensures { OnOk result (out.new.items ≡ out.old.items ++ stamp_spelling stamp.now) }
{
    let mut bytes: ArrayVec<u8, STAMP_SIZE> = ArrayVec::new();
    put_stamp(&mut bytes, stamp);
    out.extend_from_slice(bytes.as_slice())
}

/// Appends a symbol.
fn push_symbol<A: Allocator>(out: &mut Vec<u8, A>, symbol: &Symbol) -> Result<(), AllocError>
    ensures { OnOk result (out.new.items ≡ out.old.items ++ symbol_spelling symbol.now) }
{
    let mut bytes: ArrayVec<u8, SYMBOL_SIZE> = ArrayVec::new();
    put_symbol(&mut bytes, symbol);
    out.extend_from_slice(bytes.as_slice())
}

/// Appends an item: a run of an insert's symbols, where they are two or more, or else the operation.
fn push_item<A: Allocator>(
    out: &mut Vec<u8, A>,
    op: &Op,
    symbols: &[Symbol],
) -> Result<(), AllocError>
    requires lawful { IsLawful op.now }
    requires few { length symbols.now ≤ MOST_RUN }
    ensures { OnOk result (out.new.items ≡ out.old.items ++ item_spelling (item_of op.now symbols.now)) }
{
    let is_run = 1 < symbols.len();
    match op {
        Op::Insert { stamp, parent, .. } if is_run => {
            out.extend_from_slice(&[RUN_KIND])?;
            push_stamp(out, stamp)?;
            push_stamp(out, parent)?;
            out.extend_from_slice(&[symbols.len() as u8])?;
            for symbol in symbols {
                push_symbol(out, symbol)?;
            }
            Ok(())
        }
        _ => put_op(out, *op),
    }
}

/// Writes the item that begins with the operation, which stands at a place, unless that is written already.
fn write_item<A: Allocator>(
    out: &mut Vec<u8, A>,
    ops: &[Op],
    at: usize,
    op: Op,
    symbols: &mut Vec<Symbol, A>,
    written: &mut [bool],
) -> Result<(), AllocError>
    requires rising { T (is_rising ops.now) }
    requires lawful { All IsLawful ops.now }
    requires there { IsAt ops.now at op }
    requires before { IsWrittenTo ops.now written.old out.old.items at }
    ensures written { OnOk result (IsWrittenTo ops.now written.new out.new.items (at + 1)) }
    ensures value { IsValue op }
{
    if written[at] {
        return Ok(());
    }
    take_item(ops, at, symbols, written)?;
    push_item(out, &op, symbols.as_slice())?;
    Ok(())
}

/// The feed of runs of operations that strictly rise: what one site typed in one go stands together, in runs of at
/// most 64.
/// Its memory is taken at once, before anything is written.
pub fn write_runs<A: Allocator + Copy>(alloc: A, ops: &[Op]) -> Result<Vec<u8, A>, NoMemory>
    requires lawful { All IsLawful ops.now }
    requires rising { T (is_rising ops.now) }
    ensures bytes { IfOk result (λ v. v.items ≡ runs_feed ops.now) }
    // They are the feed of these operations in that feed's order, each once, and of no other list.
    ensures grammar { IfOk result (λ v. IsFeed v.items (runs_ops ops.now)) }
    ensures same { IfOk result (λ _. IsPermutation ops.now (runs_ops ops.now)) }
    ensures only { IfOk result (λ v. (others : List Op) → IsFeed v.items others → others ≡ runs_ops ops.now) }
{
    let mut written = vec![in alloc; false; ops.len()]?;
    let mut symbols = Vec::with_capacity(alloc, MOST_RUN)?;
    let mut out = Vec::with_capacity(alloc, RUNS_MAGIC.len() + MOST_OP_SIZE * ops.len())?;
    out.extend_from_slice(&RUNS_MAGIC)?;
    for at in 0..ops.len() {
        let op = ops[at];
        write_item(&mut out, ops, at, op, &mut symbols, &mut written)?;
    }
    Ok(out)
}
