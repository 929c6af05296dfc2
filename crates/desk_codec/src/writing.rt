//! Writing operations.

ghost use Rattle.std.specs.Prelude.{◌≡◌, ◌+◌, ◌≤◌, ◌++◌, List, length, All, IfOk, OnOk};
ghost use Rattle.arrayvec.specs.ArrayVec.{array_vec_len};
ghost use Rattle.desk_ops.specs.declared.op.Op.{Op};
ghost use Rattle.desk_ops.specs.Op.{IsLawful};
ghost use Rattle.desk_ops.specs.Order.{style_code, key_code};
ghost use Rattle.desk_codec.specs.Spelling.{stamp_spelling, spelling, IsValue};
ghost use Rattle.desk_codec.specs.Items.{symbol_spelling};
ghost use Rattle.desk_codec.specs.Feed.{feed, IsFeed};

use crate::form::{Kind, MAGIC, MOST_OP_SIZE};
use arrayvec::ArrayVec;
use desk_memory::NoMemory;
use desk_ops::{Key, Op, Stamp, Style, Symbol};
use std::alloc::{AllocError, Allocator};

/// Appends bytes, for which there is room.
pub fn put<const N: usize>(out: &mut ArrayVec<u8, N>, bytes: &[u8])
    requires { array_vec_len out.old + length bytes.now ≤ N }
    ensures items { out.new.items ≡ out.old.items ++ bytes.now }
    ensures len { array_vec_len out.new ≡ array_vec_len out.old + length bytes.now }
{
    out.try_extend_from_slice(bytes).unwrap()
}

/// Appends a stamp, for which there is room.
pub fn put_stamp<const N: usize>(out: &mut ArrayVec<u8, N>, stamp: &Stamp)
    requires { array_vec_len out.old + 10 ≤ N }
    ensures items { out.new.items ≡ out.old.items ++ stamp_spelling stamp.now }
    ensures len { array_vec_len out.new ≡ array_vec_len out.old + 10 }
{
    put(out, &stamp.counter.to_be_bytes());
    put(out, &stamp.site.to_be_bytes());
}

fn style_byte(style: Style) -> u8
    ensures { result ≡ style_code style }
{
    style as u8
}

fn key_byte(key: Key) -> u8
    ensures { result ≡ key_code key }
{
    key as u8
}

/// Appends a symbol, for which there is room.
pub fn put_symbol<const N: usize>(out: &mut ArrayVec<u8, N>, symbol: &Symbol)
    requires { array_vec_len out.old + 5 ≤ N }
    ensures items { out.new.items ≡ out.old.items ++ symbol_spelling symbol.now }
    ensures len { array_vec_len out.new ≡ array_vec_len out.old + 5 }
{
    out.push(style_byte(symbol.style));
    put(out, &u32::from(symbol.ch).to_be_bytes());
}

/// The bytes of an operation.
pub fn write_op(op: &Op) -> ArrayVec<u8, MOST_OP_SIZE>
    requires { IsLawful op.now }
    ensures { result.items ≡ spelling op.now }
{
    let mut out = ArrayVec::new();
    match op {
        Op::Insert {
            stamp,
            parent,
            symbol,
        } => {
            out.push(Kind::Insert as u8);
            put_stamp(&mut out, stamp);
            put_stamp(&mut out, parent);
            put_symbol(&mut out, symbol);
        }
        Op::Delete { stamp, target } => {
            out.push(Kind::Delete as u8);
            put_stamp(&mut out, stamp);
            put_stamp(&mut out, target);
        }
        Op::Set { stamp, key, value } => {
            out.push(Kind::Set as u8);
            put_stamp(&mut out, stamp);
            out.push(key_byte(*key));
            put(&mut out, &value.to_be_bytes());
        }
    }
    out
}

/// Appends the bytes of an operation, whose numbers are values of their fields' types.
pub fn put_op<A: Allocator>(out: &mut Vec<u8, A>, op: Op) -> Result<(), AllocError>
    requires { IsLawful op }
    ensures items { OnOk result (out.new.items ≡ out.old.items ++ spelling op) }
    ensures value { IsValue op }
{
    out.extend_from_slice(write_op(&op).as_slice())
}

/// How many bytes a feed of the operations takes.
fn feed_size(ops: &[Op]) -> usize
    ensures { result ≡ length (feed ops.now) }
{
    let mut size = MAGIC.len();
    for op in ops {
        size += Kind::of(op).size();
    }
    size
}

/// The feed of the operations, in their order. Its memory is taken at once.
pub fn write_feed<A: Allocator>(alloc: A, ops: &[Op]) -> Result<Vec<u8, A>, NoMemory>
    requires { All IsLawful ops.now }
    ensures bytes { IfOk result (λ v. v.items ≡ feed ops.now) }
    // They are the feed of these operations, and of no others.
    ensures grammar { IfOk result (λ v. IsFeed v.items ops.now) }
    ensures only { IfOk result (λ v. (others : List Op) → IsFeed v.items others → others ≡ ops.now) }
{
    let mut out = Vec::with_capacity(alloc, feed_size(ops))?;
    out.extend_from_slice(&MAGIC)?;
    for op in ops {
        put_op(&mut out, *op)?;
    }
    Ok(out)
}
