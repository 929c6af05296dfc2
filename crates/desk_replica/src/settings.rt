//! The settings of the job, kept beside the operations that set them.
ghost use Rattle.std.specs.Prelude.{◌≡◌, ◌⊎◌, true, false, IsTrue, IsSome};
ghost use Rattle.desk_ops.specs.declared.op.Key.{Key};
ghost use Rattle.desk_ops.specs.Op.{stamp_of, target_of};
ghost use Rattle.desk_ops.specs.OpSet.{in_order};
ghost use Rattle.desk_ops.specs.Held.{is_clear_in};
ghost use Rattle.desk_registers.specs.Registers.{kept};
ghost use Rattle.desk_replica.specs.JobSettings.{kept_op, IsOtherSet, AreKept};

use desk_held::Held;
use desk_ops::Op;
use desk_registers::Registers;
use std::alloc::Allocator;

/// The settings of the job, each where it has a value: the measure in points, the wedge sums of the tightest and the
/// loosest space, and the numbers of the matrix case and the wedge.
#[derive(Clone, Copy, Debug, PartialEq, Eq)]
pub struct Settings {
    pub measure: Option<u32>,
    pub tight: Option<u32>,
    pub loose: Option<u32>,
    pub case: Option<u32>,
    pub wedge: Option<u32>,
}

/// Keeps the setting that the operation makes, if it makes one.
pub fn keep(registers: &mut Registers, op: &Op)
    requires { IsOtherSet (kept registers.old) op.now }
    ensures { (key : Key) → kept registers.new key ≡ kept_op (kept registers.old) op.now key }
{
    if let Op::Set { stamp, key, value } = op {
        registers.take(*stamp, *key, *value);
    }
}

/// Whether an operation is a clear one that makes a setting.
fn sets<A: Allocator + Copy>(held: &Held<A>, op: &Op) -> bool
    ensures yes { IsTrue result → is_clear_in held.now.ops (stamp_of op.now) ≡ true }
    ensures no { result ≡ false → (is_clear_in held.now.ops (stamp_of op.now) ≡ false) ⊎ IsSome (target_of op.now) }
{
    op.target().is_none() && held.is_clear(op.stamp())
}

/// The settings of the clear operations that are held, made anew in one pass over them.
pub fn kept_in<A: Allocator + Copy>(held: &Held<A>, ops: &[Op]) -> Registers
    requires { ops.now ≡ in_order held.now.ops }
    ensures { AreKept held.now.ops (kept result) }
{
    let mut registers = Registers::new();
    for op in ops {
        if sets(held, op) {
            keep(&mut registers, op);
        }
    }
    registers
}
