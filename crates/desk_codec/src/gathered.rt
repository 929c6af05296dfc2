//! The operations that reading gives, as long as there is memory for them.

ghost use Rattle.std.specs.Prelude.{◌≡◌, ◌≢◌, [], ◌∷◌, Some, None, MatchOption};
ghost use Rattle.desk_codec.specs.Gathered.{Adds};

use desk_ops::Op;
use std::alloc::Allocator;
use std::marker::Model;

/// The operations read so far. Once a growth is refused none are kept, and the reading goes on without them, to the
/// first fault.
#[derive(Drop)]
pub struct Gathered<A: Allocator> {
    ops: Vec<Op, A>,
    is_refused: bool,
}

impl<A: Allocator> Model for Gathered<A> {
    ghost use Rattle.std.specs.Prelude.{Option, List};
    ghost use Rattle.desk_ops.specs.declared.op.Op.{Op};
    ghost use Rattle.desk_codec.specs.Gathered.{unless_refused};

    ghost Value = { Option (List Op) };

    ghost view = { λ g. unless_refused g.is_refused g.ops.items };
}

impl<A: Allocator> Gathered<A> {
    /// None yet, and room for so many, unless that is refused.
    pub fn with_capacity(alloc: A, most: usize) -> Self
        ensures { MatchOption result (most ≢ 0) (λ ops. ops ≡ []) }
    {
        let mut ops = Vec::new(alloc);
        let is_refused = ops.reserve_exact(most).is_err();
        Gathered { ops, is_refused }
    }

    pub fn push(&mut self, op: Op)
        ensures { Adds self.old self.new (op ∷ []) }
    {
        if !self.is_refused {
            self.is_refused = self.ops.push(op).is_err();
        }
    }

    /// The operations, or none where a growth was refused.
    pub fn list(self) -> Option<Vec<Op, A>>
        ensures { MatchOption result (self ≡ None) (λ ops. self ≡ Some ops.items) }
    {
        let Gathered { ops, is_refused } = self;
        if is_refused { None } else { Some(ops) }
    }
}
