//! A ribbon that is written line by line.

use crate::PunchLine;
use crate::bytes::{begin, put_row};
use desk_memory::NoMemory;
use desk_signals::RibbonRow;
use std::alloc::Allocator;
use std::marker::Model;

mod rows;

/// A ribbon in the making, seen as the rows that it will write after the head row.
#[derive(Drop)]
pub struct RibbonWriter<A: Allocator + Copy> {
    rows: Vec<RibbonRow, A>,
}

impl<A: Allocator + Copy> Model for RibbonWriter<A> {
    ghost use Rattle.std.specs.Prelude.{ℕ, List, length, ◌+◌, ◌^◌, ◌<◌};
    ghost use Rattle.desk_signals.specs.declared.RibbonRow.{RibbonRow};

    ghost Value = { List RibbonRow };

    ghost view = { λ w. w.rows.items };

    ghost invariant = { λ w. length w.rows.items + 1 < 2 ^ 32 };
}

impl<A: Allocator + Copy> RibbonWriter<A> {
    ghost use Rattle.std.specs.Prelude.{◌≡◌, ◌+◌, ◌^◌, ◌<◌, ◌++◌, ◌∷◌, [], length, IfOk, OnOk, OnErr};
    ghost use Rattle.desk_ribbon.specs.Ribbon.{head_row, line_rows, ribbon};

    /// A writer of the head row alone.
    pub fn new(alloc: A) -> RibbonWriter<A>
        ensures { result ≡ [] }
    {
        RibbonWriter {
            rows: Vec::new(alloc),
        }
    }

    /// Appends the rows of a line. The ribbon has at most 4,294,967,295 rows, the head row among them. After a refusal
    /// nothing has changed.
    pub fn push<B: Allocator>(&mut self, line: &PunchLine<B>) -> Result<(), NoMemory>
        requires { length self.old + length (line_rows line.now) + 1 < 2 ^ 32 }
        ensures ok { OnOk result (self.new ≡ self.old ++ line_rows line.now) }
        ensures err { OnErr result (self.new ≡ self.old) }
    {
        rows::append(&mut self.rows, line)
    }

    /// The bytes of the ribbon so far; lines may follow.
    pub fn finish(&self) -> Result<Vec<u8, A>, NoMemory>
        ensures { IfOk result (λ bytes. bytes.items ≡ ribbon (head_row ∷ self.now)) }
    {
        let rows = self.rows.len() + 1;
        let mut out = begin(*self.rows.allocator(), rows as u32)?;
        for &row in self.rows.as_slice() {
            put_row(&mut out, row)?;
        }
        Ok(out)
    }
}
