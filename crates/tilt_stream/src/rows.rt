ghost use Rattle.std.specs.Prelude.{◌≡◌, ◌<◌, ◌≤◌, [], ◌∷◌, ◌++◌, length, neg_ℤ, ◌≤ℤ◌, slice_get, IsTrue, ◌↔◌, Some};
ghost use Rattle.std.specs.Prelude.{IfOk, IfSome, OnErr, OnOk};
ghost use Rattle.std.specs.List.{AllByRecursion, insert, remove};
ghost use Rattle.std.specs.Option.{ForSome};
ghost use Rattle.tilt_base.specs.declared.limits.TheConstants.{T};
ghost use Rattle.tilt_stream.specs.Snap.{AreRows, last_end, with_value};

use crate::snap::{Row, last_end};
use std::alloc::{AllocError as OutOfMemory, Global};
use std::marker::Model;
use tilt_base::Cell;

/// The rows of a series in order: times in `-T..=T`, and each start at or after the end of the row before it.
#[derive(Drop)]
pub struct Rows {
    rows: Vec<Row>,
}

impl Model for Rows {
    ghost use Rattle.std.specs.Prelude.{List};
    ghost use Rattle.tilt_stream.specs.Snap.{Snapshot, AreRows};

    ghost Value = { List Snapshot };

    ghost view = { λ r. r.rows.items };

    ghost invariant = { λ r. AreRows r.rows.items };
}

impl Rows {
    /// No rows.
    pub fn new(alloc: Global) -> Rows
        ensures { result ≡ [] }
    {
        Rows {
            rows: Vec::new(alloc),
        }
    }

    /// No rows, with room for `rows` of them.
    pub fn with_capacity(alloc: Global, rows: usize) -> Result<Rows, OutOfMemory>
        ensures { IfOk result (λ made. made ≡ []) }
    {
        Ok(Rows {
            rows: Vec::with_capacity(alloc, rows)?,
        })
    }

    /// Adds a row after the last one. If memory runs out, the rows are as before.
    pub fn push(&mut self, row: Row) -> Result<(), OutOfMemory>
        requires behind { ForSome (last_end self.old) (λ end. end ≤ℤ row.start) }
        requires low { neg_ℤ T ≤ℤ row.start }
        requires high { row.end ≤ℤ T }
        ensures ok { OnOk result (self.new ≡ self.old ++ row ∷ []) }
        ensures err { OnErr result (self.new ≡ self.old) }
        ensures in_order { AreRows self.new }
    {
        prove!(row.start < row.end);
        self.rows.push(row)?;
        Ok(())
    }

    /// Adds rows after the last one, none of which starts before it ends. If memory runs out, the rows are as before.
    pub fn append(&mut self, more: &[Row]) -> Result<(), OutOfMemory>
        requires behind { ForSome (last_end self.old) (λ end. AllByRecursion (λ row. end ≤ℤ row.start) more.now) }
        requires rows { AreRows more.now }
        ensures ok { OnOk result (self.new ≡ self.old ++ more.now) }
        ensures err { OnErr result (self.new ≡ self.old) }
        ensures in_order { AreRows self.new }
    {
        self.rows.extend_from_slice(more)?;
        Ok(())
    }

    /// Inserts a row at a place, counted from 0, such that all are in order then. If memory runs out, the rows are as before.
    pub fn insert(&mut self, i: usize, row: Row) -> Result<(), OutOfMemory>
        requires within { i ≤ length self.old }
        requires in_order { AreRows (insert self.old i row) }
        ensures ok { OnOk result (self.new ≡ insert self.old i row) }
        ensures err { OnErr result (self.new ≡ self.old) }
    {
        self.rows.insert(i, row)?;
        Ok(())
    }

    /// Takes the row at a place out, counted from 0. It takes no memory.
    pub fn remove(&mut self, i: usize) -> Row
        requires { i < length self.old }
        ensures taken { slice_get self.old i ≡ Some result }
        ensures rest { self.new ≡ remove self.old i }
    {
        self.rows.remove(i)
    }

    /// Gives the row at a place, counted from 0, another value. It takes no memory.
    pub fn set(&mut self, i: usize, value: Cell)
        requires { i < length self.old }
        ensures { self.new ≡ with_value i value self.old }
    {
        let row = self.rows[i];
        self.rows[i] = row.valued(value);
    }

    /// How many rows there are.
    pub fn len(&self) -> usize
        ensures { result ≡ length self.now }
    {
        self.rows.len()
    }

    /// Whether there is no row.
    pub fn is_empty(&self) -> bool
        ensures { IsTrue result ↔ (self.now ≡ []) }
    {
        self.rows.is_empty()
    }

    /// The row at a place, counted from 0.
    pub fn get(&self, i: usize) -> Row
        requires { i < length self.now }
        ensures { slice_get self.now i ≡ Some result }
    {
        self.rows[i]
    }

    /// The end of the last row, or `None` if there is no row.
    pub fn last_end(&self) -> Option<i64>
        ensures value { result ≡ last_end self.now }
        ensures low { IfSome result (λ end. neg_ℤ T ≤ℤ end) }
    {
        last_end(&self.rows)
    }

    /// All rows in order.
    pub fn as_slice(&self) -> &[Row]
        ensures rows { result.now ≡ self.now }
        ensures in_order { AreRows self.now }
    {
        &self.rows
    }
}
