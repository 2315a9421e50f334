ghost use Rattle.std.specs.Prelude.{◌≡◌, ◌-◌, ◌≤◌, min, length, take, ◌==◌};
ghost use Rattle.ordered.specs.Order.{IsPlace, Insertion, Insertions, RowAt};

use crate::{Full, Sequenced};

/// A list kept in order of the sequence index in lent rows, of which the first `len` are filled: no heap.
// The clauses `lent` say that the rows are still the lent ones, so that their owner knows what they hold when the list is gone.
#[derive(Drop)]
pub struct OrderedList<'a, T> {
    rows: &'a mut [T],
    len: usize,
    ghost within: { len ≤ length rows.now },
}

impl<'a, T: Sequenced + Copy> OrderedList<'a, T> {
    /// The empty list over the rows.
    pub fn new(rows: &'a mut [T]) -> OrderedList<'a, T>
        ensures counted { result.len ≡ 0 }
        ensures same { result.rows.now ≡ rows.old }
        ensures lent { result.rows.ghost_name ≡ rows.entry.ghost_name }
    {
        OrderedList { rows, len: 0 }
    }

    /// Takes up rows of which the first `len` are filled; all of them, where `len` is more than there are.
    // No `Option`: behind a match on one, a proof knows nothing of what the rows hold afterwards.
    pub fn resume(rows: &'a mut [T], len: usize) -> OrderedList<'a, T>
        ensures counted { result.len ≡ min len (length rows.old) }
        ensures same { result.rows.now ≡ rows.old }
        ensures lent { result.rows.ghost_name ≡ rows.entry.ghost_name }
    {
        let len = len.min(rows.len());
        OrderedList { rows, len }
    }

    /// How many rows are filled.
    pub fn len(&self) -> usize
        ensures { result ≡ self.now.len }
    {
        self.len // at most the number of rows
    }

    /// Whether no row is filled.
    pub fn is_empty(&self) -> bool
        ensures { result ≡ (self.now.len == 0) }
    {
        self.len == 0
    }

    /// How many rows are free.
    pub fn room(&self) -> usize
        ensures { result ≡ length self.now.rows.now - self.now.len }
    {
        self.rows.len() - self.len
    }

    /// The record at place `k` of the order.
    pub fn get(&self, k: usize) -> Option<T>
        ensures { RowAt self.now.rows.now self.now.len k result }
    {
        self.rows[..self.len].get(k).copied()
    }

    /// Puts the arrival behind all rows whose index is not greater.
    pub fn insert(&mut self, arrival: T) -> Result<(), Full>
        ensures inserted { Insertion T.sequence arrival self.old.rows.now self.old.len self.new.rows.now self.new.len result }
        ensures lent { self.new.rows.ghost_name ≡ self.old.rows.ghost_name }
    {
        if self.room() == 0 {
            return Err(Full);
        }
        let at = self.place_of(&arrival);
        self.rows.copy_within(at..self.len, at + 1);
        self.rows[at] = arrival;
        self.len += 1;
        Ok(())
    }

    // The place behind the last row whose index is not greater.
    fn place_of(&self, arrival: &T) -> usize
        ensures { IsPlace T.sequence arrival.now (take self.now.len self.now.rows.now) result }
    {
        self.rows[..self.len]
            .iter()
            .rposition(|row| row.sequence_idx() <= arrival.sequence_idx())
            .map_or(0, |k| k + 1)
    }

    /// Puts the records in, one after another; none of them where not all have a row.
    pub fn insert_all(&mut self, records: &[T]) -> Result<(), Full>
        ensures inserted { Insertions T.sequence records.now self.old.rows.now self.old.len self.new.rows.now self.new.len result }
        ensures lent { self.new.rows.ghost_name ≡ self.old.rows.ghost_name }
    {
        if records.len() > self.room() {
            return Err(Full);
        }
        for record in records {
            self.insert(*record)?;
        }
        Ok(())
    }
}
