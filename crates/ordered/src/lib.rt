#![tactic(auto)]

ghost use Rattle.std.specs.Prelude.{◌≡◌, ℕ};
ghost use Rattle.ordered.specs.Order.{Insertion, Filling, count_after, ArrangementLaw};

use std::error::Error;
use std::fmt;

mod list;

pub use list::OrderedList;

/// A record with a sequence index.
pub trait Sequenced {
    ghost sequence: { Self → ℕ };

    /// The index. Zppm and Zppt are bytes; 16 bits hold them, and the two-byte indices of other segments too.
    fn sequence_idx(&self) -> u16
        ensures { result ≡ sequence self.now };
}

/// Too few rows are free.
#[derive(Clone, Copy, Debug, PartialEq, Eq)]
pub struct Full;

impl fmt::Display for Full {
    ghost use Rattle.std.specs.Prelude.{Some, codes};

    ghost output = { λ _. Some (codes "too few rows are free") };

    fn fmt<W: fmt::Write>(&self, f: &mut fmt::Formatter<W>) -> fmt::Result {
        f.write_str("too few rows are free")
    }
}

impl Error for Full {}

/// Puts the arrival behind all of the first `len` rows whose index is not greater, and answers the new count.
pub fn insert_ordered<T: Sequenced + Copy>(
    rows: &mut [T],
    len: usize,
    arrival: T,
) -> Result<usize, Full>
    ensures { Insertion T.sequence arrival rows.old len rows.new (count_after len result) result }
{
    let mut list = OrderedList::resume(rows, len);
    list.insert(arrival)?;
    Ok(list.len())
}

/// Puts the ordered arrangement of the records into the first rows, and answers how many there are.
pub fn fill_ordered<T: Sequenced + Copy>(rows: &mut [T], records: &[T]) -> Result<usize, Full>
    ensures { Filling T.sequence records.now rows.old rows.new result }
{
    let mut list = OrderedList::new(rows);
    list.insert_all(records)?;
    Ok(list.len())
}

/// Each list of arrivals has exactly one ordered arrangement.
pub fn arrangement_law<T: Sequenced>()
    ensures { ArrangementLaw T T.sequence }
{}
