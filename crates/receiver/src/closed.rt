//! A closed burst.
ghost use Rattle.std.specs.Prelude.{◌≡◌};
ghost use Rattle.table.specs.Bursts.{closed_numbers};
ghost use Rattle.receiver.specs.Views.{numbers_of, closed_numbers_of};

use crate::numbers::{ClosedNumbers, Numbers};
use rowcode::RowCode;
use std::marker::PhantomData;

impl Numbers {
    // What is left of them once the burst is closed.
    pub(crate) fn closed(self) -> ClosedNumbers
        ensures { closed_numbers_of result ≡ closed_numbers (numbers_of self) }
    {
        ClosedNumbers {
            rows: self.rows,
            limit: self.limit(),
        }
    }
}

/// A closed burst of a row code: its rows are mended, as far as they can be, and it takes no more sections. It holds numbers
/// alone; the cells and the marks are its caller's.
#[derive(Drop)]
pub struct ClosedBurst<C: RowCode> {
    pub(crate) numbers: ClosedNumbers,
    pub(crate) code: PhantomData<C>,
}
