//! The row work of closing a burst: each row is mended, named and marked by its answer, whatever the row code.
#![tactic(auto)]

mod checking;
mod marking;
mod mending;
mod row;
mod rows;
mod tallying;

pub use rows::close_rows;

/// How many rows are filled, torn and open.
pub type Tallies = (usize, usize, usize);
