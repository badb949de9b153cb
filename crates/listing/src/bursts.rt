//! The lines of a listing of a burst's datagrams.

ghost use Rattle.std.specs.Prelude.{◌≡◌, ◌++◌};
ghost use Rattle.stream.specs.Columns.{right_aligned};
ghost use Rattle.listing.specs.Bursts.{totals_of};

use crate::parts::{Part, put, wide};
use stream::columns::Line;

/// How many sections were taken and refused, and how many rows are filled, torn and open.
#[derive(Clone, Copy)]
pub struct Totals {
    pub taken: usize,
    pub refused: usize,
    pub filled: usize,
    pub torn: usize,
    pub open: usize,
}

/// The line of a datagram.
pub fn datagram_line(address: usize, length: usize) -> Line
    ensures { result ≡ right_aligned 7 address ++ right_aligned 5 length }
{
    let mut line = Line::new();
    put(
        &mut line,
        &[
            Part::number(wide(address), 7),
            Part::number(wide(length), 5),
        ],
    );
    line
}

/// The last line.
pub fn totals_line(totals: Totals) -> Line
    ensures { result ≡ totals_of totals }
{
    let mut line = Line::new();
    put(
        &mut line,
        &[
            Part::number(wide(totals.taken), 6),
            Part::number(wide(totals.refused), 6),
            Part::number(wide(totals.filled), 6),
            Part::number(wide(totals.torn), 6),
            Part::number(wide(totals.open), 6),
        ],
    );
    line
}
