//! The numbers that a burst holds, open or closed.
ghost use Rattle.std.specs.Prelude.{◌≤◌};
ghost use Rattle.std.specs.Option.{ForSome};
ghost use Rattle.geometry.specs.Cells.{table_size};

use crate::telling::Told;
use geometry::Rows;

/// When a section came in, in ms, and its delta_t.
#[derive(Clone, Copy, PartialEq, Eq, Debug)]
pub(crate) struct Latest {
    pub(crate) arrival: u32,
    pub(crate) delta_t: u16,
}

/// What an open burst holds: numbers alone.
#[derive(Clone, Copy)]
pub(crate) struct Numbers {
    pub(crate) rows: Rows,
    /// By the sections taken so far.
    pub(crate) told: Told,
    /// Of the section taken last.
    pub(crate) latest: Option<Latest>,
    ghost end_inside: { ForSome told.end (λ end. end ≤ table_size rows.count) },
}

/// What a closed burst holds: numbers alone.
#[derive(Clone, Copy)]
pub(crate) struct ClosedNumbers {
    pub(crate) rows: Rows,
    /// As far as datagrams are known to reach.
    pub(crate) limit: usize,
    ghost limit_inside: { limit ≤ table_size rows.count },
}
