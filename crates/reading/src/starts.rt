//! The places that are marked as starts.
ghost use Rattle.std.specs.Prelude.{◌≡◌, ◌<◌, ◌≤◌};
ghost use Rattle.reading.specs.Reading.{next_start};
ghost use Rattle.table.specs.Bursts.{start_at};

use marks::Mark;

// Whether a place is marked as a start.
fn is_start(marks: &[u8], i: usize) -> bool
    ensures { result ≡ start_at marks.now i }
{
    marks
        .get(i)
        .is_some_and(|mark| Mark::from(*mark).is_start())
}

/// The next place above this one that is marked as a start, or the limit where there is none.
pub(crate) fn next_start(marks: &[u8], limit: usize, place: usize) -> usize
    requires { place < limit }
    ensures value { result ≡ next_start marks.now limit place }
    ensures above { place < result }
    ensures inside { result ≤ limit }
{
    (place + 1..limit)
        .find(|i| is_start(marks, *i))
        .unwrap_or(limit)
}
