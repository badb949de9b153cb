//! What stands at a place of the cells that a read-out reads.
ghost use Rattle.std.specs.Prelude.{◌≡◌, ◌+◌, ◌^◌, ◌<◌, ◌≤◌, ◌&&◌, cond, length};
ghost use Rattle.frame.specs.Heads.{length_end};
ghost use Rattle.reading.specs.Decisions.{can_read, can_read_all, length_begin, sized, decision_at};
ghost use Rattle.reading.specs.Laws.{DecidesWhole, LiesBelow};

use frame::{Head, head_at};
use marks::Mark;
use section::IpVersion;

/// What is decided of a place. The lengths are those that the datagram tells of itself.
#[derive(Clone, Copy, PartialEq, Eq, Debug)]
pub enum Decision {
    /// Byte 0 of a datagram, or a byte of its length, is unknown or not below the limit.
    NotTold,
    /// Its version is neither 4 nor 6, its length is outside 20 to 4,080, or it passes the limit.
    Wrong,
    /// One of its bytes is unknown.
    Incomplete(usize),
    /// A whole datagram, all of it known.
    Whole(usize),
}

// Whether a byte can be read: it lies below the limit, and its mark says that it is known.
fn can_read(cells: &[u8], marks: &[u8], i: usize) -> bool
    ensures { result ≡ can_read cells.now marks.now i }
{
    i < cells.len()
        && marks
            .get(i)
            .is_some_and(|mark| Mark::from(*mark).is_known())
}

// Whether two bytes can both be read.
fn can_read_both(cells: &[u8], marks: &[u8], i: usize, j: usize) -> bool
    ensures { result ≡ (can_read cells.now marks.now i && can_read cells.now marks.now j) }
{
    can_read(cells, marks, i) && can_read(cells, marks, j)
}

// Whether each of so many bytes from a place on can be read.
fn can_read_all(cells: &[u8], marks: &[u8], place: usize, n: usize) -> bool
    requires { place + n < 2 ^ 64 }
    ensures { result ≡ can_read_all cells.now marks.now place n }
{
    (place..place + n).all(|i| can_read(cells, marks, i))
}

// What a datagram is that has this head.
fn told(cells: &[u8], marks: &[u8], place: usize, head: Head) -> Decision
    requires { place ≤ length cells.now }
    ensures value { result ≡ cond
        (can_read cells.now marks.now (place + length_begin head.version) && can_read cells.now marks.now (place + length_end head.version))
        (sized cells.now marks.now place head.length) Decision.NotTold }
    ensures below { LiesBelow cells.now place result }
{
    match head.version {
        IpVersion::V4 if !can_read_both(cells, marks, place + 2, place + 3) => Decision::NotTold,
        IpVersion::V6 if !can_read_both(cells, marks, place + 4, place + 5) => Decision::NotTold,
        _ if head.length < 20 || 4080 < head.length => Decision::Wrong,
        _ if cells.len() - place < head.length => Decision::Wrong,
        _ if !can_read_all(cells, marks, place, head.length) => Decision::Incomplete(head.length),
        _ => Decision::Whole(head.length),
    }
}

/// What stands at a place. The cells and the marks are those below the limit, whatever they hold; what has no mark is unknown.
#[tactic(auto, unfolding(crate::specs::Decisions::decision_at))]
pub fn decide(cells: &[u8], marks: &[u8], place: usize) -> Decision
    ensures value { result ≡ decision_at cells.now marks.now place }
    ensures whole { DecidesWhole cells.now marks.now place result }
    ensures below { LiesBelow cells.now place result }
{
    match head_at(cells, place) {
        _ if !can_read(cells, marks, place) => Decision::NotTold,
        Some(head) => told(cells, marks, place, head),
        None if matches!(cells[place] >> 4, 4 | 6) => Decision::NotTold,
        None => Decision::Wrong,
    }
}
