//! Where a read-out stops: at the first whole datagram from a place on, or at its end.
ghost use Rattle.reading.specs.Stops.{StopsAt};

use crate::decisions::{Decision, decide};
use crate::starts::next_start;

/// What a read-out comes to.
#[derive(Clone, Copy, PartialEq, Eq, Debug)]
pub enum Stop {
    /// A whole datagram, all of it known: its address, and its length.
    Datagram { address: usize, length: usize },
    /// The limit: the place where the read-out stands then.
    End { place: usize },
}

/// The first whole datagram from a place on, or the end. The cells and the marks are those below the limit, whatever they hold;
/// what has no mark is unknown.
#[tactic(auto, using(crate::specs::Reading::stays, crate::proofs::Going::over_incomplete, crate::proofs::Going::past_untold, crate::proofs::Going::past_wrong))]
pub fn stop_from(cells: &[u8], marks: &[u8], place: usize) -> Stop
    ensures { StopsAt cells.now marks.now place result }
{
    let mut place = place;
    while place < cells.len() {
        match decide(cells, marks, place) {
            Decision::Whole(length) => {
                return Stop::Datagram {
                    address: place,
                    length,
                };
            }
            Decision::Incomplete(length) => place += length,
            Decision::NotTold | Decision::Wrong => place = next_start(marks, cells.len(), place),
        }
    }
    Stop::End { place }
}
