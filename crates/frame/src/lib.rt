//! Frames: what a datagram tells of itself at a place, what a lawful frame is, and which sections come from one.
#![tactic(auto)]

ghost use Rattle.frame.specs.Laws.{OneFrame};

mod heads;

pub use heads::{Head, head_at};
use rowcode::RowCode;

/// States a law and does nothing: for datagrams that fit, a row code has just one lawful frame.
pub fn one_frame<C: RowCode>()
    ensures { OneFrame C.check_columns C.codeword }
{}
