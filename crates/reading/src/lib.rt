//! Reading a closed burst out: what stands at a place of its cells, and the next whole datagram from a place on.
#![tactic(auto)]

mod decisions;
mod starts;
mod stops;

pub use decisions::{Decision, decide};
pub use stops::{Stop, stop_from};
