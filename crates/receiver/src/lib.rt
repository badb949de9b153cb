//! The receiver: a burst is started, takes sections into its table whole or turns them away, is closed, and hands its datagrams
//! out.
#![tactic(auto)]

mod burst;
mod checking;
mod closed;
mod numbers;
mod readout;
mod storing;
mod taking;
mod telling;
mod wake;

pub use burst::Burst;
pub use closed::ClosedBurst;
pub use closing::Tallies;
pub use readout::{Datagram, ReadOut};
pub use wake::{Alarm, Wake, WakeOrder};
