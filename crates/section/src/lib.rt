//! Sections on the air: headers, real-time parameters, what one whole datagram is, and reading all that.
#![tactic(auto)]

mod datagrams;
mod frame_size;
mod kinds;
mod reading;
mod timing;

pub use datagrams::{IpVersion, whole_datagram};
pub use frame_size::FrameSize;
pub use kinds::Kind;
pub use reading::{CheckHeader, DatagramHeader, Header, Section, read};
pub use timing::{MAX_ADDRESS, MAX_DELTA_T, RealTime};
