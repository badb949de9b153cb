//! What the programs share: how they take their arguments, and bytes in hex.
#![tactic(auto)]

mod arguments;
mod hex;

pub use arguments::asked_to_run;
pub use hex::{HexError, byte_of, bytes_of};
