//! The lines that programs for tests read, a module for each program: what a line asks for, on the heap. As `program`, it is a
//! part of the programs.
#![tactic(auto)]

pub mod calls;
mod codes;
pub mod rows;
pub mod sections;

pub use codes::Code;
