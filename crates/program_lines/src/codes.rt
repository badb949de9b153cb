//! The row codes that a line can name.
use anyhow::{Error, anyhow};
use std::str::FromStr;

/// A row code by its name.
#[derive(Clone, Copy)]
pub enum Code {
    ReedSolomon,
    Bare,
}

impl FromStr for Code {
    type Err = Error;

    fn from_str(word: &str) -> anyhow::Result<Code> {
        match word {
            "rs" => Ok(Code::ReedSolomon),
            "bare" => Ok(Code::Bare),
            _ => Err(anyhow!("the code is rs or bare")),
        }
    }
}
