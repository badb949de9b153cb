//! The lines of `rowmend`: calls of a row code.
ghost use Rattle.std.specs.Prelude.{◌≡◌, IfOk, Err, MatchOption};
ghost use Rattle.program_lines.specs.Cells.{Signs, Spells, StandsFor, NoCell, NoCells};
ghost use Rattle.program_lines.specs.declared.rows.RowError.TheVariants.{NotARow, NoMemory};

use crate::codes::Code;
use anyhow::anyhow;
use program::{byte_of, bytes_of};
use std::alloc::{AllocFailed, Global};
use thiserror::Error;

/// Which call a line asks for.
#[derive(Drop)]
pub enum Call {
    /// With what is known of the row.
    Mend(Vec<bool>),
    Spread,
}

/// What a line asks for: a call of a row code with a row.
#[derive(Drop)]
pub struct Request {
    pub code: Code,
    pub call: Call,
    pub row: Vec<u8>,
}

// Why a word gives no row.
#[derive(Debug, Drop, Error)]
enum RowError {
    #[error("a row has two digits in hex for each byte, or .. for one that is not known; - is a row of none")]
    NotARow,
    #[error("there is no memory for the row")]
    NoMemory,
}

// Written by hand: `thiserror` writes no contract, and the clause `refused` below needs to know that this is not `NotARow`.
impl<T: Drop> From<AllocFailed<T>> for RowError {
    ghost from_gives = { λ _ r. r ≡ NoMemory };

    fn from(_refused: AllocFailed<T>) -> RowError {
        RowError::NoMemory
    }
}

// What a row has at the call for a byte that is not known.
const FILLER: u8 = 0xAA;

// A byte of a row, and whether it is known.
#[derive(Clone, Copy)]
struct Cell {
    byte: u8,
    known: bool,
}

// The cell that two signs stand for: the digits of a known byte, or two dots.
fn cell_of(first: u8, second: u8) -> Option<Cell>
    ensures { MatchOption result
        (NoCell (λ cell. Signs cell first second))
        (λ cell. Signs cell first second) }
{
    if first == b'.' && second == b'.' {
        return Some(Cell {
            byte: FILLER,
            known: false,
        });
    }
    let byte = byte_of(first, second)?;
    Some(Cell { byte, known: true })
}

// The cells whose signs make up a text.
fn read_cells(heap: Global, text: &[u8]) -> Result<Vec<Cell>, RowError>
    ensures read { IfOk result (λ cells. Spells text.now cells.items) }
    ensures refused { result ≡ Err NotARow → NoCells (Spells text.now) }
{
    let mut cells = Vec::new(heap);
    let mut left = text;
    while let [first, second, rest @ ..] = left {
        cells.push(cell_of(*first, *second).ok_or(RowError::NotARow)?)?;
        left = rest;
    }
    if left.is_empty() {
        Ok(cells)
    } else {
        Err(RowError::NotARow)
    }
}

// The cells that a word stands for: two signs for each, a lone `-` for none. Other words, and none, are no row.
// No contract can say when memory lacks, so nothing is claimed of that error.
fn cells_of(heap: Global, word: &str) -> Result<Vec<Cell>, RowError>
    ensures read { IfOk result (λ cells. StandsFor word.now cells.items) }
    ensures refused { result ≡ Err NotARow → NoCells (StandsFor word.now) }
{
    match word {
        "" => Err(RowError::NotARow),
        "-" => Ok(Vec::new(heap)),
        _ => read_cells(heap, word.as_bytes()),
    }
}

// The call that a word names, and its row.
fn call_of(heap: Global, call: &str, row: &str) -> anyhow::Result<(Call, Vec<u8>)> {
    match call {
        "mend" => {
            let cells = cells_of(heap, row)?;
            let known = cells.iter().map(|cell| cell.known).collect(heap)?;
            let bytes = cells.iter().map(|cell| cell.byte).collect(heap)?;
            Ok((Call::Mend(known), bytes))
        }
        "spread" => Ok((Call::Spread, bytes_of(heap, row)?)),
        _ => Err(anyhow!("the call is mend or spread")),
    }
}

/// What a line asks for.
pub fn requested(heap: Global, line: &str) -> anyhow::Result<Request> {
    let words: Vec<&str> = line.split(' ').collect(heap)?;
    let [code, call, row] = words.as_slice() else {
        return Err(anyhow!("a line has three words"));
    };
    let (call, row) = call_of(heap, call, row)?;
    Ok(Request {
        code: code.parse()?,
        call,
        row,
    })
}

#[cfg(test)]
mod tests {
    use super::*;

    // The contract leaves open when memory lacks, and so which error it is.
    #[test]
    fn words_that_are_no_row(rt: HostRuntime) {
        let words = [
            "", "0", ".", "...", "0.", ".0", "4..F", "0000.", "--", "..-", "4g", "4a",
        ];
        for word in words {
            let refused = matches!(cells_of(rt.alloc(), word), Err(RowError::NotARow));
            assert!(rt; refused, "{}", word);
        }
    }

    #[test]
    fn lines_of_this_shape(rt: HostRuntime) {
        let lines = [
            "rs mend ..00FF..",
            "rs mend -",
            "bare mend ..",
            "rs spread 0AF9",
            "bare spread -",
        ];
        for line in lines {
            assert!(rt; requested(rt.alloc(), line).is_ok(), "{}", line);
        }
    }

    #[test]
    fn lines_of_no_shape(rt: HostRuntime) {
        let lines = [
            "",
            "rs",
            "rs mend",
            "rs mend ",
            "rs mend 00 00",
            "rs mend 00 ",
            " rs mend 00",
            "rs  mend 00",
            "RS mend 00",
            "reed mend 00",
            "rs Mend 00",
            "rs fill 00",
            "mend rs 00",
            "rs mend 4a",
            "rs spread ..",
            "rs spread 00..",
            "rs spread 000",
            "rs spread 4a",
        ];
        for line in lines {
            assert!(rt; requested(rt.alloc(), line).is_err(), "{}", line);
        }
    }
}
