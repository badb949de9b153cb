//! The frame that is sent: three datagrams, padding behind them, and check bytes in each row.
ghost use Rattle.std.specs.Prelude.{◌≡◌, ◌≢◌, ℕ, ◌<◌, ◌≤◌, length, IfOk};
ghost use Rattle.octets.specs.Octets.{byte, word16};

use anyhow::ensure;
use frame_row::{ScratchGuard, gather, scatter};
use geometry::Rows;
use reed_solomon::ReedSolomon;
use rowcode::RowCode;
use rs_code::{ROW, is_codeword};
use std::alloc::{AllocError, Global};
use std::io::Write;

/// A datagram of the frame: its address and its length.
#[derive(Clone, Copy)]
pub(crate) struct Placed {
    pub(crate) address: u16,
    pub(crate) length: u16,
}

/// They lie end to end from address 0.
pub(crate) const DATAGRAMS: [Placed; 3] = [
    Placed {
        address: 0,
        length: 200,
    },
    Placed {
        address: 200,
        length: 312,
    },
    Placed {
        address: 512,
        length: 88,
    },
];

/// E, the address after the last.
pub(crate) const END: usize = 600;

/// Fills the bytes with a letter, and then writes the first bytes of an IPv4 datagram that tells this length over them.
pub(crate) fn fill_datagram(bytes: &mut [u8], told: u16, letter: u8)
    ensures size { length bytes.new ≡ length bytes.old }
    ensures head { 4 ≤ length bytes.old → (byte bytes.new 0 ≡ 0x45) × (word16 bytes.new 2 ≡ told) }
    ensures letters { (i : ℕ) → i < length bytes.old → i ≢ 0 → i ≢ 2 → i ≢ 3 → byte bytes.new i ≡ letter }
{
    bytes.fill(letter);
    if bytes.len() >= 4 {
        let [high, low] = told.to_be_bytes();
        bytes[0] = 0x45;
        bytes[2] = high;
        bytes[3] = low;
    }
}

/// The cells of the frame, without check bytes: the datagrams, A, B and C in their bytes, and zeros.
pub(crate) fn application_cells(alloc: Global, size: usize) -> Result<Vec<u8>, AllocError>
    ensures { IfOk result (λ cells. length cells.items ≡ size) }
{
    let mut cells = vec![in alloc; 0u8; size]?;
    for (placed, letter) in DATAGRAMS.iter().zip(b'A'..=b'C') {
        let first = usize::from(placed.address);
        let end = first + usize::from(placed.length);
        if end <= cells.len() {
            fill_datagram(&mut cells[first..end], placed.length, letter);
        }
    }
    Ok(cells)
}

// Spreads a row in the scratch row, and puts it back; says whether it is a codeword now.
fn spread_row(rows: Rows, row: u16, cells: &mut [u8], scratch: &mut [u8]) -> anyhow::Result<bool> {
    let guard = ScratchGuard(scratch);
    gather(cells, rows, row, guard.0);
    ReedSolomon.spread(guard.0)?;
    scatter(guard.0, rows, row, cells);
    Ok(is_codeword(guard.0))
}

/// Spreads each row of the frame. It must then be a codeword, and the scratch row all zero.
pub(crate) fn spread_rows(
    out: &mut impl Write,
    rows: Rows,
    cells: &mut [u8],
) -> anyhow::Result<()> {
    let mut scratch = [0xFF; ROW];
    // `as`: there are 1,024 rows at most, and `From` narrows nothing.
    for row in 0..rows.count() as u16 {
        let is_codeword = spread_row(rows, row, cells, &mut scratch)?;
        ensure!(is_codeword, "row {row} is no codeword");
        ensure!(scratch == [0; ROW], "the scratch row is not zero");
    }
    writeln!(
        out,
        "   all rows are codewords now; the scratch row is zero after each"
    )?;
    Ok(())
}
