//! One row of the cells, mended in the scratch row.
ghost use Rattle.std.specs.Prelude.{◌≡◌, ◌<◌, ◌≤◌, length, replicate};
ghost use Rattle.geometry.specs.Cells.{width, frame_size};
ghost use Rattle.closing.specs.Rows.{BytesMended, RowMended, MarkedRowMended};

use crate::marking::tell_known;
use frame_row::{SCRATCH_ROW, ScratchGuard, gather, scatter};
use geometry::Rows;
use rowcode::{Mended, Misfit, RowCode};

// Has a row mended that has the length of the row code.
fn mend_fit<C: RowCode>(code: &mut C, bytes: &mut [u8], known: &[bool]) -> Mended
    requires bytes { length bytes.old ≡ width C.check_columns }
    requires known { length known.now ≡ width C.check_columns }
    ensures { BytesMended C.codeword known.now bytes.old bytes.new result }
{
    match code.mend(bytes, known) {
        Ok(answer) => answer,
        Err(Misfit) => unreachable!(),
    }
}

// Mends a row of the cells in these bytes. It is put back only when it is filled.
#[tactic(auto, using(crate::proofs::MendedRows::put_mended, crate::proofs::MendedRows::kept_mended))]
fn mend_in<C: RowCode>(
    rows: Rows,
    row: u16,
    code: &mut C,
    cells: &mut [u8],
    known: &[bool],
    bytes: &mut [u8],
) -> Mended
    requires row { row < rows.count }
    requires cells { length cells.old ≡ frame_size C.check_columns rows.count }
    requires known { length known.now ≡ width C.check_columns }
    requires bytes { length bytes.old ≡ width C.check_columns }
    ensures { RowMended C.check_columns C.codeword rows.count row known.now cells.old cells.new result }
{
    gather(cells, rows, row, bytes);
    let answer = mend_fit(code, bytes, known);
    if answer == Mended::Filled {
        scatter(bytes, rows, row, cells);
    }
    answer
}

// Mends a row of the cells in the scratch row, which then is all zero.
fn mend_known<C: RowCode>(
    rows: Rows,
    row: u16,
    code: &mut C,
    cells: &mut [u8],
    known: &[bool],
    scratch: &mut [u8],
) -> Mended
    requires row { row < rows.count }
    requires cells { length cells.old ≡ frame_size C.check_columns rows.count }
    requires known { length known.now ≡ width C.check_columns }
    requires scratch { length scratch.old ≡ 255 }
    requires fits { length known.now ≤ 255 }
    ensures mended { RowMended C.check_columns C.codeword rows.count row known.now cells.old cells.new result }
    ensures scratch { scratch.new ≡ replicate 255 0 }
{
    let guard = ScratchGuard(scratch);
    mend_in(rows, row, code, cells, known, &mut guard.0[..known.len()])
}

/// Mends the row of the cells that has these marks, in the scratch row, which then is all zero.
pub(crate) fn mend_row<C: RowCode>(
    rows: Rows,
    row: u16,
    code: &mut C,
    cells: &mut [u8],
    marks: &[u8],
    scratch: &mut [u8],
) -> Mended
    requires row { row < rows.count }
    requires cells { length cells.old ≡ frame_size C.check_columns rows.count }
    requires marks { length marks.now ≡ width C.check_columns }
    requires scratch { length scratch.old ≡ 255 }
    ensures mended { MarkedRowMended C.check_columns C.codeword rows.count row marks.now cells.old cells.new result }
    ensures scratch { scratch.new ≡ replicate 255 0 }
{
    let mut known = [false; SCRATCH_ROW];
    let known = &mut known[..marks.len()];
    tell_known(marks, known);
    mend_known(rows, row, code, cells, known, scratch)
}
