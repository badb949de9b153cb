//! One row, closed: mended, and marked by the answer.
ghost use Rattle.std.specs.Prelude.{◌≡◌, ◌<◌, length, replicate};
ghost use Rattle.geometry.specs.Cells.{width, frame_size};
ghost use Rattle.closing.specs.Rows.{OneClosed};

use crate::marking::mark_row;
use crate::mending::mend_row;
use frame_row::{SCRATCH_ROW, gather, scatter};
use geometry::Rows;
use rowcode::{APPLICATION_COLUMNS, Mended, RowCode};

// Closes a row, with room for its marks. Those of an open row are put back as they were taken out.
#[tactic(auto, using(crate::proofs::ClosedRows::row_closed))]
fn close_row_in<C: RowCode>(
    rows: Rows,
    row: u16,
    code: &mut C,
    cells: &mut [u8],
    marks: &mut [u8],
    scratch: &mut [u8],
    row_marks: &mut [u8],
) -> Mended
    requires row { row < rows.count }
    requires cells { length cells.old ≡ frame_size C.check_columns rows.count }
    requires marks { length marks.old ≡ frame_size C.check_columns rows.count }
    requires scratch { length scratch.old ≡ 255 }
    requires row_marks { length row_marks.old ≡ width C.check_columns }
    ensures closed { OneClosed C.check_columns C.codeword rows.count row cells.old marks.old cells.new marks.new result }
    ensures scratch { scratch.new ≡ replicate 255 0 }
{
    gather(marks, rows, row, row_marks);
    let answer = mend_row(rows, row, code, cells, row_marks, scratch);
    mark_row(answer, row_marks);
    scatter(row_marks, rows, row, marks);
    answer
}

/// Closes a row: mends it in the scratch row, and marks it by the answer. All other rows stay.
pub(crate) fn close_row<C: RowCode>(
    rows: Rows,
    row: u16,
    code: &mut C,
    cells: &mut [u8],
    marks: &mut [u8],
    scratch: &mut [u8],
) -> Mended
    requires row { row < rows.count }
    requires cells { length cells.old ≡ frame_size C.check_columns rows.count }
    requires marks { length marks.old ≡ frame_size C.check_columns rows.count }
    requires scratch { length scratch.old ≡ 255 }
    ensures closed { OneClosed C.check_columns C.codeword rows.count row cells.old marks.old cells.new marks.new result }
    ensures scratch { scratch.new ≡ replicate 255 0 }
{
    let width = APPLICATION_COLUMNS + C::check_columns();
    let mut row_marks = [0; SCRATCH_ROW];
    close_row_in(
        rows,
        row,
        code,
        cells,
        marks,
        scratch,
        &mut row_marks[..width],
    )
}
