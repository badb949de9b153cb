//! All rows of a burst, closed one after another.
ghost use Rattle.std.specs.Prelude.{◌≡◌, length, IfOk, OnErr};
ghost use Rattle.geometry.specs.Cells.{frame_size};
ghost use Rattle.refusal.specs.Rules.{Answers};
ghost use Rattle.table.specs.Closing.{close_rules, Closed, Tallied};

use crate::Tallies;
use crate::checking::check_sizes;
use crate::row::close_row;
use crate::tallying::tally;
use geometry::Rows;
use refusal::Refusal;
use rowcode::RowCode;

// Closes all rows, and names each by its answer.
#[tactic(auto, using(crate::proofs::AllRows::closed_none, crate::proofs::AllRows::closed_more, crate::proofs::AllRows::closed_all))]
fn close_all<C: RowCode>(
    rows: Rows,
    code: &mut C,
    cells: &mut [u8],
    marks: &mut [u8],
    scratch: &mut [u8],
    names: &mut [u8],
)
    requires cells { length cells.old ≡ frame_size C.check_columns rows.count }
    requires marks { length marks.old ≡ frame_size C.check_columns rows.count }
    requires scratch { length scratch.old ≡ 255 }
    requires names { length names.old ≡ rows.count }
    ensures { Closed C.check_columns C.codeword rows.count cells.old marks.old cells.new marks.new scratch.new names.new }
{
    // `as`: there are 1,024 rows at most.
    for row in 0..rows.count() as u16 {
        let answer = close_row(rows, row, code, cells, marks, scratch);
        names[usize::from(row)] = answer.number();
    }
}

/// Closes the buffers of a burst of so many rows, whatever they hold. Each row is mended by the code, in the scratch row, by
/// the bytes that its marks say are known. A filled row holds its codeword, and what was unknown is marked as filled; of a
/// torn row nothing is known any more; an open row stays. Its name is the answer's number. The scratch row is all zero
/// afterwards. Answers how many rows are filled, torn and open. Refused under 2 and 3, by the first that fits, with all as it
/// was.
pub fn close_rows<C: RowCode>(
    rows: Rows,
    code: &mut C,
    cells: &mut [u8],
    marks: &mut [u8],
    scratch: &mut [u8],
    names: &mut [u8],
) -> Result<Tallies, Refusal>
    ensures answer { Answers
        (close_rules C.check_columns rows.count (length cells.old) (length marks.old) (length scratch.old) (length names.old))
        (λ _. Closed C.check_columns C.codeword rows.count cells.old marks.old cells.new marks.new scratch.new names.new)
        result }
    ensures tallies { IfOk result (λ tallies. Tallied names.new tallies) }
    ensures stays { OnErr result
        ((code.new ≡ code.old) × (cells.new ≡ cells.old) × (marks.new ≡ marks.old) × (scratch.new ≡ scratch.old) × (names.new ≡ names.old)) }
{
    check_sizes::<C>(rows, cells.len(), marks.len(), scratch.len(), names.len())?;
    close_all(rows, code, cells, marks, scratch, names);
    Ok(tally(names))
}
