//! When close says no: 2 and 3.
ghost use Rattle.std.specs.Prelude.{◌≡◌, OnOk};
ghost use Rattle.geometry.specs.Cells.{frame_size};
ghost use Rattle.refusal.specs.Rules.{Answers, Obeys};
ghost use Rattle.table.specs.Closing.{work_rule, close_rules};

use frame_row::SCRATCH_ROW;
use geometry::Rows;
use refusal::{Refusal, refuse_when};
use rowcode::RowCode;

// Refuses, under 3, a scratch row that is not 255 bytes, or names that are not one byte a row.
fn check_work(rows: Rows, scratch: usize, names: usize) -> Result<(), Refusal>
    ensures answer { Obeys (work_rule rows.count scratch names) (λ _. Unit {0}) result }
    ensures sizes { OnOk result ((scratch ≡ 255) × (names ≡ rows.count)) }
{
    refuse_when(
        scratch != SCRATCH_ROW || names != rows.count(),
        Refusal::WorkBuffers,
    )
}

/// Refuses, under 2 and then under 3, buffers of such sizes.
pub(crate) fn check_sizes<C: RowCode>(
    rows: Rows,
    cells: usize,
    marks: usize,
    scratch: usize,
    names: usize,
) -> Result<(), Refusal>
    ensures answer { Answers (close_rules C.check_columns rows.count cells marks scratch names) (λ _. Unit {0}) result }
    ensures frame { OnOk result ((cells ≡ frame_size C.check_columns rows.count) × (marks ≡ frame_size C.check_columns rows.count)) }
    ensures work { OnOk result ((scratch ≡ 255) × (names ≡ rows.count)) }
{
    rows.check_buffers::<C>(cells, marks)?;
    check_work(rows, scratch, names)?;
    Ok(())
}
