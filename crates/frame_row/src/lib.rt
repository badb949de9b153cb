//! The work on one row of a frame that receiver and sender share: the row is taken out of the cells into the scratch row, and
//! put back; and the scratch row is all zero again, whichever way that ends.
#![tactic(auto)]

ghost use Rattle.std.specs.Prelude.{◌≡◌, length, replicate};
ghost use Rattle.geometry.specs.Cells.{row_bytes};
ghost use Rattle.frame_row.specs.Rows.{PutBack};

use geometry::Rows;

/// How many bytes the scratch row has: as many as the widest row that there is.
pub const SCRATCH_ROW: usize = 255;

/// The scratch row, which a caller lends, while a row is worked in it. The guard holds its bytes alone, and all of them are 0
/// again when it goes.
// Its field is public: a method that lent the bytes out would have no generated proof.
pub struct ScratchGuard<'a>(pub &'a mut [u8]);

impl Drop for ScratchGuard<'_> {
    fn drop(self)
        ensures { self.exit.0.now ≡ replicate (length self.entry.0.now) 0 }
    {
        self.0.fill(0);
        // A drop ends by taking its value apart.
        let ScratchGuard(_) = self;
    }
}

/// Takes as many bytes of a row out of the cells as there is room for, 0 where there is no cell.
pub fn gather(cells: &[u8], rows: Rows, row: u16, bytes: &mut [u8])
    ensures { bytes.new ≡ row_bytes rows.count cells.now row (length bytes.old) }
{
    let mut at = usize::from(row);
    for byte in bytes.iter_mut() {
        *byte = cells.get(at).copied().unwrap_or(0);
        // Beyond the last cell it cannot wrap to one.
        at = at.saturating_add(rows.count());
    }
}

/// Puts bytes into a row of the cells, from its first column on. All other cells stay; a byte that has no cell is left out.
#[tactic(auto, using(crate::proofs::Puts::put_none, crate::proofs::Puts::put_more, crate::proofs::Puts::put_all))]
pub fn scatter(bytes: &[u8], rows: Rows, row: u16, cells: &mut [u8])
    ensures { PutBack rows.count row bytes.now cells.old cells.new }
{
    let mut at = usize::from(row);
    for byte in bytes {
        if at >= cells.len() {
            return;
        }
        cells[at] = *byte;
        at += rows.count();
    }
}

#[cfg(test)]
mod tests {
    use super::*;
    use std::test::Fail;

    // Row 7 of 256, in cells that end in the third column.
    #[test]
    fn a_row_out_and_back(rt: HostRuntime) -> Result<(), Fail> {
        let rows = Rows::of_size_code(0)?;
        let mut cells = [0; 600];
        (cells[7], cells[263], cells[519]) = (1, 2, 3);
        let mut scratch = [9; 4];
        {
            let row = ScratchGuard(&mut scratch);
            gather(&cells, rows, 7, row.0);
            assert_eq!(rt; &*row.0, [1, 2, 3, 0].as_slice());
            row.0[1] = 5;
            scatter(row.0, rows, 7, &mut cells);
        }
        assert_eq!(rt; scratch, [0; 4]);
        assert_eq!(rt; (cells[7], cells[263], cells[519]), (1, 5, 3));
        Ok(())
    }
}
