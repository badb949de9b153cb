//! The geometry of a frame: its rows and columns, the addresses of its tables and their cells, and where its datagrams end.
#![tactic(auto)]

ghost use Rattle.std.specs.Prelude.{◌≡◌, ℕ, ◌+◌, ◌*◌, ◌<◌, ◌≤◌, ◌&&◌, Some, option_map, ◌↔◌, IfSome, IsTrue, OnOk};
ghost use Rattle.geometry.specs.Cells.{frame_size, table_size, cell, row_at, column_at, rs_cell};
ghost use Rattle.geometry.specs.Ends.{padding_from, EndsIn, ends_in, padding_of, OnlyPadding, limit_of};
ghost use Rattle.geometry.specs.Sizes.{AreSizes, four_sizes, buffer_rule, buffers_rule, size_rule};
ghost use Rattle.refusal.specs.Rules.{Obeys};

use refusal::{Refusal, refuse_when};
use rowcode::{APPLICATION_COLUMNS, RowCode};

/// R, the rows of a frame: 1 to 1,024.
#[derive(Clone, Copy, PartialEq, Eq, Debug)]
pub struct Rows {
    count: usize,
    ghost some: { 1 ≤ count },
    ghost few: { count ≤ 1024 },
}

impl Rows {
    /// The rows that a size code stands for: 256, 512, 768 and 1,024 for 0 to 3. Any other code is refused under 1.
    pub fn of_size_code(size_code: u8) -> Result<Rows, Refusal>
        ensures answer { Obeys (size_rule four_sizes «size_code») (λ rows. four_sizes «size_code» ≡ Some rows.count) result }
        ensures sizes { AreSizes four_sizes }
    {
        refuse_when(size_code > 3, Refusal::SizeCode)?;
        Ok(Rows {
            count: 256 * (usize::from(size_code) + 1),
        })
    }

    /// R as a number.
    pub fn count(self) -> usize
        ensures value { result ≡ self.count }
        ensures some { 1 ≤ result }
        ensures few { result ≤ 1024 }
    {
        self.count
    }

    /// How many cells the application table has.
    pub fn table_size(self) -> usize
        ensures { result ≡ table_size self.count }
    {
        APPLICATION_COLUMNS * self.count
    }

    /// How many cells a frame of this row code has.
    pub fn frame_size<C: RowCode>(self) -> usize
        ensures { result ≡ frame_size C.check_columns self.count }
    {
        (APPLICATION_COLUMNS + C::check_columns()) * self.count
    }

    /// Refuses, under 2, a buffer that has not one byte for each cell of such a frame.
    pub fn check_buffer<C: RowCode>(self, size: usize) -> Result<(), Refusal>
        ensures { Obeys (buffer_rule C.check_columns self.count size) (λ _. Unit {0}) result }
    {
        refuse_when(size != self.frame_size::<C>(), Refusal::FrameBuffers)
    }

    /// Refuses, under 2, cells or marks that have not one byte for each cell of such a frame.
    pub fn check_buffers<C: RowCode>(self, cells: usize, marks: usize) -> Result<(), Refusal>
        ensures answer { Obeys (buffers_rule C.check_columns self.count cells marks) (λ _. Unit {0}) result }
        ensures sizes { OnOk result
            ((cells ≡ frame_size C.check_columns self.count) × (marks ≡ frame_size C.check_columns self.count)) }
    {
        self.check_buffer::<C>(cells)?;
        self.check_buffer::<C>(marks)?;
        Ok(())
    }

    /// The cell in a row of a column. A row of the frame and its column can be told from it.
    pub fn cell(self, row: u16, column: u8) -> usize
        ensures value { result ≡ cell self.count row column }
        ensures row { row < self.count → row_at self.count result ≡ row }
        ensures column { row < self.count → column_at self.count result ≡ column }
    {
        usize::from(column) * self.count + usize::from(row)
    }

    /// The row of a cell, and its column. An address of the application table is its cell.
    pub fn row_and_column(self, cell: usize) -> (usize, usize)
        ensures row { result.0 ≡ row_at self.count cell }
        ensures column { result.1 ≡ column_at self.count cell }
        ensures back { (result.0 < self.count) × (cell ≡ result.1 * self.count + result.0) }
    {
        (cell % self.count, cell / self.count)
    }

    /// The cell of an address of the RS table.
    pub fn rs_cell(self, address: u32) -> usize
        ensures { result ≡ rs_cell self.count address }
    {
        // `as`: there is no `From<u32>` for `usize`.
        self.table_size() + address as usize
    }

    /// The address from which on there is padding only, if so many application columns have nothing else.
    pub fn padding_from(self, padding_columns: u8) -> usize
        ensures value { result ≡ padding_from self.count «padding_columns» }
        ensures inside { result ≤ table_size self.count }
    {
        APPLICATION_COLUMNS.saturating_sub(usize::from(padding_columns)) * self.count
    }

    /// Whether a table whose datagrams end at this address has so many columns with nothing but padding.
    pub fn ends_in(self, padding_columns: u8, end: usize) -> bool
        ensures value { result ≡ ends_in self.count «padding_columns» end }
        ensures fact { IsTrue result ↔ EndsIn self.count «padding_columns» end }
    {
        let before = usize::from(190u8.saturating_sub(padding_columns)) * self.count;
        before < end && end <= self.padding_from(padding_columns)
    }

    /// p, the application columns with nothing but padding in a table whose datagrams end at this address. It is the only
    /// number that is right for an end inside the table.
    #[tactic(auto, using(crate::proofs::Paddings::only_padding))]
    pub fn padding_columns(self, end: usize) -> u8
        ensures value { result ≡ padding_of self.count end }
        ensures right { 0 < end → end ≤ table_size self.count → OnlyPadding self.count end result }
    {
        // `as`: there are 191 columns, and `From` narrows nothing.
        (self.table_size().saturating_sub(end) / self.count) as u8
    }

    /// As far as datagrams are known to reach, by the end or the padding columns that were told, if any were.
    pub fn limit(self, end: Option<usize>, padding_columns: Option<u8>) -> usize
        ensures { result ≡ limit_of self.count end «padding_columns» }
    {
        match (end, padding_columns) {
            (Some(end), _) => end,
            (None, Some(padding_columns)) => self.padding_from(padding_columns),
            (None, None) => self.table_size(),
        }
    }
}
