//! The size of the frame that a section is for.
ghost use Rattle.std.specs.Prelude.{◌≡◌, ◌*◌, ◌==◌};

/// How many rows and check columns a frame has. Any numbers will do here.
#[derive(Clone, Copy, PartialEq, Eq, Debug)]
pub struct FrameSize {
    /// R.
    pub rows: usize,
    /// m.
    pub check_columns: usize,
}

impl FrameSize {
    /// The smallest frame with the check columns of RS(255,191).
    pub const RS_256: FrameSize = FrameSize {
        rows: 256,
        check_columns: 64,
    };

    /// Whether the check column with this number begins at this address of the RS table.
    pub fn begins_column(self, number: u8, address: u32) -> bool
        ensures { result ≡ (address == number * self.rows) }
    {
        // `as`: there is no `From<usize>` for a wider number.
        u128::from(address) == u128::from(number) * self.rows as u128
    }
}
