//! Row codes: what a row of a frame is mended by. One interface for all of them, and the code of streams without MPE-FEC.
#![tactic(auto)]

ghost use Rattle.std.specs.Prelude.{◌≡◌, ◌≢◌, ℕ, ◌+◌, ◌≤◌, ◌<◌, ◌↔◌, true, false, List, Some, length, IfSome, IfNone, IsOk, IfOk, OnOk, OnErr};
ghost use Rattle.rowcode.specs.Answers.{number_of, misfit_text, Mends};
ghost use Rattle.rowcode.specs.BareLaws.{any_begins};
ghost use Rattle.std.proofs.Common.{rules};
ghost use Rattle.rowcode.specs.Rows.{Begins, IsRow, OnlyIs, is_known};

use std::error::Error;
use std::fmt;

/// The application columns of a frame, 0 to 190: as many bytes of a row are given when it is spread.
pub const APPLICATION_COLUMNS: usize = 191;

/// What mend says of a row.
#[derive(Clone, Copy, PartialEq, Eq, Debug)]
pub enum Mended {
    /// Just one codeword agrees with the known bytes, and the row is now that.
    Filled,
    /// No codeword agrees with the known bytes.
    Torn,
    /// Two or more codewords agree with the known bytes.
    Open,
}

impl Mended {
    /// The number by which an answer is known.
    // No `From`: `u8::from` would not say which number.
    pub fn number(self) -> u8
        ensures { result ≡ number_of self }
    {
        match self {
            Mended::Filled => 1,
            Mended::Torn => 2,
            Mended::Open => 3,
        }
    }
}

/// A row, or what is known of it, has not the length that the row code works on.
#[derive(Clone, Copy, PartialEq, Eq, Debug)]
pub struct Misfit;

impl fmt::Display for Misfit {
    ghost output = { λ _. Some misfit_text };

    fn fmt<W: fmt::Write>(&self, f: &mut fmt::Formatter<W>) -> fmt::Result {
        f.pad("the row, or what is known of it, has not the length of the row code")
    }
}

impl Error for Misfit {}

/// A row code: a number of check columns, and a set of rows that are its codewords. Both belong to the type, so no call can
/// change them.
pub trait RowCode {
    // How many check columns its rows have behind the application columns.
    ghost check_columns: { ℕ };

    // Which rows are codewords.
    ghost codeword: { List ℕ → Type 0 };

    /// How many check columns its rows have.
    fn check_columns() -> usize
        ensures { result ≡ check_columns };

    /// Writes, behind 191 given bytes, the check bytes of the codeword that they begin. A row of another length is left as it
    /// is.
    fn spread(&mut self, row: &mut [u8]) -> Result<(), Misfit>
        ensures fits { IsOk result ↔ (length row.old ≡ 191 + check_columns) }
        ensures spread { OnOk result (Begins codeword row.old row.new) }
        ensures misfit { OnErr result (row.new ≡ row.old) };

    /// Mends a row of which `known` says what is known: fills it with the one codeword that agrees with the known bytes, or
    /// says that there is none, or more than one. Then, and where a length is wrong, the row is left as it is.
    fn mend(&mut self, row: &mut [u8], known: &[bool]) -> Result<Mended, Misfit>
        ensures fits { IsOk result ↔
            ((length row.old ≡ 191 + check_columns) × (length known.now ≡ 191 + check_columns)) }
        ensures mended { IfOk result (λ answer. Mends codeword known.now row.old row.new answer) }
        ensures misfit { OnErr result (row.new ≡ row.old) };

    // Its rows have 64 check columns at most.
    ghost few: { check_columns ≤ 64 };

    // Its codewords are rows of 191 bytes and one for each check column.
    ghost rows: { (word : List ℕ) → codeword word → IsRow (191 + check_columns) word };

    // Any 191 bytes begin just one of them.
    ghost begins: { (front : List ℕ) → IsRow 191 front →
        (word : List ℕ) × OnlyIs (Begins codeword front) word };
}

// A place of a row that is not known, where there is one.
fn unknown_place(known: &[bool]) -> Option<usize>
    ensures unknown { IfSome result (λ i. (i < length known.now) × (is_known known.now i ≡ false)) }
    ensures none { IfNone result ((i : ℕ) → i < length known.now → is_known known.now i ≡ true) }
{
    known.iter().position(|known| !*known)
}

/// The row code of streams without MPE-FEC: no check columns, and every row of 191 bytes is a codeword.
#[derive(Clone, Copy, PartialEq, Eq, Debug)]
pub struct Bare;

impl RowCode for Bare {
    ghost check_columns = { 0 };

    ghost codeword = { IsRow 191 };

    fn check_columns() -> usize {
        0
    }

    fn spread(&mut self, row: &mut [u8]) -> Result<(), Misfit> {
        if row.len() == APPLICATION_COLUMNS {
            Ok(())
        } else {
            Err(Misfit)
        }
    }

    fn mend(&mut self, row: &mut [u8], known: &[bool]) -> Result<Mended, Misfit> {
        if row.len() != APPLICATION_COLUMNS || known.len() != APPLICATION_COLUMNS {
            return Err(Misfit);
        }
        match unknown_place(known) {
            None => Ok(Mended::Filled),
            Some(_) => Ok(Mended::Open),
        }
    }

    ghost few = { Prim.search rules };

    ghost rows = { λ word is. is };

    ghost begins = { any_begins };
}
