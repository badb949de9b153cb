//! The steps of `linkdemo` with one row of a frame: it is spread, damaged and mended.
#![tactic(auto)]

ghost use Rattle.std.specs.Prelude.{◌≡◌, ℕ, ◌+◌, ◌<◌, ◌≤◌, ◌↔◌, false, true, not, replicate, IsTrue, OnOk, take, count_by};
ghost use Rattle.octets.specs.Octets.{byte};
ghost use Rattle.rowcode.specs.Rows.{is_known};
ghost use Rattle.rowdemo.specs.Wrong.{wrong_count};

use anyhow::ensure;
use rowcode::{APPLICATION_COLUMNS, Mended, RowCode};
use rs_code::{ROW, is_codeword};
use std::io;
use std::io::Write;

// The row is given this, over and over.
const TEXT: &str = "Lozkidar: the link layer of DVB-H terminals. ";

type Row = [u8; ROW];

// A row as it came, and which of its bytes are known.
#[derive(Clone, Copy)]
struct Arrival {
    row: Row,
    known: [bool; ROW],
}

impl Arrival {
    // The row came whole.
    fn whole(row: Row) -> Arrival
        ensures row { result.row ≡ row }
        ensures known { result.known ≡ replicate 255 true }
    {
        Arrival {
            row,
            known: [true; ROW],
        }
    }

    // So many bytes from the first one on are not known any more, and are 0.
    fn lose(&mut self, first: usize, count: usize)
        requires { first + count ≤ 255 }
        ensures lost { (i : ℕ) → first ≤ i → i < first + count →
            (is_known self.new.known i ≡ false) × (byte self.new.row i ≡ 0) }
        ensures before { (i : ℕ) → i < first →
            (is_known self.new.known i ≡ is_known self.old.known i)
            × (byte self.new.row i ≡ byte self.old.row i) }
        ensures behind { (i : ℕ) → first + count ≤ i →
            (is_known self.new.known i ≡ is_known self.old.known i)
            × (byte self.new.row i ≡ byte self.old.row i) }
    {
        self.row[first..first + count].fill(0);
        self.known[first..first + count].fill(false);
    }

    fn missing(&self) -> usize
        ensures { result ≡ count_by (λ known. not known) self.now.known }
    {
        self.known.iter().filter(|known| !**known).count()
    }

    fn known(&self) -> usize
        ensures { result ≡ count_by (λ known. known) self.now.known }
    {
        self.known.iter().filter(|known| **known).count()
    }

    // How many known bytes are not those that were sent.
    fn wrong(&self, sent: &Row) -> usize
        ensures { result ≡ wrong_count self.now.row sent.now self.now.known }
    {
        let bytes = self.row.iter().zip(sent).zip(&self.known);
        bytes
            .filter(|((came, sent), known)| **known && came != sent)
            .count()
    }
}

// Whether two rows have the same bytes in the application columns.
fn begin_alike(row: &Row, other: &Row) -> bool
    ensures { IsTrue result ↔ (take 191 row.now ≡ take 191 other.now) }
{
    row[..APPLICATION_COLUMNS] == other[..APPLICATION_COLUMNS]
}

fn print_bytes(out: &mut impl Write, bytes: &[u8]) -> io::Result<()> {
    for line in bytes.chunks(16) {
        write!(out, "  ")?;
        for byte in line {
            write!(out, " {byte:02X}")?;
        }
        writeln!(out)?;
    }
    Ok(())
}

// Has a row mended, and tells what came of it, which must be this answer: a filled row is the one that was sent, and any
// other stays as it came.
fn mend(
    out: &mut impl Write,
    code: &mut impl RowCode,
    sent: &Row,
    arrival: &Arrival,
    due: Mended,
) -> anyhow::Result<()> {
    let (word, outcome, after) = match due {
        Mended::Filled => ("filled", "every byte is as it was sent", sent),
        Mended::Torn => ("torn", "the row stays as it came", &arrival.row),
        Mended::Open => ("open", "the row stays as it came", &arrival.row),
    };
    let mut row = arrival.row;
    let mended = code.mend(&mut row, &arrival.known)?;
    ensure!(mended == due, "the row is not {word}");
    ensure!(row == *after, "another row stands there: {outcome}");
    let (missing, known, wrong) = (arrival.missing(), arrival.known(), arrival.wrong(sent));
    let number = mended.number();
    writeln!(
        out,
        "   missing {missing}, known {known}, of these wrong {wrong}"
    )?;
    writeln!(out, "   Mend answers {number}, {word}: {outcome}.")?;
    Ok(())
}

// A row that begins with the text, 0 in place of its check bytes.
fn text_row() -> Row {
    let mut row = [0; ROW];
    let text = TEXT.as_bytes().iter().cycle();
    for (byte, letter) in row[..APPLICATION_COLUMNS].iter_mut().zip(text) {
        *byte = *letter;
    }
    row
}

// Spreads a row of text; the row must then be a codeword, and be mended to itself.
fn spread_text<C: RowCode>(out: &mut impl Write, code: &mut C) -> anyhow::Result<Row>
    ensures { OnOk result (C.check_columns ≡ 64) }
{
    let given = text_row();
    let mut row = given;
    code.spread(&mut row)?;
    ensure!(begin_alike(&row, &given), "spread changed the text");
    ensure!(is_codeword(&row), "the row is no codeword");
    writeln!(
        out,
        "1. The row is given 191 bytes, this text over and over:"
    )?;
    writeln!(out, "   \"{TEXT}\"")?;
    writeln!(out, "   Spread writes 64 check bytes behind them:")?;
    print_bytes(out, &row[APPLICATION_COLUMNS..])?;
    mend(out, code, &row, &Arrival::whole(row), Mended::Filled)?;
    Ok(row)
}

fn lose_64(out: &mut impl Write, code: &mut impl RowCode, sent: &Row) -> anyhow::Result<()> {
    writeln!(
        out,
        "2. Bytes 150 to 213 are lost, as many as can be filled:"
    )?;
    let mut arrival = Arrival::whole(*sent);
    arrival.lose(150, 64);
    mend(out, code, sent, &arrival, Mended::Filled)
}

fn lose_65(out: &mut impl Write, code: &mut impl RowCode, sent: &Row) -> anyhow::Result<()> {
    writeln!(out, "3. Bytes 100 to 164 are lost, one too many:")?;
    let mut arrival = Arrival::whole(*sent);
    arrival.lose(100, 65);
    mend(out, code, sent, &arrival, Mended::Open)
}

fn lose_40_of_a_wrong_row(
    out: &mut impl Write,
    code: &mut impl RowCode,
    sent: &Row,
) -> anyhow::Result<()> {
    writeln!(
        out,
        "4. Bytes 0 to 39 are lost, and the lowest bit of byte 200 is flipped:"
    )?;
    let mut arrival = Arrival::whole(*sent);
    arrival.row[200] ^= 1;
    arrival.lose(0, 40);
    mend(out, code, sent, &arrival, Mended::Torn)
}

/// Shows what a row code does, step by step. It is an error if a step does not come out as it is told; so it is with a code of
/// rows that are not 255 bytes.
pub fn show<C: RowCode>(out: &mut impl Write, code: &mut C) -> anyhow::Result<()>
    ensures { OnOk result (C.check_columns ≡ 64) }
{
    let sent = spread_text(out, code)?;
    writeln!(out)?;
    lose_64(out, code, &sent)?;
    writeln!(out)?;
    lose_65(out, code, &sent)?;
    writeln!(out)?;
    lose_40_of_a_wrong_row(out, code, &sent)
}
