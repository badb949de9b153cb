//! Numbers and words are set in columns.

ghost use Rattle.std.specs.Prelude.{◌≡◌, ◌+◌, ◌≤◌, ◌↔◌, [], ◌∷◌, ◌++◌, length, replicate, decimal, IsOk, OnOk, OnErr};
ghost use Rattle.std.specs.Io.KnownBytes.{Appends};
ghost use Rattle.stream.specs.Columns.{right_aligned, left_aligned};

use arrayvec::{ArrayVec, CapacityError};
use itoa::{Buffer, write_digits};
use std::io;
use std::io::Write;
use std::marker::Model;

/// How many bytes a line has room for.
const ROOM: usize = 256;

static BLANKS: [u8; ROOM] = [b' '; ROOM];

// So many blanks.
fn blank(count: usize) -> &'static [u8]
    requires { count ≤ 256 }
    ensures { result.now ≡ replicate count 32 }
{
    &BLANKS[..count]
}

// How many digits the number has. They are written to be counted, since a copy of them would cost more than to write them
// again.
fn digits(number: u64) -> usize
    ensures { result ≡ length (decimal number) }
{
    let mut buffer = Buffer::new();
    buffer.format(number).len()
}

/// Writes the number in decimal over the whole field, right-justified with blanks before it.
/// Where its digits do not fit, the field stays as it was.
pub fn right_justified(number: u64, field: &mut [u8]) -> Result<(), CapacityError>
    ensures fits { IsOk result ↔ (length (decimal number) ≤ length field.old) }
    ensures written { OnOk result (field.new ≡ right_aligned (length field.old) number) }
    ensures kept { OnErr result (field.new ≡ field.old) }
{
    let mut buffer = Buffer::new();
    let digits = buffer.format(number).as_bytes();
    if digits.len() > field.len() {
        return Err(CapacityError::new(()));
    }
    let blanks = field.len() - digits.len();
    field[..blanks].fill(b' ');
    field[blanks..].copy_from_slice(digits);
    Ok(())
}

/// A line of text that is built up from left to right.
#[derive(Default, Drop)]
pub struct Line {
    text: ArrayVec<u8, ROOM>,
}

// Clauses see the text so far.
impl Model for Line {
    ghost use Rattle.std.specs.Prelude.{ℕ, List};

    ghost Value = { List ℕ };

    ghost view = { λ line. line.text.items };
}

impl Line {
    /// A line with nothing in it.
    pub fn new() -> Line
        ensures { result ≡ [] }
    {
        Line::default()
    }

    /// The text so far.
    pub fn as_bytes(&self) -> &[u8]
        ensures text { result.now ≡ self.now }
        ensures within { length result.now ≤ 256 }
    {
        self.text.as_slice()
    }

    /// Appends the number, with blanks before it up to so many columns where it has fewer digits.
    /// Where that does not fit the line, the text stays as it was.
    pub fn decimal(&mut self, number: u64, columns: usize) -> Result<(), CapacityError>
        ensures fits { IsOk result ↔ (length self.old + length (right_aligned columns number) ≤ 256) }
        ensures written { OnOk result (self.new ≡ self.old ++ right_aligned columns number) }
        ensures kept { OnErr result (self.new ≡ self.old) }
        ensures within { length self.new ≤ 256 }
    {
        let width = columns.max(digits(number));
        self.append(b"", width)?;
        let end = self.text.len();
        write_digits(number, self.text.as_mut_slice(), end);
        Ok(())
    }

    /// Appends the word, with blanks after it up to so many columns where it has fewer bytes.
    /// Where that does not fit the line, the text stays as it was.
    pub fn word(&mut self, word: &str, columns: usize) -> Result<(), CapacityError>
        ensures fits { IsOk result ↔ (length self.old + length (left_aligned columns word.now) ≤ 256) }
        ensures written { OnOk result (self.new ≡ self.old ++ left_aligned columns word.now) }
        ensures kept { OnErr result (self.new ≡ self.old) }
        ensures within { length self.new ≤ 256 }
    {
        self.append(word.as_bytes(), columns)
    }

    /// Writes the text and an end of line.
    pub fn print<W: Write>(&self, out: &mut W) -> io::Result<()>
        ensures { OnOk result (Appends (W.contents out.old) (W.contents out.new) (self.now ++ 10 ∷ [])) }
    {
        out.write_all(self.as_bytes())?;
        out.write_all(b"\n")?;
        Ok(())
    }

    // Appends the text, with blanks behind it up to so many columns, or nothing where that does not fit the line.
    fn append(&mut self, text: &[u8], columns: usize) -> Result<(), CapacityError>
        ensures fits { IsOk result ↔ (length self.old + length (left_aligned columns text.now) ≤ 256) }
        ensures written { OnOk result (self.new ≡ self.old ++ left_aligned columns text.now) }
        ensures kept { OnErr result (self.new ≡ self.old) }
        ensures within { length self.new ≤ 256 }
    {
        let blanks = columns.saturating_sub(text.len());
        let width = text.len().saturating_add(blanks);
        if width > self.text.remaining_capacity() {
            return Err(CapacityError::new(()));
        }
        self.text.try_extend_from_slice(text)?;
        self.text.try_extend_from_slice(blank(blanks))
    }
}
