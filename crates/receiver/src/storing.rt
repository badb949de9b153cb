//! What a section that is taken leaves in the buffers.
ghost use Rattle.std.specs.Prelude.{◌≡◌, ◌+◌, ◌-◌, ◌≤◌, ◌&&◌, length, ◌==◌};
ghost use Rattle.octets.specs.Octets.{byte};
ghost use Rattle.geometry.specs.Cells.{table_size};
ghost use Rattle.frame.specs.Fields.{fields};
ghost use Rattle.marks.specs.declared.Mark.TheVariants.{Padding};
ghost use Rattle.marks.specs.Marks.{mark_byte};
ghost use Rattle.table.specs.Taking.{payload_mark};
ghost use Rattle.table.specs.Telling.{is_datagram, first_cell};
ghost use Rattle.receiver.specs.Parts.{Inside, EndInside, PartIs, Padded, CellsTook, MarksTook};

use crate::numbers::Numbers;
use crate::telling::{Told, first_cell};
use marks::Mark;
use section::{Header, Section};

// Copies a payload over the cells from this one on.
fn copy_over(payload: &[u8], first: usize, cells: &mut [u8])
    requires { first + length payload.now ≤ length cells.old }
    ensures { PartIs first (first + length payload.now) (λ i _. byte payload.now (i - first)) cells.old cells.new }
{
    cells[first..first + payload.len()].copy_from_slice(payload);
}

// Fills a part of a buffer with a byte.
fn fill_part(from: usize, end: usize, byte: u8, buffer: &mut [u8])
    requires order { from ≤ end }
    requires inside { end ≤ length buffer.old }
    ensures { PartIs from end (λ _ _. byte) buffer.old buffer.new }
{
    buffer[from..end].fill(byte);
}

// The mark of a cell under a payload: a start stays one, and any other cell is received, or now a start.
fn mark_under(is_start: bool, before: u8) -> u8
    ensures { result ≡ payload_mark «is_start» before }
{
    let mark = if is_start {
        Mark::Start
    } else {
        Mark::from(before).under_payload()
    };
    mark.byte()
}

// Marks the cells under a payload, where the first one is that of a datagram's first byte or not.
#[tactic(auto, using(crate::proofs::Written::one_more))]
fn mark_all_under(first: usize, end: usize, is_datagram: bool, marks: &mut [u8])
    requires order { first ≤ end }
    requires inside { end ≤ length marks.old }
    ensures { PartIs first end (λ i before. payload_mark («is_datagram» && i == first) before) marks.old marks.new }
{
    for i in first..end {
        marks[i] = mark_under(is_datagram && i == first, marks[i]);
    }
}

// Stores a payload in the cells from this one on, just as it is, and marks them.
fn store(payload: &[u8], first: usize, is_datagram: bool, cells: &mut [u8], marks: &mut [u8])
    requires inside { first + length payload.now ≤ length cells.old }
    requires marks { length marks.old ≡ length cells.old }
    ensures cells { PartIs first (first + length payload.now) (λ i _. byte payload.now (i - first)) cells.old cells.new }
    ensures marks { PartIs first (first + length payload.now) (λ i before. payload_mark («is_datagram» && i == first) before) marks.old marks.new }
{
    copy_over(payload, first, cells);
    mark_all_under(first, first + payload.len(), is_datagram, marks);
}

impl Numbers {
    // Stores the payload of a section.
    fn store_payload(self, section: Section<'_>, cells: &mut [u8], marks: &mut [u8])
        requires inside { Inside self.rows.count (fields section) (length cells.old) }
        requires marks { length marks.old ≡ length cells.old }
        ensures cells { PartIs (first_cell self.rows.count (fields section.entry)) (first_cell self.rows.count (fields section.entry) + length section.entry.payload.now)
            (λ i _. byte section.entry.payload.now (i - first_cell self.rows.count (fields section.entry))) cells.old cells.new }
        ensures marks { PartIs (first_cell self.rows.count (fields section.entry)) (first_cell self.rows.count (fields section.entry) + length section.entry.payload.now)
            (λ i before. payload_mark (is_datagram section.entry.header && i == first_cell self.rows.count (fields section.entry)) before) marks.old marks.new }
    {
        let first = first_cell(section, self.rows);
        match section.header {
            Header::Datagram(_) => store(section.payload, first, true, cells, marks),
            Header::Check(_) => store(section.payload, first, false, cells, marks),
        }
    }

    // Makes padding of the application cells from where a section tells it on.
    fn pad(self, section: Section<'_>, cells: &mut [u8], marks: &mut [u8])
        requires end { EndInside self.rows.count (fields section) }
        requires cells { table_size self.rows.count ≤ length cells.old }
        requires marks { length marks.old ≡ length cells.old }
        ensures cells { Padded self.rows.count (fields section.entry) 0 cells.old cells.new }
        ensures marks { Padded self.rows.count (fields section.entry) (mark_byte Padding) marks.old marks.new }
    {
        if let Some(from) = Told::by(section).padded_from(self.rows) {
            let end = self.rows.table_size();
            fill_part(from, end, 0, cells);
            fill_part(from, end, Mark::Padding.byte(), marks);
        }
    }

    // Takes a section into the buffers: its payload, and the padding that it tells.
    pub(crate) fn enter(self, section: Section<'_>, cells: &mut [u8], marks: &mut [u8])
        requires inside { Inside self.rows.count (fields section) (length cells.old) }
        requires end { EndInside self.rows.count (fields section) }
        requires cells { table_size self.rows.count ≤ length cells.old }
        requires marks { length marks.old ≡ length cells.old }
        ensures cells { CellsTook self.rows.count (fields section.entry) cells.old cells.new }
        ensures marks { MarksTook self.rows.count (fields section.entry) marks.old marks.new }
    {
        self.store_payload(section, cells, marks);
        self.pad(section, cells, marks);
    }
}
