//! When a table turns a section away that passed the rules of reading: 12 and 13.
ghost use Rattle.std.specs.Prelude.{◌≡◌, List, ◌+◌, ◌-◌, ◌<◌, ◌≤◌, ◌&&◌, ◌||◌, not, [], length, IfSome, OnOk};
ghost use Rattle.std.specs.List.{list_any, range_with_len};
ghost use Rattle.geometry.specs.Cells.{table_size};
ghost use Rattle.geometry.specs.Ends.{limit_of};
ghost use Rattle.marks.specs.Marks.{is_received, mark_of};
ghost use Rattle.refusal.specs.Rules.{Obeys, first};
ghost use Rattle.frame.specs.Fields.{fields};
ghost use Rattle.table.specs.Bursts.{table_of, received_at};
ghost use Rattle.table.specs.Rules.{limit_rule, first_difference, difference_rule, end_rule, goes_against, contradiction_rule, table_rules};
ghost use Rattle.receiver.specs.Parts.{Inside, ColumnInside, EndInside, DatagramInside, first_unlike};
ghost use Rattle.receiver.specs.Views.{numbers_of};

use crate::numbers::Numbers;
use crate::telling::{Told, first_cell, payload_end};
use marks::Mark;
use refusal::{Refusal, refuse_when};
use section::{Header, Section};

// Whether a section carried any cell that has these marks.
fn any_received(marks: &[u8]) -> bool
    ensures { result ≡ list_any (λ mark. is_received (mark_of mark)) marks.now }
{
    marks.iter().any(|mark| Mark::from(*mark).is_received())
}

// Whether a section carried any of the cells from one on and before another.
#[tactic(auto, using(table::proofs::Finding::any_slice))]
fn any_received_between(marks: &[u8], from: usize, end: usize) -> bool
    requires order { from ≤ end }
    requires inside { end ≤ length marks.now }
    ensures { result ≡ list_any (received_at marks.now) (range_with_len from (end - from)) }
{
    any_received(&marks[from..end])
}

// The first byte of a payload that is not what is known of its cell, where it lies over these cells and marks.
fn first_unlike(payload: &[u8], cells: &[u8], marks: &[u8]) -> Option<usize>
    requires cells { length cells.now ≡ length payload.now }
    requires marks { length marks.now ≡ length payload.now }
    ensures value { result ≡ first_unlike payload.now cells.now marks.now }
    ensures inside { IfSome result (λ k. k < length payload.now) }
{
    for (k, byte) in payload.iter().enumerate() {
        if Mark::from(marks[k]).is_known() && cells[k] != *byte {
            return Some(k);
        }
    }
    None
}

impl Numbers {
    // As far as datagrams are known to reach.
    pub(crate) fn limit(self) -> usize
        ensures value { result ≡ limit_of self.rows.count self.told.end self.told.«padding_columns» }
        ensures inside { result ≤ table_size self.rows.count }
    {
        self.rows.limit(self.told.end, self.told.padding_columns)
    }

    // 12: a datagram passes the limit.
    fn check_limit(self, section: Section<'_>) -> Result<(), Refusal>
        ensures { Obeys (limit_rule (limit_of self.rows.count self.told.end self.told.«padding_columns») (fields section.entry)) (λ _. DatagramInside self.rows.count (fields section.entry)) result }
    {
        match section.header {
            Header::Datagram(_) => {
                let limit = self.limit();
                let address = section.timing.address as usize;
                refuse_when(
                    limit < payload_end(section),
                    Refusal::BeyondLimit {
                        place: address.max(limit) as u64,
                    },
                )
            }
            Header::Check(_) => Ok(()),
        }
    }

    // The first byte of the payload that is not what is known of its cell.
    #[tactic(auto, using(crate::proofs::Differences::first_in_parts))]
    fn first_difference(self, section: Section<'_>, cells: &[u8], marks: &[u8]) -> Option<usize>
        requires cells { Inside self.rows.count (fields section) (length cells.now) }
        requires marks { length marks.now ≡ length cells.now }
        ensures value { result ≡ first_difference (table_of (numbers_of self) cells.now marks.now) (fields section.entry) }
        ensures inside { IfSome result (λ k. k < length section.entry.payload.now) }
    {
        let payload = section.payload;
        let first = first_cell(section, self.rows);
        let end = first + payload.len();
        first_unlike(payload, &cells[first..end], &marks[first..end])
    }

    // 13, first: a byte of the payload is not what is known of its cell.
    fn check_bytes(self, section: Section<'_>, cells: &[u8], marks: &[u8]) -> Result<(), Refusal>
        requires cells { Inside self.rows.count (fields section) (length cells.now) }
        requires marks { length marks.now ≡ length cells.now }
        ensures { Obeys (difference_rule (table_of (numbers_of self) cells.now marks.now) (fields section.entry)) (λ _. Unit {0}) result }
    {
        match self.first_difference(section, cells, marks) {
            Some(k) => Err(Refusal::Contradiction {
                place: u64::from(section.timing.address) + k as u64,
            }),
            None => Ok(()),
        }
    }

    // Whether what the section tells of the end goes against what was told, or what was received. The bytes of the cells do not
    // matter here.
    fn goes_against(self, section: Section<'_>, end: usize, marks: &[u8]) -> bool
        requires marks { table_size self.rows.count ≤ length marks.now }
        requires end { end ≤ table_size self.rows.count }
        ensures { result ≡ goes_against (table_of (numbers_of self) [] marks.now) (fields section.entry) end }
    {
        self.told.contradicts(Told::by(section), self.rows)
            || any_received_between(marks, end, self.rows.table_size())
    }

    // 13, second: what the section tells of the end goes against what is known.
    fn check_end(self, section: Section<'_>, marks: &[u8]) -> Result<(), Refusal>
        requires marks { table_size self.rows.count ≤ length marks.now }
        requires end { EndInside self.rows.count (fields section) }
        ensures { Obeys (end_rule (table_of (numbers_of self) [] marks.now) (fields section.entry)) (λ _. Unit {0}) result }
    {
        match Told::by(section).padded_from(self.rows) {
            Some(end) => refuse_when(
                self.goes_against(section, end, marks),
                Refusal::Contradiction { place: end as u64 },
            ),
            None => Ok(()),
        }
    }

    // 13: the section contradicts what is known; the first cause counts.
    fn check_contradiction(
        self,
        section: Section<'_>,
        cells: &[u8],
        marks: &[u8],
    ) -> Result<(), Refusal>
        requires payload { Inside self.rows.count (fields section) (length cells.now) }
        requires end { EndInside self.rows.count (fields section) }
        requires cells { table_size self.rows.count ≤ length cells.now }
        requires marks { length marks.now ≡ length cells.now }
        ensures { Obeys (contradiction_rule (table_of (numbers_of self) cells.now marks.now) (fields section.entry)) (λ _. Unit {0}) result }
    {
        self.check_bytes(section, cells, marks)?;
        self.check_end(section, marks)
    }

    // 12 and 13, of a section that passed the rules of reading. One that passes these too has its payload inside the buffers, and
    // the end that it tells inside the application table.
    pub(crate) fn check(
        self,
        section: Section<'_>,
        cells: &[u8],
        marks: &[u8],
    ) -> Result<(), Refusal>
        requires column { ColumnInside self.rows.count (fields section) (length cells.now) }
        requires cells { table_size self.rows.count ≤ length cells.now }
        requires marks { length marks.now ≡ length cells.now }
        ensures answer { Obeys (first (table_rules (table_of (numbers_of self) cells.now marks.now) (fields section.entry))) (λ _. Unit {0}) result }
        ensures inside { OnOk result (Inside self.rows.count (fields section.entry) (length cells.now)) }
        ensures end { OnOk result (EndInside self.rows.count (fields section.entry)) }
    {
        self.check_limit(section)?;
        self.check_contradiction(section, cells, marks)?;
        Ok(())
    }
}
