//! What sections tell of a table: where a payload goes, and where the table ends.
ghost use Rattle.std.specs.Prelude.{◌≡◌, ◌||◌};
ghost use Rattle.frame.specs.Fields.{fields};
ghost use Rattle.table.specs.Telling.{first_cell, payload_end, told_end, told_padding, padded_from_of, told_now};
ghost use Rattle.table.specs.Rules.{retold, misfit};

use geometry::Rows;
use section::{Header, Section};

/// The cell of the first byte of the payload.
pub(crate) fn first_cell(section: Section<'_>, rows: Rows) -> usize
    ensures { result ≡ first_cell rows.count (fields section.entry) }
{
    let address = section.timing.address;
    match section.header {
        // `as`: there is no `From<u32>` for `usize`.
        Header::Datagram(_) => address as usize,
        Header::Check(_) => rows.rs_cell(address),
    }
}

/// The address after the payload.
pub(crate) fn payload_end(section: Section<'_>) -> usize
    ensures { result ≡ payload_end (fields section.entry) }
{
    section.timing.address as usize + section.payload.len()
}

/// What was told of the end of a table.
#[derive(Clone, Copy, PartialEq, Eq, Debug)]
pub(crate) struct Told {
    /// E.
    pub(crate) end: Option<usize>,
    /// p.
    pub(crate) padding_columns: Option<u8>,
}

// Whether a number is told that was told otherwise before.
fn is_retold(before: Option<usize>, now: Option<usize>) -> bool
    ensures { result ≡ retold before now }
{
    before.is_some() && now.is_some() && before != now
}

// Whether E and p do not fit each other, where both are there.
fn is_misfit(rows: Rows, end: Option<usize>, padding_columns: Option<u8>) -> bool
    ensures { result ≡ misfit rows.count end «padding_columns» }
{
    match (end, padding_columns) {
        (Some(end), Some(padding_columns)) => !rows.ends_in(padding_columns, end),
        _ => false,
    }
}

impl Told {
    pub(crate) const NOTHING: Told = Told {
        end: None,
        padding_columns: None,
    };

    /// What a section tells: E with table_boundary in a datagram section, p in an MPE-FEC section.
    pub(crate) fn by(section: Section<'_>) -> Told
        ensures end { result.end ≡ told_end (fields section.entry) }
        ensures padding { result.«padding_columns» ≡ told_padding (fields section.entry) }
    {
        let mut told = Told::NOTHING;
        match section.header {
            Header::Datagram(_) => {
                if section.timing.table_boundary {
                    told.end = Some(payload_end(section));
                }
            }
            Header::Check(header) => told.padding_columns = Some(header.padding_columns),
        }
        told
    }

    /// The address from which on there is padding only, where that was told.
    pub(crate) fn padded_from(self, rows: Rows) -> Option<usize>
        ensures { result ≡ padded_from_of rows.count self.end self.«padding_columns» }
    {
        match (self.end, self.padding_columns) {
            (Some(end), _) => Some(end),
            (None, Some(padding_columns)) => Some(rows.padding_from(padding_columns)),
            (None, None) => None,
        }
    }

    // Whether one of the two is now told otherwise.
    fn is_retold(self, now: Told) -> bool
        ensures { result ≡ (retold self.end now.end || retold self.«padding_columns» now.«padding_columns») }
    {
        let padding = self.padding_columns.map(usize::from);
        let padding_now = now.padding_columns.map(usize::from);
        is_retold(self.end, now.end) || is_retold(padding, padding_now)
    }

    // Whether what is now told of one does not fit what was told of the other.
    fn is_apart(self, now: Told, rows: Rows) -> bool
        ensures { result ≡ (misfit rows.count self.end now.«padding_columns» || misfit rows.count now.end self.«padding_columns») }
    {
        is_misfit(rows, self.end, now.padding_columns)
            || is_misfit(rows, now.end, self.padding_columns)
    }

    /// Whether what is now told goes against what was told.
    pub(crate) fn contradicts(self, now: Told, rows: Rows) -> bool
        ensures { result ≡ ((retold self.end now.end || retold self.«padding_columns» now.«padding_columns»)
            || (misfit rows.count self.end now.«padding_columns» || misfit rows.count now.end self.«padding_columns»)) }
    {
        self.is_retold(now) || self.is_apart(now, rows)
    }

    /// What is known now of both, the later telling first.
    pub(crate) fn with(self, now: Told) -> Told
        ensures end { result.end ≡ told_now now.end self.end }
        ensures padding { result.«padding_columns» ≡ told_now now.«padding_columns» self.«padding_columns» }
    {
        Told {
            end: now.end.or(self.end),
            padding_columns: now.padding_columns.or(self.padding_columns),
        }
    }
}
