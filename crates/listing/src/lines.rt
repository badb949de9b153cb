//! The line of a listing that tells what a section is, or why it is turned away.

ghost use Rattle.std.specs.Prelude.{◌≡◌, ◌+◌, ◌-◌, ◌^◌, ◌≤◌, ◌++◌, min, length, flat_map};
ghost use Rattle.listing.specs.Lines.{kind_word, beginning, timing_columns, header_columns, refusal_columns, Lists};
ghost use Rattle.listing.specs.Parts.{HasRoom};

use crate::parts::{Part, put, wide};
use refusal::Refusal;
use section::{FrameSize, Header, Kind, RealTime, read};
use stream::columns::Line;

/// Which section of its stream a section is, and where it begins there.
#[derive(Clone, Copy, Default, PartialEq, Eq, Debug)]
pub struct Position {
    pub number: u64,
    pub offset: u64,
}

impl Position {
    /// The position of the section behind the one here, which has so many bytes. A count that is at the top stays there.
    pub fn after(self, size: usize) -> Position
        ensures number { result.number ≡ min (self.number + 1) (2 ^ 64 - 1) }
        ensures offset { result.offset ≡ min (self.offset + size) (2 ^ 64 - 1) }
    {
        Position {
            number: self.number.saturating_add(1),
            offset: self.offset.saturating_add(wide(size)),
        }
    }
}

// What a line tells of, as a word.
fn word(kind: Option<Kind>) -> &'static str
    ensures is { result.now ≡ kind_word kind }
    ensures short { length result.now ≤ 20 }
{
    match kind {
        Some(Kind::Datagram) => "datagram",
        Some(Kind::Check) => "check",
        None => "refused",
    }
}

// What every line begins with.
fn beginning_parts(position: Position, size: usize, kind: Option<Kind>) -> [Part; 5]
    ensures { flat_map (λ part. part) result ≡ beginning position.number position.offset size kind }
{
    [
        Part::number(position.number, 7),
        Part::number(position.offset, 9),
        Part::number(wide(size), 6),
        Part::word(" ", 1),
        Part::word(word(kind), 8),
    ]
}

// The address, delta_t and the two boundaries.
fn timing_parts(timing: RealTime) -> [Part; 4]
    ensures { flat_map (λ part. part) result ≡ timing_columns timing }
{
    [
        Part::number(u64::from(timing.address), 8),
        Part::number(u64::from(timing.delta_t), 8),
        Part::number(u64::from(timing.table_boundary), 3),
        Part::number(u64::from(timing.frame_boundary), 3),
    ]
}

// The refusal's number, its layer and its place.
fn refusal_parts(refusal: Refusal) -> [Part; 4]
    ensures { flat_map (λ part. part) result ≡ refusal_columns refusal }
{
    [
        Part::number(u64::from(refusal.number()), 3),
        Part::word(" ", 1),
        Part::word(refusal.layer().word(), 7),
        Part::number(refusal.place(), 9),
    ]
}

// What the header says, and for a datagram its size: three parts at most.
fn put_header(line: &mut Line, header: Header, size: usize)
    requires { HasRoom 3 line.old }
    ensures { line.new ≡ line.old ++ header_columns header size }
{
    match header {
        Header::Datagram(datagram) => put(
            line,
            &[
                Part::number(u64::from(datagram.version.number()), 3),
                Part::number(wide(size), 6),
            ],
        ),
        Header::Check(check) => put(
            line,
            &[
                Part::number(u64::from(check.number), 4),
                Part::number(u64::from(check.last), 4),
                Part::number(u64::from(check.padding_columns), 4),
            ],
        ),
    }
}

/// The line of the section at this position, and the section's kind, `None` where it is turned away.
/// Bytes of any length and content get a line.
pub fn section_line(position: Position, section: &[u8]) -> (Line, Option<Kind>)
    ensures { Lists position.number position.offset section.now result.0 result.1 }
{
    let mut line = Line::new();
    match read(section, FrameSize::RS_256) {
        Ok(fields) => {
            let kind = Some(fields.header.kind());
            put(&mut line, &beginning_parts(position, section.len(), kind));
            put(&mut line, &timing_parts(fields.timing));
            put_header(&mut line, fields.header, fields.payload.len());
            (line, kind)
        }
        Err(refusal) => {
            put(&mut line, &beginning_parts(position, section.len(), None));
            put(&mut line, &refusal_parts(refusal));
            (line, None)
        }
    }
}
