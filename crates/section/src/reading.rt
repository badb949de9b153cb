//! Reading a section: its fields, or the first reason to turn it away.
ghost use Rattle.std.specs.Prelude.{◌≡◌, ◌+◌, [], ◌∷◌, length, IfOk};
ghost use Rattle.refusal.specs.Rules.{Obeys, Answers, first};
ghost use Rattle.section.specs.Kinds.{table_id_of, table_rule};
ghost use Rattle.section.specs.Layout.{kind_of};
ghost use Rattle.section.specs.Rules.{size_rule, length_rule, marker_rule, plain_rule, crc_rule, zeros_rule, column_fields, column_rule, field_rule, payload_rule, read_rules};
ghost use Rattle.section.specs.Laws.{WrittenAgain};
ghost use Rattle.section.specs.Sections.{HeaderOf, SectionOf};

use crate::datagrams::{IpVersion, whole_datagram};
use crate::frame_size::FrameSize;
use crate::kinds::Kind;
use crate::timing::RealTime;
use crc32::crc_32;
use octets::section_length;
use refusal::{Refusal, refuse_when};

/// What the header of a datagram section says, with the version of its datagram.
#[derive(Clone, Copy, PartialEq, Eq, Debug)]
pub struct DatagramHeader {
    /// The last byte of the receiver's MAC address.
    pub mac_address_6: u8,
    /// The last byte but one.
    pub mac_address_5: u8,
    pub version: IpVersion,
}

/// What the header of an MPE-FEC section says of its check column.
#[derive(Clone, Copy, PartialEq, Eq, Debug)]
pub struct CheckHeader {
    /// How many application columns hold padding only (p).
    pub padding_columns: u8,
    /// Which check column it is, from 0 (s).
    pub number: u8,
    /// The last number that is sent.
    pub last: u8,
}

/// The header's fields, by the section's kind.
#[derive(Clone, Copy, PartialEq, Eq, Debug)]
pub enum Header {
    Datagram(DatagramHeader),
    Check(CheckHeader),
}

impl Header {
    /// The kind of section that has such a header.
    pub fn kind(self) -> Kind
        ensures { result ≡ kind_of self }
    {
        match self {
            Header::Datagram(_) => Kind::Datagram,
            Header::Check(_) => Kind::Check,
        }
    }
}

/// A section's fields and its payload, which is a part of the section that was read, or what is to be written.
#[derive(Clone, Copy, PartialEq, Eq, Debug)]
pub struct Section<'a> {
    pub header: Header,
    pub timing: RealTime,
    pub payload: &'a [u8],
}

// What follows the header's 12 bytes has 4 to 4,084: those of CRC_32 and of some payload.
fn check_size(rest: &[u8]) -> Result<(), Refusal>
    ensures { Obeys (size_rule (12 + length rest.now)) (λ _. Unit {0}) result }
{
    let n = rest.len();
    refuse_when(n < 4 || 4084 < n, Refusal::SectionSize)
}

fn check_crc(section: &[u8]) -> Result<(), Refusal>
    ensures { Obeys (crc_rule section.now) (λ _. Unit {0}) result }
{
    // `as`: there is no `From<usize>` for a wider number.
    let place = section.len().saturating_sub(4) as u64;
    refuse_when(crc_32(section) != 0, Refusal::Checksum { place })
}

impl CheckHeader {
    /// Refuses, under 10, the first field of an MPE-FEC section's header that does not fit a table of so many check columns;
    /// whether the address does is the caller's to say.
    pub fn check_fields(self, columns: usize, address_fits: bool) -> Result<(), Refusal>
        ensures { Obeys (column_fields columns self.padding_columns self.number self.last address_fits) (λ _. Unit {0}) result }
    {
        refuse_when(self.padding_columns > 190, Refusal::Field { place: 3 })?;
        refuse_when(self.number > self.last, Refusal::Field { place: 6 })?;
        refuse_when(
            columns <= usize::from(self.last),
            Refusal::Field { place: 7 },
        )?;
        refuse_when(!address_fits, Refusal::Field { place: 8 })
    }

    // The header fits a frame of this size, its address, and the size of its payload. These two are the section's, and come
    // beside the frame, since that they fit it is what is tested.
    fn check(self, frame: FrameSize, address: u32, size: usize) -> Result<(), Refusal>
        ensures { Obeys
            (column_rule frame.rows frame.check_columns self.padding_columns self.number self.last address size)
            (λ _. Unit {0}) result }
    {
        self.check_fields(
            frame.check_columns,
            frame.begins_column(self.number, address),
        )?;
        refuse_when(size != frame.rows, Refusal::Field { place: 12 })
    }
}

// Bits 7, 5 and 4 of byte 1, and bits 7, 6 and 0 of byte 5: they are 1.
const MARKERS_1: u8 = 0b1011_0000;

const MARKERS_5: u8 = 0b1100_0001;

// Bits 5 to 1 of byte 5, which tell that a section is scrambled, or wrapped by LLC/SNAP.
const SCRAMBLED_OR_WRAPPED: u8 = 0b0011_1110;

// The bytes of a section in front of its real-time parameters, as they stand there.
#[derive(Clone, Copy)]
struct Front {
    table_id: u8,
    byte_1: u8,
    byte_2: u8,
    byte_3: u8,
    byte_4: u8,
    byte_5: u8,
    byte_6: u8,
    byte_7: u8,
}

impl Front {
    fn check_length(self, n: usize) -> Result<(), Refusal>
        ensures { Obeys (length_rule self.byte_1 self.byte_2 n) (λ _. Unit {0}) result }
    {
        let told = usize::from(section_length(self.byte_1, self.byte_2));
        refuse_when(told != n.saturating_sub(3), Refusal::SectionLength)
    }

    #[tactic(auto, using(crate::proofs::Masks::mask_1, crate::proofs::Masks::mask_5))]
    fn check_marker_bits(self) -> Result<(), Refusal>
        ensures { Obeys (marker_rule self.byte_1 self.byte_5) (λ _. Unit {0}) result }
    {
        refuse_when(
            self.byte_1 & MARKERS_1 != MARKERS_1,
            Refusal::MarkerBit { place: 1 },
        )?;
        refuse_when(
            self.byte_5 & MARKERS_5 != MARKERS_5,
            Refusal::MarkerBit { place: 5 },
        )
    }

    #[tactic(auto, using(crate::proofs::Masks::mask_plain))]
    fn check_plain(self, kind: Kind) -> Result<(), Refusal>
        ensures { Obeys (plain_rule (table_id_of kind) self.byte_5) (λ _. Unit {0}) result }
    {
        match kind {
            Kind::Datagram => {
                refuse_when(self.byte_5 & SCRAMBLED_OR_WRAPPED != 0, Refusal::NotPlain)
            }
            Kind::Check => Ok(()),
        }
    }

    fn check_zeros(self) -> Result<(), Refusal>
        ensures { Obeys (zeros_rule self.byte_6 self.byte_7) (λ _. Unit {0}) result }
    {
        refuse_when(self.byte_6 != 0, Refusal::Field { place: 6 })?;
        refuse_when(self.byte_7 != 0, Refusal::Field { place: 7 })
    }

    // The kind of a section that begins so and that 4 to 9 do not turn away; `rest` is what follows its first 12 bytes, and
    // comes beside `section` since the pattern that took the header apart has it already.
    fn check_envelope(self, section: &[u8], rest: &[u8]) -> Result<Kind, Refusal>
        requires { length section.now ≡ 12 + length rest.now }
        ensures { Obeys
            (first (size_rule (length section.now) ∷ table_rule self.table_id
            ∷ length_rule self.byte_1 self.byte_2 (length section.now) ∷ marker_rule self.byte_1 self.byte_5
            ∷ plain_rule self.table_id self.byte_5 ∷ crc_rule section.now ∷ []))
            (λ kind. table_id_of kind ≡ self.table_id) result }
    {
        check_size(rest)?;
        let kind = Kind::try_from(self.table_id)?;
        self.check_length(section.len())?;
        self.check_marker_bits()?;
        self.check_plain(kind)?;
        check_crc(section)?;
        Ok(kind)
    }

    // The header of a section of a kind that begins so, if 10 and 11 do not turn it away. `address` beside `frame`: it is the
    // section's, and that it fits the frame is what is tested.
    fn header(
        self,
        kind: Kind,
        frame: FrameSize,
        address: u32,
        payload: &[u8],
    ) -> Result<Header, Refusal>
        ensures { Obeys
            (first (field_rule frame.rows frame.check_columns (table_id_of kind) self.byte_3 self.byte_6 self.byte_7 address (length payload.now)
            ∷ payload_rule (table_id_of kind) payload.now ∷ []))
            (HeaderOf (table_id_of kind) self.byte_3 self.byte_4 self.byte_6 self.byte_7 payload.now) result }
    {
        match kind {
            Kind::Datagram => {
                self.check_zeros()?;
                let version = whole_datagram(payload, 12)?;
                let (mac_address_6, mac_address_5) = (self.byte_3, self.byte_4);
                Ok(Header::Datagram(DatagramHeader {
                    mac_address_6,
                    mac_address_5,
                    version,
                }))
            }
            Kind::Check => {
                let (padding_columns, number, last) = (self.byte_3, self.byte_6, self.byte_7);
                let header = CheckHeader {
                    padding_columns,
                    number,
                    last,
                };
                header.check(frame, address, payload.len())?;
                Ok(Header::Check(header))
            }
        }
    }
}

/// The fields of a section for a frame of this size, or the first refusal of 4 to 11 that fits.
/// Bytes of any length and content get an answer. Writing the fields gives the section again, in every bit that is read.
// `frame` beside `section`: a section does not tell its frame.
pub fn read(section: &[u8], frame: FrameSize) -> Result<Section<'_>, Refusal>
    ensures answer { Answers (read_rules frame.rows frame.check_columns section.now) (SectionOf section.now) result }
    ensures again { IfOk result (WrittenAgain frame.rows frame.check_columns section.now) }
{
    let [
        table_id,
        byte_1,
        byte_2,
        byte_3,
        byte_4,
        byte_5,
        byte_6,
        byte_7,
        t0,
        t1,
        t2,
        t3,
        rest @ ..,
    ] = section
    else {
        return Err(Refusal::SectionSize);
    };
    let front = Front {
        table_id: *table_id,
        byte_1: *byte_1,
        byte_2: *byte_2,
        byte_3: *byte_3,
        byte_4: *byte_4,
        byte_5: *byte_5,
        byte_6: *byte_6,
        byte_7: *byte_7,
    };
    let kind = front.check_envelope(section, rest)?;
    let timing = RealTime::from_be_bytes([*t0, *t1, *t2, *t3]);
    let payload = &section[12..section.len() - 4];
    let header = front.header(kind, frame, timing.address, payload)?;
    Ok(Section {
        header,
        timing,
        payload,
    })
}
