//! Sections on the air, written: every byte from the fields, into a lent buffer.
#![tactic(auto)]

ghost use Rattle.std.specs.Prelude.{◌≡◌, ◌+◌, ◌*◌, ◌^◌, ◌≤◌, not, ◌&&◌, [], ◌∷◌, ◌++◌, length, take, IfOk, OnOk, OnErr, ◌==◌, nat_le, nat_lt};
ghost use Rattle.crc32.specs.Crc.{crc, big_endian};
ghost use Rattle.refusal.specs.declared.Refusal.TheVariants.{NotOneDatagram, Unwritable};
ghost use Rattle.refusal.specs.Rules.{Answers, Obeys, first, when};
ghost use Rattle.section.specs.Datagrams.{whole_as};
ghost use Rattle.section.specs.Laws.{ReadsAs};
ghost use Rattle.section.specs.RealTimes.{real_time_word};
ghost use Rattle.section.specs.Layout.{bytes_of_length, bytes_of_kind, header_bytes, with_crc, written_of};
ghost use Rattle.section.specs.Writing.{write_field_rule, write_payload_rule, write_rules};
ghost use Rattle.section_writer.specs.Buffers.{Wrote};

use crc32::crc_32;
use refusal::{Refusal, refuse_when};
use section::{FrameSize, Header, IpVersion, MAX_ADDRESS, Section, whole_datagram};

/// The bytes that a buffer for a section has, as many as the longest section.
pub const BUFFER: usize = 4096;

// The bytes that a section has at most between header and CRC_32.
const MAX_PAYLOAD: usize = 4080;

// The payload is one whole datagram of this version.
fn check_datagram(version: IpVersion, payload: &[u8]) -> Result<(), Refusal>
    ensures { Obeys (when (not (whole_as version payload.now)) (NotOneDatagram 12)) (λ _. Unit {0}) result }
{
    let told = whole_datagram(payload, 12)?;
    refuse_when(told != version, Refusal::NotOneDatagram { place: 12 })
}

// The address is that of the check column with this number, and has 18 bits.
fn column_address_fits(frame: FrameSize, number: u8, address: u32) -> bool
    ensures { result ≡ (address == number * frame.rows && nat_lt address (2 ^ 18)) }
{
    frame.begins_column(number, address) && address <= MAX_ADDRESS
}

// So many bytes are a check column of the frame, and a section can carry them.
fn column_size_fits(frame: FrameSize, size: usize) -> bool
    ensures { result ≡ (size == frame.rows && nat_le size 4080) }
{
    size == frame.rows && size <= MAX_PAYLOAD
}

// The fields of a section that 10 and 11 do not turn away. `frame` beside `section`, here and below: that one fits the other
// is what is tested.
fn check_fields(section: Section<'_>, frame: FrameSize) -> Result<(), Refusal>
    ensures { Obeys
        (first (write_field_rule frame.rows frame.check_columns section.entry.header section.entry.timing.address (length section.entry.payload.now)
        ∷ write_payload_rule section.entry.header section.entry.payload.now ∷ []))
        (λ _. Unit {0}) result }
{
    let address = section.timing.address;
    match section.header {
        Header::Datagram(header) => {
            refuse_when(address > MAX_ADDRESS, Refusal::Field { place: 8 })?;
            check_datagram(header.version, section.payload)
        }
        Header::Check(header) => {
            let address_fits = column_address_fits(frame, header.number, address);
            header.check_fields(frame.check_columns, address_fits)?;
            refuse_when(
                !column_size_fits(frame, section.payload.len()),
                Refusal::Field { place: 12 },
            )
        }
    }
}

// The buffer for a section has as many bytes as the longest one.
fn check_room(room: usize) -> Result<(), Refusal>
    ensures { Obeys (when (not (room == 4096)) Unwritable) (λ _. Unit {0}) result }
{
    refuse_when(room != BUFFER, Refusal::Unwritable)
}

// A section that can be written, with the four bytes of its real-time parameters.
#[derive(Clone, Copy)]
struct Writable<'a> {
    section: Section<'a>,
    timing_bytes: [u8; 4],
    ghost timing_told: { timing_bytes ≡ big_endian (real_time_word section.timing) },
    ghost payload_fits: { length section.payload.now ≤ 4080 },
}

// The four bytes of a section's real-time parameters, if the section can be written for a frame of this size and into a
// buffer of so many bytes. No `Writable`: taken out of a `Result`, its fields are copied in parts, and `write` is then slower
// by two thirds at a short section.
fn check(section: Section<'_>, frame: FrameSize, room: usize) -> Result<[u8; 4], Refusal>
    ensures answer { Answers
        (write_rules frame.rows frame.check_columns section.entry.header section.entry.timing section.entry.payload.now room)
        (λ timing_bytes. timing_bytes ≡ big_endian (real_time_word section.entry.timing)) result }
    ensures room { OnOk result (room ≡ 4096) }
    ensures payload { OnOk result (length section.entry.payload.now ≤ 4080) }
{
    check_fields(section, frame)?;
    check_room(room)?;
    // Only delta_t can still be refused here: the address was tested with the other fields.
    section.timing.to_be_bytes()
}

// Bytes 1 and 2 of a section with a payload of so many bytes: bits 7, 5 and 4, and section_length, which counts all but
// the first three bytes.
fn length_bytes(size: usize) -> [u8; 2]
    requires { size ≤ 4080 }
    ensures { result ≡ bytes_of_length (16 + size) }
{
    // `as`: the size fits, and `From` narrows nothing.
    (0xB000 + 16 - 3 + size as u16).to_be_bytes()
}

// Bytes 3 to 7.
fn kind_bytes(header: Header) -> [u8; 5]
    ensures { result ≡ bytes_of_kind header }
{
    match header {
        Header::Datagram(h) => [h.mac_address_6, h.mac_address_5, 0xC1, 0, 0],
        Header::Check(h) => [h.padding_columns, 0xFF, 0xFF, h.number, h.last],
    }
}

// The CRC_32 of a message, as it is written behind it.
fn crc_bytes(message: &[u8]) -> [u8; 4]
    ensures { result ≡ big_endian (crc message.now) }
{
    crc_32(message).to_be_bytes()
}

// Fills a part of a buffer, as long as header and payload together, with the two.
fn fill_message(message: &mut [u8], header: [u8; 12], payload: &[u8])
    requires { length message.old ≡ 12 + length payload.now }
    ensures { message.new ≡ header ++ payload.now }
{
    let (front, rest) = message.split_at_mut(12);
    front.copy_from_slice(&header);
    rest.copy_from_slice(payload);
}

// Fills a part of a buffer, as long as the section, with header, payload and the CRC_32 of both.
fn fill_part(part: &mut [u8], header: [u8; 12], payload: &[u8])
    requires { length part.old ≡ 16 + length payload.now }
    ensures { part.new ≡ with_crc (header ++ payload.now) }
{
    let end = 12 + payload.len();
    let (message, closing) = part.split_at_mut(end);
    fill_message(message, header, payload);
    closing.copy_from_slice(&crc_bytes(message));
}

impl Writable<'_> {
    // The twelve bytes in front of the payload.
    fn header_bytes(self) -> [u8; 12]
        ensures { result ≡ header_bytes self.entry.section.header self.entry.section.timing (length self.entry.section.payload.now) }
    {
        let header = self.section.header;
        let [length_1, length_2] = length_bytes(self.section.payload.len());
        let [kind_1, kind_2, kind_3, kind_4, kind_5] = kind_bytes(header);
        let [t0, t1, t2, t3] = self.timing_bytes;
        [
            header.kind().table_id(),
            length_1,
            length_2,
            kind_1,
            kind_2,
            kind_3,
            kind_4,
            kind_5,
            t0,
            t1,
            t2,
            t3,
        ]
    }

    // Lays the section at the beginning of a buffer, and answers its length, for the reason given at `write`.
    #[tactic(auto, using(crate::proofs::Laid::laid))]
    fn lay(self, buffer: &mut [u8]) -> usize
        requires { length buffer.old ≡ 4096 }
        ensures { Wrote (written_of self.entry.section) buffer.old buffer.new result }
    {
        let payload = self.section.payload;
        let n = 16 + payload.len();
        fill_part(&mut buffer[..n], self.header_bytes(), payload);
        n
    }
}

/// Writes a section for a frame of this size, exactly the bytes of the format, to the beginning of a buffer of 4,096 bytes,
/// and answers its length; what stands behind it stays. What cannot be written is refused under 10, 11 or 15, and then the
/// buffer stays as it was. Reading what was written gives the same fields and payload.
// A length, and no part of the buffer: a part would keep the buffer lent for as long as it is used.
pub fn write(section: Section<'_>, frame: FrameSize, buffer: &mut [u8]) -> Result<usize, Refusal>
    ensures answer { Answers
        (write_rules frame.rows frame.check_columns section.entry.header section.entry.timing section.entry.payload.now (length buffer.old))
        (Wrote (written_of section.entry) buffer.old buffer.new) result }
    ensures stays { OnErr result (buffer.new ≡ buffer.old) }
    ensures back { IfOk result (λ n. ReadsAs frame.rows frame.check_columns (take n buffer.new) section.entry) }
{
    let timing_bytes = check(section, frame, buffer.len())?;
    let writable = Writable {
        section,
        timing_bytes,
    };
    Ok(writable.lay(buffer))
}
