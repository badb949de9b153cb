//! Why a call says no: the one answer type of all layers, with its numbers, layers, places and texts.
#![tactic(auto)]

ghost use Rattle.std.specs.Prelude.{◌≡◌, List, Some};
ghost use Rattle.refusal.specs.Refusals.{number_of, layer_of, place_of, text_of, layer_word};
ghost use Rattle.refusal.specs.Rules.{Verdict, Settles, Obeys, when};

use std::error::Error;
use std::fmt;

/// What a refusal is about: the call itself, the section that was handed in, or the table that it would enter.
#[derive(Clone, Copy, PartialEq, Eq, Debug)]
pub enum Layer {
    Call,
    Section,
    Table,
}

impl Layer {
    /// The layer's word in a listing.
    pub fn word(self) -> &'static str
        ensures { result.now ≡ layer_word self }
    {
        match self {
            Layer::Call => "call",
            Layer::Section => "section",
            Layer::Table => "table",
        }
    }
}

// By hand, as that of `Refusal`: `thiserror` would state nothing of the text.
impl fmt::Display for Layer {
    ghost output = { λ layer. Some (layer_word layer) };

    fn fmt<W: fmt::Write>(&self, f: &mut fmt::Formatter<W>) -> fmt::Result {
        f.pad(self.word())
    }
}

/// A refusal. A case has a place where that differs from one time to the next.
#[derive(Clone, Copy, PartialEq, Eq, Debug)]
pub enum Refusal {
    /// 1: the frame size code is none of those in use.
    SizeCode,
    /// 2: the cells or the marks are not one byte for each cell.
    FrameBuffers,
    /// 3: the scratch row is not 255 bytes, or the names are not one byte a row.
    WorkBuffers,
    /// 4: the section has fewer than 16 or more than 4,096 bytes.
    SectionSize,
    /// 5: table_id is neither that of a datagram section nor that of an MPE-FEC section.
    TableId,
    /// 6: section_length is not the section's length less 3. Its place is always 1.
    SectionLength,
    /// 7: a bit that must be 1 is not; the place is its byte.
    MarkerBit { place: u64 },
    /// 8: scrambled in payload or address, or wrapped by LLC/SNAP. Its place is always 5.
    NotPlain,
    /// 9: the checksum over the section is not 0; the place is that of its CRC_32.
    Checksum { place: u64 },
    /// 10: a field of the header has a value that it cannot have, or a check column another size; the place is its byte.
    Field { place: u64 },
    /// 11: what should be one whole datagram is not; the place is where it begins.
    NotOneDatagram { place: u64 },
    /// 12: a datagram passes the limit of its table; the place is that limit, or where it begins if that is more.
    BeyondLimit { place: u64 },
    /// 13: a section contradicts what is known; the place is the first byte that differs, or the end that it tells.
    Contradiction { place: u64 },
    /// 14: the frame is empty, or more columns are held back than there are.
    Unsealable,
    /// 15: the buffer for a section is not 4,096 bytes, or delta_t has more than 12 bits.
    Unwritable,
}

impl Refusal {
    /// The number by which a refusal is known.
    // No `From`: a refusal cannot be had back from it, and `u8::from` would not say which number.
    pub fn number(self) -> u8
        ensures { result ≡ number_of self }
    {
        match self {
            Refusal::SizeCode => 1,
            Refusal::FrameBuffers => 2,
            Refusal::WorkBuffers => 3,
            Refusal::SectionSize => 4,
            Refusal::TableId => 5,
            Refusal::SectionLength => 6,
            Refusal::MarkerBit { .. } => 7,
            Refusal::NotPlain => 8,
            Refusal::Checksum { .. } => 9,
            Refusal::Field { .. } => 10,
            Refusal::NotOneDatagram { .. } => 11,
            Refusal::BeyondLimit { .. } => 12,
            Refusal::Contradiction { .. } => 13,
            Refusal::Unsealable => 14,
            Refusal::Unwritable => 15,
        }
    }

    /// The layer that a refusal is about.
    pub fn layer(self) -> Layer
        ensures { result ≡ layer_of self }
    {
        match self {
            Refusal::SizeCode
            | Refusal::FrameBuffers
            | Refusal::WorkBuffers
            | Refusal::Unsealable
            | Refusal::Unwritable => Layer::Call,
            Refusal::SectionSize
            | Refusal::TableId
            | Refusal::SectionLength
            | Refusal::MarkerBit { .. }
            | Refusal::NotPlain
            | Refusal::Checksum { .. }
            | Refusal::Field { .. }
            | Refusal::NotOneDatagram { .. } => Layer::Section,
            Refusal::BeyondLimit { .. } | Refusal::Contradiction { .. } => Layer::Table,
        }
    }

    /// The place that a refusal points at, 0 where it points at none.
    // No `Option`: the rules and every output have 0 there, and each caller would have to put it back.
    pub fn place(self) -> u64
        ensures { result ≡ place_of self }
    {
        match self {
            Refusal::SectionLength => 1,
            Refusal::NotPlain => 5,
            Refusal::MarkerBit { place }
            | Refusal::Checksum { place }
            | Refusal::Field { place }
            | Refusal::NotOneDatagram { place }
            | Refusal::BeyondLimit { place }
            | Refusal::Contradiction { place } => place,
            Refusal::SizeCode
            | Refusal::FrameBuffers
            | Refusal::WorkBuffers
            | Refusal::SectionSize
            | Refusal::TableId
            | Refusal::Unsealable
            | Refusal::Unwritable => 0,
        }
    }

    /// A refusal in words, for people.
    pub fn text(self) -> &'static str
        ensures { result.now ≡ text_of self }
    {
        match self {
            Refusal::SizeCode => "the frame size code is not in use",
            Refusal::FrameBuffers => "the cells or the marks have the wrong length",
            Refusal::WorkBuffers => "the scratch row or the names have the wrong length",
            Refusal::SectionSize => "the section has fewer than 16 or more than 4,096 bytes",
            Refusal::TableId => "the table_id is not known",
            Refusal::SectionLength => "section_length does not fit the section",
            Refusal::MarkerBit { .. } => "a bit that must be 1 is 0",
            Refusal::NotPlain => "the section is scrambled or wrapped by LLC/SNAP",
            Refusal::Checksum { .. } => "the checksum is wrong",
            Refusal::Field { .. } => "a header field or the size of the payload does not fit",
            Refusal::NotOneDatagram { .. } => "the bytes are not one whole datagram",
            Refusal::BeyondLimit { .. } => "the datagram passes the limit of its table",
            Refusal::Contradiction { .. } => "the section contradicts what is known",
            Refusal::Unsealable => "the frame is empty or too many columns are held back",
            Refusal::Unwritable => "the section buffer or delta_t is wrong",
        }
    }
}

impl fmt::Display for Refusal {
    ghost output = { λ refusal. Some (text_of refusal) };

    fn fmt<W: fmt::Write>(&self, f: &mut fmt::Formatter<W>) -> fmt::Result {
        f.pad(self.text())
    }
}

impl Error for Refusal {}

/// Refuses a call where a rule fits, and lets it pass otherwise.
pub fn refuse_when(fits: bool, refusal: Refusal) -> Result<(), Refusal>
    ensures { Obeys (when fits refusal) (λ _. Unit {0}) result }
{
    if fits { Err(refusal) } else { Ok(()) }
}

/// States a law and does nothing: any ordered list of rules settles a call. It passes, or it is refused by the first
/// rule that fits; never both, and never with two refusals.
pub fn rules_settle()
    ensures { (rules : List Verdict) → Settles rules }
{}
