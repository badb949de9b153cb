//! Marks: what is known of each cell of a burst. Which byte a mark is kept as is decided here alone.
#![tactic(auto)]

ghost use Rattle.std.specs.Prelude.{◌≡◌};
ghost use Rattle.marks.specs.Marks.{mark_byte, mark_of, is_known, is_received, is_start, under_payload};

/// What is known of a cell.
#[derive(Clone, Copy, PartialEq, Eq, Debug)]
pub enum Mark {
    /// Nothing.
    Unknown,
    /// A section carried its byte.
    Received,
    /// A section carried its byte as the first of a datagram.
    Start,
    /// It lies at the end that was told or beyond it, and holds 0.
    Padding,
    /// It was unknown, and close filled it in.
    Filled,
}

impl Mark {
    /// The byte that the mark is kept as.
    // No `From`: `u8::from(mark)` would not say that it is what the marks hold.
    pub fn byte(self) -> u8
        ensures value { result ≡ mark_byte self }
        ensures back { mark_of result ≡ self }
    {
        match self {
            Mark::Unknown => 0,
            Mark::Received => 1,
            Mark::Start => 2,
            Mark::Padding => 3,
            Mark::Filled => 4,
        }
    }

    /// Whether the byte of such a cell is known.
    pub fn is_known(self) -> bool
        ensures { result ≡ is_known self }
    {
        self != Mark::Unknown
    }

    /// Whether a section carried it.
    pub fn is_received(self) -> bool
        ensures { result ≡ is_received self }
    {
        matches!(self, Mark::Received | Mark::Start)
    }

    /// Whether a section carried it as the first byte of a datagram.
    pub fn is_start(self) -> bool
        ensures { result ≡ is_start self }
    {
        self == Mark::Start
    }

    /// The mark of such a cell once a payload was stored over it: a start stays one.
    pub fn under_payload(self) -> Mark
        ensures { result ≡ under_payload self }
    {
        match self {
            Mark::Start => Mark::Start,
            _ => Mark::Received,
        }
    }
}

/// The mark that a byte stands for. A byte above 4 is read as 0.
impl From<u8> for Mark {
    ghost from_gives = { λ byte mark. mark ≡ mark_of byte };

    fn from(byte: u8) -> Mark {
        match byte {
            1 => Mark::Received,
            2 => Mark::Start,
            3 => Mark::Padding,
            4 => Mark::Filled,
            _ => Mark::Unknown,
        }
    }
}
