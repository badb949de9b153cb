//! The real-time parameters of a section: four bytes that hold four fields.
ghost use Rattle.std.specs.Prelude.{◌≡◌, ◌^◌, ◌<◌, IfOk};
ghost use Rattle.octets.specs.Octets.{word32};
ghost use Rattle.crc32.specs.Crc.{big_endian};
ghost use Rattle.refusal.specs.Rules.{Answers, Passes};
ghost use Rattle.section.specs.RealTimes.{real_time_of, real_time_word};
ghost use Rattle.section.specs.Writing.{timing_rules};

use refusal::{Refusal, refuse_when};

/// The highest delta_t, of 12 bits.
pub const MAX_DELTA_T: u16 = 0xfff;

/// The highest address, of 18 bits.
pub const MAX_ADDRESS: u32 = 0x3_ffff;

/// Real-time parameters, as bytes 8 to 11 of a section hold them.
#[derive(Clone, Copy, PartialEq, Eq, Debug)]
pub struct RealTime {
    /// From this section's arrival to the next burst, in units of 10 ms, 12 bits; 0 if there is none.
    pub delta_t: u16,
    /// The section is the last of its table.
    pub table_boundary: bool,
    /// The section is the last of its frame.
    pub frame_boundary: bool,
    /// Where the payload begins in its table, 18 bits.
    pub address: u32,
}

/// The fields that stand in a number of 32 bits, cut out by shifts and masks. Side by side they are the number again.
impl From<u32> for RealTime {
    ghost from_gives = { λ word fields. (fields ≡ real_time_of word) × (real_time_word fields ≡ word) };

    fn from(word: u32) -> RealTime {
        RealTime {
            // `as`: 12 bits are left, and `From` narrows nothing.
            delta_t: (word >> 20) as u16,
            table_boundary: (word >> 19) & 1 == 1,
            frame_boundary: (word >> 18) & 1 == 1,
            address: word & MAX_ADDRESS,
        }
    }
}

impl RealTime {
    // The fields side by side, the highest first. No `From`, which asks nothing of its value.
    fn word(self) -> u32
        requires delta_t { self.delta_t < 2 ^ 12 }
        requires address { self.address < 2 ^ 18 }
        ensures { result ≡ real_time_word self }
    {
        (u32::from(self.delta_t) << 20)
            + (u32::from(self.table_boundary) << 19)
            + (u32::from(self.frame_boundary) << 18)
            + self.address
    }

    // `to_be_bytes` and `from_be_bytes`, and no `From`: so std calls this for numbers, and the first can refuse.

    /// The four bytes that hold the fields, as one big-endian number. Read back, they give these fields. An address of more
    /// than 18 bits is refused under 10 at byte 8, a delta_t of more than 12 bits under 15.
    pub fn to_be_bytes(self) -> Result<[u8; 4], Refusal>
        ensures answer { Answers (timing_rules self) (λ bytes. bytes ≡ big_endian (real_time_word self)) result }
        ensures back { IfOk result (λ bytes. real_time_of (word32 bytes 0) ≡ self) }
    {
        refuse_when(self.address > MAX_ADDRESS, Refusal::Field { place: 8 })?;
        refuse_when(self.delta_t > MAX_DELTA_T, Refusal::Unwritable)?;
        Ok(self.word().to_be_bytes())
    }

    /// The fields that four bytes hold, as one big-endian number. Side by side they are that number again, and written
    /// they are the four bytes again.
    pub fn from_be_bytes(bytes: [u8; 4]) -> RealTime
        ensures value { result ≡ real_time_of (word32 bytes 0) }
        ensures whole { real_time_word result ≡ word32 bytes 0 }
        ensures again { big_endian (real_time_word result) ≡ bytes }
        ensures writable { Passes (timing_rules result) }
    {
        RealTime::from(u32::from_be_bytes(bytes))
    }
}
