//! One whole datagram: what an IP datagram tells of its own length.
ghost use Rattle.std.specs.Prelude.{◌≡◌, true};
ghost use Rattle.refusal.specs.Rules.{Obeys};
ghost use Rattle.section.specs.Datagrams.{version_number, whole_as, whole_rule};

use refusal::Refusal;

/// The version of an IP datagram.
#[derive(Clone, Copy, PartialEq, Eq, Debug)]
pub enum IpVersion {
    V4,
    V6,
}

impl IpVersion {
    /// The number in the upper half of a datagram's first byte.
    // No `From`: `u8::from(version)` would not say whose number it is. Nor a trait with `Kind::table_id`: it would be longer
    // than both.
    pub fn number(self) -> u8
        ensures { result ≡ version_number self }
    {
        match self {
            IpVersion::V4 => 4,
            IpVersion::V6 => 6,
        }
    }
}

/// The version of the one whole datagram that the bytes are: 20 to 4,080 bytes, just as many as it tells of itself.
/// Anything else is refused, at the place that the caller gives.
pub fn whole_datagram(bytes: &[u8], place: u64) -> Result<IpVersion, Refusal>
    ensures { Obeys (whole_rule bytes.now place) (λ version. whole_as version bytes.now ≡ true) result }
{
    let n = bytes.len();
    let [first, _, byte_2, byte_3, byte_4, byte_5, ..] = bytes else {
        return Err(Refusal::NotOneDatagram { place });
    };
    let sized = 20 <= n && n <= 4080;
    let length_4 = usize::from(u16::from_be_bytes([*byte_2, *byte_3]));
    let length_6 = usize::from(u16::from_be_bytes([*byte_4, *byte_5])) + 40;
    match first >> 4 {
        4 if sized && length_4 == n => Ok(IpVersion::V4),
        6 if sized && length_6 == n => Ok(IpVersion::V6),
        _ => Err(Refusal::NotOneDatagram { place }),
    }
}
