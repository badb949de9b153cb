//! What a datagram tells of itself by its first bytes.
ghost use Rattle.std.specs.Prelude.{◌≡◌, drop};
ghost use Rattle.frame.specs.Heads.{head_of, TellsItself};

use section::IpVersion;

/// The head of a datagram: its version, and the length that it tells of itself.
#[derive(Clone, Copy, PartialEq, Eq, Debug)]
pub struct Head {
    pub version: IpVersion,
    pub length: usize,
}

/// The head of the datagram that begins at a place of a table. None if byte 0 or a length byte is not there, or the version is
/// neither 4 nor 6.
pub fn head_at(table: &[u8], place: usize) -> Option<Head>
    ensures value { result ≡ head_of (drop place table.now) }
    ensures whole { TellsItself table.now place result }
{
    let (version, high, low) = match table.get(place..)? {
        [first, _, high, low, ..] if first >> 4 == 4 => (IpVersion::V4, *high, *low),
        [first, _, _, _, high, low, ..] if first >> 4 == 6 => (IpVersion::V6, *high, *low),
        _ => return None,
    };
    let told = usize::from(u16::from_be_bytes([high, low]));
    let length = match version {
        IpVersion::V4 => told,
        IpVersion::V6 => 40 + told,
    };
    Some(Head { version, length })
}
