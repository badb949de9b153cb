//! Words that the definitions of all layers are written in: bytes, bits, big-endian numbers; and the one number that more
//! than one layer reads, a section's length.
#![tactic(auto)]

ghost use Rattle.std.specs.Prelude.{◌≡◌};
ghost use Rattle.octets.specs.Octets.{section_length};

/// How many bytes of a section follow its bytes 1 and 2, as these two tell it: the lower four bits of byte 1, with byte 2.
pub fn section_length(byte_1: u8, byte_2: u8) -> u16
    ensures { result ≡ section_length byte_1 byte_2 }
{
    u16::from_be_bytes([byte_1 % 16, byte_2])
}
