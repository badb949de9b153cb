//! Bytes in hex, upper case.
ghost use Rattle.std.specs.Prelude.{◌≡◌, ℕ, ◌<◌, IfOk, Some, None, Err, ◌≢◌};
ghost use Rattle.program.specs.Hex.{hex_digit, Digits, in_hex, StandsFor, NoBytes};
ghost use Rattle.program.specs.declared.hex.HexError.TheVariants.{NotHex, NoMemory};

use std::alloc::{AllocFailed, Global};
use thiserror::Error;

/// Why a text gives no bytes.
#[derive(Debug, Drop, Error)]
pub enum HexError {
    #[error("bytes in hex have two digits each, 0 to 9 and A to F")]
    NotHex,
    #[error("there is no memory for the bytes")]
    NoMemory,
}

// Written by hand: `thiserror` writes no contract, and the clause `refused` below needs to know that this is not `NotHex`.
impl<T: Drop> From<AllocFailed<T>> for HexError {
    ghost from_gives = { λ _ r. r ≡ NoMemory };

    fn from(_refused: AllocFailed<T>) -> HexError {
        HexError::NoMemory
    }
}

// Not `to_digit` of std, which also takes small letters.
fn digit(hex: u8) -> Option<u8>
    ensures { elim result [ Some d ↦ (d < 16) × (hex_digit d ≡ hex) | None ↦ ((d : ℕ) → d < 16 → hex_digit d ≢ hex) ] }
{
    match hex {
        b'0'..=b'9' => Some(hex - b'0'),
        b'A'..=b'F' => Some(hex - b'A' + 10),
        _ => None,
    }
}

/// The byte that two hex digits stand for, the higher one first; none if one of them is no digit.
pub fn byte_of(high: u8, low: u8) -> Option<u8>
    ensures { elim result [ Some b ↦ Digits b high low | None ↦ ((b : ℕ) → b < 256 → Digits b high low → ⊥) ] }
{
    Some(digit(high)? * 16 + digit(low)?)
}

// The bytes whose digits make up a text.
fn read_digits(heap: Global, text: &[u8]) -> Result<Vec<u8>, HexError>
    ensures read { IfOk result (λ bytes. text.now ≡ in_hex bytes.items) }
    ensures refused { result ≡ Err NotHex → NoBytes (λ bytes. text.now ≡ in_hex bytes) }
{
    let mut bytes = Vec::new(heap);
    let mut left = text;
    while let [high, low, rest @ ..] = left {
        bytes.push(byte_of(*high, *low).ok_or(HexError::NotHex)?)?;
        left = rest;
    }
    if left.is_empty() {
        Ok(bytes)
    } else {
        Err(HexError::NotHex)
    }
}

/// The bytes that a text in hex stands for; a lone `-` stands for none. Other text, and none, is not hex.
/// No contract can say when memory lacks, so nothing is claimed of that error.
pub fn bytes_of(heap: Global, text: &str) -> Result<Vec<u8>, HexError>
    ensures read { IfOk result (λ bytes. StandsFor text.now bytes.items) }
    ensures refused { result ≡ Err NotHex → NoBytes (StandsFor text.now) }
{
    match text {
        "" => Err(HexError::NotHex),
        "-" => Ok(Vec::new(heap)),
        _ => read_digits(heap, text.as_bytes()),
    }
}

#[cfg(test)]
mod tests {
    use super::*;
    use std::test::Fail;

    #[test]
    fn text_that_is_hex(rt: HostRuntime) -> Result<(), Fail> {
        let bytes = bytes_of(rt.alloc(), "00AF91")?;
        assert_eq!(rt; bytes.as_slice(), [0, 0xaf, 0x91].as_slice());
        assert!(rt; bytes_of(rt.alloc(), "-")?.is_empty());
        Ok(())
    }

    // The contract leaves open when memory lacks, and so which error it is.
    #[test]
    fn text_that_is_none(rt: HostRuntime) {
        for text in ["", "4", "4G", "4a", "--", "4G4", "444"] {
            let refused = matches!(bytes_of(rt.alloc(), text), Err(HexError::NotHex));
            assert!(rt; refused, "{}", text);
        }
    }
}
