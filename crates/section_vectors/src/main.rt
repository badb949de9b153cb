//! Prints, for the bytes in hex on each line of standard input, their CRC_32 and how they are read as a section:
//! the number and the place of the refusal, or 0 0. The stored lines come from other programs.
#![tactic(auto)]

ghost use Rattle.std.specs.Prelude.{◌≡◌, ◌↔◌, Some, IsTrue, codes};
ghost use Rattle.anyhow.specs.Error.{HasMessage};
ghost use Rattle.program.specs.declared.hex.HexError.TheVariants.{NotHex, NoMemory};
ghost use Rattle.section_vectors.specs.Reasons.{PairsAreDigits};

use anyhow::{Error, anyhow};
use crc32::crc_32;
use program::{HexError, byte_of, bytes_of};
use section::{FrameSize, read};
use std::io::{BufRead, BufReader};

// Whether each two signs of a text, from the first, are the digits of a byte.
fn pairs_are_digits(text: &[u8]) -> bool
    ensures { IsTrue result ↔ PairsAreDigits text.now }
{
    let mut left = text;
    while let [high, low, rest @ ..] = left {
        let Some(_byte) = byte_of(*high, *low) else {
            return false;
        };
        left = rest;
    }
    true
}

// Why a text gives no bytes. Of one that is no hex, what is wrong first: a sign that is no digit, or one that is left over.
fn reason(text: &str, error: HexError) -> Error
    ensures digit { error ≡ NotHex → (PairsAreDigits text.now → ⊥) → HasMessage (Some (codes "this is no digit of a number in hex")) result }
    ensures pair { error ≡ NotHex → PairsAreDigits text.now → HasMessage (Some (codes "a byte in hex has two digits")) result }
    ensures memory { error ≡ NoMemory → HasMessage (Some (codes "memory allocation failed")) result }
{
    match error {
        HexError::NotHex if pairs_are_digits(text.as_bytes()) => {
            anyhow!("a byte in hex has two digits")
        }
        HexError::NotHex => anyhow!("this is no digit of a number in hex"),
        HexError::NoMemory => anyhow!("memory allocation failed"),
    }
}

fn main(rt: HostRuntime) -> anyhow::Result<()> {
    for line in BufReader::new(rt.alloc(), rt.stdin())?.lines(rt.alloc()) {
        let text = line?;
        // An empty line stands for no bytes, as a lone `-` does.
        let bytes = match text.as_str() {
            "" => Vec::new(rt.alloc()),
            hex => bytes_of(rt.alloc(), hex).map_err(|error| reason(hex, error))?,
        };
        let crc = crc_32(&bytes);
        match read(&bytes, FrameSize::RS_256) {
            Ok(_) => println!(rt; "{text} {crc:08X} 0 0")?,
            Err(refusal) => {
                let (number, place) = (refusal.number(), refusal.place());
                println!(rt; "{text} {crc:08X} {number} {place}")?;
            }
        }
    }
    Ok(())
}
