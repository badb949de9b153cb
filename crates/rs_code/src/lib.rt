//! The codewords of RS(255,191): the syndromes of a row, and what it means that they are all 0.
#![tactic(auto)]

ghost use Rattle.std.specs.Prelude.{◌≡◌, ℕ, ◌<◌, ◌↔◌, length, IsTrue};
ghost use Rattle.octets.specs.Octets.{byte};
ghost use Rattle.rs_code.specs.Codewords.{syndrome, Codeword};
ghost use Rattle.rs_code.specs.Horner.{horner};
ghost use Rattle.rs_code.specs.Laws.{CodewordLaws};

use gf256_tables::{power_of, product};

/// How many bytes a row has.
pub const ROW: usize = 255;

/// How many of them are check bytes, and how many syndromes a row has.
pub const CHECK_BYTES: usize = 64;

// The value of a row at x, by Horner's rule: b0 has the highest power.
#[tactic(auto, unfolding(crate::specs::Horner::horner))]
fn value_at(row: &[u8; ROW], x: u8) -> u8
    ensures { result ≡ horner x row.now }
{
    row.iter().fold(0, |sum, byte| product(sum, x) ^ *byte)
}

// The j-th syndrome of a row.
#[tactic(auto, using(crate::proofs::Horner::syndrome_by_rule))]
fn syndrome_of(row: &[u8; ROW], j: usize) -> u8
    ensures { result ≡ syndrome row.now j }
{
    value_at(row, power_of(j))
}

/// The syndromes of a row, 0 to 63.
pub fn syndromes_of(row: &[u8; ROW]) -> [u8; CHECK_BYTES]
    ensures { (j : ℕ) → j < 64 → byte result j ≡ syndrome row.now j }
{
    let mut syndromes = [0; CHECK_BYTES];
    for j in 0..CHECK_BYTES {
        syndromes[j] = syndrome_of(row, j);
    }
    syndromes
}

/// Whether all bytes are 0.
pub fn are_zero(bytes: &[u8]) -> bool
    ensures { IsTrue result ↔ ((k : ℕ) → k < length bytes.now → byte bytes.now k ≡ 0) }
{
    bytes.iter().all(|byte| *byte == 0)
}

/// Whether a row is a codeword. Any 191 bytes of a codeword, wherever they stand, fix the others, and no fewer do.
pub fn is_codeword(row: &[u8]) -> bool
    ensures answer { IsTrue result ↔ Codeword row.now }
    ensures laws { CodewordLaws }
{
    let Ok(row) = <&[u8; ROW]>::try_from(row) else {
        return false;
    };
    are_zero(&syndromes_of(row))
}

#[cfg(test)]
mod tests {
    use super::*;

    // Two codewords that differ, differ at 65 places or more, and zeros are one.
    #[test]
    fn zeros(rt: HostRuntime) {
        let mut row = [0; ROW];
        assert!(rt; is_codeword(&row));
        assert!(rt; !is_codeword(&row[1..]));
        row[254] = 1;
        assert!(rt; !is_codeword(&row));
    }
}
