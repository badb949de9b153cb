//! The field of 256 elements that the code RS(255,191) computes in: bytes as polynomials over bits, modulo
//! x^8 + x^4 + x^3 + x^2 + 1. The sum of two elements is their exclusive-or.
#![tactic(auto)]

ghost use Rattle.std.specs.Prelude.{◌≡◌};
ghost use Rattle.gf256.specs.Laws.{IsField};
ghost use Rattle.gf256.specs.Products.{times};

// x times an element: a shift, and where x^8 comes out of it, the modulus is taken off; 0x1D is the modulus without its x^8.
#[tactic(auto, using(crate::proofs::Steps::doubling))]
fn doubled(a: u8) -> u8
    ensures { result ≡ times 2 a }
{
    if a < 0x80 { a << 1 } else { (a << 1) ^ 0x1D }
}

/// The product of two elements, bit by bit from the lowest bit of `b`. With it, bytes are a field.
#[tactic(auto, using(crate::proofs::Steps::turns, crate::proofs::IsFieldHolds::field))]
pub fn product(a: u8, b: u8) -> u8
    ensures value { result ≡ times a b }
    ensures field { IsField }
{
    let mut sum = 0;
    let mut shifted = a;
    let mut rest = b;
    for _ in 0..8u8 {
        if rest & 1 == 1 {
            sum ^= shifted;
        }
        shifted = doubled(shifted);
        rest >>= 1;
    }
    sum
}

#[cfg(test)]
mod tests {
    use super::*;

    // By the multiplication of 0x8E, which is x^7 + x^3 + x^2 + x, with x.
    #[test]
    fn product_one(rt: HostRuntime) {
        assert_eq!(rt; product(0x02, 0x8E), 0x01);
        assert_eq!(rt; product(0x8E, 0x02), 0x01);
    }
}
