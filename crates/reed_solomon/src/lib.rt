//! RS(255,191): rows spread and mended. What is missing is solved for; a row is filled only where all syndromes agree.
#![tactic(auto)]

ghost use Rattle.std.specs.Prelude.{◌≡◌, ◌≢◌, ℕ, ◌+◌, ◌-◌, ◌<◌, ◌≤◌, length, bit_xor, IfSome, IfNone, IsTrue, IsFalse};
ghost use Rattle.octets.specs.Octets.{byte};
ghost use Rattle.gf256.specs.Products.{times};
ghost use Rattle.gf256.specs.Sums.{field_sum};
ghost use Rattle.reed_solomon.specs.Judging.{Judged};
ghost use Rattle.reed_solomon.specs.Solving.{Solves, NoneSolve, Apart, LocatorsOf, KnownBytes, Inserted};
ghost use Rattle.rs_code.proofs.Fronts.{any_begins};
ghost use Rattle.rs_code.specs.Codewords.{Codeword};
ghost use Rattle.rs_code.specs.Counts.{missing_count, IsFront};
ghost use Rattle.std.proofs.Common.{rules};

use arrayvec::ArrayVec;
use gf256_tables::{inverse, power_of, product};
use rowcode::{APPLICATION_COLUMNS, Mended, Misfit, RowCode};
use rs_code::{CHECK_BYTES, ROW, are_zero, syndromes_of};
use std::array;

// The locators of the bytes that are missing, in the order of their places: of byte i it is g to the power 254 - i. None where
// more than 64 are missing.
fn missing_locators(known: &[bool]) -> Option<ArrayVec<u8, CHECK_BYTES>>
    requires { length known.now ≡ 255 }
    ensures found { IfSome result (λ locators. LocatorsOf known.now locators.items) }
    ensures many { IfNone result (64 < missing_count known.now) }
{
    let mut locators = ArrayVec::new();
    for i in 0..ROW {
        if !known[i] {
            if locators.is_full() {
                return None;
            }
            locators.push(power_of(254 - i));
        }
    }
    Some(locators)
}

// The bytes of a row, with 0 for those that are not known.
fn known_bytes(row: &[u8], known: &[bool]) -> [u8; ROW]
    requires row { length row.now ≡ 255 }
    requires known { length known.now ≡ 255 }
    ensures { KnownBytes known.now row.now result }
{
    let mut bytes = [0; ROW];
    for i in 0..ROW {
        if known[i] {
            bytes[i] = row[i];
        }
    }
    bytes
}

// Takes the last missing byte, which has this locator, out of the syndromes: each but the last of them becomes the next one
// plus the locator times itself.
fn eliminate(syndromes: &mut [u8], locator: u8)
    ensures others { (j : ℕ) → j + 1 < length syndromes.old →
        byte syndromes.new j ≡ bit_xor (byte syndromes.old (j + 1)) (times locator (byte syndromes.old j)) }
    ensures last { (j : ℕ) → length syndromes.old ≤ j + 1 → byte syndromes.new j ≡ byte syndromes.old j }
{
    for j in 1..syndromes.len() {
        syndromes[j - 1] = syndromes[j] ^ product(locator, syndromes[j - 1]);
    }
}

// From the values that the other missing bytes have with the last one eliminated to the values of all: divides each by the sum
// of its locator and the last one's, and puts the last value behind them, which is what the others leave of the first syndrome.
fn divide(others: &[u8], locator: u8, values: &mut [u8], first: u8)
    requires values { length values.old ≡ length others.now + 1 }
    requires differ { (u : ℕ) → u < length others.now → byte others.now u ≢ locator }
    ensures divided { (u : ℕ) → u < length others.now →
        times (byte values.new u) (bit_xor (byte others.now u) locator) ≡ byte values.old u }
    ensures last { byte values.new (length others.now)
        ≡ bit_xor first (field_sum (byte values.new) (length others.now)) }
{
    let mut last = first;
    for u in 0..others.len() {
        values[u] = product(values[u], inverse(others[u] ^ locator));
        last ^= values[u];
    }
    values[others.len()] = last;
}

// Finds the values that have these syndromes at their locators, and says whether there are such. It uses the syndromes up;
// where there are no such values, what stands in `values` means nothing.
fn solve(locators: &[u8], syndromes: &mut [u8], values: &mut [u8]) -> bool
    requires syndromes { length locators.now ≤ length syndromes.old }
    requires values { length values.old ≡ length locators.now }
    requires apart { Apart (byte locators.now) (length locators.now) }
    ensures found { IsTrue result → Solves (byte locators.now) (byte values.new) (byte syndromes.old)
        (length locators.now) (length syndromes.old) }
    ensures none { IsFalse result → NoneSolve (byte locators.now) (byte syndromes.old)
        (length locators.now) (length syndromes.old) }
{
    let Some((locator, others)) = locators.split_last() else {
        return are_zero(syndromes);
    };
    let first = syndromes[0];
    eliminate(syndromes, *locator);
    let left = syndromes.len() - 1;
    if !solve(others, &mut syndromes[..left], &mut values[..others.len()]) {
        return false;
    }
    divide(others, *locator, values, first);
    true
}

// Puts the values, in their order, where bytes are missing.
#[tactic(auto, using(crate::proofs::Counting::counting))]
fn insert(row: &mut [u8], known: &[bool], values: &[u8])
    requires row { length row.old ≡ 255 }
    requires known { length known.now ≡ 255 }
    requires enough { missing_count known.now ≤ length values.now }
    ensures { Inserted known.now row.old row.new values.now }
{
    let mut u = 0;
    for i in 0..ROW {
        if !known[i] {
            row[i] = values[u];
            u += 1;
        }
    }
}

// What mend has to answer of a row, which is only read here. Where it is to be filled, its missing bytes are the first of
// `values`, in the order of their places.
fn judge(row: &[u8], known: &[bool], values: &mut [u8; CHECK_BYTES]) -> Mended
    requires row { length row.now ≡ 255 }
    requires known { length known.now ≡ 255 }
    ensures { Judged known.now row.now values.new result }
{
    let Some(locators) = missing_locators(known) else {
        return Mended::Open;
    };
    let mut syndromes = syndromes_of(&known_bytes(row, known));
    if solve(&locators, &mut syndromes, &mut values[..locators.len()]) {
        Mended::Filled
    } else {
        Mended::Torn
    }
}

// What is known of a row of which just the first 191 bytes are given.
fn front_known() -> [bool; ROW]
    ensures { IsFront result }
{
    array::from_fn(|i| i < APPLICATION_COLUMNS)
}

/// The row code of MPE-FEC: RS(255,191), with 64 check columns.
#[derive(Clone, Copy, PartialEq, Eq, Debug)]
pub struct ReedSolomon;

impl RowCode for ReedSolomon {
    ghost check_columns = { 64 };

    ghost codeword = { Codeword };

    fn check_columns() -> usize {
        CHECK_BYTES
    }

    fn spread(&mut self, row: &mut [u8]) -> Result<(), Misfit> {
        // Any 191 bytes begin just one codeword, so the row is filled.
        self.mend(row, &front_known())?;
        Ok(())
    }

    fn mend(&mut self, row: &mut [u8], known: &[bool]) -> Result<Mended, Misfit> {
        if row.len() != ROW || known.len() != ROW {
            return Err(Misfit);
        }
        let mut values = [0; CHECK_BYTES];
        match judge(row, known, &mut values) {
            Mended::Filled => {
                insert(row, known, &values);
                Ok(Mended::Filled)
            }
            Mended::Torn => Ok(Mended::Torn),
            Mended::Open => Ok(Mended::Open),
        }
    }

    ghost few = { Prim.search rules };

    ghost rows = { λ word codeword. codeword.is_row };

    ghost begins = { any_begins };
}
