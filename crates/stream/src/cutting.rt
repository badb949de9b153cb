//! Sections are cut off a stream of bytes, of which a window is held at a time.

ghost use Rattle.std.specs.Prelude.{◌≡◌, ℕ, ◌+◌, ◌<◌, ◌≤◌, true, false, [], length, MatchOption};
ghost use Rattle.stream.specs.Cut.{length_told, TooShort, TellsSize, Cuts, PiecesLaw, RunLaw};

use octets::section_length;
use std::marker::Model;

/// At most so many pieces are cut off a stream.
const MOST_PIECES: usize = 20_000;

/// What stands at the front of the bytes that are held.
// Three cases, which neither `Option` nor `Result` has.
#[derive(Clone, Copy, PartialEq, Eq, Debug)]
pub enum Cut {
    /// The next piece: so many bytes from the first one held.
    Piece(usize),
    /// The bytes held do not suffice to tell, and more may come.
    More,
    /// No piece is left.
    End,
}

/// Cuts the pieces off a stream, one after another, and counts them.
#[derive(Drop)]
pub struct Cutter {
    left: usize,
}

// Clauses see how many pieces may still be cut.
impl Model for Cutter {
    ghost use Rattle.std.specs.Prelude.{ℕ, ◌≤◌};

    ghost Value = { ℕ };

    ghost view = { λ cutter. cutter.left };

    ghost invariant = { λ cutter. cutter.left ≤ 20000 };
}

impl Cutter {
    /// At the beginning of a stream, with 20,000 pieces left to be cut. Calls of `next` then give the pieces of the
    /// stream, however much of it is held at each call.
    pub fn new() -> Cutter
        ensures full { result ≡ 20000 }
        ensures law { PiecesLaw }
        ensures runs { RunLaw }
    {
        Cutter { left: MOST_PIECES }
    }

    /// The next piece of the stream that begins with the bytes held, and ends with them where it has `ended`.
    // A flag beside the bytes: an enum of the two would hold the same bytes in both cases.
    #[tactic(auto, using(crate::proofs::Fronts::cuts))]
    pub fn next(&mut self, held: &[u8], ended: bool) -> Cut
        ensures cuts { Cuts held.now ended self.old self.new result }
        ensures window { result ≡ Cut.More → length held.now < 4098 }
        ensures within { (self.old ≤ 20000) × (self.new ≤ 20000) }
    {
        if self.left == 0 {
            return Cut::End;
        }
        let cut = first_cut(held, ended);
        if let Cut::Piece(_) = cut {
            self.left -= 1;
        }
        cut
    }
}

// What stands at the front of the bytes held, as far as they tell.
fn first_cut(held: &[u8], ended: bool) -> Cut
    ensures piece { (size : ℕ) → result ≡ Cut.Piece size → (0 < size) × TellsSize held.now ended size }
    ensures more { result ≡ Cut.More → (ended ≡ false) × TooShort held.now }
    ensures end { result ≡ Cut.End → (held.now ≡ []) × (ended ≡ true) }
{
    match whole_section(held) {
        Some(size) => Cut::Piece(size),
        None if !ended => Cut::More,
        None if held.is_empty() => Cut::End,
        None => Cut::Piece(held.len()),
    }
}

// How many bytes the section at the front has, where it is held as a whole.
fn whole_section(held: &[u8]) -> Option<usize>
    ensures { MatchOption result
        (TooShort held.now)
        (λ size. (3 ≤ length held.now) × (size ≤ length held.now) × (size ≡ 3 + length_told held.now)) }
{
    let [_, high, low, ..] = held else {
        return None;
    };
    let size = 3 + usize::from(section_length(*high, *low));
    if size <= held.len() { Some(size) } else { None }
}
