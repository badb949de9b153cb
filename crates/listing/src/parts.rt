//! The parts of a line, each set in columns of its own. A part has at most 20 bytes, so a line has room for twelve.

ghost use Rattle.std.specs.Prelude.{◌≡◌, ◌≤◌, ◌++◌, length, flat_map};
ghost use Rattle.stream.specs.Columns.{right_aligned, left_aligned};
ghost use Rattle.listing.specs.Parts.{HasRoom, GrownBy};

use std::marker::Model;
use stream::columns::Line;

/// A size as a number of 64 bits. `as`: there is no `From<usize>` for one.
pub(super) fn wide(size: usize) -> u64
    ensures { result ≡ size }
{
    size as u64
}

// What a part says.
#[derive(Clone, Copy)]
enum Content {
    Number(u64),
    Word(&'static str),
}

/// What stands in so many columns: a number on their right side, or a word on their left.
#[derive(Drop)]
pub(super) struct Part {
    content: Content,
    columns: usize,
}

// Clauses see the text that stands in the line, of at most 20 bytes.
impl Model for Part {
    ghost use Rattle.std.specs.Prelude.{ℕ, ◌≤◌, List, length};

    ghost Value = { List ℕ };

    ghost use Rattle.listing.specs.Parts.{text_of};

    ghost view = { λ part. text_of part.columns part.content };

    ghost invariant = { λ part. length (text_of part.columns part.content) ≤ 20 };
}

impl Part {
    /// The number. No number has more than 20 digits.
    pub(super) fn number(number: u64, columns: usize) -> Part
        requires { columns ≤ 20 }
        ensures { result ≡ right_aligned columns number }
    {
        Part {
            content: Content::Number(number),
            columns,
        }
    }

    /// The word.
    pub(super) fn word(word: &'static str, columns: usize) -> Part
        requires narrow { columns ≤ 20 }
        requires short { length word.now ≤ 20 }
        ensures { result ≡ left_aligned columns word.now }
    {
        Part {
            content: Content::Word(word),
            columns,
        }
    }
}

/// Appends the parts, one after another.
pub(super) fn put(line: &mut Line, parts: &[Part])
    requires { HasRoom (length parts.now) line.old }
    ensures added { line.new ≡ line.old ++ flat_map (λ part. part) parts.now }
    ensures grown { GrownBy (length parts.now) line.old line.new }
{
    for part in parts {
        put_part(line, part);
    }
}

fn put_part(line: &mut Line, part: &Part)
    requires { HasRoom 1 line.old }
    ensures added { line.new ≡ line.old ++ part.now }
    ensures grown { GrownBy 1 line.old line.new }
{
    match part.content {
        Content::Number(number) => line.decimal(number, part.columns).unwrap(),
        Content::Word(word) => line.word(word, part.columns).unwrap(),
    }
}
