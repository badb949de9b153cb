//! Sections are read from an input, one after another.

ghost use Rattle.std.specs.Prelude.{◌≡◌, ◌+◌, ◌<◌, ◌⊎◌, true, [], length, IfOk, OnOk, nat_lt};
ghost use Rattle.std.specs.Io.{StartsWith};
ghost use Rattle.stream.specs.Cut.{Cuts};
ghost use Rattle.stream.specs.Sources.{unread, released, told_by};

use crate::cutting::{Cut, Cutter};
use crate::windows::Window;
use std::io;
use std::io::Read;
use std::marker::Model;

// A part of the input, as it comes in.
const CHUNK: usize = 4096;

/// A stream that is read from an input, of which a window is held at a time.
#[derive(Drop)]
pub struct Source<R> {
    input: R,
    window: Window,
    ended: bool,
    cutter: Cutter,
}

// Clauses see the bytes that are held, whether the input has ended, and how many pieces may still be cut.
impl<R> Model for Source<R> {
    ghost use Rattle.stream.specs.Sources.{Held};

    ghost Value = { Held };

    ghost view = { λ source. record { bytes = source.window; ended = source.ended; left = source.cutter } };
}

impl<R: Read> Source<R> {
    /// At the beginning of the input, of which nothing is read yet.
    pub fn new(input: R) -> Source<R>
        ensures { result ≡ unread }
    {
        Source {
            input,
            window: Window::new(),
            ended: false,
            cutter: Cutter::new(),
        }
    }

    /// The bytes that are held.
    pub fn held(&self) -> &[u8]
        ensures { result.now ≡ self.now.bytes }
    {
        self.window.held()
    }

    // Reads on, at most a chunk, as far as the window has room. It asks for room, since without it no byte would come,
    // just as at the end. Only where none comes has the input ended.
    fn fill(&mut self) -> io::Result<()>
        requires { length self.old.bytes < 4098 }
        ensures keeps { OnOk result (StartsWith self.new.bytes self.old.bytes) }
        ensures goes_on { OnOk result ((self.new.ended ≡ true) ⊎ (length self.old.bytes < length self.new.bytes)) }
        ensures at_end { OnOk result (self.new.ended ≡ true → self.new.bytes ≡ self.old.bytes) }
        ensures left { OnOk result (self.new.left ≡ self.old.left) }
    {
        let mut chunk = [0; CHUNK];
        let room = self.window.room().min(CHUNK);
        let count = self.input.read(&mut chunk[..room])?;
        self.window.append(&chunk[..count]);
        self.ended = count == 0;
        Ok(())
    }

    /// Reads on until the next piece is held, and answers how many bytes it has; none where no piece is left.
    pub fn next(&mut self) -> io::Result<Option<usize>>
        ensures keeps { OnOk result (StartsWith self.new.bytes self.old.bytes) }
        ensures cuts { IfOk result (λ size. Cuts self.new.bytes self.new.ended self.old.left self.new.left (told_by size)) }
    {
        loop {
            match self.cutter.next(self.window.held(), self.ended) {
                Cut::Piece(size) => return Ok(Some(size)),
                Cut::More => self.fill()?,
                Cut::End => return Ok(None),
            }
        }
    }

    /// Lets go of so many bytes at the front, of all where fewer are held.
    pub fn release(&mut self, count: usize)
        ensures { self.new ≡ released count self.old }
    {
        self.window.release(count);
    }

    /// Whether more is held than was let go of, or comes of the input.
    pub fn goes_on(&mut self) -> io::Result<bool>
        ensures keeps { OnOk result (StartsWith self.new.bytes self.old.bytes) }
        ensures value { IfOk result (λ goes_on. goes_on ≡ nat_lt 0 (length self.new.bytes)) }
        ensures end { OnOk result (self.new.bytes ≡ [] → self.new.ended ≡ true) }
        ensures left { OnOk result (self.new.left ≡ self.old.left) }
    {
        if self.window.held().is_empty() && !self.ended {
            self.fill()?;
        }
        Ok(!self.window.held().is_empty())
    }
}
