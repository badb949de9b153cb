//! A window on a stream: bytes come in at its end and leave at its front.

ghost use Rattle.std.specs.Prelude.{◌≡◌, ◌-◌, ◌≤◌, min, [], ◌++◌, length, take, drop};

use arrayvec::ArrayVec;
use std::marker::Model;

/// How many bytes a window has room for: as many as the longest piece that bytes 1 and 2 can tell.
const ROOM: usize = 4098;

/// The part of a stream that is held at a time.
#[derive(Default, Drop)]
pub struct Window {
    bytes: ArrayVec<u8, ROOM>,
}

// Clauses see the bytes that are held.
impl Model for Window {
    ghost use Rattle.std.specs.Prelude.{ℕ, List};

    ghost Value = { List ℕ };

    ghost view = { λ window. window.bytes.items };
}

impl Window {
    /// A window with nothing in it.
    pub fn new() -> Window
        ensures { result ≡ [] }
    {
        Window::default()
    }

    /// The bytes that are held.
    pub fn held(&self) -> &[u8]
        ensures held { result.now ≡ self.now }
        ensures within { length result.now ≤ 4098 }
    {
        self.bytes.as_slice()
    }

    /// How many bytes more there is room for: 4,098 less those held.
    pub fn room(&self) -> usize
        ensures room { result ≡ 4098 - length self.now }
        ensures within { length self.now ≤ 4098 }
    {
        self.bytes.remaining_capacity()
    }

    /// Takes in the bytes that come next, as many of them as there is room for, and answers how many these are.
    pub fn append(&mut self, more: &[u8]) -> usize
        ensures count { result ≡ min (length more.now) (4098 - length self.old) }
        ensures after { self.new ≡ self.old ++ take result more.now }
        ensures within { length self.new ≤ 4098 }
    {
        let count = more.len().min(self.bytes.remaining_capacity());
        self.bytes.try_extend_from_slice(&more[..count]).unwrap();
        count
    }

    /// Lets go of so many bytes at the front, of all where fewer are held.
    pub fn release(&mut self, count: usize)
        ensures after { self.new ≡ drop count self.old }
        ensures within { (length self.old ≤ 4098) × (length self.new ≤ 4098) }
    {
        let count = count.min(self.bytes.len());
        self.bytes.drain(..count);
    }
}
