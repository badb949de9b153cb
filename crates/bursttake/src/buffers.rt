//! The buffers that are lent to calls.
ghost use Rattle.std.specs.Prelude.{◌≡◌, ◌+◌, ◌≤◌, ◌↔◌, length, replicate, IfOk, IsOk, OnOk, OnErr};
ghost use Rattle.receiver.specs.Parts.{PartIs};

use std::alloc::{AllocError, Global};
use thiserror::Error;

// What the buffers hold when they are made. As a mark, 0xC8 says nothing.
const CELL: u8 = 0xAA;

const MARK: u8 = 0xC8;

const SCRATCH: u8 = 0xC9;

const NAME: u8 = 0xAA;

/// A byte was to be put into more marks than there are.
#[derive(Debug, Drop, Error)]
#[error("there are not so many marks")]
pub struct BeyondMarks;

/// The cells and the marks.
#[derive(Drop)]
pub struct Buffers {
    pub cells: Vec<u8>,
    pub marks: Vec<u8>,
}

impl Buffers {
    /// Buffers of these lengths.
    pub fn new(heap: Global, cells: u32, marks: u32) -> Result<Buffers, AllocError>
        ensures cells { IfOk result (λ buffers. buffers.cells.items ≡ replicate cells 0xAA) }
        ensures marks { IfOk result (λ buffers. buffers.marks.items ≡ replicate marks 0xC8) }
    {
        // `as`: there is no `From<u32>` for `usize`.
        Ok(Buffers {
            cells: vec![in heap; CELL; cells as usize]?,
            marks: vec![in heap; MARK; marks as usize]?,
        })
    }
}

/// What close is lent besides: the scratch row, and the names of the rows.
#[derive(Drop)]
pub struct Work {
    pub scratch: Vec<u8>,
    pub names: Vec<u8>,
}

impl Work {
    /// A scratch row and names of these lengths.
    pub fn new(heap: Global, scratch: u32, names: u32) -> Result<Work, AllocError>
        ensures scratch { IfOk result (λ work. work.scratch.items ≡ replicate scratch 0xC9) }
        ensures names { IfOk result (λ work. work.names.items ≡ replicate names 0xAA) }
    {
        // `as`: there is no `From<u32>` for `usize`.
        Ok(Work {
            scratch: vec![in heap; SCRATCH; scratch as usize]?,
            names: vec![in heap; NAME; names as usize]?,
        })
    }
}

// Puts a byte into a part of the marks.
fn fill_part(marks: &mut [u8], mark: u8, from: usize, end: usize)
    requires order { from ≤ end }
    requires inside { end ≤ length marks.old }
    ensures { PartIs from end (λ _ _. mark) marks.old marks.new }
{
    marks[from..end].fill(mark);
}

/// Puts a byte into so many marks, from one on. Where there are not so many, all is as it was.
pub fn put(marks: &mut [u8], mark: u8, from: u32, count: u32) -> Result<(), BeyondMarks>
    ensures fits { IsOk result ↔ from + count ≤ length marks.old }
    ensures put { OnOk result (PartIs from (from + count) (λ _ _. mark) marks.old marks.new) }
    ensures stays { OnErr result (marks.new ≡ marks.old) }
{
    // `as`: there is no `From<u32>` for `usize`.
    let from = from as usize;
    let end = from + count as usize;
    if end > marks.len() {
        return Err(BeyondMarks);
    }
    fill_part(marks, mark, from, end);
    Ok(())
}
