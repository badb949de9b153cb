//! The read-out of a closed burst, which hands its datagrams out.
ghost use Rattle.std.specs.Prelude.{◌≡◌, ◌<◌, ◌≤◌, length, IfSome, option_map};
ghost use Rattle.reading.specs.Reading.{opened, cells_left, OpenAnswers, NextAnswers};
ghost use Rattle.reading.specs.Stops.{StopsAt};
ghost use Rattle.ledger.specs.Law.{KeepsThePromise, LosesNothing};
ghost use Rattle.ledger.specs.Steps.{OpenSteps, NextSteps};
ghost use Rattle.receiver.specs.Views.{closed_numbers_of, read_out_of, placed_of};

use crate::closed::ClosedBurst;
use crate::numbers::ClosedNumbers;
use reading::{Stop, stop_from};
use refusal::Refusal;
use rowcode::RowCode;
use std::marker::PhantomData;

/// A datagram as it is handed out: a part of the cells, with its address.
#[derive(Clone, Copy, PartialEq, Eq, Debug)]
pub struct Datagram<'a> {
    pub address: usize,
    pub bytes: &'a [u8],
}

/// The read-out of a closed burst of a row code. While it exists it holds both buffers for reading, as far as the limit; and it
/// has a place among the cells.
#[derive(Drop)]
pub struct ReadOut<'a, C: RowCode> {
    cells: &'a [u8],
    marks: &'a [u8],
    place: usize,
    code: PhantomData<C>,
}

impl ClosedNumbers {
    // The read-out of these cells and marks, as far as the limit, from place 0 on.
    fn read_out<'a, C: RowCode>(self, cells: &'a [u8], marks: &'a [u8]) -> ReadOut<'a, C>
        requires cells { self.limit ≤ length cells.now }
        requires marks { self.limit ≤ length marks.now }
        ensures { read_out_of result ≡ opened (closed_numbers_of self) cells.now marks.now }
    {
        ReadOut {
            cells: &cells[..self.limit],
            marks: &marks[..self.limit],
            place: 0,
            code: PhantomData,
        }
    }
}

impl<C: RowCode> ClosedBurst<C> {
    /// Opens the burst's buffers for reading, from the first datagram on. It may be called as often as one likes. Refused
    /// under 2.
    pub fn open<'a>(&self, cells: &'a [u8], marks: &'a [u8]) -> Result<ReadOut<'a, C>, Refusal>
        ensures answer { OpenAnswers C.check_columns (closed_numbers_of self.now.numbers) cells.now marks.now (λ read_out. read_out_of read_out) result }
        ensures steps { OpenSteps C.check_columns C.codeword (closed_numbers_of self.now.numbers) cells.now marks.now (λ read_out. read_out_of read_out) result }
        // What holds after any list of calls of start, take, close, open and next.
        ensures law { KeepsThePromise C.check_columns C.codeword }
        // And that what came is handed out.
        ensures whole { LosesNothing C.check_columns C.codeword }
    {
        let numbers = self.numbers;
        numbers.rows.check_buffers::<C>(cells.len(), marks.len())?;
        Ok(numbers.read_out(cells, marks))
    }
}

impl<'a, C: RowCode> ReadOut<'a, C> {
    // Goes to a stop, and hands out the datagram that is there.
    fn go_to(&mut self, stop: Stop) -> Option<Datagram<'a>>
        requires { StopsAt self.old.cells.now self.old.marks.now self.old.place stop }
        ensures { NextAnswers (read_out_of self.old) (read_out_of self.new) (option_map placed_of result) }
    {
        match stop {
            Stop::Datagram { address, length } => {
                let end = address + length;
                self.place = end;
                Some(Datagram {
                    address,
                    bytes: &self.cells[address..end],
                })
            }
            Stop::End { place } => {
                self.place = place;
                None
            }
        }
    }

    /// The next whole datagram, or None at the end, then and ever after. It goes over whatever is not one, however often.
    pub fn next(&mut self) -> Option<Datagram<'a>>
        ensures answer { NextAnswers (read_out_of self.old) (read_out_of self.new) (option_map placed_of result) }
        ensures steps { NextSteps C.check_columns C.codeword (read_out_of self.old) (read_out_of self.new) (option_map placed_of result) }
        // So a loop that calls it until the end comes to an end.
        ensures nearer { IfSome result (λ _. cells_left (read_out_of self.new) < cells_left (read_out_of self.old)) }
    {
        self.go_to(stop_from(self.cells, self.marks, self.place))
    }
}
