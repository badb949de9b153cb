//! Bursts of the two row codes, open and closed.
ghost use Rattle.std.specs.Prelude.{◌≡◌, length, IfOk};
ghost use Rattle.geometry.specs.Sizes.{four_sizes};
ghost use Rattle.refusal.specs.Rules.{Answers};
ghost use Rattle.table.specs.Calls.{StartAnswers, StartStays, TakeAnswers, TakeStays, CloseStays, GivesBack, reason};
ghost use Rattle.table.specs.Bursts.{closed_numbers};
ghost use Rattle.table.specs.Closing.{close_rules, Closed, Tallied};
ghost use Rattle.receiver.specs.Wakes.{wake_of};
ghost use Rattle.bursttake.specs.Codes.{check_columns, codeword, code_of, code_of_ended, numbers_in, numbers_in_ended};

use program_lines::Code;
use receiver::{Burst, ClosedBurst, Tallies, WakeOrder};
use reed_solomon::ReedSolomon;
use refusal::Refusal;
use rowcode::Bare;

/// An open burst.
#[derive(Drop)]
pub enum OpenBurst {
    ReedSolomon(Burst<ReedSolomon>),
    Bare(Burst<Bare>),
}

/// A closed burst.
#[derive(Drop)]
pub enum EndedBurst {
    ReedSolomon(ClosedBurst<ReedSolomon>),
    Bare(ClosedBurst<Bare>),
}

impl OpenBurst {
    /// Starts a burst of this row code.
    pub fn start(
        code: Code,
        size_code: u8,
        cells: &[u8],
        marks: &mut [u8],
    ) -> Result<OpenBurst, Refusal>
        ensures answer { StartAnswers four_sizes (check_columns code) «size_code» cells.now marks.old marks.new numbers_in result }
        ensures code { IfOk result (λ burst. code_of burst ≡ code) }
        ensures stays { StartStays marks.old marks.new result }
    {
        match code {
            Code::ReedSolomon => Ok(OpenBurst::ReedSolomon(Burst::start(size_code, cells, marks)?)),
            Code::Bare => Ok(OpenBurst::Bare(Burst::start(size_code, cells, marks)?)),
        }
    }

    /// Has the burst take a section.
    pub fn take(
        &mut self,
        section: &[u8],
        arrival: u32,
        cells: &mut [u8],
        marks: &mut [u8],
    ) -> Result<(), Refusal>
        ensures answer { TakeAnswers (check_columns (code_of self.old)) section.now arrival
            (numbers_in self.old) cells.old marks.old (numbers_in self.new) cells.new marks.new result }
        ensures code { code_of self.new ≡ code_of self.old }
        ensures stays { TakeStays self.old self.new cells.old marks.old cells.new marks.new result }
    {
        match self {
            OpenBurst::ReedSolomon(burst) => burst.take(section, arrival, cells, marks),
            OpenBurst::Bare(burst) => burst.take(section, arrival, cells, marks),
        }
    }

    /// Closes the burst: the closed one, its wake order, and how many rows are filled, torn and open. Where that is refused, it
    /// comes back.
    pub fn close(
        self,
        cells: &mut [u8],
        marks: &mut [u8],
        scratch: &mut [u8],
        names: &mut [u8],
    ) -> Result<(EndedBurst, WakeOrder, Tallies), (Refusal, OpenBurst)>
        ensures answer { Answers
            (close_rules (check_columns (code_of self)) (numbers_in self).rows (length cells.old) (length marks.old) (length scratch.old) (length names.old))
            (λ _. Closed (check_columns (code_of self)) (codeword (code_of self)) (numbers_in self).rows cells.old marks.old cells.new marks.new scratch.new names.new)
            (reason result) }
        ensures numbers { IfOk result (λ closed. numbers_in_ended closed.0 ≡ closed_numbers (numbers_in self)) }
        ensures code { IfOk result (λ closed. code_of_ended closed.0 ≡ code_of self) }
        ensures wake { IfOk result (λ closed. closed.1.wake ≡ wake_of (numbers_in self).latest) }
        ensures tallies { IfOk result (λ closed. Tallied names.new closed.2) }
        ensures stays { CloseStays cells.old marks.old scratch.old names.old cells.new marks.new scratch.new names.new result }
        ensures back { GivesBack self result }
    {
        match self {
            OpenBurst::ReedSolomon(burst) => {
                match burst.close(&mut ReedSolomon, cells, marks, scratch, names) {
                    Ok((closed, order, tallies)) => {
                        Ok((EndedBurst::ReedSolomon(closed), order, tallies))
                    }
                    Err((refusal, burst)) => Err((refusal, OpenBurst::ReedSolomon(burst))),
                }
            }
            OpenBurst::Bare(burst) => match burst.close(&mut Bare, cells, marks, scratch, names) {
                Ok((closed, order, tallies)) => Ok((EndedBurst::Bare(closed), order, tallies)),
                Err((refusal, burst)) => Err((refusal, OpenBurst::Bare(burst))),
            },
        }
    }
}
