//! An open burst: started for a frame size, taking sections, and closed.
ghost use Rattle.std.specs.Prelude.{◌≡◌, length, replicate, IfOk, OnOk, OnErr};
ghost use Rattle.geometry.specs.Sizes.{four_sizes};
ghost use Rattle.marks.specs.declared.Mark.TheVariants.{Unknown};
ghost use Rattle.marks.specs.Marks.{mark_byte};
ghost use Rattle.frame.specs.Fields.{fields_of};
ghost use Rattle.table.specs.Bursts.{table_of};
ghost use Rattle.table.specs.Calls.{StartAnswers, StartStays, TakeAnswers, TakeStays, CloseAnswers, CloseStays, GivesBack, reason};
ghost use Rattle.table.specs.Closing.{Tallied};
ghost use Rattle.table.specs.Laws.{TakesItsOwn, KeepsAgreeing, AgreesWithAll};
ghost use Rattle.table.specs.Taking.{Stored, Entered};
ghost use Rattle.ledger.specs.Steps.{StartSteps, TakeSteps, CloseSteps, StartElsewhere, TakeElsewhere, CloseElsewhere};
ghost use Rattle.receiver.specs.Views.{numbers_of, closed_numbers_of};
ghost use Rattle.receiver.specs.Wakes.{wake_of};

use crate::closed::ClosedBurst;
use crate::numbers::Numbers;
use crate::telling::Told;
use crate::wake::{Wake, WakeOrder};
use closing::{Tallies, close_rows};
use geometry::Rows;
use marks::Mark;
use refusal::Refusal;
use rowcode::RowCode;
use std::marker::PhantomData;

/// An open burst of a row code. It holds numbers alone; the cells and the marks belong to its caller, who lends them to each
/// call and leaves them alone in between.
#[derive(Drop)]
pub struct Burst<C: RowCode> {
    numbers: Numbers,
    code: PhantomData<C>,
}

// Marks every cell as unknown.
fn unmark(marks: &mut [u8])
    ensures { marks.new ≡ replicate (length marks.old) (mark_byte Unknown) }
{
    marks.fill(Mark::Unknown.byte());
}

impl<C: RowCode> Burst<C> {
    /// Starts a burst for a size code: every mark becomes 0, and no cell is touched. Refused under 1 and 2, with all as it was.
    pub fn start(size_code: u8, cells: &[u8], marks: &mut [u8]) -> Result<Burst<C>, Refusal>
        ensures answer { StartAnswers four_sizes C.check_columns «size_code» cells.now marks.old marks.new
            (λ burst. numbers_of burst.numbers) result }
        ensures stays { StartStays marks.old marks.new result }
        ensures steps { StartSteps C.check_columns C.codeword four_sizes «size_code» cells.now marks.old marks.new
            (λ burst. numbers_of burst.numbers) result }
        ensures elsewhere { StartElsewhere C.check_columns C.codeword four_sizes «size_code» cells.now marks.old result }
        ensures agrees { IfOk result (λ burst. AgreesWithAll (table_of (numbers_of burst.numbers) cells.now marks.new)) }
    {
        let rows = Rows::of_size_code(size_code)?;
        rows.check_buffers::<C>(cells.len(), marks.len())?;
        unmark(marks);
        Ok(Burst {
            numbers: Numbers {
                rows,
                told: Told::NOTHING,
                latest: None,
            },
            code: PhantomData,
        })
    }

    /// Takes a section of any length and content, which came in at that moment, in ms: its payload, and what it tells of the
    /// table's end. Refused under 2 and 4 to 13, by the first that fits, with all as it was.
    pub fn take(
        &mut self,
        section: &[u8],
        arrival: u32,
        cells: &mut [u8],
        marks: &mut [u8],
    ) -> Result<(), Refusal>
        ensures answer { TakeAnswers C.check_columns section.now arrival
            (numbers_of self.old.numbers) cells.old marks.old (numbers_of self.new.numbers) cells.new marks.new result }
        ensures stays { TakeStays self.old self.new cells.old marks.old cells.new marks.new result }
        ensures steps { TakeSteps C.check_columns C.codeword section.now arrival
            (numbers_of self.old.numbers) cells.old marks.old (numbers_of self.new.numbers) cells.new marks.new result }
        ensures elsewhere { TakeElsewhere C.check_columns C.codeword section.now arrival
            (numbers_of self.old.numbers) (numbers_of self.new.numbers) cells.old marks.old result }
        ensures payload { OnOk result
            (Stored self.old.numbers.rows.count (fields_of section.now) cells.new marks.new) }
        ensures entered { OnOk result
            (Entered (table_of (numbers_of self.old.numbers) cells.old marks.old) (fields_of section.now)
            (table_of (numbers_of self.new.numbers) cells.new marks.new)) }
        // Of a lawful frame that the table agrees with, no section is turned away, and the table then agrees as before.
        ensures own { TakesItsOwn C.check_columns C.codeword
            (table_of (numbers_of self.old.numbers) cells.old marks.old) section.now result }
        ensures keeps { KeepsAgreeing C.check_columns C.codeword
            (table_of (numbers_of self.old.numbers) cells.old marks.old) section.now
            (table_of (numbers_of self.new.numbers) cells.new marks.new) result }
    {
        self.numbers
            .rows
            .check_buffers::<C>(cells.len(), marks.len())?;
        self.numbers
            .take(C::check_columns(), section, arrival, cells, marks)
    }

    /// Ends the burst: mends every row by this row code, in the scratch row of 255 bytes, and gives it a name, one byte a row:
    /// 1 if it is filled, 2 torn, 3 open. Gives the closed burst, the wake order, and how many rows are filled, torn and open.
    /// Refused under 2 and 3, by the first that fits: then the burst comes back, with all as it was.
    pub fn close(
        self,
        code: &mut C,
        cells: &mut [u8],
        marks: &mut [u8],
        scratch: &mut [u8],
        names: &mut [u8],
    ) -> Result<(ClosedBurst<C>, WakeOrder, Tallies), (Refusal, Burst<C>)>
        ensures answer { CloseAnswers C.check_columns C.codeword (numbers_of self.numbers) cells.old marks.old scratch.old names.old
            cells.new marks.new scratch.new names.new (λ closed. closed_numbers_of closed.0.numbers) (reason result) }
        ensures wake { IfOk result (λ closed. closed.1.wake ≡ wake_of (numbers_of self.numbers).latest) }
        ensures tallies { IfOk result (λ closed. Tallied names.new closed.2) }
        ensures stays { CloseStays cells.old marks.old scratch.old names.old cells.new marks.new scratch.new names.new result }
        ensures back { GivesBack self result }
        ensures steps { CloseSteps C.check_columns C.codeword (numbers_of self.numbers) cells.old marks.old scratch.old names.old
            cells.new marks.new names.new (λ closed. closed_numbers_of closed.0.numbers) (λ back. numbers_of back.numbers) result }
        ensures elsewhere { CloseElsewhere C.check_columns C.codeword (numbers_of self.numbers) cells.old marks.old scratch.old names.old
            (λ back. numbers_of back.numbers) result }
        ensures code { OnErr result (code.new ≡ code.old) }
    {
        match close_rows(self.numbers.rows, code, cells, marks, scratch, names) {
            Ok(tallies) => Ok((
                ClosedBurst {
                    numbers: self.numbers.closed(),
                    code: PhantomData,
                },
                WakeOrder::new(Wake::after(self.numbers.latest)),
                tallies,
            )),
            Err(refusal) => Err((refusal, self)),
        }
    }
}
