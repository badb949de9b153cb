//! A burst that is closed: one datagram of its frame is lost, and one that nobody sent was taken.
ghost use Rattle.std.specs.Prelude.{◌≡◌, ◌↔◌, IsTrue, All};
ghost use Rattle.rowcode.specs.Answers.{number_of};

use crate::burst::{Buffers, PADDING_COLUMNS, Reception, column, datagram, of_frame, start};
use crate::sent::{DATAGRAMS, fill_datagram};
use anyhow::ensure;
use frame_row::SCRATCH_ROW;
use geometry::Rows;
use receiver::{Alarm, ClosedBurst, Tallies, Wake};
use reed_solomon::ReedSolomon;
use rowcode::Mended;
use std::alloc::Global;
use std::io::Write;

/// When the sections come in, in ms.
pub(crate) const ARRIVAL: u32 = 10_000;

impl Reception {
    // Takes the sections that come in. One datagram of the frame is not among them, and one that nobody sent is.
    fn receive_damaged(
        &mut self,
        out: &mut impl Write,
        rows: Rows,
        sent: &[u8],
    ) -> anyhow::Result<()> {
        let [first, _, last] = DATAGRAMS;
        let first = of_frame(sent, first, false)?;
        self.send(out, "datagram at 0", first, Ok(()))?;
        let mut forged = [0; 20];
        fill_datagram(&mut forged, 20, b'X');
        let forged = datagram(356, false, &forged);
        self.send(out, "datagram at 356, which nobody sent", forged, Ok(()))?;
        let last = of_frame(sent, last, true)?;
        self.send(out, "datagram at 512, the last one", last, Ok(()))?;
        let check = column(rows, sent, 0, PADDING_COLUMNS)?;
        self.send(out, "check column 0", check, Ok(()))?;
        self.buffers.tell(out, (48_860, 564, 3))
    }
}

// Whether all these names are that of an answer.
fn all_named(names: &[u8], answer: Mended) -> bool
    ensures { IsTrue result ↔ All (λ name. name ≡ number_of answer) names.now }
{
    names.iter().all(|name| *name == answer.number())
}

// Tells which rows are torn and which are open. So it must be.
fn tell_rows(out: &mut impl Write, names: &[u8]) -> anyhow::Result<()> {
    let (torn, open) = (names.get(100..120), names.get(200..256));
    ensure!(
        torn.is_some_and(|names| all_named(names, Mended::Torn)),
        "rows 100 to 119 are not all torn"
    );
    ensure!(
        open.is_some_and(|names| all_named(names, Mended::Open)),
        "rows 200 to 255 are not all open"
    );
    writeln!(
        out,
        "   Rows 100 to 119 are torn: they fit no codeword. Rows 200 to 255 are open: they fit many."
    )?;
    Ok(())
}

// Tells when the alarm goes off: so many ms after the sections came in it must be.
fn tell_alarm(out: &mut impl Write, alarm: Alarm, later: u32) -> anyhow::Result<()> {
    let due = u64::from(ARRIVAL) + u64::from(later);
    ensure!(
        alarm.wake == Some(Wake::At(due)),
        "the alarm is set otherwise"
    );
    writeln!(
        out,
        "   The wake order is set on the alarm: at {due} ms, {later} after the last section came in."
    )?;
    Ok(())
}

/// A burst that is closed: what it was closed to, its buffers, the names of its rows, and what is set on the alarm.
#[derive(Drop)]
pub(crate) struct Done {
    pub(crate) closed: ClosedBurst<ReedSolomon>,
    pub(crate) buffers: Buffers,
    names: Vec<u8>,
    alarm: Alarm,
}

/// Closes a burst, and tells how many of its rows are filled, torn and open. So many it must be.
pub(crate) fn close(
    out: &mut impl Write,
    alloc: Global,
    rows: Rows,
    reception: Reception,
    due: Tallies,
) -> anyhow::Result<Done> {
    let Reception {
        burst,
        mut buffers,
        ..
    } = reception;
    let mut scratch = [0xFF; SCRATCH_ROW];
    let mut names = vec![in alloc; 0u8; rows.count()]?;
    let mut alarm = Alarm { wake: None };
    let (closed, tallies) = match burst.close(
        &mut ReedSolomon,
        &mut buffers.cells,
        &mut buffers.marks,
        &mut scratch,
        &mut names,
    ) {
        Ok((closed, wake_order, tallies)) => {
            wake_order.set_on(&mut alarm);
            (closed, tallies)
        }
        Err((refusal, _burst)) => return Err(refusal.into()),
    };
    ensure!(tallies == due, "other tallies of rows");
    let (filled, torn, open) = tallies;
    writeln!(out, "   rows filled {filled}, torn {torn}, open {open}")?;
    ensure!(scratch == [0; SCRATCH_ROW], "the scratch row is not zero");
    Ok(Done {
        closed,
        buffers,
        names,
        alarm,
    })
}

/// Shows what close does, step by step. It is an error if a step does not come out as it is told.
pub(crate) fn show(
    out: &mut impl Write,
    alloc: Global,
    rows: Rows,
    sent: &[u8],
) -> anyhow::Result<Done> {
    writeln!(
        out,
        "10. Another burst of the frame starts. The datagram at 200 is lost, and a forged one comes in:"
    )?;
    let mut reception = start(alloc, sent.len(), ARRIVAL)?;
    reception.receive_damaged(out, rows, sent)?;
    writeln!(out)?;
    writeln!(out, "11. The burst is closed:")?;
    let done = close(out, alloc, rows, reception, (180, 20, 56))?;
    tell_rows(out, &done.names)?;
    tell_alarm(out, done.alarm, 5_000)?;
    done.buffers.tell(out, (56_540, 504, 2))?;
    done.buffers.tell_right(out, sent)?;
    Ok(done)
}
