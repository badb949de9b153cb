//! Closed bursts are read out: the one with a loss and a forgery, and one whose loss is made good.

use crate::burst::{PADDING_COLUMNS, Reception, column, of_frame, part, start};
use crate::close::{ARRIVAL, Done, close};
use crate::sent::{DATAGRAMS, Placed};
use anyhow::{anyhow, ensure};
use geometry::Rows;
use marks::Mark;
use receiver::{Datagram, ReadOut};
use reed_solomon::ReedSolomon;
use std::alloc::Global;
use std::io::Write;

// How a datagram came, by the marks of its cells: a section carried them all, or close filled them all in.
fn how_it_came(marks: &[u8], due: Placed) -> anyhow::Result<&'static str> {
    let marks = part(marks, usize::from(due.address), due.length)?;
    if marks.iter().all(|mark| Mark::from(*mark).is_received()) {
        return Ok("from its section");
    }
    ensure!(
        marks.iter().all(|mark| Mark::from(*mark) == Mark::Filled),
        "a datagram that came in part"
    );
    Ok("by repair alone")
}

// Tells the datagram that comes out next, by its address, its length and its first bytes. This one of the frame it must be,
// just as it was sent.
fn tell_datagram(
    out: &mut impl Write,
    read_out: &mut ReadOut<'_, ReedSolomon>,
    sent: &[u8],
    due: Placed,
    how: &str,
) -> anyhow::Result<()> {
    let Some(Datagram { address, bytes }) = read_out.next() else {
        return Err(anyhow!("the end, where a datagram is due"));
    };
    let due_address = usize::from(due.address);
    ensure!(address == due_address, "a datagram at another address");
    let due_bytes = part(sent, due_address, due.length)?;
    ensure!(bytes == due_bytes, "another datagram than was sent");
    let length = bytes.len();
    write!(out, "   datagram at {address:3}, {length:3} bytes:")?;
    for byte in bytes.iter().take(8) {
        write!(out, " {byte:02X}")?;
    }
    writeln!(out, " ..  {how}")?;
    Ok(())
}

// Tells the end. It must come now, and again.
fn tell_end(out: &mut impl Write, read_out: &mut ReadOut<'_, ReedSolomon>) -> anyhow::Result<()> {
    ensure!(
        read_out.next().is_none(),
        "a datagram, where the end is due"
    );
    ensure!(read_out.next().is_none(), "a datagram behind the end");
    writeln!(out, "   end, and end again")?;
    Ok(())
}

// Of the burst with a loss and a forgery, one datagram is left.
fn show_damaged(out: &mut impl Write, sent: &[u8], done: &Done) -> anyhow::Result<()> {
    writeln!(out, "12. A read-out of it is opened, and next is called:")?;
    let mut read_out = done.closed.open(&done.buffers.cells, &done.buffers.marks)?;
    let [_, _, last] = DATAGRAMS;
    let how = how_it_came(&done.buffers.marks, last)?;
    tell_datagram(out, &mut read_out, sent, last, how)?;
    tell_end(out, &mut read_out)?;
    writeln!(
        out,
        "   That at 0 has bytes in torn rows, and that at 200 in open ones: they stay out."
    )?;
    Ok(())
}

impl Reception {
    // Takes the sections that come in: a datagram is lost, and as many check columns come as it has bytes in a row.
    fn receive_enough(
        &mut self,
        out: &mut impl Write,
        rows: Rows,
        sent: &[u8],
    ) -> anyhow::Result<()> {
        let [first, _, last] = DATAGRAMS;
        let check = column(rows, sent, 1, PADDING_COLUMNS)?;
        self.send(out, "check column 1", check, Ok(()))?;
        let last = of_frame(sent, last, true)?;
        self.send(out, "datagram at 512, the last one", last, Ok(()))?;
        let check = column(rows, sent, 0, PADDING_COLUMNS)?;
        self.send(out, "check column 0", check, Ok(()))?;
        let first = of_frame(sent, first, false)?;
        self.send(out, "datagram at 0", first, Ok(()))
    }
}

// Of a burst with a loss that is made good, all datagrams come out.
fn show_mended(out: &mut impl Write, sent: &[u8], done: &Done) -> anyhow::Result<()> {
    let mut read_out = done.closed.open(&done.buffers.cells, &done.buffers.marks)?;
    for due in DATAGRAMS {
        let how = how_it_came(&done.buffers.marks, due)?;
        tell_datagram(out, &mut read_out, sent, due, how)?;
    }
    tell_end(out, &mut read_out)
}

/// Shows what open and next do, of the burst that was closed and of another one. It is an error if a step does not come out as
/// it is told.
pub(crate) fn show(
    out: &mut impl Write,
    alloc: Global,
    rows: Rows,
    sent: &[u8],
    done: &Done,
) -> anyhow::Result<()> {
    show_damaged(out, sent, done)?;
    writeln!(out)?;
    writeln!(
        out,
        "13. A third burst of the frame starts. The datagram at 200 is lost again; more check columns come in:"
    )?;
    let mut reception = start(alloc, sent.len(), ARRIVAL)?;
    reception.receive_enough(out, rows, sent)?;
    writeln!(out, "   The burst is closed:")?;
    let done = close(out, alloc, rows, reception, (256, 0, 0))?;
    done.buffers.tell(out, (65_280, 800, 2))?;
    writeln!(out)?;
    writeln!(out, "14. A read-out of that one is opened:")?;
    show_mended(out, sent, &done)?;
    writeln!(
        out,
        "   All datagrams of the frame have come out, each byte as it was sent."
    )?;
    Ok(())
}
