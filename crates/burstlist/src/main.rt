//! Lists the datagrams of the burst whose sections lie back to back on standard input.
#![tactic(auto)]

ghost use Rattle.std.specs.Prelude.{◌≡◌, ◌+◌, ◌≤◌, IfOk};

use frame_row::SCRATCH_ROW;
use geometry::Rows;
use listing::{Position, Totals, datagram_line, totals_line};
use program::asked_to_run;
use receiver::{Alarm, Burst, ClosedBurst, Datagram, Tallies};
use reed_solomon::ReedSolomon;
use refusal::Refusal;
use std::io::{BufWriter, Read, Write};
use stream::sources::Source;

const USAGE: &str = "usage: burstlist < FILE
Takes the sections laid back to back on standard input as those of one burst, of a frame of 256 rows and 64 check columns, closes
it and lists its datagrams: a line for each with its address and its length. The last line has the numbers of sections taken and
refused, and of rows filled, torn and open. The first 100 sections that are refused are told on standard error, and how many more
there are.";

/// The size code of the frame: 256 rows.
const SIZE_CODE: u8 = 0;

/// At most so many refused sections are told one by one.
const MOST_TOLD: usize = 100;

/// The buffers of a burst.
#[derive(Drop)]
struct Buffers {
    cells: Vec<u8>,
    marks: Vec<u8>,
}

// Tells that a section is refused. A warning that nobody can hear does not end the listing.
fn warn(rt: &HostRuntime, position: Position, refusal: Refusal) {
    let Position { number, offset } = position;
    let (no, layer, place) = (refusal.number(), refusal.layer(), refusal.place());
    let _ = eprintln!(rt;
        "burstlist: section {number} at byte {offset} is refused, {no} {layer} {place}: {refusal}"
    );
}

// Takes the sections: how many were taken, and how many refused. Each that is cut off the input counts; which it counts as is
// tested only.
fn take_all<R: Read>(
    rt: &HostRuntime,
    source: &mut Source<R>,
    burst: &mut Burst<ReedSolomon>,
    buffers: &mut Buffers,
) -> anyhow::Result<(usize, usize)>
    requires { source.old.left ≤ 20000 }
    ensures { IfOk result (λ counts. counts.0 + counts.1 + source.new.left ≡ source.old.left) }
{
    let (mut taken, mut refused) = (0usize, 0usize);
    let mut position = Position::default();
    while let Some(size) = source.next()? {
        let section = &source.held()[..size];
        match burst.take(section, 0, &mut buffers.cells, &mut buffers.marks) {
            Ok(()) => taken += 1,
            Err(refusal) => {
                refused += 1;
                if refused <= MOST_TOLD {
                    warn(rt, position, refusal);
                }
            }
        }
        source.release(size);
        position = position.after(size);
    }
    Ok((taken, refused))
}

// Tells how many more sections were refused than were told, and whether the input goes on behind those that were read.
fn warn_of_rest<R: Read>(
    rt: &HostRuntime,
    source: &mut Source<R>,
    refused: usize,
) -> anyhow::Result<()> {
    if refused > MOST_TOLD {
        let more = refused - MOST_TOLD;
        let _ = eprintln!(rt; "burstlist: refused besides: {more}");
    }
    if source.goes_on()? {
        let _ = eprintln!(rt;
            "burstlist: the input goes on; only its first 20,000 sections are read"
        );
    }
    Ok(())
}

// Closes a burst of so many rows, and stays awake.
fn close(
    rt: &HostRuntime,
    burst: Burst<ReedSolomon>,
    rows: Rows,
    buffers: &mut Buffers,
) -> anyhow::Result<(ClosedBurst<ReedSolomon>, Tallies)> {
    let mut scratch = [0; SCRATCH_ROW];
    let mut names = vec![in rt.alloc(); 0u8; rows.count()]?;
    let (cells, marks) = (&mut buffers.cells, &mut buffers.marks);
    match burst.close(&mut ReedSolomon, cells, marks, &mut scratch, &mut names) {
        Ok((closed, wake_order, tallies)) => {
            wake_order.stay_awake(&mut Alarm { wake: None });
            Ok((closed, tallies))
        }
        Err((refusal, _burst)) => Err(refusal.into()),
    }
}

// Lists the datagrams that a closed burst hands out.
fn list(
    out: &mut impl Write,
    closed: &ClosedBurst<ReedSolomon>,
    buffers: &Buffers,
) -> anyhow::Result<()> {
    let mut read_out = closed.open(&buffers.cells, &buffers.marks)?;
    while let Some(Datagram { address, bytes }) = read_out.next() {
        datagram_line(address, bytes.len()).print(out)?;
    }
    Ok(())
}

fn main(rt: HostRuntime) -> anyhow::Result<()> {
    if !asked_to_run(&rt, USAGE)? {
        return Ok(());
    }
    let heap = rt.alloc();
    let rows = Rows::of_size_code(SIZE_CODE)?;
    let size = rows.frame_size::<ReedSolomon>();
    let mut buffers = Buffers {
        cells: vec![in heap; 0u8; size]?,
        marks: vec![in heap; 0u8; size]?,
    };
    let mut burst = Burst::start(SIZE_CODE, &buffers.cells, &mut buffers.marks)?;
    let mut source = Source::new(rt.stdin());
    let (taken, refused) = take_all(&rt, &mut source, &mut burst, &mut buffers)?;
    let (closed, (filled, torn, open)) = close(&rt, burst, rows, &mut buffers)?;
    let mut out = BufWriter::new(heap, rt.stdout())?;
    list(&mut out, &closed, &buffers)?;
    let totals = Totals {
        taken,
        refused,
        filled,
        torn,
        open,
    };
    totals_line(totals).print(&mut out)?;
    out.flush()?;
    warn_of_rest(&rt, &mut source, refused)
}
