//! Makes the calls of a receiver that the lines of standard input ask for, and prints what each answers and a checksum of each
//! buffer afterwards.
#![tactic(auto)]

ghost use Rattle.std.specs.Prelude.{IsErr};
ghost use Rattle.bursttake.specs.Obeying.{CannotObey};

mod buffers;
mod bursts;

use anyhow::{Error, anyhow};
use buffers::{Buffers, Work, put};
use bursts::{EndedBurst, OpenBurst};
use crc32::crc_32;
use program::asked_to_run;
use program_lines::Code;
use program_lines::calls::{Request, is_passed_over, requested};
use receiver::{Alarm, ClosedBurst, Datagram, Tallies, Wake};
use refusal::Refusal;
use rowcode::RowCode;
use std::alloc::Global;
use std::io;
use std::io::{BufRead, BufReader, BufWriter, Write};

const USAGE: &str = "usage: bursttake < FILE
Makes the calls of a receiver that the lines of standard input ask for: a line with the answer of each, and the CRC_32 of the
cells and of the marks afterwards. A line is one of these, with single spaces:
  buffers CELLS MARKS     lend buffers of so many bytes from now on, all 0xAA in the cells and 0xC8 in the marks
  put MARK FROM COUNT     put a byte into so many marks, from one on
  start CODE SIZE         start a burst for a size code
  take ARRIVAL SECTION    have it take a section
  close SCRATCH NAMES     close it, lent a scratch row and names of so many bytes, all 0xC9 and 0xAA in them
  open COUNT              open a read-out of the closed burst, and call next so many times
CODE is `rs`, RS(255,191), or `bare`, the code without check bytes. SECTION is in hex, upper case, `-` for no bytes; all
else is in decimals: MARK and SIZE up to 255, the others of up to 32 bits. At first the buffers have no bytes. The answer is
`started`, `taken`, `closed` with the rows filled, torn and open and when the radio is needed again (the moment, `end` or
`unknown`), `opened`, or the word `refused` and the number, layer and place; a start or close that is refused leaves the earlier
burst as it is. Behind the answer of a close stand the CRC_32 of the scratch row and of the names, too. The answer of a next has a
line without checksums of buffers: `datagram` with its address, its length and its CRC_32, or `end`. Empty lines and those that
begin with # are passed over. Any other line ends the program, and so does a take or close with no open burst, an open with no
closed one, or a put that goes beyond the marks.";

/// The buffers that are lent, and the burst that calls work on: one that is open, or one that was closed.
#[derive(Drop)]
struct Receiver {
    buffers: Buffers,
    open: Option<OpenBurst>,
    closed: Option<EndedBurst>,
}

fn print_refusal(out: &mut impl Write, refusal: Refusal) -> io::Result<()> {
    let (number, layer, place) = (refusal.number(), refusal.layer(), refusal.place());
    write!(out, "refused {number} {layer} {place}")
}

// Prints the CRC_32 of buffers, which end a line.
fn print_sums(out: &mut impl Write, buffers: &[&[u8]]) -> io::Result<()> {
    for bytes in buffers {
        let sum = crc_32(bytes);
        write!(out, " {sum:08X}")?;
    }
    writeln!(out)
}

// Prints what start or take answered, and how the buffers are then.
fn print_answer(
    out: &mut impl Write,
    answer: Result<&str, Refusal>,
    buffers: &Buffers,
) -> io::Result<()> {
    match answer {
        Ok(done) => write!(out, "{done}")?,
        Err(refusal) => print_refusal(out, refusal)?,
    }
    print_sums(out, &[&buffers.cells, &buffers.marks])
}

// Prints what close answered of a burst: its tallies, and what is set on the alarm now.
fn print_closed(out: &mut impl Write, tallies: Tallies, alarm: Alarm) -> io::Result<()> {
    let (filled, torn, open) = tallies;
    write!(out, "closed {filled} {torn} {open} ")?;
    match alarm.wake {
        Some(Wake::At(moment)) => write!(out, "{moment}"),
        Some(Wake::EndOfService) => write!(out, "end"),
        Some(Wake::Unknown) | None => write!(out, "unknown"),
    }
}

// Prints what next answered.
fn print_datagram(out: &mut impl Write, answer: Option<Datagram<'_>>) -> io::Result<()> {
    match answer {
        Some(Datagram { address, bytes }) => {
            let (length, sum) = (bytes.len(), crc_32(bytes));
            writeln!(out, "datagram {address} {length} {sum:08X}")
        }
        None => writeln!(out, "end"),
    }
}

// Opens a read-out, and calls next so many times; prints the answers.
fn print_read_out<C: RowCode>(
    out: &mut impl Write,
    closed: &ClosedBurst<C>,
    buffers: &Buffers,
    count: u32,
) -> io::Result<()> {
    match closed.open(&buffers.cells, &buffers.marks) {
        Ok(mut read_out) => {
            print_answer(out, Ok("opened"), buffers)?;
            for _ in 0..count {
                print_datagram(out, read_out.next())?;
            }
            Ok(())
        }
        Err(refusal) => print_answer(out, Err(refusal), buffers),
    }
}

// Closes a burst, and prints the answer. Where that is a refusal, the burst comes back.
fn close(
    out: &mut impl Write,
    open: OpenBurst,
    buffers: &mut Buffers,
    work: &mut Work,
) -> io::Result<Result<EndedBurst, OpenBurst>> {
    let Buffers { cells, marks } = buffers;
    match open.close(cells, marks, &mut work.scratch, &mut work.names) {
        Ok(done) => {
            let (closed, order, tallies) = done;
            let mut alarm = Alarm { wake: None };
            order.set_on(&mut alarm);
            print_closed(out, tallies, alarm)?;
            Ok(Ok(closed))
        }
        Err(back) => {
            let (refusal, open) = back;
            print_refusal(out, refusal)?;
            Ok(Err(open))
        }
    }
}

impl Receiver {
    // Nothing is lent, and no burst is started.
    fn new(heap: Global) -> anyhow::Result<Receiver> {
        Ok(Receiver {
            buffers: Buffers::new(heap, 0, 0)?,
            open: None,
            closed: None,
        })
    }

    // Starts a burst.
    fn start(&mut self, code: Code, size_code: u8) -> Result<(), Refusal> {
        let Buffers { cells, marks } = &mut self.buffers;
        self.open = Some(OpenBurst::start(code, size_code, cells, marks)?);
        self.closed = None;
        Ok(())
    }

    // Does what a line asks for, and prints the answers of calls.
    fn obey(&mut self, heap: Global, out: &mut impl Write, request: Request) -> anyhow::Result<()>
        ensures { CannotObey self.old request → IsErr result }
    {
        match request {
            Request::Buffers { cells, marks } => self.buffers = Buffers::new(heap, cells, marks)?,
            Request::Put { mark, from, count } => put(&mut self.buffers.marks, mark, from, count)?,
            Request::Start { code, size_code } => {
                let answer = self.start(code, size_code);
                print_answer(out, answer.map(|()| "started"), &self.buffers)?;
            }
            Request::Take { arrival, section } => {
                let open = self
                    .open
                    .as_mut()
                    .ok_or_else(|| anyhow!("no burst is open"))?;
                let Buffers { cells, marks } = &mut self.buffers;
                let answer = open.take(&section, arrival, cells, marks);
                print_answer(out, answer.map(|()| "taken"), &self.buffers)?;
            }
            Request::Close { scratch, names } => {
                let mut work = Work::new(heap, scratch, names)?;
                let open = self.open.take().ok_or_else(|| anyhow!("no burst is open"))?;
                match close(out, open, &mut self.buffers, &mut work)? {
                    Ok(closed) => self.closed = Some(closed),
                    Err(open) => self.open = Some(open),
                }
                let lent = [
                    self.buffers.cells.as_slice(),
                    &self.buffers.marks,
                    &work.scratch,
                    &work.names,
                ];
                print_sums(out, &lent)?;
            }
            Request::Open { count } => match &self.closed {
                Some(EndedBurst::ReedSolomon(burst)) => print_read_out(
                    out,
                    burst,
                    &self.buffers,
                    count,
                )?,
                Some(EndedBurst::Bare(burst)) => print_read_out(out, burst, &self.buffers, count)?,
                None => return Err(anyhow!("no burst is closed")),
            },
        }
        Ok(())
    }
}

// Does what each line of the input asks for, up to one that cannot be read or obeyed.
fn print_answers(rt: &HostRuntime, out: &mut impl Write) -> anyhow::Result<()> {
    let heap = rt.alloc();
    let mut receiver = Receiver::new(heap)?;
    let lines = BufReader::new(heap, rt.stdin())?.lines(heap);
    for (number, line) in (1u64..).zip(lines) {
        let line = line?;
        if is_passed_over(&line) {
            continue;
        }
        requested(heap, &line)
            .and_then(|request| receiver.obey(heap, out, request))
            .map_err(|why| anyhow!("line {number}: {why}"))?;
    }
    Ok(())
}

fn main(rt: HostRuntime) -> anyhow::Result<()> {
    if !asked_to_run(&rt, USAGE)? {
        return Ok(());
    }
    let mut out = BufWriter::new(rt.alloc(), rt.stdout())?;
    let answered = print_answers(&rt, &mut out);
    out.flush()?;
    answered
}
