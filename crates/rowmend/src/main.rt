//! Mends or spreads the row on each line of standard input, and prints the answer and the row afterwards.
#![tactic(auto)]

use anyhow::{Error, anyhow};
use program::asked_to_run;
use program_lines::Code;
use program_lines::rows::{Call, Request, requested};
use reed_solomon::ReedSolomon;
use rowcode::{Bare, Misfit, RowCode};
use std::io;
use std::io::{BufRead, BufReader, BufWriter, Write};

const USAGE: &str = "usage: rowmend < FILE
Mends or spreads the row on each line of standard input: a line with the answer and the row afterwards. A line is one
of these, with single spaces:
  CODE mend ROW
  CODE spread ROW
CODE is `rs`, RS(255,191), or `bare`, the code without check bytes. ROW is in hex, upper case, `-` for a row of no bytes;
in a row to mend `..` stands for a byte that is not known, and the row has AA there at the call. The answer is 1
(filled), 2 (torn) or 3 (open) of a row to mend, `spread` of a row to spread, `misfit` of either.
Any other line ends the program.";

fn print_row(out: &mut impl Write, row: &[u8]) -> io::Result<()> {
    if row.is_empty() {
        return writeln!(out, "-");
    }
    for byte in row {
        write!(out, "{byte:02X}")?;
    }
    writeln!(out)
}

// Makes the call, which may change the row, and prints the answer.
fn make_call(
    out: &mut impl Write,
    code: &mut impl RowCode,
    call: &Call,
    row: &mut [u8],
) -> io::Result<()> {
    match call {
        Call::Mend(known) => match code.mend(row, known) {
            Ok(mended) => {
                let number = mended.number();
                write!(out, "{number} ")
            }
            Err(Misfit) => write!(out, "misfit "),
        },
        Call::Spread => match code.spread(row) {
            Ok(()) => write!(out, "spread "),
            Err(Misfit) => write!(out, "misfit "),
        },
    }
}

// Prints the answer to a line, and the row afterwards.
fn answer(out: &mut impl Write, mut request: Request) -> io::Result<()> {
    let (call, row) = (&request.call, &mut request.row);
    match request.code {
        Code::ReedSolomon => make_call(out, &mut ReedSolomon, call, row)?,
        Code::Bare => make_call(out, &mut Bare, call, row)?,
    }
    print_row(out, row)
}

// Answers each line of the input, up to one that asks for no call.
fn print_answers(rt: &HostRuntime, out: &mut impl Write) -> anyhow::Result<()> {
    let heap = rt.alloc();
    let lines = BufReader::new(heap, rt.stdin())?.lines(heap);
    for (number, line) in (1u64..).zip(lines) {
        let request = line
            .map_err(Error::from)
            .and_then(|line| requested(heap, &line))
            .map_err(|why| anyhow!("line {number}: {why}"))?;
        answer(out, request)?;
    }
    Ok(())
}

fn main(rt: HostRuntime) -> anyhow::Result<()> {
    if !asked_to_run(&rt, USAGE)? {
        return Ok(());
    }
    let mut out = BufWriter::new(rt.alloc(), rt.stdout())?;
    let answered = print_answers(&rt, &mut out);
    out.flush()?;
    answered
}
