//! Writes the section that each line of standard input describes, in hex, or says why it is refused.
#![tactic(auto)]

use anyhow::{Error, anyhow};
use program::asked_to_run;
use program_lines::sections::{Description, described};
use refusal::Refusal;
use section::Section;
use section_writer::{BUFFER, write};
use std::io;
use std::io::{BufRead, BufReader, BufWriter, Write};

const USAGE: &str = "usage: sectionwrite < FILE
Writes the section that each line of standard input describes: a line with its bytes in hex, or with the word
`refused` and the number, layer and place of the refusal. A line is one of these, with single spaces:
  datagram MAC6 MAC5 VERSION DELTA_T TB FB ADDRESS PAYLOAD
  check P S LAST ROWS COLUMNS DELTA_T TB FB ADDRESS PAYLOAD
The payload is in hex, upper case, `-` for none; all else is in decimals. VERSION is 4 or 6, TB (table_boundary) and
FB (frame_boundary) are 0 or 1. ROWS and COLUMNS are those of the frame: its rows and check columns.
DELTA_T has up to 16 bits, ADDRESS 32, ROWS and COLUMNS 64, the others 8. Any other line ends the program.";

fn print_section(out: &mut impl Write, section: &[u8]) -> io::Result<()> {
    for byte in section {
        write!(out, "{byte:02X}")?;
    }
    writeln!(out)
}

fn print_refusal(out: &mut impl Write, refusal: Refusal) -> io::Result<()> {
    let (number, layer, place) = (refusal.number(), refusal.layer(), refusal.place());
    writeln!(out, "refused {number} {layer} {place}")
}

// Prints the section of a description, or why it is refused.
fn print_answer(out: &mut impl Write, description: &Description) -> io::Result<()> {
    let section = Section {
        header: description.header,
        timing: description.timing,
        payload: &description.payload,
    };
    let mut buffer = [0; BUFFER];
    match write(section, description.frame, &mut buffer) {
        Ok(length) => print_section(out, &buffer[..length]),
        Err(refusal) => print_refusal(out, refusal),
    }
}

// Answers each line of the input, up to one that describes no section.
fn print_answers(rt: &HostRuntime, out: &mut impl Write) -> anyhow::Result<()> {
    let heap = rt.alloc();
    let lines = BufReader::new(heap, rt.stdin())?.lines(heap);
    for (number, line) in (1..=u64::MAX).zip(lines) {
        let description = line
            .map_err(Error::from)
            .and_then(|line| described(heap, &line))
            .map_err(|why| anyhow!("line {number}: {why}"))?;
        print_answer(out, &description)?;
    }
    Ok(())
}

fn main(rt: HostRuntime) -> anyhow::Result<()> {
    if !asked_to_run(&rt, USAGE)? {
        return Ok(());
    }
    let mut out = BufWriter::new(rt.alloc(), rt.stdout())?;
    let answered = print_answers(&rt, &mut out);
    out.flush()?;
    answered
}
