//! Lists the sections that lie back to back on standard input: what each says, or why it is turned away.
#![tactic(auto)]

use listing::{Position, Tally, section_line};
use program::asked_to_run;
use std::io;
use std::io::{BufWriter, Read, Write};
use stream::sources::Source;

const USAGE: &str = "usage: sectionlist < FILE
Lists the sections laid back to back on standard input, for frames of 256 rows and 64 check columns:
a line for each section with its fields, or with the number, layer and place of its refusal, and a summary.";

const HEADING: &str = "#    no   offset     n kind     address delta_t tb fb \
    (datagram: version length; check: s last p; refused: number layer place)";

// Lists the sections, and tells how many there are.
fn list<R: Read>(source: &mut Source<R>, out: &mut impl Write) -> io::Result<()> {
    let mut tally = Tally::new();
    let mut position = Position::default();
    while let Some(size) = source.next()? {
        let (line, kind) = section_line(position, &source.held()[..size]);
        line.print(out)?;
        tally.count(kind);
        source.release(size);
        position = position.after(size);
    }
    tally.summary().print(out)
}

fn main(rt: HostRuntime) -> anyhow::Result<()> {
    if !asked_to_run(&rt, USAGE)? {
        return Ok(());
    }
    let mut out = BufWriter::new(rt.alloc(), rt.stdout())?;
    writeln!(out, "{HEADING}")?;
    let mut source = Source::new(rt.stdin());
    list(&mut source, &mut out)?;
    out.flush()?;
    if source.goes_on()? {
        rt.eprintln("sectionlist: the input goes on; only its first 20,000 sections are listed")?;
    }
    Ok(())
}
