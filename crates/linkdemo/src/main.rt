//! The layers at work, step by step, with no input. What a step tells has come out in this very run; else the program ends
//! with an error: a row of a frame, a burst that takes sections, and bursts that are closed and read out.
#![tactic(auto)]

mod burst;
mod close;
mod readouts;
mod sent;

use burst::{SIZE_CODE, make_frame};
use geometry::Rows;
use program::asked_to_run;
use reed_solomon::ReedSolomon;
use std::alloc::Global;
use std::io::{BufWriter, Write};

const USAGE: &str = "usage: linkdemo
Shows the layers at work, step by step, with no input: a row of a frame is spread, loses bytes and is mended; a burst takes
the sections of a frame, and turns others away; a burst with a loss and a forgery is closed and read out, and one
whose loss is made good.
A step that does not come out as it is told ends the program with an error.";

// A row, and then the bursts of a frame.
fn show(out: &mut impl Write, alloc: Global) -> anyhow::Result<()> {
    rowdemo::show(out, &mut ReedSolomon)?;
    writeln!(out)?;
    let rows = Rows::of_size_code(SIZE_CODE)?;
    let sent = make_frame(out, alloc, rows)?;
    writeln!(out)?;
    burst::show(out, alloc, rows, &sent)?;
    writeln!(out)?;
    let done = close::show(out, alloc, rows, &sent)?;
    writeln!(out)?;
    readouts::show(out, alloc, rows, &sent, &done)
}

fn main(rt: HostRuntime) -> anyhow::Result<()> {
    if !asked_to_run(&rt, USAGE)? {
        return Ok(());
    }
    let mut out = BufWriter::new(rt.alloc(), rt.stdout())?;
    let shown = show(&mut out, rt.alloc());
    out.flush()?;
    shown
}
