//! A burst: the sections of a frame are taken, and others among them turned away.
ghost use Rattle.std.specs.Prelude.{◌≡◌, ◌^◌, ◌<◌, take, drop, count_by, IfOk};
ghost use Rattle.marks.specs.Marks.{mark_of, is_known, is_received, is_start};

use crate::sent::{DATAGRAMS, END, Placed, application_cells, fill_datagram, spread_rows};
use anyhow::ensure;
use geometry::Rows;
use marks::Mark;
use receiver::Burst;
use reed_solomon::ReedSolomon;
use refusal::Refusal;
use section::{CheckHeader, DatagramHeader, FrameSize, Header, IpVersion, RealTime, Section};
use section_writer::{BUFFER, write};
use std::alloc::Global;
use std::io::Write;

/// The size code of the frame: 256 rows.
pub(crate) const SIZE_CODE: u8 = 0;

/// p of the frame: three columns have other than padding.
pub(crate) const PADDING_COLUMNS: u8 = 188;

// How many cells are known, how many of them sections carried, and how many of these as the first byte of a datagram.
fn tally(marks: &[u8]) -> (usize, usize, usize)
    ensures known { result.0 ≡ count_by (λ mark. is_known (mark_of mark)) marks.now }
    ensures received { result.1 ≡ count_by (λ mark. is_received (mark_of mark)) marks.now }
    ensures starts { result.2 ≡ count_by (λ mark. is_start (mark_of mark)) marks.now }
{
    let known = marks.iter().filter(|mark| Mark::from(**mark).is_known());
    let received = marks.iter().filter(|mark| Mark::from(**mark).is_received());
    let starts = marks.iter().filter(|mark| Mark::from(**mark).is_start());
    (known.count(), received.count(), starts.count())
}

// Real-time parameters with an address, of the last section of a table or of another.
fn timing(address: u32, table_boundary: bool) -> RealTime {
    RealTime {
        delta_t: 500,
        table_boundary,
        frame_boundary: false,
        address,
    }
}

/// The buffers of a burst.
#[derive(Drop)]
pub(crate) struct Buffers {
    pub(crate) cells: Vec<u8>,
    pub(crate) marks: Vec<u8>,
}

impl Buffers {
    /// Tells how many cells are known, how many of these were received, and how many of these are starts. So many it must be.
    pub(crate) fn tell(
        &self,
        out: &mut impl Write,
        due: (usize, usize, usize),
    ) -> anyhow::Result<()> {
        let (known, received, starts) = tally(&self.marks);
        ensure!((known, received, starts) == due, "other tallies of cells");
        let cells = self.cells.len();
        writeln!(
            out,
            "   cells {cells}, known {known}, of these received {received}, starts {starts}"
        )?;
        Ok(())
    }

    /// Tells that each known cell holds the byte that was sent. So it must be.
    pub(crate) fn tell_right(&self, out: &mut impl Write, sent: &[u8]) -> anyhow::Result<()> {
        let mut cells = self.cells.iter().zip(sent).zip(&self.marks);
        ensure!(
            cells.all(|((cell, sent), mark)| !Mark::from(*mark).is_known() || cell == sent),
            "a known cell holds another byte than was sent"
        );
        writeln!(out, "   Each known cell holds the byte that was sent.")?;
        Ok(())
    }
}

/// A burst whose sections all come in at one moment, with its buffers.
#[derive(Drop)]
pub(crate) struct Reception {
    pub(crate) burst: Burst<ReedSolomon>,
    pub(crate) arrival: u32,
    pub(crate) buffers: Buffers,
}

impl Reception {
    // Hands a section in, and tells what became of it, which must be this answer.
    fn take(
        &mut self,
        out: &mut impl Write,
        what: &str,
        section: &[u8],
        due: Result<(), Refusal>,
    ) -> anyhow::Result<()> {
        let Buffers { cells, marks } = &mut self.buffers;
        let answer = self.burst.take(section, self.arrival, cells, marks);
        ensure!(answer == due, "{what}: another answer");
        match answer {
            Ok(()) => writeln!(out, "   {what:44} taken")?,
            Err(e) => {
                let (number, layer, place) = (e.number(), e.layer(), e.place());
                writeln!(out, "   {what:44} refused {number} {layer} {place}: {e}")?
            }
        }
        Ok(())
    }
}

/// Makes the frame: its datagrams, its padding and its check columns.
pub(crate) fn make_frame(
    out: &mut impl Write,
    alloc: Global,
    rows: Rows,
) -> anyhow::Result<Vec<u8>> {
    let count = rows.count();
    writeln!(
        out,
        "5. A frame of {count} rows is made. Datagrams of 200, 312 and 88 bytes lie end to end, so E is"
    )?;
    writeln!(
        out,
        "   {END}, and {PADDING_COLUMNS} columns hold padding only. Each row is spread in the scratch row:"
    )?;
    ensure!(
        rows.padding_columns(END) == PADDING_COLUMNS,
        "another number of padding columns"
    );
    let mut cells = application_cells(alloc, rows.frame_size::<ReedSolomon>())?;
    spread_rows(out, rows, &mut cells)?;
    Ok(cells)
}

/// Starts a burst, in buffers that hold anything. Its sections will come in at that moment.
pub(crate) fn start(alloc: Global, size: usize, arrival: u32) -> anyhow::Result<Reception> {
    let cells = vec![in alloc; 0xAAu8; size]?;
    let mut marks = vec![in alloc; Mark::Received.byte(); size]?;
    let burst = Burst::start(SIZE_CODE, &cells, &mut marks)?;
    Ok(Reception {
        burst,
        arrival,
        buffers: Buffers { cells, marks },
    })
}

/// The bytes of a part of the cells.
pub(crate) fn part(cells: &[u8], first: usize, count: u16) -> anyhow::Result<&[u8]>
    requires { first < 2 ^ 32 }
    ensures { IfOk result (λ part. part.now ≡ take count (drop first cells.now)) }
{
    let end = first + usize::from(count);
    ensure!(end <= cells.len(), "there are not so many cells");
    Ok(&cells[first..end])
}

/// The section of one datagram.
pub(crate) fn datagram(address: u16, table_boundary: bool, payload: &[u8]) -> Section<'_> {
    Section {
        header: Header::Datagram(DatagramHeader {
            mac_address_6: 0,
            mac_address_5: 1,
            version: IpVersion::V4,
        }),
        timing: timing(u32::from(address), table_boundary),
        payload,
    }
}

/// That of one of the frame's datagrams.
pub(crate) fn of_frame(
    sent: &[u8],
    placed: Placed,
    table_boundary: bool,
) -> anyhow::Result<Section<'_>> {
    let payload = part(sent, usize::from(placed.address), placed.length)?;
    Ok(datagram(placed.address, table_boundary, payload))
}

/// The section of one of the frame's check columns, which may tell another p.
pub(crate) fn column(
    rows: Rows,
    sent: &[u8],
    number: u8,
    padding_columns: u8,
) -> anyhow::Result<Section<'_>> {
    // `as`: there are 1,024 rows at most, and `From` narrows nothing.
    let count = rows.count() as u16;
    let address = u32::from(number) * u32::from(count);
    Ok(Section {
        header: Header::Check(CheckHeader {
            padding_columns,
            number,
            last: 63,
        }),
        timing: timing(address, false),
        payload: part(sent, rows.rs_cell(address), count)?,
    })
}

impl Reception {
    /// Writes a section, and hands it in.
    pub(crate) fn send(
        &mut self,
        out: &mut impl Write,
        what: &str,
        section: Section<'_>,
        due: Result<(), Refusal>,
    ) -> anyhow::Result<()> {
        let mut buffer = [0; BUFFER];
        let n = write(section, FrameSize::RS_256, &mut buffer)?;
        self.take(out, what, &buffer[..n], due)
    }

    // Sections of the frame come in, the last datagram first; one is still missing.
    fn receive_own(&mut self, out: &mut impl Write, rows: Rows, sent: &[u8]) -> anyhow::Result<()> {
        writeln!(out, "7. Its sections come in, out of order:")?;
        let [first, _, last] = DATAGRAMS;
        let last = of_frame(sent, last, true)?;
        self.send(out, "datagram at 512, the last one", last, Ok(()))?;
        self.send(out, "the same again", last, Ok(()))?;
        let check = column(rows, sent, 0, PADDING_COLUMNS)?;
        self.send(out, "check column 0", check, Ok(()))?;
        let first = of_frame(sent, first, false)?;
        self.send(out, "datagram at 0", first, Ok(()))?;
        self.buffers.tell(out, (48_840, 544, 2))
    }

    // Sections of datagrams that are not taken.
    fn refuse_datagrams(&mut self, out: &mut impl Write, sent: &[u8]) -> anyhow::Result<()> {
        let [_, second, _] = DATAGRAMS;
        let mut buffer = [0; BUFFER];
        let n = write(
            of_frame(sent, second, false)?,
            FrameSize::RS_256,
            &mut buffer,
        )?;
        buffer[40] ^= 1;
        let due = Err(Refusal::Checksum { place: 324 });
        self.take(out, "datagram at 200, a bit flipped", &buffer[..n], due)?;

        let mut other = [0; 200];
        fill_datagram(&mut other, 200, b'X');
        let beyond = datagram(500, false, &other);
        let due = Err(Refusal::BeyondLimit { place: 600 });
        self.send(out, "datagram at 500 that passes the end", beyond, due)?;
        let over = datagram(100, false, &other);
        let due = Err(Refusal::Contradiction { place: 100 });
        self.send(out, "datagram at 100 over known bytes", over, due)?;
        let early = of_frame(sent, second, true)?;
        let due = Err(Refusal::Contradiction { place: 512 });
        self.send(out, "datagram at 200, told to be the last", early, due)
    }

    // Sections that are not taken.
    fn receive_others(
        &mut self,
        out: &mut impl Write,
        rows: Rows,
        sent: &[u8],
    ) -> anyhow::Result<()> {
        writeln!(
            out,
            "8. Others come in, all but the first with a right checksum:"
        )?;
        self.refuse_datagrams(out, sent)?;
        let check = column(rows, sent, 1, PADDING_COLUMNS - 1)?;
        let due = Err(Refusal::Contradiction { place: 1024 });
        let what = "check column 1, with one padding column less";
        self.send(out, what, check, due)?;
        self.buffers.tell(out, (48_840, 544, 2))
    }

    // The datagram that was missing.
    fn receive_rest(&mut self, out: &mut impl Write, sent: &[u8]) -> anyhow::Result<()> {
        writeln!(out, "9. The datagram that is missing comes in at last:")?;
        let [_, second, _] = DATAGRAMS;
        let second = of_frame(sent, second, false)?;
        self.send(out, "datagram at 200", second, Ok(()))?;
        self.buffers.tell(out, (49_152, 856, 3))?;
        self.buffers.tell_right(out, sent)
    }
}

/// Shows what start and take do, step by step. It is an error if a step does not come out as it is told.
pub(crate) fn show(
    out: &mut impl Write,
    alloc: Global,
    rows: Rows,
    sent: &[u8],
) -> anyhow::Result<()> {
    writeln!(out, "6. A burst starts with size code {SIZE_CODE}:")?;
    let mut reception = start(alloc, sent.len(), 0)?;
    reception.buffers.tell(out, (0, 0, 0))?;
    writeln!(out)?;
    reception.receive_own(out, rows, sent)?;
    writeln!(out)?;
    reception.receive_others(out, rows, sent)?;
    writeln!(out)?;
    reception.receive_rest(out, sent)
}
