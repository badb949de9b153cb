//! Tests of the receiver's close: what becomes of each row, the tallies, the names and the wake order, and its refusals.
#![tactic(auto)]

#[cfg(test)]
mod tests {
    use receiver::{Alarm, Burst, Wake};
    use reed_solomon::ReedSolomon;
    use refusal::Refusal;
    use rowcode::{Bare, RowCode};
    use section::{CheckHeader, DatagramHeader, FrameSize, Header, IpVersion, RealTime, Section};
    use section_writer::write;
    use std::process::Abort;
    use std::test::Fail;

    // The cells of a frame of 256 rows: 255 columns with the check columns of RS(255,191), and 191 without.
    const FRAME: usize = 65_280;

    const TABLE: usize = 48_896;

    // What the caller has in its cells, scratch row and names.
    const CELL: u8 = 0xee;

    const SCRATCH: u8 = 0x77;

    const NAME: u8 = 0x99;

    // What libfec gives as the check bytes of 0x45 and 190 zeros behind it.
    const CHECK_BYTES: [u8; 64] = [
        233, 156, 212, 145, 142, 173, 82, 164, 53, 105, 189, 211, 31, 126, 50, 219, 250, 174, 153,
        92, 66, 189, 76, 237, 119, 85, 187, 87, 112, 90, 19, 169, 154, 7, 132, 81, 14, 54, 83, 231,
        74, 241, 79, 74, 46, 55, 55, 124, 247, 61, 40, 225, 67, 46, 172, 247, 117, 50, 2, 252, 243,
        166, 154, 224,
    ];

    // A section with this payload. CRC_32 is right, whatever the bytes are.
    fn written(
        rt: &(impl AllocGlobal + Abort),
        header: Header,
        timing: RealTime,
        payload: &[u8],
    ) -> Result<Vec<u8>, Fail> {
        let frame = FrameSize {
            rows: payload.len(),
            check_columns: 64,
        };
        let section = Section {
            header,
            timing,
            payload,
        };
        let mut buffer = vec![in rt.alloc(); 0u8; 4096]?;
        let n = write(section, frame, &mut buffer)?;
        buffer.truncate(n);
        Ok(buffer)
    }

    // A datagram of 69 bytes, each of which is 0x45, its own length, or 0; of the table the last.
    fn last_datagram(
        rt: &(impl AllocGlobal + Abort),
        address: u32,
        delta_t: u16,
    ) -> Result<Vec<u8>, Fail> {
        let mut payload = [0x45; 69];
        payload[1] = 0;
        payload[2] = 0;
        let header = Header::Datagram(DatagramHeader {
            mac_address_6: 3,
            mac_address_5: 2,
            version: IpVersion::V4,
        });
        let timing = RealTime {
            delta_t,
            table_boundary: true,
            frame_boundary: false,
            address,
        };
        written(rt, header, timing, &payload)
    }

    // The first check column, all zeros, of a frame with so many rows and padding columns.
    fn first_check_column(
        rt: &(impl AllocGlobal + Abort),
        rows: usize,
        padding_columns: u8,
        delta_t: u16,
    ) -> Result<Vec<u8>, Fail> {
        let payload = vec![in rt.alloc(); 0u8; rows]?;
        let header = Header::Check(CheckHeader {
            padding_columns,
            number: 0,
            last: 63,
        });
        let timing = RealTime {
            delta_t,
            table_boundary: false,
            frame_boundary: false,
            address: 0,
        };
        written(rt, header, timing, &payload)
    }

    // A burst with its buffers.
    #[derive(Drop)]
    struct Reception<C: RowCode> {
        burst: Burst<C>,
        cells: Vec<u8>,
        marks: Vec<u8>,
    }

    fn start<C: RowCode>(
        rt: &(impl AllocGlobal + Abort),
        size_code: u8,
        size: usize,
    ) -> Result<Reception<C>, Fail> {
        let cells = vec![in rt.alloc(); CELL; size]?;
        let mut marks = vec![in rt.alloc(); 0x5au8; size]?;
        let burst = Burst::start(size_code, &cells, &mut marks)?;
        Ok(Reception {
            burst,
            cells,
            marks,
        })
    }

    impl<C: RowCode> Reception<C> {
        fn take(&mut self, section: &[u8], arrival: u32) -> Result<(), Refusal> {
            self.burst
                .take(section, arrival, &mut self.cells, &mut self.marks)
        }
    }

    // What close answered, and what it left.
    #[derive(Drop)]
    struct Closed {
        tallies: (usize, usize, usize),
        alarm: Alarm,
        cells: Vec<u8>,
        marks: Vec<u8>,
        names: Vec<u8>,
    }

    // Closes a burst, which is not refused. The scratch row is all zero then.
    fn close<C: RowCode>(
        rt: &(impl AllocGlobal + Abort),
        reception: Reception<C>,
        code: &mut C,
        rows: usize,
    ) -> Result<Closed, Fail> {
        let mut scratch = [SCRATCH; 255];
        let mut names = vec![in rt.alloc(); NAME; rows]?;
        let Reception {
            burst,
            mut cells,
            mut marks,
        } = reception;
        let mut alarm = Alarm { wake: None };
        let tallies = match burst.close(code, &mut cells, &mut marks, &mut scratch, &mut names) {
            Ok((_, order, tallies)) => {
                order.set_on(&mut alarm);
                tallies
            }
            Err((refusal, _)) => return Err(refusal)?,
        };
        assert!(rt; scratch == [0; 255]);
        Ok(Closed {
            tallies,
            alarm,
            cells,
            marks,
            names,
        })
    }

    // Whether the bytes are just these: so many times the one, so many times the next, and so on.
    fn are_runs(bytes: &[u8], runs: &[(u8, usize)]) -> bool {
        let mut rest = bytes;
        for (byte, count) in runs {
            let Some((run, others)) = rest.split_at_checked(*count) else {
                return false;
            };
            if run.iter().any(|b| *b != *byte) {
                return false;
            }
            rest = others;
        }
        rest.is_empty()
    }

    // Whether the columns of 256 rows are just these: so many that consist of the one runs, so many of the next, and so on.
    fn are_columns(buffer: &[u8], columns: &[(&[(u8, usize)], u8)]) -> bool {
        let mut rest = buffer;
        for (runs, count) in columns {
            let Some((part, others)) = rest.split_at_checked(256 * usize::from(*count)) else {
                return false;
            };
            if part.chunks(256).any(|column| !are_runs(column, runs)) {
                return false;
            }
            rest = others;
        }
        rest.is_empty()
    }

    // Puts a byte into a row of 256, in so many columns from the first one on.
    fn put(buffer: &mut [u8], row: usize, columns: usize, byte: u8) {
        for column in buffer.chunks_mut(256).take(columns) {
            if let Some(cell) = column.get_mut(row) {
                *cell = byte;
            }
        }
    }

    // The end is 256, so that columns 1 to 190 are padding; column 0 is known from row 187 on. There 191 bytes are known, and
    // 64 are filled in: of two rows with zeros, for all others as libfec does. Above there 190 are known.
    #[test]
    fn missing_64_or_65(rt: HostRuntime) -> Result<(), Fail> {
        let mut reception = start::<ReedSolomon>(&rt, 0, FRAME)?;
        reception.take(&last_datagram(&rt, 187, 500)?, 1000)?;
        let closed = close(&rt, reception, &mut ReedSolomon, 256)?;
        assert_eq!(rt; closed.tallies, (69, 0, 187));
        assert_eq!(rt; closed.alarm.wake, Some(Wake::At(6000)));
        assert!(rt; are_runs(&closed.names, &[(3, 187), (1, 69)]));
        let datagram = [(0, 187), (2, 1), (1, 68)];
        let padding = [(3, 256)];
        let check_columns = [(0, 187), (4, 69)];
        let marks = [
            (datagram.as_slice(), 1),
            (padding.as_slice(), 190),
            (check_columns.as_slice(), 64),
        ];
        assert!(rt; are_columns(&closed.marks, &marks));
        let datagram = [(CELL, 187), (0x45, 1), (0, 2), (0x45, 66)];
        let padding = [(0, 256)];
        let table = [(datagram.as_slice(), 1), (padding.as_slice(), 190)];
        let (application_cells, check_cells) = closed.cells.split_at(TABLE.min(closed.cells.len()));
        assert!(rt; are_columns(application_cells, &table));
        assert_eq!(rt; check_cells.len(), 16_384);
        for (column, byte) in check_cells.chunks(256).zip(CHECK_BYTES) {
            let runs = [(CELL, 187), (byte, 1), (0, 2), (byte, 66)];
            assert!(rt; are_runs(column, &runs), "{column:?}");
        }
        Ok(())
    }

    // Check column 0 is said to be all zeros, with a right CRC_32. Where column 0 is not known, 191 zeros are, and so where it is
    // known to be 0: these rows are zeros. In the others 191 zeros and one other byte are known, and two codewords differ at 65
    // places or more: no codeword agrees.
    #[test]
    fn forged_check_column(rt: HostRuntime) -> Result<(), Fail> {
        let mut reception = start::<ReedSolomon>(&rt, 0, FRAME)?;
        reception.take(&last_datagram(&rt, 187, 500)?, 1000)?;
        reception.take(&first_check_column(&rt, 256, 190, 1)?, 2000)?;
        let closed = close(&rt, reception, &mut ReedSolomon, 256)?;
        assert_eq!(rt; closed.tallies, (189, 67, 0));
        assert_eq!(rt; closed.alarm.wake, Some(Wake::At(2010)));
        assert!(rt; are_runs(&closed.names, &[(1, 187), (2, 1), (1, 2), (2, 66)]));
        let datagram = [(4, 187), (0, 1), (1, 2), (0, 66)];
        let padding = [(3, 187), (0, 1), (3, 2), (0, 66)];
        let forged = [(1, 187), (0, 1), (1, 2), (0, 66)];
        let others = [(4, 187), (0, 1), (4, 2), (0, 66)];
        let marks = [
            (datagram.as_slice(), 1),
            (padding.as_slice(), 190),
            (forged.as_slice(), 1),
            (others.as_slice(), 63),
        ];
        assert!(rt; are_columns(&closed.marks, &marks));
        let datagram = [(0, 187), (0x45, 1), (0, 2), (0x45, 66)];
        let zeros = [(0, 256)];
        let others = [(0, 187), (CELL, 1), (0, 2), (CELL, 66)];
        let cells = [
            (datagram.as_slice(), 1),
            (zeros.as_slice(), 191),
            (others.as_slice(), 63),
        ];
        assert!(rt; are_columns(&closed.cells, &cells));
        Ok(())
    }

    // Nothing is known, and nothing becomes known.
    #[test]
    fn no_section(rt: HostRuntime) -> Result<(), Fail> {
        let reception = start::<ReedSolomon>(&rt, 0, FRAME)?;
        let closed = close(&rt, reception, &mut ReedSolomon, 256)?;
        assert_eq!(rt; closed.tallies, (0, 0, 256));
        assert_eq!(rt; closed.alarm.wake, Some(Wake::Unknown));
        assert!(rt; are_runs(&closed.names, &[(3, 256)]));
        assert!(rt; are_runs(&closed.cells, &[(CELL, FRAME)]));
        assert!(rt; are_runs(&closed.marks, &[(0, FRAME)]));
        let reception = start::<Bare>(&rt, 1, 97_792)?;
        let closed = close(&rt, reception, &mut Bare, 512)?;
        assert_eq!(rt; closed.tallies, (0, 0, 512));
        assert_eq!(rt; closed.alarm.wake, Some(Wake::Unknown));
        assert!(rt; are_runs(&closed.names, &[(3, 512)]));
        assert!(rt; are_runs(&closed.cells, &[(CELL, 97_792)]));
        assert!(rt; are_runs(&closed.marks, &[(0, 97_792)]));
        Ok(())
    }

    // Rows of zeros, which are a codeword. Of each pair of rows, 64 and 65 bytes of the first columns have the mark; where it says
    // that nothing is known, another byte stands there.
    #[test]
    fn marks_are_read(rt: HostRuntime) -> Result<(), Fail> {
        let mut reception = start::<ReedSolomon>(&rt, 0, FRAME)?;
        reception.cells.fill(0);
        reception.marks.fill(1);
        let mut cells = reception.cells.clone()?;
        let mut marks = reception.marks.clone()?;
        let mut names = vec![in rt.alloc(); 1u8; 256]?;
        for (row, mark) in [
            (0u8, 0),
            (10, 1),
            (20, 2),
            (30, 3),
            (40, 4),
            (50, 5),
            (254, 200),
            (70, 255),
        ] {
            let row = usize::from(row);
            put(&mut reception.marks, row, 64, mark);
            put(&mut reception.marks, row + 1, 65, mark);
            if (1..=4).contains(&mark) {
                put(&mut marks, row, 64, mark);
                put(&mut marks, row + 1, 65, mark);
            } else {
                put(&mut reception.cells, row, 64, CELL);
                put(&mut reception.cells, row + 1, 65, CELL);
                put(&mut marks, row, 64, 4);
                put(&mut marks, row + 1, 65, mark);
                put(&mut cells, row + 1, 65, CELL);
                put(&mut names, row + 1, 1, 3);
            }
        }
        let closed = close(&rt, reception, &mut ReedSolomon, 256)?;
        assert_eq!(rt; closed.tallies, (252, 0, 4));
        assert!(rt; closed.names == names);
        assert!(rt; closed.marks == marks);
        assert!(rt; closed.cells == cells);
        Ok(())
    }

    // Rows of zeros, all known but in the last case. No codeword has 1 to 64 bytes that are not 0: those rows are torn.
    #[test]
    fn contradictions(rt: HostRuntime) -> Result<(), Fail> {
        let mut reception = start::<ReedSolomon>(&rt, 0, FRAME)?;
        reception.cells.fill(0);
        reception.marks.fill(3);
        put(&mut reception.cells, 0, 1, CELL);
        put(&mut reception.cells, 100, 64, CELL);
        put(&mut reception.cells, 255, 64, CELL);
        put(&mut reception.marks, 255, 63, 0);
        let cells = reception.cells.clone()?;
        // One byte is not known. It is not what it was said to be.
        put(&mut reception.cells, 7, 1, CELL);
        put(&mut reception.marks, 7, 1, 0);
        let closed = close(&rt, reception, &mut ReedSolomon, 256)?;
        assert_eq!(rt; closed.tallies, (253, 3, 0));
        let names = [(2, 1), (1, 99), (2, 1), (1, 154), (2, 1)];
        assert!(rt; are_runs(&closed.names, &names));
        let first = [(0, 1), (3, 6), (4, 1), (3, 92), (0, 1), (3, 154), (0, 1)];
        let others = [(0, 1), (3, 99), (0, 1), (3, 154), (0, 1)];
        let marks = [(first.as_slice(), 1), (others.as_slice(), 254)];
        assert!(rt; are_columns(&closed.marks, &marks));
        assert!(rt; closed.cells == cells);
        Ok(())
    }

    // Of the bare code a row is filled if all of it is known, and else open, and all stays as it is.
    #[test]
    fn bare_rows(rt: HostRuntime) -> Result<(), Fail> {
        let mut reception = start::<Bare>(&rt, 0, TABLE)?;
        reception.take(&last_datagram(&rt, 187, 0)?, 1000)?;
        put(&mut reception.marks, 255, 191, 77);
        put(&mut reception.marks, 254, 1, 3);
        let cells = reception.cells.clone()?;
        let marks = reception.marks.clone()?;
        let closed = close(&rt, reception, &mut Bare, 256)?;
        assert_eq!(rt; closed.tallies, (68, 0, 188));
        assert_eq!(rt; closed.alarm.wake, Some(Wake::EndOfService));
        assert!(rt; are_runs(&closed.names, &[(3, 187), (1, 68), (3, 1)]));
        assert!(rt; closed.cells == cells);
        assert!(rt; closed.marks == marks);
        Ok(())
    }

    // The moment is that of the section taken last, repeated or not, and 10 ms for each of its delta_t; with 0 there is none.
    #[test]
    fn wake_orders(rt: HostRuntime) -> Result<(), Fail> {
        for (taken, wake) in [
            ([(7, 1), (5, 500)], Wake::At(5005)),
            ([(5, 500), (7, 1)], Wake::At(17)),
            ([(0, 0), (u32::MAX, 4095)], Wake::At(4_295_008_245)),
            ([(0, 0), (u32::MAX, 1)], Wake::At(4_294_967_305)),
            ([(1000, 500), (2000, 500)], Wake::At(7000)),
            ([(1000, 500), (u32::MAX, 0)], Wake::EndOfService),
            ([(1000, 500), (0, 0)], Wake::EndOfService),
        ] {
            let mut reception = start::<Bare>(&rt, 0, TABLE)?;
            for (arrival, delta_t) in taken {
                reception.take(&last_datagram(&rt, 187, delta_t)?, arrival)?;
            }
            // Refused: it passes the limit.
            let refused = reception.take(&last_datagram(&rt, 188, 9)?, 9);
            assert!(rt; refused.is_err());
            let closed = close(&rt, reception, &mut Bare, 256)?;
            assert_eq!(rt; closed.alarm.wake, Some(wake));
        }
        // Staying awake empties the alarm.
        let Reception {
            burst,
            mut cells,
            mut marks,
        } = start::<Bare>(&rt, 0, TABLE)?;
        let (mut scratch, mut names) = ([SCRATCH; 255], [NAME; 256]);
        let closed = burst.close(&mut Bare, &mut cells, &mut marks, &mut scratch, &mut names);
        let mut alarm = Alarm {
            wake: Some(Wake::EndOfService),
        };
        match closed {
            Ok((_, order, _)) => order.stay_awake(&mut alarm),
            Err(back) => return Err(back.0)?,
        }
        assert_eq!(rt; alarm, Alarm { wake: None });
        Ok(())
    }

    // Has a close refused, with buffers of these lengths, all of which stay as they were; and gives the burst back.
    fn refused<C: RowCode>(
        rt: &(impl AllocGlobal + Abort),
        burst: Burst<C>,
        code: &mut C,
        sizes: [usize; 4],
        number: u8,
    ) -> Result<Burst<C>, Fail> {
        let [cells_size, marks_size, scratch_size, rows] = sizes;
        let mut cells = vec![in rt.alloc(); CELL; cells_size]?;
        let mut marks = vec![in rt.alloc(); 3u8; marks_size]?;
        let mut scratch = vec![in rt.alloc(); SCRATCH; scratch_size]?;
        let mut names = vec![in rt.alloc(); NAME; rows]?;
        let mut alarm = Alarm { wake: None };
        let closed = burst.close(code, &mut cells, &mut marks, &mut scratch, &mut names);
        let (refusal, burst) = match closed {
            Err(back) => back,
            Ok((_, order, _)) => {
                order.set_on(&mut alarm);
                return Err(Fail::new("that is not refused"));
            }
        };
        assert_eq!(rt; (refusal.number(), refusal.place()), (number, 0));
        assert!(rt; are_runs(&cells, &[(CELL, cells_size)]));
        assert!(rt; are_runs(&marks, &[(3, marks_size)]));
        assert!(rt; are_runs(&scratch, &[(SCRATCH, scratch_size)]));
        assert!(rt; are_runs(&names, &[(NAME, rows)]));
        Ok(burst)
    }

    // 2 before 3; and the burst goes on: it knows its end, takes the same section again, and is closed.
    #[test]
    fn refusals(rt: HostRuntime) -> Result<(), Fail> {
        let Reception {
            mut burst,
            mut cells,
            mut marks,
        } = start::<ReedSolomon>(&rt, 0, FRAME)?;
        let last = last_datagram(&rt, 187, 500)?;
        burst.take(&last, 1000, &mut cells, &mut marks)?;
        for (sizes, number) in [
            ([65_279, 65_280, 255, 256], 2),
            ([65_280, 65_281, 255, 256], 2),
            ([48_896, 48_896, 255, 256], 2),
            ([0, 0, 0, 0], 2),
            ([65_281, 65_280, 254, 256], 2),
            ([65_280, 65_279, 255, 255], 2),
            ([65_280, 65_280, 254, 256], 3),
            ([65_280, 65_280, 256, 256], 3),
            ([65_280, 65_280, 255, 255], 3),
            ([65_280, 65_280, 255, 257], 3),
            ([65_280, 65_280, 0, 0], 3),
        ] {
            burst = refused(&rt, burst, &mut ReedSolomon, sizes, number)?;
        }
        let mut reception = Reception {
            burst,
            cells,
            marks,
        };
        let beyond = reception.take(&last_datagram(&rt, 188, 500)?, 3000);
        assert_eq!(rt; beyond.map_err(|refusal| refusal.number()), Err(12));
        reception.take(&last, 2000)?;
        let closed = close(&rt, reception, &mut ReedSolomon, 256)?;
        assert_eq!(rt; closed.tallies, (69, 0, 187));
        assert_eq!(rt; closed.alarm.wake, Some(Wake::At(7000)));
        Ok(())
    }

    // A frame of 1,024 rows, of which 190 columns of padding are known and the first check column, all zeros.
    #[test]
    fn largest_frame(rt: HostRuntime) -> Result<(), Fail> {
        let mut reception = start::<ReedSolomon>(&rt, 3, 261_120)?;
        reception.take(&first_check_column(&rt, 1024, 190, 4)?, 0)?;
        let closed = close(&rt, reception, &mut ReedSolomon, 1024)?;
        assert_eq!(rt; closed.tallies, (1024, 0, 0));
        assert_eq!(rt; closed.alarm.wake, Some(Wake::At(40)));
        assert!(rt; are_runs(&closed.names, &[(1, 1024)]));
        assert!(rt; are_runs(&closed.cells, &[(0, 261_120)]));
        let marks = [(4, 1024), (3, 194_560), (1, 1024), (4, 64_512)];
        assert!(rt; are_runs(&closed.marks, &marks));
        Ok(())
    }
}
