//! Tests of the receiver's read-outs: which datagrams come out of a closed burst, in which order, and the end.
#![tactic(auto)]

#[cfg(test)]
mod tests {
    use receiver::{Alarm, Burst, ClosedBurst, Datagram, ReadOut};
    use reed_solomon::ReedSolomon;
    use refusal::Refusal;
    use rowcode::{Bare, RowCode};
    use section::{CheckHeader, DatagramHeader, FrameSize, Header, IpVersion, RealTime, Section};
    use section_writer::write;
    use std::process::Abort;
    use std::test::Fail;

    // The cells of a frame of 256 rows: 255 columns with the check columns of RS(255,191), and 191 without.
    const FRAME: usize = 65_280;

    const TABLE: usize = 48_896;

    // What libfec gives as the first check byte of 0x45 and 190 zeros behind it. Of 191 zeros it is 0.
    const CHECK_BYTE: u8 = 233;

    // A datagram of 69 bytes, each of which is 0x45, its own length, or 0.
    fn datagram() -> [u8; 69] {
        let mut bytes = [0x45; 69];
        bytes[1] = 0;
        bytes[2] = 0;
        bytes
    }

    // A section of a frame of 256 rows. CRC_32 is right, whatever the bytes are.
    fn written(
        rt: &(impl AllocGlobal + Abort),
        header: Header,
        table_boundary: bool,
        address: u32,
        payload: &[u8],
    ) -> Result<Vec<u8>, Fail> {
        let timing = RealTime {
            delta_t: 500,
            table_boundary,
            frame_boundary: false,
            address,
        };
        let section = Section {
            header,
            timing,
            payload,
        };
        let mut buffer = vec![in rt.alloc(); 0u8; 4096]?;
        let n = write(section, FrameSize::RS_256, &mut buffer)?;
        buffer.truncate(n);
        Ok(buffer)
    }

    // The frame has three of these datagrams, at 0, 69 and 138, all in its first column. This is the section of one.
    fn datagram_section(
        rt: &(impl AllocGlobal + Abort),
        address: u32,
        payload: &[u8],
    ) -> Result<Vec<u8>, Fail> {
        let header = Header::Datagram(DatagramHeader {
            mac_address_6: 3,
            mac_address_5: 2,
            version: IpVersion::V4,
        });
        written(rt, header, address == 138, address, payload)
    }

    // Its first check column, with another byte in this row; with none, where there is no such row.
    fn check_section(rt: &(impl AllocGlobal + Abort), wrong_row: usize) -> Result<Vec<u8>, Fail> {
        let mut payload = vec![in rt.alloc(); 0u8; 256]?;
        for (row, byte) in payload.iter_mut().enumerate() {
            if row < 207 && !matches!(row % 69, 1 | 2) {
                *byte = CHECK_BYTE;
            }
            if row == wrong_row {
                *byte ^= 1;
            }
        }
        let header = Header::Check(CheckHeader {
            padding_columns: 190,
            number: 0,
            last: 63,
        });
        written(rt, header, false, 0, &payload)
    }

    // The sections of the datagrams at these addresses, and behind them the check column, if it is to come.
    fn sections(
        rt: &(impl AllocGlobal + Abort),
        addresses: &[u32],
        check: Option<usize>,
    ) -> Result<Vec<Vec<u8>>, Fail> {
        let mut sections = Vec::new(rt.alloc());
        for address in addresses {
            sections.push(datagram_section(rt, *address, &datagram())?)?;
        }
        if let Some(wrong_row) = check {
            sections.push(check_section(rt, wrong_row)?)?;
        }
        Ok(sections)
    }

    // A burst of 256 rows that is closed, with its buffers.
    #[derive(Drop)]
    struct Closed<C: RowCode> {
        burst: ClosedBurst<C>,
        cells: Vec<u8>,
        marks: Vec<u8>,
    }

    // Has a burst take sections, none of which is refused, and closes it.
    fn taken_and_closed<C: RowCode>(
        rt: &(impl AllocGlobal + Abort),
        code: &mut C,
        size: usize,
        sections: &[Vec<u8>],
    ) -> Result<Closed<C>, Fail> {
        let mut cells = vec![in rt.alloc(); 0xeeu8; size]?;
        let mut marks = vec![in rt.alloc(); 0x5au8; size]?;
        let mut scratch = [0x77; 255];
        let mut names = vec![in rt.alloc(); 0u8; 256]?;
        let mut burst = Burst::start(0, &cells, &mut marks)?;
        for section in sections {
            burst.take(section, 0, &mut cells, &mut marks)?;
        }
        let burst = match burst.close(code, &mut cells, &mut marks, &mut scratch, &mut names) {
            Ok((burst, order, _)) => {
                order.stay_awake(&mut Alarm { wake: None });
                burst
            }
            Err((refusal, _)) => return Err(refusal)?,
        };
        Ok(Closed {
            burst,
            cells,
            marks,
        })
    }

    // What comes out: the frame's datagrams at these addresses, and then the end, more than once.
    fn comes_out<C: RowCode>(
        rt: &(impl AllocGlobal + Abort),
        mut read_out: ReadOut<'_, C>,
        addresses: &[usize],
    ) {
        for address in addresses {
            let due = Datagram {
                address: *address,
                bytes: &datagram(),
            };
            assert_eq!(rt; read_out.next(), Some(due), "{addresses:?}");
        }
        for _ in 0..3 {
            assert_eq!(rt; read_out.next(), None, "{addresses:?}");
        }
    }

    // With the check column, 64 bytes of a row are missing where a datagram is lost, and 65 without it. Each read-out begins
    // anew.
    #[test]
    fn missing_64_or_65(rt: HostRuntime) -> Result<(), Fail> {
        let none: [usize; 0] = [];
        for (taken, check, due) in [
            ([0, 69, 138].as_slice(), None, [0, 69, 138].as_slice()),
            (&[138, 0, 69, 138, 0], None, &[0, 69, 138]),
            (&[0, 138], Some(256), &[0, 69, 138]),
            (&[0, 138], None, &[0, 138]),
            (&[138], None, &[138]),
            (&[0, 69], Some(256), &[0, 69, 138]),
            (&[], None, &none),
        ] {
            let sections = sections(&rt, taken, check)?;
            let closed = taken_and_closed(&rt, &mut ReedSolomon, FRAME, &sections)?;
            for _ in 0..2 {
                comes_out(&rt, closed.burst.open(&closed.cells, &closed.marks)?, due);
            }
        }
        Ok(())
    }

    // A check column that is forged in a row tears it, and no datagram with a byte there comes out, neither one that was taken
    // nor one that was not. That at 69 begins in row 69.
    #[test]
    fn torn_row(rt: HostRuntime) -> Result<(), Fail> {
        for (row, due) in [
            (0, [69, 138].as_slice()),
            (69, &[0, 138]),
            (100, &[0, 138]),
            (206, &[0, 69]),
            (207, &[0, 69, 138]),
        ] {
            let sections = sections(&rt, &[0, 69, 138], Some(row))?;
            let closed = taken_and_closed(&rt, &mut ReedSolomon, FRAME, &sections)?;
            comes_out(&rt, closed.burst.open(&closed.cells, &closed.marks)?, due);
        }
        Ok(())
    }

    // In the place of a datagram that is lost comes another one, with a right CRC_32: with the check column the rows where it
    // differs are torn; without, nothing contradicts it.
    #[test]
    fn forged_datagram(rt: HostRuntime) -> Result<(), Fail> {
        let mut forged = datagram();
        forged[40] = 0x46;
        for (check, comes) in [(Some(256), false), (None, true)] {
            let mut sections = sections(&rt, &[0, 138], check)?;
            sections.push(datagram_section(&rt, 69, &forged)?)?;
            let closed = taken_and_closed(&rt, &mut ReedSolomon, FRAME, &sections)?;
            let mut read_out = closed.burst.open(&closed.cells, &closed.marks)?;
            let first = read_out.next();
            assert_eq!(rt; first.map(|datagram| datagram.address), Some(0));
            if comes {
                let due = Datagram {
                    address: 69,
                    bytes: &forged,
                };
                assert_eq!(rt; read_out.next(), Some(due));
            }
            comes_out(&rt, read_out, &[138]);
        }
        Ok(())
    }

    // The bare code fills nothing. Buffers of another size are refused under 2, and those of the burst can still be opened; two
    // read-outs of it go on beside each other.
    #[test]
    fn bare_rows(rt: HostRuntime) -> Result<(), Fail> {
        let sections = sections(&rt, &[138, 0], None)?;
        let closed = taken_and_closed(&rt, &mut Bare, TABLE, &sections)?;
        let other = [0; TABLE + 1];
        for (cells, marks) in [
            (other.as_slice(), closed.marks.as_slice()),
            (&closed.cells, &other),
            (&closed.cells, &other[2..]),
            (&[], &[]),
        ] {
            let refused = closed.burst.open(cells, marks);
            assert_eq!(rt; refused.map(|_| ()), Err(Refusal::FrameBuffers));
        }
        let mut first = closed.burst.open(&closed.cells, &closed.marks)?;
        let mut second = closed.burst.open(&closed.cells, &closed.marks)?;
        assert_eq!(rt; first.next(), second.next());
        assert_eq!(rt; first.next().map(|datagram| datagram.address), Some(138));
        comes_out(&rt, first, &[]);
        comes_out(&rt, second, &[138]);
        comes_out(
            &rt,
            closed.burst.open(&closed.cells, &closed.marks)?,
            &[0, 138],
        );
        Ok(())
    }
}
