//! Tests of the receiver's start and take: every refusal of 1, 2 and 4 to 13 alone and in competition with the others, and
//! what a section that is taken leaves in the buffers. No code.
#![tactic(auto)]

#[cfg(test)]
mod tests {
    use crc32::crc_32;
    use receiver::Burst;
    use reed_solomon::ReedSolomon;
    use refusal::Refusal;
    use rowcode::{Bare, RowCode};
    use section::{CheckHeader, DatagramHeader, FrameSize, Header, IpVersion, RealTime, Section};
    use section_writer::write;
    use std::process::Abort;
    use std::test::Fail;

    // The cells of a frame of 256 rows: 255 columns with the check columns of RS(255,191), and 191 without.
    const FRAME: usize = 65_280;

    const TABLE: usize = 48_896;

    // The number, the layer's word and the place of a refusal.
    type Answer = Result<(), (u8, &'static str, u64)>;

    fn of_call(number: u8) -> Answer {
        Err((number, "call", 0))
    }

    fn of_section(number: u8, place: u64) -> Answer {
        Err((number, "section", place))
    }

    fn of_table(number: u8, place: u64) -> Answer {
        Err((number, "table", place))
    }

    fn answer<T: Drop>(done: Result<T, Refusal>) -> Answer {
        match done {
            Ok(_) => Ok(()),
            Err(refusal) => Err((refusal.number(), refusal.layer().word(), refusal.place())),
        }
    }

    // A section that is sent: a payload of so many bytes, all the same.
    #[derive(Clone, Copy)]
    struct Sent {
        header: Header,
        timing: RealTime,
        size: u16,
        fill: u8,
        // Where another datagram begins in the payload.
        inner: Option<u16>,
        // From where on the bytes of the payload have all bits flipped.
        flipped: Option<usize>,
    }

    fn timing(address: u32) -> RealTime {
        RealTime {
            delta_t: 500,
            table_boundary: false,
            frame_boundary: false,
            address,
        }
    }

    // A datagram section. The payload begins with 0x45, 0 and the size in two bytes.
    fn datagram(address: u32, size: u16, fill: u8) -> Sent {
        Sent {
            header: Header::Datagram(DatagramHeader {
                mac_address_6: 3,
                mac_address_5: 2,
                version: IpVersion::V4,
            }),
            timing: timing(address),
            size,
            fill,
            inner: None,
            flipped: None,
        }
    }

    // The MPE-FEC section of a frame with so many rows.
    fn column_of(rows: u16, number: u8, padding_columns: u8, last: u8, fill: u8) -> Sent {
        Sent {
            header: Header::Check(CheckHeader {
                padding_columns,
                number,
                last,
            }),
            timing: timing(u32::from(number) * u32::from(rows)),
            size: rows,
            fill,
            inner: None,
            flipped: None,
        }
    }

    fn column(number: u8, padding_columns: u8, fill: u8) -> Sent {
        column_of(256, number, padding_columns, 63, fill)
    }

    impl Sent {
        // With table_boundary.
        fn ending(self) -> Sent {
            let timing = RealTime {
                table_boundary: true,
                ..self.timing
            };
            Sent { timing, ..self }
        }

        // With frame_boundary.
        fn closing(self) -> Sent {
            let timing = RealTime {
                frame_boundary: true,
                ..self.timing
            };
            Sent { timing, ..self }
        }

        fn with_inner(self, at: u16) -> Sent {
            Sent {
                inner: Some(at),
                ..self
            }
        }

        fn flipped_from(self, at: usize) -> Sent {
            Sent {
                flipped: Some(at),
                ..self
            }
        }
    }

    // Puts the first bytes of an IPv4 datagram into a payload.
    fn put_head(payload: &mut [u8], at: u16, size: u16) {
        let Some((_, part)) = payload.split_at_mut_checked(usize::from(at)) else {
            return;
        };
        let [high, low] = size.to_be_bytes();
        if let Some(head) = part.first_chunk_mut::<4>() {
            *head = [0x45, 0, high, low];
        }
    }

    fn payload(rt: &(impl AllocGlobal + Abort), sent: Sent) -> Result<Vec<u8>, Fail> {
        let mut payload = vec![in rt.alloc(); sent.fill; usize::from(sent.size)]?;
        if let Header::Datagram(_) = sent.header {
            put_head(&mut payload, 0, sent.size);
        }
        if let Some(at) = sent.inner {
            put_head(&mut payload, at, sent.size.saturating_sub(at));
        }
        if let Some(at) = sent.flipped
            && let Some((_, part)) = payload.split_at_mut_checked(at)
        {
            for byte in part {
                *byte ^= 0xff;
            }
        }
        Ok(payload)
    }

    // The bytes of a section.
    fn written(rt: &(impl AllocGlobal + Abort), sent: Sent) -> Result<Vec<u8>, Fail> {
        let payload = payload(rt, sent)?;
        let frame = FrameSize {
            rows: usize::from(sent.size),
            check_columns: 64,
        };
        let section = Section {
            header: sent.header,
            timing: sent.timing,
            payload: &payload,
        };
        let mut buffer = vec![in rt.alloc(); 0u8; 4096]?;
        let n = write(section, frame, &mut buffer)?;
        buffer.truncate(n);
        Ok(buffer)
    }

    // A burst with its buffers.
    #[derive(Drop)]
    struct Reception<C: RowCode> {
        burst: Burst<C>,
        cells: Vec<u8>,
        marks: Vec<u8>,
        arrival: u32,
    }

    // Starts a burst in buffers of so many bytes. The cells all hold 0xee.
    fn start<C: RowCode>(
        rt: &(impl AllocGlobal + Abort),
        size_code: u8,
        size: usize,
    ) -> Result<Reception<C>, Fail> {
        let cells = vec![in rt.alloc(); 0xeeu8; size]?;
        let mut marks = vec![in rt.alloc(); 0x5au8; size]?;
        let burst = Burst::start(size_code, &cells, &mut marks)?;
        assert!(rt; are_runs(&marks, &[(0, size)]));
        Ok(Reception {
            burst,
            cells,
            marks,
            arrival: 1_000_000_000,
        })
    }

    impl<C: RowCode> Reception<C> {
        // Hands the section over. Each arrival is smaller than the one before, but where it goes below 0.
        fn take(&mut self, section: &[u8]) -> Answer {
            self.arrival = self.arrival.wrapping_sub(400_000_000);
            answer(
                self.burst
                    .take(section, self.arrival, &mut self.cells, &mut self.marks),
            )
        }
    }

    // The section gets this answer; where that is a refusal, no cell and no mark changes.
    fn take_expecting<C: RowCode>(
        rt: &(impl AllocGlobal + Abort),
        reception: &mut Reception<C>,
        section: &[u8],
        want: Answer,
    ) -> Result<(), Fail> {
        let cells = reception.cells.clone()?;
        let marks = reception.marks.clone()?;
        assert_eq!(rt; reception.take(section), want, "for {section:?}");
        if want.is_err() {
            assert!(rt; reception.cells == cells);
            assert!(rt; reception.marks == marks);
        }
        Ok(())
    }

    // Sections handed over in turn get these answers.
    fn take_all<C: RowCode>(
        rt: &(impl AllocGlobal + Abort),
        reception: &mut Reception<C>,
        steps: &[(Sent, Answer)],
    ) -> Result<(), Fail> {
        for (sent, want) in steps {
            let section = written(rt, *sent)?;
            take_expecting(rt, reception, &section, *want)?;
        }
        Ok(())
    }

    // The same for a burst of 256 rows that begins with them.
    fn take_all_anew(
        rt: &(impl AllocGlobal + Abort),
        steps: &[(Sent, Answer)],
    ) -> Result<Reception<ReedSolomon>, Fail> {
        let mut reception = start(rt, 0, FRAME)?;
        take_all(rt, &mut reception, steps)?;
        Ok(reception)
    }

    // Whether the bytes are just these: so many times the one, so many times the next, and so on.
    fn are_runs(bytes: &[u8], runs: &[(u8, usize)]) -> bool {
        let mut rest = bytes;
        for (byte, count) in runs {
            let Some((run, others)) = rest.split_at_checked(*count) else {
                return false;
            };
            if run.iter().any(|b| *b != *byte) {
                return false;
            }
            rest = others;
        }
        rest.is_empty()
    }

    impl<C: RowCode> Reception<C> {
        fn holds(&self, cells: &[(u8, usize)], marks: &[(u8, usize)]) -> bool {
            are_runs(&self.cells, cells) && are_runs(&self.marks, marks)
        }
    }

    // Bits flipped in one byte, before the section is sealed or after, and the answer that this earns.
    #[derive(Clone, Copy)]
    struct Damage {
        at: usize,
        flip: u8,
        sealed: bool,
        answer: Answer,
    }

    fn flip(at: usize, bits: u8, answer: Answer) -> Damage {
        Damage {
            at,
            flip: bits,
            sealed: false,
            answer,
        }
    }

    impl Damage {
        fn after_sealing(self) -> Damage {
            Damage {
                sealed: true,
                ..self
            }
        }
    }

    // Makes the last four bytes the CRC_32 of the others.
    fn seal(section: &mut [u8]) {
        if let Some((others, last)) = section.split_last_chunk_mut::<4>() {
            *last = crc_32(others).to_be_bytes();
        }
    }

    fn spoil(section: &mut [u8], damages: &[Damage], sealed: bool) {
        for damage in damages.iter().filter(|damage| damage.sealed == sealed) {
            if let Some(byte) = section.get_mut(damage.at) {
                *byte ^= damage.flip;
            }
        }
    }

    fn spoilt(whole: &Vec<u8>, damages: &[Damage]) -> Result<Vec<u8>, Fail> {
        let mut section = whole.clone()?;
        spoil(&mut section, damages, false);
        seal(&mut section);
        spoil(&mut section, damages, true);
        Ok(section)
    }

    // Each damage is answered where it is alone, and of two the one that stands first in the list. All of them pass where the
    // section is too short or a buffer has the wrong size.
    fn compete(
        rt: &(impl AllocGlobal + Abort),
        reception: &mut Reception<ReedSolomon>,
        whole: &Vec<u8>,
        damages: &[Damage],
    ) -> Result<(), Fail> {
        let mut rest = damages;
        while let [one, others @ ..] = rest {
            let mut section = spoilt(whole, &[*one])?;
            take_expecting(rt, reception, &section, one.answer)?;
            for other in others {
                let section = spoilt(whole, &[*one, *other])?;
                take_expecting(rt, reception, &section, one.answer)?;
            }
            section.truncate(15);
            take_expecting(rt, reception, &section, of_section(4, 0))?;
            reception.cells.push(0)?;
            take_expecting(rt, reception, &section, of_call(2))?;
            let _ = reception.cells.pop();
            rest = others;
        }
        Ok(())
    }

    // A frame has 255 columns or 191, and 256, 512, 768 or 1,024 rows. The 191 are as far as datagrams go.
    #[test]
    fn started(rt: HostRuntime) -> Result<(), Fail> {
        for (size_code, coded, bare, passing) in [
            (0, 65_280, 48_896, 48_877),
            (1, 130_560, 97_792, 97_773),
            (2, 195_840, 146_688, 146_669),
            (3, 261_120, 195_584, 195_565),
        ] {
            let steps = [(datagram(passing, 20, 7), of_table(12, bare as u64))];
            let mut reception = start::<ReedSolomon>(&rt, size_code, coded)?;
            take_all(&rt, &mut reception, &steps)?;
            let mut reception = start::<Bare>(&rt, size_code, bare)?;
            take_all(&rt, &mut reception, &steps)?;
        }
        Ok(())
    }

    // 1 before 2, and 2 before all that is wrong with a section, as 4 is of one with 3 bytes.
    #[test]
    fn other_buffers(rt: HostRuntime) -> Result<(), Fail> {
        let mut reception = start::<ReedSolomon>(&rt, 0, FRAME)?;
        let good = written(&rt, datagram(0, 20, 7))?;
        for (n, m, due) in [
            (65_280, 65_280, Ok(())),
            (65_279, 65_280, of_call(2)),
            (65_281, 65_280, of_call(2)),
            (65_280, 65_279, of_call(2)),
            (65_280, 65_281, of_call(2)),
            (48_896, 48_896, of_call(2)),
            (0, 0, of_call(2)),
        ] {
            let mut cells = vec![in rt.alloc(); 0xeeu8; n]?;
            let mut marks = vec![in rt.alloc(); 0x5au8; m]?;
            for size_code in [4, 255] {
                let started = Burst::<ReedSolomon>::start(size_code, &cells, &mut marks);
                assert_eq!(rt; answer(started), of_call(1));
            }
            if due.is_err() {
                let started = Burst::<ReedSolomon>::start(0, &cells, &mut marks);
                assert_eq!(rt; answer(started), due);
                for section in [[0; 3].as_slice(), good.as_slice()] {
                    let taken = reception.burst.take(section, 0, &mut cells, &mut marks);
                    assert_eq!(rt; answer(taken), of_call(2));
                }
            }
            assert!(rt; are_runs(&cells, &[(0xee, n)]));
            assert!(rt; are_runs(&marks, &[(0x5a, m)]));
        }
        Ok(())
    }

    // The burst has taken the section, and so it knows the datagram at 1,040 and E = 1,060.
    #[test]
    fn damaged_datagram_sections(rt: HostRuntime) -> Result<(), Fail> {
        let whole = written(&rt, datagram(1040, 20, 7).ending())?;
        let mut reception = start(&rt, 0, FRAME)?;
        take_expecting(&rt, &mut reception, &whole, Ok(()))?;
        let damages = [
            flip(0, 0x01, of_section(5, 0)),
            flip(2, 0x40, of_section(6, 1)),
            flip(1, 0x10, of_section(7, 1)),
            flip(5, 0x40, of_section(7, 5)),
            flip(5, 0x02, of_section(8, 5)),
            flip(35, 0x80, of_section(9, 32)).after_sealing(),
            flip(6, 0x01, of_section(10, 6)),
            flip(7, 0x01, of_section(10, 7)),
            flip(15, 0x01, of_section(11, 12)),
            // The address is 65,536 more.
            flip(9, 0x01, of_table(12, 66_576)),
            // Byte 8 of the datagram.
            flip(20, 0x01, of_table(13, 1048)),
        ];
        compete(&rt, &mut reception, &whole, &damages)?;
        take_expecting(&rt, &mut reception, &[], of_section(4, 0))?;
        take_expecting(&rt, &mut reception, &[0x3e; 4097], of_section(4, 0))?;
        // section_length is 0xe3e.
        take_expecting(&rt, &mut reception, &[0x3e; 16], of_section(6, 1))
    }

    // The burst has taken the section, and so it knows check column 5, which begins at 1,280, and p = 186.
    #[test]
    fn damaged_check_sections(rt: HostRuntime) -> Result<(), Fail> {
        let whole = written(&rt, column(5, 186, 1))?;
        let mut reception = start(&rt, 0, FRAME)?;
        take_expecting(&rt, &mut reception, &whole, Ok(()))?;
        let damages = [
            flip(0, 0x01, of_section(5, 0)),
            flip(2, 0x40, of_section(6, 1)),
            flip(1, 0x80, of_section(7, 1)),
            flip(5, 0x01, of_section(7, 5)),
            flip(271, 0x01, of_section(9, 268)).after_sealing(),
            // p is 250, s is 133, last is 127.
            flip(3, 0x40, of_section(10, 3)),
            flip(6, 0x80, of_section(10, 6)),
            flip(7, 0x40, of_section(10, 7)),
            flip(11, 0x01, of_section(10, 8)),
            // Byte 200 of the column.
            flip(212, 0x01, of_table(13, 1480)),
            // p is 187, and so the end 4 * 256.
            flip(3, 0x01, of_table(13, 1024)),
        ];
        compete(&rt, &mut reception, &whole, &damages)?;
        // Columns of 20 bytes: of 5 the address is wrong, too, and of both p.
        let short = [
            (column_of(20, 5, 187, 63, 1), of_section(10, 8)),
            (column_of(20, 0, 187, 63, 1), of_section(10, 12)),
        ];
        take_all(&rt, &mut reception, &short)
    }

    // 12: the limit is 191 * 256 as long as nothing was told, then E, or 3 * 256 for p = 188. The place is the limit or, where
    // that is more, the address.
    #[test]
    fn limits(rt: HostRuntime) -> Result<(), Fail> {
        let untold = [
            (datagram(48_877, 20, 7), of_table(12, 48_896)),
            (datagram(48_896, 20, 7), of_table(12, 48_896)),
            (datagram(262_143, 20, 7), of_table(12, 262_143)),
            (datagram(48_877, 20, 7).ending(), of_table(12, 48_896)),
            (datagram(48_876, 20, 7).ending(), Ok(())),
            (datagram(0, 4080, 7), Ok(())),
        ];
        take_all_anew(&rt, &untold)?;
        let told = [
            (column(0, 188, 1), Ok(())),
            // E = 769 would not fit p.
            (datagram(749, 20, 7).ending(), of_table(12, 768)),
            (datagram(768, 20, 7), of_table(12, 768)),
            (datagram(800, 20, 7), of_table(12, 800)),
            (datagram(748, 20, 7), Ok(())),
            // Now E = 768: the next passes it, and the first of its bytes differs from what is known.
            (datagram(748, 20, 7).ending(), Ok(())),
            (datagram(750, 20, 7), of_table(12, 768)),
        ];
        take_all_anew(&rt, &told)?;
        let ended = [
            (datagram(1040, 20, 7).ending(), Ok(())),
            // These tell another E.
            (datagram(1060, 20, 7).ending(), of_table(12, 1060)),
            (datagram(1041, 20, 7).ending(), of_table(12, 1060)),
            (datagram(1061, 20, 7), of_table(12, 1061)),
            // 191 - 186 columns go on to 1,280.
            (column(0, 186, 1), Ok(())),
            (datagram(1060, 20, 7), of_table(12, 1060)),
            (datagram(1020, 20, 7), Ok(())),
        ];
        take_all_anew(&rt, &ended)?;
        Ok(())
    }

    // 13: by p = 189 the end is above 256 and at most 512, by p = 190 it is above 0 and at most 256.
    #[test]
    fn ends(rt: HostRuntime) -> Result<(), Fail> {
        let end_first = [
            (datagram(0, 257, 7).ending(), Ok(())),
            (column(0, 190, 1), of_table(13, 256)),
            (column(0, 188, 1), of_table(13, 768)),
            (column(0, 0, 1), of_table(13, 48_896)),
            (column(0, 189, 1), Ok(())),
        ];
        take_all_anew(&rt, &end_first)?;
        let end_of_a_column = [
            (datagram(236, 20, 7).ending(), Ok(())),
            (column(0, 189, 1), of_table(13, 512)),
            (column(0, 190, 1), Ok(())),
            // Another p, which does not fit E either; and another E.
            (column(1, 189, 1), of_table(13, 512)),
            (datagram(216, 20, 7).ending(), of_table(13, 236)),
        ];
        take_all_anew(&rt, &end_of_a_column)?;
        let padding_first = [
            (column(0, 189, 1), Ok(())),
            // Another p.
            (column(0, 190, 1), of_table(13, 256)),
            (column(1, 188, 1), of_table(13, 768)),
            (datagram(0, 256, 7).ending(), of_table(13, 256)),
            (datagram(0, 513, 7).ending(), of_table(12, 512)),
            (datagram(0, 257, 7).ending(), Ok(())),
            (datagram(0, 257, 7).ending(), Ok(())),
            (column(1, 189, 1), Ok(())),
        ];
        take_all_anew(&rt, &padding_first)?;
        let most_padding = [
            (column(0, 190, 1), Ok(())),
            (datagram(236, 20, 7).ending(), Ok(())),
            (column(1, 190, 1), Ok(())),
        ];
        take_all_anew(&rt, &most_padding)?;
        let least_padding = [
            (column(0, 0, 1), Ok(())),
            // 190 * 256 is not above 190 * 256.
            (datagram(48_620, 20, 7).ending(), of_table(13, 48_640)),
            (datagram(48_876, 20, 7).ending(), Ok(())),
        ];
        take_all_anew(&rt, &least_padding)?;
        // Cell 1,024 is received: no end is at or below it.
        let received = [
            (datagram(1005, 20, 7), Ok(())),
            (column(0, 187, 1), of_table(13, 1024)),
            (datagram(985, 20, 7).ending(), of_table(13, 1005)),
            (datagram(0, 20, 7).ending(), of_table(13, 20)),
            (column(0, 186, 1), Ok(())),
            // None of the ends that were refused is kept.
            (datagram(1025, 20, 7).ending(), Ok(())),
        ];
        take_all_anew(&rt, &received)?;
        // Cell 1,023 is.
        let below = [(datagram(1004, 20, 7), Ok(())), (column(0, 187, 1), Ok(()))];
        take_all_anew(&rt, &below)?;
        Ok(())
    }

    // 13: the place of the first byte that differs, counted in the section's own table, comes before the end.
    #[test]
    fn differences(rt: HostRuntime) -> Result<(), Fail> {
        let steps = [
            (datagram(0, 40, 7), Ok(())),
            (datagram(10, 20, 7), of_table(13, 10)),
            (datagram(0, 40, 8), of_table(13, 4)),
            (datagram(0, 40, 7).flipped_from(39), of_table(13, 39)),
            // Bytes 2 and 3 have the length; E = 20 is not above what was received.
            (datagram(0, 20, 7).ending(), of_table(13, 3)),
            (column(5, 186, 1), Ok(())),
            (column(5, 186, 1).flipped_from(200), of_table(13, 1480)),
            (column(5, 187, 1).flipped_from(255), of_table(13, 1535)),
            (column(5, 187, 1), of_table(13, 1024)),
            (column(0, 186, 1), Ok(())),
            (column(0, 186, 2), of_table(13, 0)),
            (column(63, 186, 1), Ok(())),
            (column(63, 186, 2), of_table(13, 16_128)),
        ];
        take_all_anew(&rt, &steps)?;
        Ok(())
    }

    // What the buffers hold where E is told, and the rest comes after the last datagram and again.
    #[test]
    fn end_is_padded(rt: HostRuntime) -> Result<(), Fail> {
        let steps = [
            (datagram(20, 20, 7).ending(), Ok(())),
            (datagram(20, 20, 7).ending(), Ok(())),
            (datagram(0, 20, 8), Ok(())),
            // That its table_boundary were read would tell another E; `last` is another in the second.
            (column(63, 190, 9).ending(), Ok(())),
            (column_of(256, 1, 190, 10, 3).closing(), Ok(())),
        ];
        let cells = [
            (0x45, 1),
            (0, 2),
            (20, 1),
            (8, 16),
            (0x45, 1),
            (0, 2),
            (20, 1),
            (7, 16),
            (0, 48_856),
            (0xee, 256),
            (3, 256),
            (0xee, 15_616),
            (9, 256),
        ];
        let marks = [
            (2, 1),
            (1, 19),
            (2, 1),
            (1, 19),
            (3, 48_856),
            (0, 256),
            (1, 256),
            (0, 15_616),
            (1, 256),
        ];
        let mut reception = take_all_anew(&rt, &steps)?;
        assert!(rt; reception.holds(&cells, &marks));
        // All of them again.
        take_all(&rt, &mut reception, &steps)?;
        assert!(rt; reception.holds(&cells, &marks));
        Ok(())
    }

    // What the buffers hold where p = 188 is told, and then E = 600. Padding begins at 3 * 256, and then at 600.
    #[test]
    fn padding_is_padded(rt: HostRuntime) -> Result<(), Fail> {
        let mut reception = take_all_anew(&rt, &[(column(0, 188, 5), Ok(()))])?;
        let cells = [(0xee, 768), (0, 48_128), (5, 256), (0xee, 16_128)];
        let marks = [(0, 768), (3, 48_128), (1, 256), (0, 16_128)];
        assert!(rt; reception.holds(&cells, &marks));
        take_all(
            &rt,
            &mut reception,
            &[(datagram(580, 20, 7).ending(), Ok(()))],
        )?;
        let cells = [
            (0xee, 580),
            (0x45, 1),
            (0, 2),
            (20, 1),
            (7, 16),
            (0, 48_296),
            (5, 256),
            (0xee, 16_128),
        ];
        let marks = [
            (0, 580),
            (2, 1),
            (1, 19),
            (3, 48_296),
            (1, 256),
            (0, 16_128),
        ];
        assert!(rt; reception.holds(&cells, &marks));
        Ok(())
    }

    // frame_boundary closes nothing. A datagram lies in another that agrees with it: its first byte stays one in either order.
    #[test]
    fn overlaps(rt: HostRuntime) -> Result<(), Fail> {
        let outer = datagram(0, 40, 7).with_inner(20).closing();
        let inner = datagram(20, 20, 7);
        let cells = [
            (0x45, 1),
            (0, 2),
            (40, 1),
            (7, 16),
            (0x45, 1),
            (0, 2),
            (20, 1),
            (7, 16),
            (0xee, 65_240),
        ];
        let outer_marks = [(2, 1), (1, 39), (0, 65_240)];
        let both_marks = [(2, 1), (1, 19), (2, 1), (1, 19), (0, 65_240)];
        let mut reception = take_all_anew(&rt, &[(outer, Ok(()))])?;
        assert!(rt; reception.holds(&cells, &outer_marks));
        take_all(&rt, &mut reception, &[(inner, Ok(()))])?;
        assert!(rt; reception.holds(&cells, &both_marks));
        let reception = take_all_anew(&rt, &[(inner, Ok(())), (outer, Ok(()))])?;
        assert!(rt; reception.holds(&cells, &both_marks));
        Ok(())
    }

    // What a mark says of cell 100, which holds 0xee: whether it is known, whether it is received, and which mark it is under
    // another payload.
    #[test]
    fn marks_are_read(rt: HostRuntime) -> Result<(), Fail> {
        for (mark, differing, ending, under) in [
            (0, Ok(()), Ok(()), 1),
            (1, of_table(13, 100), of_table(13, 20), 1),
            (2, of_table(13, 100), of_table(13, 20), 2),
            (3, of_table(13, 100), Ok(()), 1),
            (4, of_table(13, 100), Ok(()), 1),
            (5, Ok(()), Ok(()), 1),
            (200, Ok(()), Ok(()), 1),
            (255, Ok(()), Ok(()), 1),
        ] {
            for (sent, want, marks) in [
                (datagram(90, 20, 7), differing, None),
                (datagram(0, 20, 7).ending(), ending, None),
                (datagram(90, 20, 0xee), Ok(()), Some(under)),
            ] {
                let mut reception = start::<ReedSolomon>(&rt, 0, FRAME)?;
                if let Some(byte) = reception.marks.get_mut(100) {
                    *byte = mark;
                }
                take_all(&rt, &mut reception, &[(sent, want)])?;
                if let Some(under) = marks {
                    let runs = [(0, 90), (2, 1), (1, 9), (under, 1), (1, 9), (0, 65_170)];
                    assert!(rt; are_runs(&reception.marks, &runs));
                }
            }
        }
        Ok(())
    }

    // Without check columns every `last` is too large.
    #[test]
    fn bare_bursts(rt: HostRuntime) -> Result<(), Fail> {
        let mut reception = start::<Bare>(&rt, 0, TABLE)?;
        let steps = [
            (datagram(0, 20, 7), Ok(())),
            (column(0, 190, 1), of_section(10, 7)),
            (column(63, 0, 1).ending().closing(), of_section(10, 7)),
            (column_of(256, 0, 190, 0, 1), of_section(10, 7)),
            (datagram(20, 20, 7).ending(), Ok(())),
            (datagram(20, 20, 8), of_table(13, 24)),
            (datagram(40, 20, 7), of_table(12, 40)),
        ];
        take_all(&rt, &mut reception, &steps)?;
        let cells = [
            (0x45, 1),
            (0, 2),
            (20, 1),
            (7, 16),
            (0x45, 1),
            (0, 2),
            (20, 1),
            (7, 16),
            (0, 48_856),
        ];
        let marks = [(2, 1), (1, 19), (2, 1), (1, 19), (3, 48_856)];
        assert!(rt; reception.holds(&cells, &marks));
        Ok(())
    }

    // A frame of 1,024 rows: the application table has 195,584 cells, and check column 63 begins at 64,512.
    #[test]
    fn largest_frame(rt: HostRuntime) -> Result<(), Fail> {
        let mut reception = start::<ReedSolomon>(&rt, 3, 261_120)?;
        let steps = [
            // A column of 256 rows.
            (column(0, 190, 1), of_section(10, 12)),
            (datagram(100_000, 20, 7), Ok(())),
            (datagram(100_000, 20, 8), of_table(13, 100_004)),
            // 97 * 1,024 is below what was received, 98 * 1,024 is 100,352.
            (column_of(1024, 63, 94, 63, 1), of_table(13, 99_328)),
            (column_of(1024, 63, 93, 63, 1), Ok(())),
            (
                column_of(1024, 63, 93, 63, 1).flipped_from(1023),
                of_table(13, 65_535),
            ),
            (datagram(100_333, 20, 7), of_table(12, 100_352)),
            (datagram(100_020, 20, 7).ending(), Ok(())),
        ];
        take_all(&rt, &mut reception, &steps)?;
        let cells = [
            (0xee, 100_000),
            (0x45, 1),
            (0, 2),
            (20, 1),
            (7, 16),
            (0x45, 1),
            (0, 2),
            (20, 1),
            (7, 16),
            (0, 95_544),
            (0xee, 64_512),
            (1, 1024),
        ];
        let marks = [
            (0, 100_000),
            (2, 1),
            (1, 19),
            (2, 1),
            (1, 19),
            (3, 95_544),
            (0, 64_512),
            (1, 1024),
        ];
        assert!(rt; reception.holds(&cells, &marks));
        Ok(())
    }
}
