//! Tests of the section layer: every refusal of 4 to 11 alone and in competition with the others, and sections written
//! again. No code.
#![tactic(auto)]

#[cfg(test)]
mod tests {
    use crc32::crc_32;
    use refusal::Refusal;
    use section::{FrameSize, read};
    use section_writer::write;
    use std::process::Abort;
    use std::test::Fail;

    const SMALL: FrameSize = FrameSize {
        rows: 20,
        check_columns: 8,
    };

    // A datagram section of 36 bytes, and an MPE-FEC section for 20 rows and 8 check columns of 36 bytes too.
    // The last four bytes are left to `seal`.
    const DATAGRAM: [u8; 36] = [
        0x3e, 0xb0, 0x21, 3, 2, 0xc1, 0, 0, 0x1f, 0x48, 0x04, 0x10, 0x45, 0, 0, 20, 0, 1, 0, 0, 64,
        17, 0, 0, 10, 0, 0, 1, 10, 0, 0, 2, 0, 0, 0, 0,
    ];

    const CHECK: [u8; 36] = [
        0x78, 0xb0, 0x21, 190, 0xff, 0xff, 2, 7, 0x1f, 0x40, 0, 40, 1, 2, 3, 4, 5, 6, 7, 8, 9, 10,
        11, 12, 13, 14, 15, 16, 17, 18, 19, 20, 0, 0, 0, 0,
    ];

    // Bits flipped in one byte, before the section is sealed or after, and the number and place of the refusal that this
    // earns: numbers, as the rules of the format have them, so that they are tested too.
    #[derive(Clone, Copy)]
    struct Damage {
        at: usize,
        flip: u8,
        sealed: bool,
        refusal: (u8, u64),
    }

    impl Damage {
        fn after_sealing(self) -> Damage {
            Damage {
                sealed: true,
                ..self
            }
        }
    }

    fn flip(at: usize, bits: u8, number: u8, place: u64) -> Damage {
        Damage {
            at,
            flip: bits,
            sealed: false,
            refusal: (number, place),
        }
    }

    // Whether a section is read, or the number and place of its refusal.
    fn answer(section: &[u8], frame: FrameSize) -> Result<(), (u8, u64)> {
        match read(section, frame) {
            Ok(_) => Ok(()),
            Err(refusal) => Err((refusal.number(), refusal.place())),
        }
    }

    // Makes the last four bytes the CRC_32 of the others.
    fn seal(section: &mut [u8]) {
        if let Some((others, last)) = section.split_last_chunk_mut::<4>() {
            *last = crc_32(others).to_be_bytes();
        }
    }

    fn sealed(mut section: [u8; 36]) -> [u8; 36] {
        seal(&mut section);
        section
    }

    fn spoil(section: &mut [u8; 36], damages: &[Damage], sealed: bool) {
        for damage in damages.iter().filter(|damage| damage.sealed == sealed) {
            if let Some(byte) = section.get_mut(damage.at) {
                *byte ^= damage.flip;
            }
        }
    }

    fn spoilt(mut section: [u8; 36], damages: &[Damage]) -> [u8; 36] {
        spoil(&mut section, damages, false);
        seal(&mut section);
        spoil(&mut section, damages, true);
        section
    }

    // Each damage is answered where it is alone, and of two the one that stands first in the list.
    fn compete(rt: &impl Abort, whole: [u8; 36], damages: &[Damage]) {
        let mut rest = damages;
        while let [one, others @ ..] = rest {
            let section = spoilt(whole, &[*one]);
            assert_eq!(rt; answer(&section, SMALL), Err(one.refusal));
            assert_eq!(rt; answer(&section[0..15], SMALL), Err((4, 0)));
            for other in others {
                let section = spoilt(whole, &[*one, *other]);
                assert_eq!(rt; answer(&section, SMALL), Err(one.refusal));
            }
            rest = others;
        }
    }

    #[test]
    fn whole_sections_pass(rt: HostRuntime) {
        let section = sealed(DATAGRAM);
        assert_eq!(rt; answer(&section, SMALL), Ok(()));
        let section = sealed(CHECK);
        assert_eq!(rt; answer(&section, SMALL), Ok(()));
        let seven_columns = FrameSize {
            check_columns: 7,
            ..SMALL
        };
        let nineteen_rows = FrameSize { rows: 19, ..SMALL };
        assert_eq!(rt; answer(&section, seven_columns), Err((10, 7)));
        assert_eq!(rt; answer(&section, nineteen_rows), Err((10, 8)));
        // Check column 0 has the address 0 for any number of rows, so that the size of its payload counts.
        let mut section = CHECK;
        section[6] = 0;
        section[11] = 0;
        seal(&mut section);
        assert_eq!(rt; answer(&section, SMALL), Ok(()));
        assert_eq!(rt; answer(&section, nineteen_rows), Err((10, 12)));
    }

    #[test]
    fn datagram_sections(rt: HostRuntime) {
        let damages = [
            flip(0, 0x01, 5, 0),
            flip(2, 0x40, 6, 1),
            flip(1, 0x10, 7, 1),
            flip(5, 0x40, 7, 5),
            flip(5, 0x02, 8, 5),
            flip(35, 0x80, 9, 32).after_sealing(),
            flip(6, 0x01, 10, 6),
            flip(7, 0x01, 10, 7),
            flip(15, 0x01, 11, 12),
        ];
        compete(&rt, DATAGRAM, &damages);
    }

    #[test]
    fn check_sections(rt: HostRuntime) {
        let damages = [
            flip(0, 0x01, 5, 0),
            flip(2, 0x40, 6, 1),
            flip(1, 0x80, 7, 1),
            flip(5, 0x01, 7, 5),
            flip(32, 0x01, 9, 32).after_sealing(),
            flip(3, 0x01, 10, 3),
            flip(6, 0x10, 10, 6),
            flip(7, 0x0f, 10, 7),
            flip(11, 0x01, 10, 8),
        ];
        compete(&rt, CHECK, &damages);
    }

    #[test]
    fn sizes(rt: HostRuntime) {
        assert_eq!(rt; answer(&[0x3e; 15], FrameSize::RS_256), Err((4, 0)));
        assert_eq!(rt; answer(&[0x3e; 16], FrameSize::RS_256), Err((6, 1)));
        assert_eq!(rt; answer(&[], FrameSize::RS_256), Err((4, 0)));
        let mut section = [0; 4097];
        assert_eq!(rt; answer(&section, FrameSize::RS_256), Err((4, 0)));
        section[0..12].copy_from_slice(&DATAGRAM[0..12]);
        section[1..3].copy_from_slice(&[0xbf, 0xfd]);
        section[12..16].copy_from_slice(&[0x45, 0, 0x0f, 0xf0]);
        seal(&mut section[0..4096]);
        assert_eq!(rt; answer(&section[0..4096], FrameSize::RS_256), Ok(()));
    }

    // Writes a section again, into a buffer of so many bytes, which all were 0x5a; answers what write does, and the buffer.
    fn written(
        rt: &HostRuntime,
        section: &[u8],
        room: usize,
    ) -> Result<(Result<usize, Refusal>, Vec<u8>), Fail> {
        let section = read(section, SMALL)?;
        let mut buffer = vec![in rt.alloc(); 0x5au8; room]?;
        let answer = write(section, SMALL, &mut buffer);
        Ok((answer, buffer))
    }

    #[test]
    fn written_again(rt: HostRuntime) -> Result<(), Fail> {
        for whole in [DATAGRAM, CHECK] {
            let section = sealed(whole);
            let (answer, buffer) = written(&rt, &section, 4096)?;
            assert_eq!(rt; answer, Ok(36));
            // Without this the check does not see that the parts below are within.
            assert!(rt; buffer.len() == 4096);
            assert_eq!(rt; &buffer[0..36], &section[..]);
            assert_eq!(rt; &buffer[36..4096], &[0x5a; 4060][..]);
        }
        Ok(())
    }

    #[test]
    fn other_buffers(rt: HostRuntime) -> Result<(), Fail> {
        let section = sealed(DATAGRAM);
        for room in [0, 36, 4095, 4097] {
            let untouched = vec![in rt.alloc(); 0x5au8; room]?;
            let (answer, buffer) = written(&rt, &section, room)?;
            assert_eq!(rt; answer, Err(Refusal::Unwritable));
            assert_eq!(rt; buffer, untouched);
        }
        Ok(())
    }
}
