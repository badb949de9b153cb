//! The lines of a listing of sections, and their tally; and those of a listing of a burst's datagrams.
#![tactic(auto)]

mod bursts;
mod lines;
mod parts;
mod tallies;

pub use bursts::{Totals, datagram_line, totals_line};
pub use lines::{Position, section_line};
pub use tallies::Tally;

#[cfg(test)]
mod tests {
    use super::*;
    use section::Kind;

    #[test]
    fn lists_a_datagram_section(rt: HostRuntime) {
        let mut section = [0; 36];
        section[0..12].copy_from_slice(&[0x3e, 0xb0, 33, 0, 0, 0xc1, 0, 0, 6, 0x48, 5, 0xdc]);
        section[12..16].copy_from_slice(&[0x45, 0, 0, 20]);
        section[32..36].copy_from_slice(&[0x3d, 0x9d, 0x34, 0xd1]);
        let (line, kind) = section_line(Position::default(), &section);
        assert_eq!(rt; kind, Some(Kind::Datagram));
        assert!(rt;
            line.as_bytes()
                == b"      0        0    36 datagram    1500     100  1  0  4    20".as_slice()
        );
    }

    #[test]
    fn lists_a_check_section(rt: HostRuntime) {
        let mut section = [0; 272];
        section[0..12].copy_from_slice(&[0x78, 0xb1, 0x0d, 7, 0, 0xc1, 3, 5, 0, 0x94, 3, 0]);
        section[268..272].copy_from_slice(&[0x83, 0x47, 0xaf, 0xc3]);
        let (line, kind) = section_line(Position::default().after(36), &section);
        assert_eq!(rt; kind, Some(Kind::Check));
        assert!(rt;
            line.as_bytes()
                == b"      1       36   272 check        768       9  0  1   3   5   7".as_slice()
        );
    }

    #[test]
    fn lists_a_refused_section(rt: HostRuntime) {
        let position = Position {
            number: 12_345_678,
            offset: 308,
        };
        let (line, kind) = section_line(position, &[]);
        assert_eq!(rt; kind, None);
        assert!(rt;
            line.as_bytes() == b"12345678      308     0 refused   4 section        0".as_slice()
        );
    }

    #[test]
    fn counts_by_kind(rt: HostRuntime) {
        let mut tally = Tally::new();
        tally.count(Some(Kind::Check));
        tally.count(None);
        tally.count(Some(Kind::Check));
        assert!(rt;
            tally.summary().as_bytes() == b"sections 3 datagram 0 check 2 refused 1".as_slice()
        );
    }
}
