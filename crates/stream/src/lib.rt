//! A stream of bytes is read, held in a window and cut into sections, and a line of text is set in columns.
#![tactic(auto)]

pub mod columns;
pub mod cutting;
pub mod sources;
pub mod windows;

#[cfg(test)]
mod tests {
    use super::columns::*;
    use super::cutting::*;
    use super::windows::*;

    #[test]
    fn cuts_a_section_and_a_rest(rt: HostRuntime) {
        let stream = [0x3e, 0xf0, 1, 7, 0x3e, 0];
        let mut cutter = Cutter::new();
        assert_eq!(rt; cutter.next(&stream, false), Cut::Piece(4));
        assert_eq!(rt; cutter.next(&stream[4..6], false), Cut::More);
        assert_eq!(rt; cutter.next(&stream[4..6], true), Cut::Piece(2));
        assert_eq!(rt; cutter.next(&[], true), Cut::End);
    }

    #[test]
    fn holds_a_part_of_a_stream(rt: HostRuntime) {
        let mut window = Window::new();
        assert_eq!(rt; window.append(b"abcdef"), 6);
        window.release(2);
        assert_eq!(rt; window.append(&[7; 5000]), 4094);
        assert_eq!(rt; window.room(), 0);
        window.release(4);
        assert!(rt; window.held() == [7; 4094].as_slice());
        window.release(5000);
        assert!(rt; window.held().is_empty());
    }

    #[test]
    fn sets_numbers_right(rt: HostRuntime) {
        let mut field = *b"......";
        assert!(rt; right_justified(90, &mut field).is_ok());
        assert!(rt; field == *b"    90");
        assert!(rt; right_justified(1_234_567, &mut field).is_err());
        assert!(rt; field == *b"    90");
    }

    #[test]
    fn builds_a_line(rt: HostRuntime) {
        let mut line = Line::new();
        assert!(rt; line.word("bursts", 8).is_ok());
        assert!(rt; line.decimal(17, 5).is_ok());
        assert!(rt; line.decimal(100_000, 5).is_ok());
        assert!(rt; line.word("", 238).is_err());
        assert!(rt; line.decimal(0, 238).is_err());
        assert!(rt; line.as_bytes() == b"bursts     17100000".as_slice());
    }
}
