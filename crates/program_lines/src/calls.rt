//! The lines of `bursttake`: calls of a receiver.
ghost use Rattle.std.specs.Prelude.{◌≡◌};
ghost use Rattle.program_lines.specs.Lines.{passed_over};

use crate::codes::Code;
use anyhow::anyhow;
use program::bytes_of;
use std::alloc::Global;

/// What a line asks for.
#[derive(Drop)]
pub enum Request {
    /// Lend buffers of these lengths from now on.
    Buffers { cells: u32, marks: u32 },
    /// Put a byte into so many marks.
    Put { mark: u8, from: u32, count: u32 },
    /// Start a burst.
    Start { code: Code, size_code: u8 },
    /// Have it take a section.
    Take { arrival: u32, section: Vec<u8> },
    /// Close it, with a scratch row and names of these lengths.
    Close { scratch: u32, names: u32 },
    /// Open a read-out of the closed one, and call next so many times.
    Open { count: u32 },
}

/// Whether a line is there for people alone: it is empty, or begins with a number sign.
pub fn is_passed_over(line: &str) -> bool
    ensures { result ≡ passed_over line.now }
{
    matches!(line.as_bytes(), [] | [b'#', ..])
}

/// What a line asks for.
pub fn requested(heap: Global, line: &str) -> anyhow::Result<Request> {
    let words: Vec<&str> = line.split(' ').collect(heap)?;
    match words.as_slice() {
        ["buffers", cells, marks] => Ok(Request::Buffers {
            cells: cells.parse()?,
            marks: marks.parse()?,
        }),
        ["put", mark, from, count] => Ok(Request::Put {
            mark: mark.parse()?,
            from: from.parse()?,
            count: count.parse()?,
        }),
        ["start", code, size_code] => Ok(Request::Start {
            code: code.parse()?,
            size_code: size_code.parse()?,
        }),
        ["take", arrival, section] => Ok(Request::Take {
            arrival: arrival.parse()?,
            section: bytes_of(heap, section)?,
        }),
        ["close", scratch, names] => Ok(Request::Close {
            scratch: scratch.parse()?,
            names: names.parse()?,
        }),
        ["open", count] => Ok(Request::Open {
            count: count.parse()?,
        }),
        _ => Err(anyhow!("this asks for nothing")),
    }
}

#[cfg(test)]
mod tests {
    use super::*;

    #[test]
    fn lines_of_this_shape(rt: HostRuntime) {
        let lines = [
            "buffers 0 4294967295",
            "put 255 +0 012",
            "start rs 0",
            "start bare 255",
            "take 4294967295 0AF9",
            "take 0 -",
            "close 255 1024",
            "open 0",
        ];
        for line in lines {
            assert!(rt; requested(rt.alloc(), line).is_ok(), "{}", line);
        }
    }

    #[test]
    fn lines_of_no_shape(rt: HostRuntime) {
        let lines = [
            "",
            "buffers",
            "buffers 1",
            "buffers 1 2 3",
            "buffers 1 4294967296",
            "buffers -1 2",
            "put 256 0 1",
            "put 1 0",
            "start rs",
            "start rs 256",
            "start RS 0",
            "start reed 0",
            "start 0 rs",
            "Start rs 0",
            " start rs 0",
            "start  rs 0",
            "start rs 0 ",
            "take 0",
            "take 0 ",
            "take - 0",
            "take 4294967296 -",
            "take 0 4a",
            "take 0 4",
            "take 0 4A 4A",
            "close",
            "close 255",
            "close 255 256 0",
            "close rs 256",
            "close 255 4294967296",
            "open",
            "open 1 2",
            "open 4294967296",
        ];
        for line in lines {
            assert!(rt; requested(rt.alloc(), line).is_err(), "{}", line);
        }
    }
}
