//! The lines of `sectionwrite`: descriptions of sections.
use anyhow::anyhow;
use program::bytes_of;
use section::{CheckHeader, DatagramHeader, FrameSize, Header, IpVersion, RealTime};
use std::alloc::Global;

/// A section as a line describes it. Only an MPE-FEC section depends on the size of its frame.
#[derive(Drop)]
pub struct Description {
    pub header: Header,
    pub frame: FrameSize,
    pub timing: RealTime,
    pub payload: Vec<u8>,
}

// Not a number that is turned into a version: a line knows no words but these two, and `04` is none of them.
fn version_of(word: &str) -> anyhow::Result<IpVersion> {
    match word {
        "4" => Ok(IpVersion::V4),
        "6" => Ok(IpVersion::V6),
        _ => Err(anyhow!("the version is 4 or 6")),
    }
}

// Not `parse`, which reads `true` and `false`.
fn flag_of(word: &str) -> anyhow::Result<bool> {
    match word {
        "0" => Ok(false),
        "1" => Ok(true),
        _ => Err(anyhow!("a flag is 0 or 1")),
    }
}

// The words that the two kinds of section do not share: their names and headers. A datagram section is the same for every
// frame. Not a `TryFrom`: the types belong to another crate, which knows nothing of these lines.
fn header_of(words: &[&str]) -> anyhow::Result<(Header, FrameSize)> {
    match words {
        ["datagram", mac_6, mac_5, version] => {
            let header = DatagramHeader {
                mac_address_6: mac_6.parse()?,
                mac_address_5: mac_5.parse()?,
                version: version_of(version)?,
            };
            Ok((Header::Datagram(header), FrameSize::RS_256))
        }
        ["check", p, s, last, rows, columns] => {
            let header = CheckHeader {
                padding_columns: p.parse()?,
                number: s.parse()?,
                last: last.parse()?,
            };
            let frame = FrameSize {
                rows: rows.parse()?,
                check_columns: columns.parse()?,
            };
            Ok((Header::Check(header), frame))
        }
        _ => Err(anyhow!("this describes no section")),
    }
}

// The words of the real-time parameters. Not a `TryFrom`, as `header_of`.
fn timing_of(delta_t: &str, table: &str, frame: &str, address: &str) -> anyhow::Result<RealTime> {
    Ok(RealTime {
        delta_t: delta_t.parse()?,
        table_boundary: flag_of(table)?,
        frame_boundary: flag_of(frame)?,
        address: address.parse()?,
    })
}

/// The section that a line describes.
pub fn described(heap: Global, line: &str) -> anyhow::Result<Description> {
    let words: Vec<&str> = line.split(' ').collect(heap)?;
    let [own @ .., delta_t, table, frame, address, payload] = words.as_slice() else {
        return Err(anyhow!("there are too few words"));
    };
    let (header, frame_size) = header_of(own)?;
    Ok(Description {
        header,
        frame: frame_size,
        timing: timing_of(delta_t, table, frame, address)?,
        payload: bytes_of(heap, payload)?,
    })
}

#[cfg(test)]
mod tests {
    use super::*;

    #[test]
    fn lines_of_this_shape(rt: HostRuntime) {
        let lines = [
            "datagram 255 0 6 65535 0 1 4294967295 -",
            "datagram +1 002 4 05 0 1 +6 -",
            "check 255 255 255 18446744073709551615 0 0 1 0 0 0AF9",
        ];
        for line in lines {
            assert!(rt; described(rt.alloc(), line).is_ok(), "{}", line);
        }
    }

    #[test]
    fn lines_of_no_shape(rt: HostRuntime) {
        let lines = [
            "",
            "datagram",
            "datagram 1 2 4 5 0 1 6",
            "datagram 1 2 4 5 0 1 6 ",
            "datagram 1 2 4 5 0 1 6 - -",
            "datagram 1 2 4 5 0 1  6 -",
            "datagram 1 2 4 5 0 1 6 - ",
            "Datagram 1 2 4 5 0 1 6 -",
            "datagram 256 2 4 5 0 1 6 -",
            "datagram 1 -2 4 5 0 1 6 -",
            "datagram 1 2 5 5 0 1 6 -",
            "datagram 1 2 04 5 0 1 6 -",
            "datagram 1 2 4 5 00 1 6 -",
            "datagram 1 2 4 65536 0 1 6 -",
            "datagram 1 2 4 5 2 1 6 -",
            "datagram 1 2 4 5 0 x 6 -",
            "datagram 1 2 4 5 0 1 4294967296 -",
            "datagram 1 2 4 5 0 1 6 4",
            "datagram 1 2 4 5 0 1 6 4G",
            "datagram 1 2 4 5 0 1 6 4a",
            "datagram 1 2 4 5 0 1 6 --",
            "check 1 2 3 4 5 0 1 6 -",
            "check 1 2 3 4 5 6 0 1 7",
            "check 1 2 3 4 18446744073709551616 6 0 1 7 -",
        ];
        for line in lines {
            assert!(rt; described(rt.alloc(), line).is_err(), "{}", line);
        }
    }
}
