//! A capture of three packets in each format: where it may be cut, and what it is with one octet changed. The octets are made by hand
//! from the libpcap file format, and from the pcapng file format.

/// An octet that is changed, its new value, how many packets stand in front of the fault, and what is told of it.
pub type Change = (usize, u8, usize, &'static str);

/// A capture of three packets from 10.0.0.1 to 10.0.0.2 without a label, of the seconds 1 to 3.
#[derive(Clone, Copy)]
pub struct Three {
    /// Its octets, in lines of hexadecimal digits.
    pub digits: &'static str,
    /// How many of them are a capture without a packet.
    pub empty: &'static [usize],
    /// Where the packets end.
    pub ends: [usize; 3],
    pub changes: &'static [Change],
}

impl Three {
    /// How many packets so many octets have.
    pub fn packets_in(&self, octets: usize) -> usize {
        self.ends.iter().filter(|end| **end <= octets).count()
    }

    /// Whether so many octets are a capture.
    pub fn is_whole(&self, octets: usize) -> bool {
        self.empty.contains(&octets) || self.ends.contains(&octets)
    }

    /// How many octets a capture of so many of the packets has.
    pub fn length_of(&self, packets: usize) -> usize {
        match packets {
            0 => self.empty.last().copied().unwrap_or(0),
            1 => self.ends[0],
            2 => self.ends[1],
            _ => self.ends[2],
        }
    }

    /// How many octets the part has that is read before an output is made.
    pub fn beginning(&self) -> usize {
        self.empty.first().copied().unwrap_or(0)
    }
}

/// Its octets in the libpcap format.
pub const DIGITS: &str =
    "d4c3b2a1020004000000000000000000000004006500000001000000000000001c0000001c0000004500001c00004000
401126cf0a0000010a00000203e800350008e7be02000000000000001c0000001c0000004500001c00004000401126cf
0a0000010a00000203e800350008e7be03000000000000001c0000001c0000004500001c00004000401126cf0a000001
0a00000203e800350008e7be";

/// A header of 24 octets, and records of 44.
const PCAP: Three = Three {
    digits: DIGITS,
    empty: &[24],
    ends: [68, 112, 156],
    changes: &[
        (0, 0xd5, 0, "octet 0 Magic"),
        (4, 1, 0, "octet 4 Version"),
        (6, 3, 0, "octet 4 Version"),
        (20, 113, 0, "octet 20 LinkType"),
        (34, 5, 0, "octet 32 Captured"),
        (36, 29, 0, "octet 32 SnapCut"),
        (80, 29, 1, "octet 76 SnapCut"),
    ],
};

/// A section header of 28 octets, an interface of 32 whose times are nanoseconds, and packets of 60.
const PCAPNG: Three = Three {
    digits: "0a0d0d0a1c0000004d3c2b1a01000000ffffffffffffffff1c0000000100000020000000650000000000040009000100
090000000000000020000000060000003c000000000000000000000000ca9a3b1c0000001c0000004500001c00004000
401126cf0a0000010a00000203e800350008e7be3c000000060000003c0000000000000000000000009435771c000000
1c0000004500001c00004000401126cf0a0000010a00000203e800350008e7be3c000000060000003c00000000000000
00000000005ed0b21c0000001c0000004500001c00004000401126cf0a0000010a00000203e800350008e7be3c000000",
    empty: &[28, 60],
    ends: [120, 180, 240],
    changes: &[
        (0, 0x0b, 0, "octet 0 Magic"),
        (4, 0x1d, 0, "octet 4 BlockLength"),
        (4, 0x18, 0, "octet 4 BlockLength"),
        (5, 1, 0, "octet 240 Short"),
        (8, 0x4c, 0, "octet 8 Magic"),
        (12, 2, 0, "octet 12 Version"),
        (24, 0x18, 0, "octet 24 Trailer"),
        (28, 2, 0, "octet 28 Block"),
        (28, 6, 0, "octet 36 Interface"),
        (32, 0x10, 0, "octet 32 BlockLength"),
        (36, 113, 0, "octet 68 LinkType"),
        (46, 2, 0, "octet 44 Options"),
        (47, 1, 0, "octet 44 Options"),
        (48, 3, 0, "octet 68 Resolution"),
        (56, 0x24, 0, "octet 56 Trailer"),
        (60, 3, 0, "octet 60 Block"),
        (64, 0x1c, 0, "octet 64 BlockLength"),
        (65, 1, 0, "octet 240 Short"),
        (68, 1, 0, "octet 68 Interface"),
        (75, 0xff, 0, "octet 72 Time"),
        (80, 29, 0, "octet 64 BlockLength"),
        (82, 4, 0, "octet 80 Captured"),
        (84, 29, 0, "octet 80 SnapCut"),
        (116, 0, 0, "octet 116 Trailer"),
        (144, 29, 1, "octet 140 SnapCut"),
        (180, 3, 2, "octet 180 Block"),
    ],
};

pub const BOTH: [Three; 2] = [PCAP, PCAPNG];
