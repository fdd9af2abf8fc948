//! Numbers in either order of octets.
ghost use Rattle.std.specs.Prelude.{◌≡◌, ◌+◌, ◌≤◌, length, drop};
ghost use Rattle.net_io.specs.file_window.Numbers.{ordered_number};

use byteorder::{BigEndian, ByteOrder, LittleEndian};

/// Which octet of a number stands first.
#[derive(Clone, Copy, Debug, PartialEq, Eq)]
pub enum OctetOrder {
    /// The lowest.
    Little,
    /// The highest.
    Big,
}

impl OctetOrder {
    /// The number in the two octets at `at`.
    #[tactic(auto, unfolding(crate::specs::file_window::Numbers::ordered_number))]
    pub fn u16_at(self, octets: &[u8], at: usize) -> u16
        requires { at + 2 ≤ length octets.now }
        ensures { result ≡ ordered_number self 2 (drop at octets.now) }
    {
        match self {
            OctetOrder::Little => LittleEndian::read_u16(&octets[at..]),
            OctetOrder::Big => BigEndian::read_u16(&octets[at..]),
        }
    }

    /// The number in the four octets at `at`.
    #[tactic(auto, unfolding(crate::specs::file_window::Numbers::ordered_number))]
    pub fn u32_at(self, octets: &[u8], at: usize) -> u32
        requires { at + 4 ≤ length octets.now }
        ensures { result ≡ ordered_number self 4 (drop at octets.now) }
    {
        match self {
            OctetOrder::Little => LittleEndian::read_u32(&octets[at..]),
            OctetOrder::Big => BigEndian::read_u32(&octets[at..]),
        }
    }
}
