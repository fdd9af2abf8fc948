ghost use Rattle.std.specs.Prelude.{◌≡◌};

/// Why octets are no packet: the first test that fails.
#[derive(Clone, Copy, Debug, Drop, PartialEq, Eq)]
pub struct HeadFault {
    /// Counted from the packet's first octet; at most the length of what was read.
    pub octet: usize,
    pub kind: HeadKind,
}

/// What is wrong there.
#[derive(Clone, Copy, Debug, Drop, PartialEq, Eq)]
pub enum HeadKind {
    /// The octets end before the fixed header does.
    Short,
    /// The version isn't the reader's.
    Version,
    /// The header's own length is below 20 octets, or a Hop-by-Hop header passes the payload.
    HeaderLength,
    /// The length of the packet is below its header, or above the octets at hand.
    TotalLength,
    /// The one's complement sum of an IPv4 header isn't 0xFFFF.
    Checksum,
    /// An option passes its header, or has an impossible length.
    OptionList,
    /// A Jumbo Payload option of IPv6 (RFC 2675).
    Jumbo,
    /// A second label option.
    SecondLabel,
}

/// A fault at this octet.
pub(crate) fn fault(octet: usize, kind: HeadKind) -> HeadFault
    ensures { result ≡ record { octet = octet; kind = kind } }
{
    HeadFault { octet, kind }
}
