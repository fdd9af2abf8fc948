/// Why a packet can't be carried over into the other version.
#[derive(Clone, Copy, Debug, Drop, PartialEq, Eq)]
pub enum Cause {
    /// The protocol is neither TCP nor UDP.
    Protocol,
    /// The packet is a fragment, or may become one.
    Fragment,
    /// The header has options that the other version lacks.
    Options,
    /// The payload is shorter than the header of its protocol.
    Segment,
    /// A UDP checksum of 0.
    NoChecksum,
}
