/// The fields of a header of IPv4 (RFC 791, section 3.1) that are written as they are given.
#[derive(Clone, Copy, Debug, Drop)]
pub struct Fields4 {
    /// The type of service.
    pub tos: u8,
    /// The identification.
    pub id: u16,
    /// The flags, and the fragment offset in the low thirteen bits.
    pub flags_offset: u16,
    /// Time to live.
    pub hops: u8,
    /// The protocol of the payload.
    pub protocol: u8,
    /// The address of the sender.
    pub source: [u8; 4],
    /// The address of the receiver.
    pub destination: [u8; 4],
}

/// The fields of a header of IPv6 (RFC 8200, section 3) that are written as they are given.
#[derive(Clone, Copy, Debug, Drop)]
pub struct Fields6 {
    /// The traffic class.
    pub class: u8,
    /// The flow label, of 20 bits.
    pub flow_label: u32,
    /// The hop limit.
    pub hops: u8,
    /// The protocol of the payload: the next header after Hop-by-Hop.
    pub protocol: u8,
    /// The address of the sender.
    pub source: [u8; 16],
    /// The address of the receiver.
    pub destination: [u8; 16],
}
