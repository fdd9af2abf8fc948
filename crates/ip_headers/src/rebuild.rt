/// Why a packet can't be written with that label option.
#[derive(Clone, Copy, Debug, Drop, PartialEq, Eq)]
pub enum Rebuild {
    /// The options pass 40 octets in IPv4, or the Hop-by-Hop header passes 2,048 in IPv6.
    NoRoom,
    /// The length of the packet passes 65,535.
    TooLong,
    /// There is no memory for the packet.
    OutOfMemory,
}
