/// Why a packet that can cross isn't written.
#[derive(Clone, Copy, Debug, Drop, PartialEq, Eq)]
pub enum CrossFault {
    /// The length field of the new packet would pass 65,535.
    TooLong,
    /// There is no memory for the packet.
    OutOfMemory,
}
