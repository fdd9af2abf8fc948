//! Label options that are to be written.

use arrayvec::ArrayVec;

/// The octets of a label option.
#[derive(Drop)]
pub enum WireOption {
    /// A CIPSO option of IPv4, at most 40 octets (FIPS 188).
    Cipso(ArrayVec<u8, 40>),
    /// A CALIPSO option of IPv6, at most 254 octets (RFC 5570).
    Calipso(ArrayVec<u8, 254>),
}
