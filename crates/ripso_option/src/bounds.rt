//! What options have room for: this project's layout after RFC 1108.

/// The IPv4 option type of the Basic Security Option (RFC 1108).
pub const OPTION_TYPE: u8 = 130;

/// The octets before the flags: type, length and classification level.
pub const HEADER_OCTETS: u8 = 3;

/// The octets of the longest option.
pub const MOST_OCTETS: usize = 7;

/// The octets of the longest field of flags.
pub const MOST_FLAG_OCTETS: usize = 4;

/// The flags of an octet; its last bit is the field termination indicator (RFC 1108).
pub const FLAGS_IN_OCTET: u16 = 7;

/// The last of the 28 flags.
pub const HIGHEST_FLAG: u16 = 27;
