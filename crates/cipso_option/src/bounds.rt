//! An option's type, and the lengths of options.

/// The option type of CIPSO.
pub const OPTION_TYPE: u8 = 134;

/// The octets before an option's tag: type, length and DOI.
pub const HEAD_OCTETS: usize = 6;

/// The octets of the shortest option, whose tag has no category.
pub const FEWEST_OCTETS: usize = 10;

/// The octets of the longest option that an IPv4 header has room for.
pub const MOST_OCTETS: usize = 40;
