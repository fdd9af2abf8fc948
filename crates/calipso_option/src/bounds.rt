//! An option's type, and what options have room for (RFC 5570, section 5.1).

/// The Hop-by-Hop option type of CALIPSO.
pub const OPTION_TYPE: u8 = 7;

/// The words of four octets of the longest bitmap.
pub const MOST_WORDS: u8 = 61;

/// The octets of the longest option.
pub const MOST_OCTETS: usize = 254;

/// The last category of 61 words.
pub const HIGHEST_CATEGORY: u16 = 1951;
