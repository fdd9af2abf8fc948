//! What tags have room for: an option of 40 octets leaves 34 for its tag.

/// The octets before a tag's body: type, length, alignment, level.
pub const HEADER_OCTETS: usize = 4;

/// The octets of the longest body.
pub const MOST_OCTETS: usize = 30;

/// The octets of the longest tag.
pub const TAG_OCTETS: usize = 34;

/// The highest category of a bitmap of 30 octets.
pub const HIGHEST_IN_BITMAP: u16 = 239;

/// The categories of the longest enumeration, in two octets each.
pub const MOST_CATEGORIES: usize = 15;

/// The ranges of the longest tag of ranges, with two numbers of two octets each.
pub const MOST_RANGES: usize = 7;
