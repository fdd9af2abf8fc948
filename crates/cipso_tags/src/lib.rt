//! The tags of a CIPSO option (FIPS 188; CIPSO draft 2.2, section 3.4): a label's level and categories as a bitmap
//! (type 1), as an enumeration (type 2) or as ranges (type 5). Each octet string begins with exactly one tag, or has
//! one fault at the first octet that no tag has there.
#![tactic(auto)]

mod append;
mod body;
mod bounds;
mod header;
pub mod laws;
mod tag;
mod write;

pub use bounds::{HIGHEST_IN_BITMAP, MOST_CATEGORIES, MOST_RANGES, TAG_OCTETS};
pub use header::{has_length, tag_of_type};
pub use tag::{read_tag, read_tag_into};
pub use write::{append_tag, can_express, type_octet, write_tag};
