//! Bitmaps of categories, as two formats on the wire carry them: the CIPSO option (FIPS 188, tag type 1) and the
//! CALIPSO option (RFC 5570, section 5.1). Category c is the bit 7 - c mod 8 of octet c / 8.

pub mod laws;
mod read;
mod write;

pub use read::read_bitmap;
pub use write::{octets_of, write_bitmap};
