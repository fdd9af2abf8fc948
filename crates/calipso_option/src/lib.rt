//! The CALIPSO option of IPv6 (Hop-by-Hop option 7, RFC 5570): a DOI, a level and a bitmap of compartments under a
//! checksum. Each octet string begins with exactly one option, or has one fault: the first octet that no option has
//! there, or else its checksum.
#![tactic(auto)]

mod bounds;
mod calipso;
mod crc;
mod fault;
pub mod laws;
mod layout;
mod read;
mod table;
mod write;

pub use bounds::{HIGHEST_CATEGORY, MOST_OCTETS, MOST_WORDS};
pub use calipso::Calipso;
pub use crc::crc16;
pub use fault::CalipsoFault;
pub use read::{CalipsoHead, read_calipso, read_calipso_into};
pub use write::{can_express, write_calipso};
