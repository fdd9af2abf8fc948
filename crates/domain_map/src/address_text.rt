//! Names, addresses and address prefixes, as a node's commands spell them: RFC 791 and RFC 4291 for what is read,
//! RFC 5952 for what is written. Contracts see a name as its text, an address as its octets, and a prefix as an address
//! and a number of bits.

mod address;
pub mod laws;
mod name;
mod octets;
mod prefix;
mod writing;

pub use address::{Address, read_address};
pub use name::{Name, read_name};
pub use prefix::{Prefix, read_prefix};
pub use writing::{write_address, write_prefix};
