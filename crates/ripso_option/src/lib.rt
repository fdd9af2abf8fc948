//! The Basic Security Option of IPv4 (option 130): a classification level and protection authority flags, in a layout
//! after RFC 1108. Each octet string begins with exactly one option, or has one fault: the first octet that no
//! option has there.
#![tactic(auto)]

mod bounds;
mod class;
mod flags;
pub mod laws;
mod layout;
mod read;
mod write;

pub use bounds::{HIGHEST_FLAG, MOST_OCTETS, OPTION_TYPE};
pub use read::{read_ripso, read_ripso_into};
pub use write::{ripso_can_express, write_ripso};
