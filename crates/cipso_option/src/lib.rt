//! The CIPSO option of IPv4 (option 134; FIPS 188; CIPSO draft 2.2): a DOI and one tag that fills the option. Each octet
//! string begins with exactly one option, or has one fault at the first octet that no option has there.
#![tactic(auto)]

mod bounds;
mod cipso;
mod head;
pub mod laws;
mod read;
mod write;

pub use bounds::MOST_OCTETS;
pub use cipso::Cipso;
pub use read::{CipsoHead, read_cipso, read_cipso_into};
pub use write::{first_tag, write_cipso};
