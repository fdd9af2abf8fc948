//! The reading and the writing of labels for programs in C: `include/netlabel.h` declares these calls, and `docs/library.md` says how they are used.
//! Each call is total, takes no memory and keeps nothing. Its contract is that of the crate whose call it is, with what a struct and a buffer of the
//! caller's then hold.
#![tactic(auto)]

mod option;
mod packet;
mod put;
mod runs;
mod status;
#[cfg(test)]
mod tests;
mod told;
mod write;

pub use option::{netlabel_read_calipso, netlabel_read_cipso};
pub use packet::netlabel_read_packet;
pub use status::Status;
pub use told::{CALIPSO, CIPSO, NONE, NetlabelLabel, NetlabelRun};
pub use write::{netlabel_write_calipso, netlabel_write_cipso};
