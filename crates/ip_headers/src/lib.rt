//! The headers of IPv4 (RFC 791) and IPv6 (RFC 8200, with its Hop-by-Hop Options header): a packet is
//! read without memory, and written again with another label option and other hops. The label option
//! (CIPSO in IPv4, CALIPSO in IPv6) is any octets here: its content is not read.
#![tactic(auto)]

mod cause;
mod fault;
mod fields;
mod kind;
mod label;
pub mod laws;
mod layout;
mod one_kind;
mod options;
mod packet4;
mod packet6;
mod parts;
mod rebuild;
mod sum;
mod version;
mod walk;
mod writing4;
mod writing6;

pub use cause::Cause;
pub use fault::{HeadFault, HeadKind};
pub use fields::{Fields4, Fields6};
pub use packet4::{Packet4, front4, read4, rebuild_swap4, rebuild4};
pub use packet6::{Packet6, front6, read6, rebuild6};
pub use rebuild::Rebuild;
pub use sum::{ones_add, ones_sum};
pub use version::Version;
pub use writing4::write4;
pub use writing6::write6;
