//! What a packet carries, in both versions of IP: its headers, and the label that its CIPSO or CALIPSO option says. A packet
//! is read with its label, or has one first fault with its octet; it is written again with another label option or none.
//! The words of a judgement stand here too: what carried a label, and why a packet is denied.
#![tactic(auto)]

mod denial;
mod fault;
pub mod laws;
mod option;
mod packet;
mod read;
mod write;

pub use denial::{Carrier, Denial, Stop, cause_name};
pub use fault::CarryFault;
pub use option::WireOption;
pub use packet::{Carried, Mark, Marked, Packet, Wire};
pub use read::{carried, carried_into, label_at};
pub use write::{relabel, relabel_with};
