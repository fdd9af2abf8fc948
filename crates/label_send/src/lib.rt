//! Sending: a packet that a program of a node made is labelled by the node's tables, or denied with the first cause that holds.
//! `send` goes from octets to octets. What it has in common with forwarding, one packet with a label under a protocol in the
//! room that its header has, is `send_under`. The rules stand in `specs/`; the label options are those of FIPS 188 and RFC 5570.
#![tactic(auto)]

pub mod laws;
mod option;
mod protocol;
mod sending;
mod under;

pub use option::{calipso_for, cipso_for};
pub use protocol::{carrier_of, suits};
pub use sending::{send, send_into};
pub use under::send_under;
