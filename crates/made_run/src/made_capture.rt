//! Captures that are made, for trials: each packet follows from a number, and all numbers from the first, so that one number
//! says a capture of any length. The packets are datagrams of UDP in IPv4 with a label in a CIPSO option (tag 1, DOI 16);
//! level, categories and the last octet of the source change from packet to packet.

pub mod laws;
mod maker;
mod number;
mod packet;

pub use maker::Maker;
