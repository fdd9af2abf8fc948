//! Captures in the libpcap file format (version 2.4) and in pcapng (draft-ietf-opsawg-pcapng), by one reader: the first four
//! octets of a file tell its format. A reader gives the packet of IP in each frame, and the format in which an output of the
//! same packets is written. One more format is a crate of its own, which reads and writes it, and a variant here of `AnyFrames`,
//! `FileFault` and `CaptureFormat`, with their cases in `specs/` and the test of its first octets in `begin.rt`.
//!
//! A capture that is made: its frames are gathered, and appended to its file in pieces of some kilobytes. What a call has appended,
//! and what still waits, is one text (`HasAppended`).
#![tactic(auto)]

mod begin;
mod fault;
mod format;
mod frames;
pub mod laws;
mod output;
mod packet;
mod packet_in;
mod reader;

pub use fault::{FileFault, ReadStop};
pub use format::CaptureFormat;
pub use output::{add_frame, append_rest, create_capture, finish_capture};
pub use packet_in::{Octets, PacketIn};
pub use reader::CaptureReader;
