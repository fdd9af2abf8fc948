//! Captures in the pcapng format (draft-ietf-opsawg-pcapng): read frame by frame through a window of the file. A file is
//! blocks one behind another, each with its length in front and behind; section headers give the order of octets, interface
//! descriptions the link type and the resolution of times, enhanced packet blocks the frames. Each file is one or has one
//! first fault. Over the named files of `net_io`.
//! One more type of block is a constant of `head.rt` with its least length, an arm of `take_block` in `blocks.rt` with the
//! function that takes it, and a case of `said_by` in `specs/Block.antt`.
#![tactic(auto)]

mod ahead;
mod blocks;
mod describing;
mod fault;
mod frames;
mod head;
mod interface;
pub mod laws;
mod look;
mod options;
mod packet;
mod reading;
mod section;
mod taking;
mod write;

pub use fault::{NgFault, NgKind, NgStop};
pub use frames::NgFrames;
pub use interface::Interface;
pub use packet::NgHead;
pub use write::{write_ng_frame, write_ng_head};
