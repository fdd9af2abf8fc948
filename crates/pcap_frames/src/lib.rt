//! Captures in the libpcap file format, version 2.4: read record by record through a window of the file, and written.
//! A capture is a header of 24 octets and then records, each a head of 16 octets and its captured octets; each file is
//! one or has one first fault, which stands within it. Over the named files of `net_io`.
#![tactic(auto)]

mod fault;
mod frames;
mod header;
mod ip;
pub mod laws;
mod reading;
mod record;
mod write;

pub use fault::{CaptureFault, CaptureKind, FrameStop};
pub use frames::Frames;
pub use header::CaptureHeader;
pub use ip::ip_part;
pub use net_io::OctetOrder;
pub use record::FrameHead;
pub use write::{write_frame, write_head};
