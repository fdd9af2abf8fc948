//! A packet that was judged.

use captures::CaptureFormat;
use label_flow::Walked;
use pcap_frames::FrameHead;

/// What became of a packet of a flow.
#[derive(Drop)]
pub struct Judged<'a> {
    /// Its number in the flow, counted from 1.
    pub number: u64,
    /// The format of its capture.
    pub format: CaptureFormat,
    /// The time of its frame.
    pub head: FrameHead,
    /// Its walk over the hops.
    pub walked: &'a Walked,
    /// The octets that the walk left.
    pub packet: &'a [u8],
}
