//! The format of a capture, and captures that are written in it.

ghost use Rattle.std.specs.Prelude.{◌≡◌, ◌++◌, ◌≤◌, length, OnOk, OnErr};
ghost use Rattle.captures.specs.Written.{file_head, file_frame, IsTime};

use net_io::OutOfMemory;
use pcap_frames::{FrameHead, write_frame, write_head};
use pcapng_frames::{write_ng_frame, write_ng_head};

/// The format of a capture.
#[derive(Clone, Copy, Debug, PartialEq, Eq)]
pub enum CaptureFormat {
    /// The libpcap file format; fractions of a second are nanoseconds, or microseconds.
    Pcap { nanos: bool },
    /// The pcapng file format; fractions of a second are nanoseconds.
    Pcapng,
}

impl CaptureFormat {
    /// Appends the beginning of a capture of link type 101 (raw IP). After an error `out` is as it was.
    pub fn write_head(self, out: &mut Vec<u8>) -> Result<(), OutOfMemory>
        ensures ok { OnOk result (out.new.items ≡ out.old.items ++ file_head self) }
        ensures err { OnErr result (out.new.items ≡ out.old.items) }
    {
        match self {
            CaptureFormat::Pcap { nanos } => write_head(nanos, out),
            CaptureFormat::Pcapng => write_ng_head(out),
        }
    }

    /// Appends a frame of raw IP with at most 262,144 octets. In pcapng the fraction of its time is nanoseconds, below a second.
    /// After an error `out` is as it was.
    pub fn write_frame(
        self,
        head: FrameHead,
        bytes: &[u8],
        out: &mut Vec<u8>,
    ) -> Result<(), OutOfMemory>
        requires short { length bytes.now ≤ 262144 }
        requires time { IsTime self head }
        ensures ok { OnOk result (out.new.items ≡ out.old.items ++ file_frame self head bytes.now) }
        ensures err { OnErr result (out.new.items ≡ out.old.items) }
    {
        match self {
            CaptureFormat::Pcap { nanos: _ } => write_frame(head, bytes, out),
            CaptureFormat::Pcapng => write_ng_frame(head, bytes, out),
        }
    }
}
