//! Why a file isn't a capture, and why a reader of one stops.
ghost use Rattle.std.specs.Prelude.{◌≡◌};
ghost use Rattle.captures.specs.inside.Stops.{read_stop, pcap_stop, ng_stop};

use net_io::IoFault;
use pcap_frames::{CaptureFault, FrameStop};
use pcapng_frames::{NgFault, NgStop};

/// The first fault of a capture file, by its format.
#[derive(Clone, Copy, Debug, PartialEq, Eq)]
pub enum FileFault {
    /// Of a libpcap file, or of one whose first four octets name no format.
    Pcap(CaptureFault),
    /// Of a pcapng file.
    Pcapng(NgFault),
}

/// Why a reader of a capture gives nothing.
#[derive(Clone, Copy, Debug, PartialEq, Eq)]
pub enum ReadStop {
    /// The file is no libpcap capture, here.
    Capture(CaptureFault),
    /// The file is no pcapng capture, here.
    Ng(NgFault),
    /// A read of the file has failed, and was counted.
    ReadFault,
    /// No memory was left for what the call keeps.
    OutOfMemory,
}

impl From<IoFault> for ReadStop {
    ghost from_gives = { λ fault stop. stop ≡ read_stop fault };

    fn from(fault: IoFault) -> Self {
        match fault {
            IoFault::Failed => ReadStop::ReadFault,
            IoFault::OutOfMemory => ReadStop::OutOfMemory,
        }
    }
}

impl From<FrameStop> for ReadStop {
    ghost from_gives = { λ given stop. stop ≡ pcap_stop given };

    fn from(given: FrameStop) -> Self {
        match given {
            FrameStop::Capture(fault) => ReadStop::Capture(fault),
            FrameStop::ReadFault => ReadStop::ReadFault,
            FrameStop::OutOfMemory => ReadStop::OutOfMemory,
        }
    }
}

impl From<NgStop> for ReadStop {
    ghost from_gives = { λ given stop. stop ≡ ng_stop given };

    fn from(given: NgStop) -> Self {
        match given {
            NgStop::Capture(fault) => ReadStop::Ng(fault),
            NgStop::ReadFault => ReadStop::ReadFault,
            NgStop::OutOfMemory => ReadStop::OutOfMemory,
        }
    }
}
