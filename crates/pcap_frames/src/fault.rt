//! Why a file isn't a capture, and why a reader of one stops.
ghost use Rattle.std.specs.Prelude.{◌≡◌};
ghost use Rattle.pcap_frames.specs.declared.fault.FrameStop.TheVariants.{Capture as StopCapture, OutOfMemory as StopOutOfMemory};
ghost use Rattle.pcap_frames.specs.inside.Stops.{stop_of};

use net_io::{IoFault, OutOfMemory};
use std::alloc::AllocError;

/// What is wrong at the octet of a fault.
#[derive(Clone, Copy, Debug, PartialEq, Eq)]
pub enum CaptureKind {
    /// The first four octets are no magic in either order.
    Magic,
    /// The version isn't 2.4.
    Version,
    /// The link type isn't 1, 101, 228 or 229.
    LinkType,
    /// A record has more than 262,144 captured octets.
    Captured,
    /// A record was cut when it was captured.
    SnapCut,
    /// The file ends within the header or a record.
    Short,
}

/// The first fault of a file that isn't a capture, and its octet, counted from 0.
#[derive(Clone, Copy, Debug, PartialEq, Eq)]
pub struct CaptureFault {
    pub octet: u64,
    pub kind: CaptureKind,
}

/// Why a reader of a capture gives nothing.
#[derive(Clone, Copy, Debug, PartialEq, Eq)]
pub enum FrameStop {
    /// The file is no capture, here.
    Capture(CaptureFault),
    /// A read of the file has failed, and was counted.
    ReadFault,
    /// No memory was left for what the call keeps.
    OutOfMemory,
}

impl From<CaptureFault> for FrameStop {
    ghost from_gives = { λ fault stop. stop ≡ StopCapture fault };

    fn from(fault: CaptureFault) -> Self {
        FrameStop::Capture(fault)
    }
}

impl From<IoFault> for FrameStop {
    ghost from_gives = { λ fault stop. stop ≡ stop_of fault };

    fn from(fault: IoFault) -> Self {
        match fault {
            IoFault::Failed => FrameStop::ReadFault,
            IoFault::OutOfMemory => FrameStop::OutOfMemory,
        }
    }
}

impl From<AllocError> for FrameStop {
    ghost from_gives = { λ _ stop. stop ≡ StopOutOfMemory };

    fn from(_: AllocError) -> Self {
        FrameStop::OutOfMemory
    }
}

impl From<OutOfMemory> for FrameStop {
    ghost from_gives = { λ _ stop. stop ≡ StopOutOfMemory };

    fn from(_: OutOfMemory) -> Self {
        FrameStop::OutOfMemory
    }
}
