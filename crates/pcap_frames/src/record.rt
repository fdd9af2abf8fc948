//! The head of a record: seconds, fraction, captured length, original length, u32 each; then the captured octets.
ghost use Rattle.std.specs.Prelude.{◌≡◌, ◌+◌, ◌<◌, ◌≤◌, ◌^◌, length, IfOk, IfSome};
ghost use Rattle.pcap_frames.specs.Record.{head_at};

use crate::{CaptureFault, CaptureKind, OctetOrder};

/// How many octets the head of a record has.
pub const RECORD_HEAD: usize = 16;

/// The most octets of a record that are read and written.
pub const MOST_CAPTURED: u32 = 262_144;

/// When a frame was captured.
#[derive(Clone, Copy, Debug, PartialEq, Eq)]
pub struct FrameHead {
    /// Seconds since the beginning of 1970, UTC.
    pub seconds: u32,
    /// Microseconds or nanoseconds, as the capture's header says; not tested.
    pub fraction: u32,
}

/// The head of a record that passes all tests.
#[derive(Clone, Copy, Debug, PartialEq, Eq)]
pub struct RecordHead {
    pub frame: FrameHead,
    pub captured: u32,
}

/// Reads the head of a record at the octet `at` of a file, from the octets there: at least 16, or all that are left.
pub fn read_record_head(
    order: OctetOrder,
    at: u64,
    octets: &[u8],
) -> Result<Option<RecordHead>, CaptureFault>
    requires { at + length octets.now < 2 ^ 64 }
    ensures value { result ≡ head_at order at octets.now }
    ensures head { IfOk result (λ read. IfSome read (λ head. 16 ≤ length octets.now)) }
    ensures captured { IfOk result (λ read. IfSome read (λ head. head.captured ≤ 262144)) }
{
    // Of either order by itself, so that it isn't asked for at each number.
    match order {
        OctetOrder::Little => read_head(OctetOrder::Little, at, octets),
        OctetOrder::Big => read_head(OctetOrder::Big, at, octets),
    }
}

// The same, whose order its caller knows.
#[tactic(auto, unfolding(crate::specs::Record::head_at))]
#[inline(always)]
fn read_head(order: OctetOrder, at: u64, octets: &[u8]) -> Result<Option<RecordHead>, CaptureFault>
    requires { at + length octets.now < 2 ^ 64 }
    ensures value { result ≡ head_at order at octets.now }
    ensures head { IfOk result (λ read. IfSome read (λ head. 16 ≤ length octets.now)) }
    ensures captured { IfOk result (λ read. IfSome read (λ head. head.captured ≤ 262144)) }
{
    if octets.is_empty() {
        return Ok(None);
    }
    if octets.len() < RECORD_HEAD {
        return Err(CaptureFault {
            octet: at + octets.len() as u64,
            kind: CaptureKind::Short,
        });
    }
    let captured = order.u32_at(octets, 8);
    if captured > MOST_CAPTURED {
        return Err(CaptureFault {
            octet: at + 8,
            kind: CaptureKind::Captured,
        });
    }
    if captured < order.u32_at(octets, 12) {
        return Err(CaptureFault {
            octet: at + 8,
            kind: CaptureKind::SnapCut,
        });
    }
    let frame = FrameHead {
        seconds: order.u32_at(octets, 0),
        fraction: order.u32_at(octets, 4),
    };
    Ok(Some(RecordHead { frame, captured }))
}
