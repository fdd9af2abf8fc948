//! Writing a capture: lowest octet first, version 2.4, snap length 262,144, link type 101 (raw IP).
ghost use Rattle.std.specs.Prelude.{◌≡◌, ◌++◌, ◌≤◌, length, OnOk, OnErr};
ghost use Rattle.byteorder.specs.Endian.{little_bytes};
ghost use Rattle.pcap_frames.specs.Written.{capture_head_octets, frame_octets};

use crate::FrameHead;
use crate::header::{CAPTURE_HEAD, MICROSECONDS, NANOSECONDS};
use crate::record::{MOST_CAPTURED, RECORD_HEAD};
use byteorder::{ByteOrder, LittleEndian};
use net_io::OutOfMemory;

/// The link type of a written capture: IP packets alone.
const RAW_IP: u32 = 101;

/// The octets of a header.
#[tactic(auto, unfolding(crate::specs::Written::capture_head_octets))]
fn header_octets(nanos: bool) -> [u8; CAPTURE_HEAD]
    ensures { result ≡ capture_head_octets nanos }
{
    let mut octets = [0; CAPTURE_HEAD];
    LittleEndian::write_u32(&mut octets, if nanos { NANOSECONDS } else { MICROSECONDS });
    LittleEndian::write_u16(&mut octets[4..], 2);
    LittleEndian::write_u16(&mut octets[6..], 4);
    LittleEndian::write_u32(&mut octets[16..], MOST_CAPTURED);
    LittleEndian::write_u32(&mut octets[20..], RAW_IP);
    octets
}

/// The octets of the head of a record that was captured whole.
fn record_octets(head: FrameHead, length: u32) -> [u8; RECORD_HEAD]
    ensures { result ≡ little_bytes 4 head.seconds
        ++ (little_bytes 4 head.fraction ++ (little_bytes 4 length ++ little_bytes 4 length)) }
{
    let mut octets = [0; RECORD_HEAD];
    LittleEndian::write_u32(&mut octets, head.seconds);
    LittleEndian::write_u32(&mut octets[4..], head.fraction);
    LittleEndian::write_u32(&mut octets[8..], length);
    LittleEndian::write_u32(&mut octets[12..], length);
    octets
}

/// Appends the header of a capture whose fractions are nanoseconds, or microseconds.
pub fn write_head(nanos: bool, out: &mut Vec<u8>) -> Result<(), OutOfMemory>
    ensures ok { OnOk result (out.new.items ≡ out.old.items ++ capture_head_octets nanos) }
    ensures err { OnErr result (out.new.items ≡ out.old.items) }
{
    out.extend_from_slice(&header_octets(nanos))?;
    Ok(())
}

/// Appends the record of a frame of at most 262,144 octets, with their number as captured and original length.
#[tactic(auto, unfolding(crate::specs::Written::frame_octets))]
pub fn write_frame(head: FrameHead, bytes: &[u8], out: &mut Vec<u8>) -> Result<(), OutOfMemory>
    requires { length bytes.now ≤ 262144 }
    ensures ok { OnOk result (out.new.items ≡ out.old.items ++ frame_octets head bytes.now) }
    ensures err { OnErr result (out.new.items ≡ out.old.items) }
{
    out.reserve(RECORD_HEAD + bytes.len())?;
    out.extend_from_slice(&record_octets(head, bytes.len() as u32))?;
    out.extend_from_slice(bytes)?;
    Ok(())
}
