//! Laws: what is true of made captures. Each is a function with nothing to do, whose clause is the law.

ghost use Rattle.std.specs.Prelude.{◌≡◌, ℕ, ◌+◌, ◌^◌, ◌<◌, ◌≤◌, false, List, ◌++◌, length, None};
ghost use Rattle.net_io.specs.declared.file_window.order.OctetOrder.TheVariants.{Little};
ghost use Rattle.pcap_frames.specs.Capture.{IsCapture};
ghost use Rattle.pcap_frames.specs.Written.{capture_head_octets, frame_octets};
ghost use Rattle.packet_label.specs.Packet.{IsPacket};
ghost use Rattle.made_run.specs.made_capture.Packet.{packet_made, packet_said};
ghost use Rattle.made_run.specs.made_capture.Capture.{frame_made, frames_made, capture_made};

/// The packet of each number reads back: it is a packet of version 4, and what its option says is the number's label, in tag 1
/// under DOI 16, at octet 20.
pub fn made_packets_say_their_label()
    ensures { (x : ℕ) → IsPacket (packet_made x) (packet_said x) }
{}

/// Each of them has 40 octets.
pub fn made_packets_have_40_octets()
    ensures { (x : ℕ) → length (packet_made x) ≡ 40 }
{}

/// A capture begins with its head alone, and each packet adds its frame.
pub fn captures_grow_by_a_frame()
    ensures none { (seed : ℕ) → capture_made seed 0 ≡ capture_head_octets false }
    ensures more { (seed count : ℕ)
        → let frame = frame_made seed (count + 1) in
        capture_made seed (count + 1) ≡ capture_made seed count
        ++ frame_octets frame.head frame.octets }
{}

/// A capture of fewer packets from a number begins each longer one.
pub fn shorter_captures_begin_longer_ones()
    ensures { (seed few many : ℕ) → few ≤ many
        → (rest : List ℕ) × (capture_made seed many ≡ capture_made seed few ++ rest) }
{}

/// A made capture is a capture of the made frames.
pub fn made_captures_read_back()
    ensures { (seed count : ℕ) → count < 2 ^ 32
        → IsCapture (capture_made seed count)
        (record {
          header = record { order = Little; nanos = false; link = 101 };
          frames = frames_made seed count;
          fault = None;
        }) }
{}
