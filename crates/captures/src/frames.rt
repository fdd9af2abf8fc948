//! The next frame of a file, with its link type, by the reader of its format.
ghost use Rattle.std.specs.Prelude.{◌≡◌, ◌≤◌, ◌<◌, IsTrue, [], None, OnErr, IfOk, IfSome, vec_len};
ghost use Rattle.net_io.specs.Depot.{octets_of, OnlyReads};
ghost use Rattle.pcap_frames.specs.Reader.{IsReady};
ghost use Rattle.pcapng_frames.specs.Reader.{IsNgReady};
ghost use Rattle.captures.specs.Reader.{left_of};
ghost use Rattle.captures.specs.inside.Given.{IsGiven};

use crate::ReadStop;
use crate::reader::AnyFrames;
use net_io::Depot;
use pcap_frames::{FrameHead, Frames};
use pcapng_frames::{NgFrames, NgHead};

/// When a frame was captured, and its link type.
#[derive(Clone, Copy, Debug, PartialEq, Eq)]
pub struct LinkedHead {
    pub head: FrameHead,
    pub link: u32,
}

/// The head of a packet of pcapng.
fn linked(given: NgHead) -> LinkedHead
    ensures { result ≡ record {
      head = record { seconds = given.seconds; fraction = given.nanos };
      link = given.link;
    } }
{
    let head = FrameHead {
        seconds: given.seconds,
        fraction: given.nanos,
    };
    LinkedHead {
        head,
        link: given.link,
    }
}

/// Reads the next record of a libpcap file.
pub(crate) fn next_record<D: Depot>(
    frames: &mut Frames,
    depot: &mut D,
    into: &mut Vec<u8>,
) -> Result<Option<LinkedHead>, ReadStop>
    requires ready { IsReady (D.state depot.old) frames.old }
    ensures answer { IsTrue (D.state depot.old).tells → IsGiven result into.new.items
        (left_of (AnyFrames.Pcap frames.old) (octets_of ((D.state depot.old).held frames.old.name)))
        (left_of (AnyFrames.Pcap frames.new)
        (octets_of ((D.state depot.old).held frames.old.name))) }
    ensures short { vec_len into.new ≤ 262144 }
    ensures none { IfOk result (λ read. read ≡ None → into.new.items ≡ []) }
    ensures empty { OnErr result (into.new.items ≡ []) }
    ensures stands { OnErr result (frames.new.place ≡ frames.old.place) }
    ensures name { frames.new.name ≡ frames.old.name }
    ensures header { frames.new.header ≡ frames.old.header }
    ensures ready { IsReady (D.state depot.new) frames.new }
    ensures frame { OnlyReads ReadStop.ReadFault result frames.old.name (D.state depot.old)
        (D.state depot.new) }
{
    let link = frames.link();
    match frames.next(depot, into)? {
        Some(head) => Ok(Some(LinkedHead { head, link })),
        None => Ok(None),
    }
}

/// Reads the next packet of a pcapng file.
pub(crate) fn next_packet<D: Depot>(
    frames: &mut NgFrames,
    depot: &mut D,
    into: &mut Vec<u8>,
) -> Result<Option<LinkedHead>, ReadStop>
    requires ready { IsNgReady (D.state depot.old) frames.old }
    ensures answer { IsTrue (D.state depot.old).tells → IsGiven result into.new.items
        (left_of (AnyFrames.Pcapng frames.old)
        (octets_of ((D.state depot.old).held frames.old.name)))
        (left_of (AnyFrames.Pcapng frames.new)
        (octets_of ((D.state depot.old).held frames.old.name))) }
    ensures short { vec_len into.new ≤ 262144 }
    ensures time { IfOk result (λ read. IfSome read (λ given. given.head.fraction < 1000000000)) }
    ensures none { IfOk result (λ read. read ≡ None → into.new.items ≡ []) }
    ensures empty { OnErr result (into.new.items ≡ []) }
    ensures stands { OnErr result (frames.new.place ≡ frames.old.place) }
    ensures section { OnErr result (frames.new.section ≡ frames.old.section) }
    ensures name { frames.new.name ≡ frames.old.name }
    ensures ready { IsNgReady (D.state depot.new) frames.new }
    ensures frame { OnlyReads ReadStop.ReadFault result frames.old.name (D.state depot.old)
        (D.state depot.new) }
{
    match frames.next(depot, into)? {
        Some(given) => Ok(Some(linked(given))),
        None => Ok(None),
    }
}
