//! A reader of one capture, in either format.

ghost use Rattle.std.specs.Prelude.{◌≡◌, ◌≤◌, ℕ, List, IsTrue, [], length, None, OnErr, IfOk, IfSome, vec_len, option_map};
ghost use Rattle.std.specs.Result.{result_map_both};
ghost use Rattle.net_io.specs.Depot.{octets_of, OnlyReads};
ghost use Rattle.captures.specs.declared.format.CaptureFormat.{CaptureFormat as Format};
ghost use Rattle.captures.specs.Reader.{FramesLeft, file_name_of, format_of, left_of, IsReadable, IsFileBegun, IsNextFrame};
ghost use Rattle.captures.specs.Written.{IsTime};
ghost use Rattle.captures.specs.inside.Given.{IsGiven};

use crate::begin::begin_frames;
use crate::frames::{LinkedHead, next_packet, next_record};
use crate::packet::{no_packet, packet_of, taken};
use crate::packet_in::PacketIn;
use crate::{CaptureFormat, ReadStop};
use net_io::Depot;
use pcap_frames::{FrameHead, Frames};
use pcapng_frames::NgFrames;
use std::alloc::Global;
use std::marker::Model;

/// A reader of frames, of either format.
#[derive(Drop)]
pub enum AnyFrames {
    Pcap(Frames),
    Pcapng(NgFrames),
}

/// A reader of one capture: its file's first four octets tell the format.
#[derive(Drop)]
pub struct CaptureReader {
    frames: AnyFrames,
    /// Makes the packet without octets that stands in for one whose memory is being filled.
    alloc: Global,
}

impl Model for CaptureReader {
    ghost use Rattle.captures.specs.declared.reader.AnyFrames.{AnyFrames};

    ghost Value = { AnyFrames };

    ghost view = { λ reader. reader.frames };
}

/// Reads the next frame.
fn next_frame<D: Depot>(
    frames: &mut AnyFrames,
    depot: &mut D,
    into: &mut Vec<u8>,
) -> Result<Option<LinkedHead>, ReadStop>
    requires ready { IsReadable (D.state depot.old) frames.old }
    ensures answer { IsTrue (D.state depot.old).tells → IsGiven result into.new.items
        (left_of frames.old (octets_of ((D.state depot.old).held (file_name_of frames.old))))
        (left_of frames.new (octets_of ((D.state depot.old).held (file_name_of frames.old)))) }
    ensures short { vec_len into.new ≤ 262144 }
    ensures time { IfOk result (λ read. IfSome read
        (λ given. IsTime (format_of frames.old) given.head)) }
    ensures none { IfOk result (λ read. read ≡ None → into.new.items ≡ []) }
    ensures empty { OnErr result (into.new.items ≡ []) }
    ensures stands { OnErr result
        ((file : List ℕ) → left_of frames.new file ≡ left_of frames.old file) }
    ensures name { file_name_of frames.new ≡ file_name_of frames.old }
    ensures format { format_of frames.new ≡ format_of frames.old }
    ensures ready { IsReadable (D.state depot.new) frames.new }
    ensures frame { OnlyReads ReadStop.ReadFault result (file_name_of frames.old)
        (D.state depot.old) (D.state depot.new) }
{
    match frames {
        AnyFrames::Pcap(records) => next_record(records, depot, into),
        AnyFrames::Pcapng(packets) => next_packet(packets, depot, into),
    }
}

/// Puts what was read into `into`: the packet in the octets of a frame, or no octets.
fn put(
    read: Result<Option<LinkedHead>, ReadStop>,
    octets: Vec<u8>,
    into: &mut PacketIn,
) -> Result<Option<FrameHead>, ReadStop>
    requires none { IfOk read (λ given. given ≡ None → octets.items ≡ []) }
    requires empty { OnErr read (octets.items ≡ []) }
    ensures same { result ≡ result_map_both (option_map (λ given. given.head)) (λ stop. stop) read }
    ensures answer { (left left' : FramesLeft) → IsGiven read octets.items left left'
        → IsNextFrame result into.new left left' }
    ensures short { length into.new.bytes ≤ length octets.items }
    ensures time { (format : Format)
        → IfOk read (λ given. IfSome given (λ linked. IsTime format linked.head))
        → IfOk result (λ given. IfSome given (λ head. IsTime format head)) }
    ensures none { IfOk result (λ given. given ≡ None → into.new.bytes ≡ []) }
    ensures empty { OnErr result (into.new.bytes ≡ []) }
{
    match read {
        Ok(Some(given)) => {
            *into = packet_of(given.link, octets);
            Ok(Some(given.head))
        }
        Ok(None) => {
            *into = no_packet(octets);
            Ok(None)
        }
        Err(stop) => {
            *into = no_packet(octets);
            Err(stop)
        }
    }
}

impl CaptureReader {
    /// Reads the beginning of the capture of this name: the header of a libpcap file, or the first section header of a pcapng file,
    /// which is one whose first four octets are `0a 0d 0d 0a`. The reader keeps the name. `Capture` and `Ng` tell the first fault of
    /// that beginning and its octet; `ReadFault` comes only where the count of failed reads of this name rose in this call, and no
    /// other answer moves a count.
    pub fn begin<D: Depot>(
        alloc: Global,
        depot: &mut D,
        name: &str,
    ) -> Result<CaptureReader, ReadStop>
        ensures answer { IsTrue (D.state depot.old).tells
            → IsFileBegun result ((D.state depot.old).held name.now) }
        ensures name { IfOk result (λ reader. file_name_of reader ≡ name.now) }
        ensures ready { IfOk result (λ reader. IsReadable (D.state depot.new) reader) }
        ensures frame { OnlyReads ReadStop.ReadFault result name.now (D.state depot.old)
            (D.state depot.new) }
    {
        let frames = begin_frames(alloc, depot, name)?;
        Ok(CaptureReader { frames, alloc })
    }

    /// Reads the next frame and goes behind it: its packet of IP into `into`, or all its octets where it has none, in place of what
    /// was there and in the same memory. None exactly where the file ends behind whole records or blocks, and the same is left then.
    /// `Capture` and `Ng` tell the first fault and its octet; `ReadFault` comes only where the count of failed reads of the file's
    /// name rose in this call, and no other answer moves a count. After each of these errors the reader stands where it stood, and
    /// `into` is empty.
    pub fn next<D: Depot>(
        &mut self,
        depot: &mut D,
        into: &mut PacketIn,
    ) -> Result<Option<FrameHead>, ReadStop>
        requires ready { IsReadable (D.state depot.old) self.old }
        ensures answer { IsTrue (D.state depot.old).tells → IsNextFrame result into.new
            (left_of self.old (octets_of ((D.state depot.old).held (file_name_of self.old))))
            (left_of self.new (octets_of ((D.state depot.old).held (file_name_of self.old)))) }
        ensures short { length into.new.bytes ≤ 262144 }
        ensures time { IfOk result
            (λ read. IfSome read (λ head. IsTime (format_of self.old) head)) }
        ensures none { IfOk result (λ read. read ≡ None → into.new.bytes ≡ []) }
        ensures empty { OnErr result (into.new.bytes ≡ []) }
        ensures stands { OnErr result
            ((file : List ℕ) → left_of self.new file ≡ left_of self.old file) }
        ensures name { file_name_of self.new ≡ file_name_of self.old }
        ensures format { format_of self.new ≡ format_of self.old }
        ensures ready { IsReadable (D.state depot.new) self.new }
        ensures frame { OnlyReads ReadStop.ReadFault result (file_name_of self.old)
            (D.state depot.old) (D.state depot.new) }
    {
        let mut octets = taken(self.alloc, into);
        let read = next_frame(&mut self.frames, depot, &mut octets);
        put(read, octets, into)
    }

    /// Whether the next frame stands in what was read, so that `next` reads nothing.
    pub fn is_ahead(&self) -> bool {
        match &self.frames {
            AnyFrames::Pcap(records) => records.is_ahead(),
            AnyFrames::Pcapng(packets) => packets.is_ahead(),
        }
    }

    /// The capture's format, which an output of its packets has too.
    pub fn format(&self) -> CaptureFormat
        ensures { result ≡ format_of self.now }
    {
        match &self.frames {
            AnyFrames::Pcap(records) => CaptureFormat::Pcap {
                nanos: records.nanos(),
            },
            AnyFrames::Pcapng(_) => CaptureFormat::Pcapng,
        }
    }
}
