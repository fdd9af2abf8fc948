//! A reader of one capture.
ghost use Rattle.std.specs.Prelude.{◌≡◌, ◌+◌, ◌≤◌, IsTrue, [], drop, None, option_map, is_some, if◌then◌else◌, vec_len, vec_capacity, OnErr, IfOk};
ghost use Rattle.net_io.specs.Depot.{octets_of, OnlyReads};
ghost use Rattle.pcap_frames.specs.Header.{capture_header};
ghost use Rattle.pcap_frames.specs.Record.{record_at};
ghost use Rattle.pcap_frames.specs.Reader.{IsReady, IsAnswerOf, SpeaksOf};

use crate::header::CAPTURE_HEAD;
use crate::reading::{read_record, read_start};
use crate::record::{RECORD_HEAD, read_record_head};
use crate::{CaptureHeader, FrameHead, FrameStop};
use net_io::{Depot, Window};
use std::alloc::Global;
use std::marker::Model;

/// A reader of one capture: the name of its file, the header, the octet at which it stands, and a window of 65,536 octets
/// of the file. A longer record takes what the window lacks by a read of its own.
#[derive(Drop)]
pub struct Frames {
    name: String,
    header: CaptureHeader,
    place: u64,
    window: Window,
}

impl Model for Frames {
    ghost use Rattle.std.specs.Prelude.{◌+◌, ◌<◌, ◌^◌, length, string_bytes};
    ghost use Rattle.pcap_frames.specs.Reader.{Reader};

    ghost Value = { Reader };

    ghost view = { λ f. record { name = string_bytes f.name; header = f.header; place = f.place; ahead = f.window } };

    ghost invariant = { λ f. f.place + length f.window < 2 ^ 64 };
}

impl Frames {
    /// Reads the header of the capture of this name (libpcap file format, version 2.4), and stands behind it. The reader
    /// keeps the name. `Capture` tells the header's first fault and its octet: Short (fewer than 24 octets), Magic,
    /// Version or LinkType; `ReadFault` comes only where the count of failed reads of this name rose in this call,
    /// and no other answer moves a count.
    pub fn begin<D: Depot>(alloc: Global, depot: &mut D, name: &str) -> Result<Frames, FrameStop>
        ensures answer { IsTrue (D.state depot.old).tells
            → IsAnswerOf (λ frames. frames.header) result
            (capture_header (octets_of ((D.state depot.old).held name.now))) }
        ensures present { IsTrue (D.state depot.old).tells
            → SpeaksOf ((D.state depot.old).held name.now) result }
        ensures name { IfOk result (λ frames. frames.name ≡ name.now) }
        ensures place { IfOk result (λ frames. frames.place ≡ 24) }
        ensures ready { IfOk result (λ frames. IsReady (D.state depot.new) frames) }
        ensures frame { OnlyReads FrameStop.ReadFault result name.now (D.state depot.old)
            (D.state depot.new) }
    {
        let own_name = String::from_str(alloc, name)?;
        let mut window = Window::new(alloc)?;
        let header = read_start(depot, name, &mut window)?;
        Ok(Frames {
            name: own_name,
            header,
            place: CAPTURE_HEAD as u64,
            window,
        })
    }

    /// Reads the record at which the reader stands into `into`, in place of what was there, and goes behind it; None exactly
    /// where the file ends after whole records. `Capture` tells the record's first fault and its octet: Short (the file ends
    /// in its head), Captured (more than 262,144 octets), SnapCut (it was cut when it was captured) or Short (the file ends
    /// in its octets); `ReadFault` comes only where the count of failed reads of the file's name rose in this call, and
    /// no other answer moves a count. After each of them the reader stands where it stood, and `into` is empty; `into` keeps
    /// its memory.
    pub fn next<D: Depot>(
        &mut self,
        depot: &mut D,
        into: &mut Vec<u8>,
    ) -> Result<Option<FrameHead>, FrameStop>
        requires ready { IsReady (D.state depot.old) self.old }
        ensures answer { IsTrue (D.state depot.old).tells
            → IsAnswerOf
            (option_map (λ head. record { head = head; octets = into.new.items })) result
            (record_at self.old.header.order self.old.place
            (drop self.old.place (octets_of ((D.state depot.old).held self.old.name)))) }
        ensures captured { vec_len into.new ≤ 262144 }
        ensures none { IfOk result (λ read. read ≡ None → into.new.items ≡ []) }
        ensures moved { IfOk result
            (λ read. self.new.place ≡ self.old.place +
            (if is_some read then 16 + vec_len into.new else 0)) }
        ensures stands { OnErr result (self.new.place ≡ self.old.place) }
        ensures empty { OnErr result (into.new.items ≡ []) }
        ensures memory { vec_capacity into.old ≤ vec_capacity into.new }
        ensures name { self.new.name ≡ self.old.name }
        ensures header { self.new.header ≡ self.old.header }
        ensures ready { IsReady (D.state depot.new) self.new }
        ensures frame { OnlyReads FrameStop.ReadFault result self.old.name (D.state depot.old)
            (D.state depot.new) }
    {
        into.clear();
        let read = read_record(
            depot,
            self.name.as_str(),
            self.header.order,
            &mut self.place,
            &mut self.window,
            into,
        );
        if read.is_err() {
            into.clear();
        }
        read
    }

    /// Whether the next record stands in what was read, so that `next` reads nothing.
    pub fn is_ahead(&self) -> bool {
        let ahead = self.window.ahead();
        match read_record_head(self.header.order, self.place, ahead) {
            Ok(Some(head)) => RECORD_HEAD + head.captured as usize <= ahead.len(),
            Ok(None) | Err(_) => false,
        }
    }

    /// The link type of all frames: 1 (Ethernet), 101 (raw IP), 228 (IPv4) or 229 (IPv6).
    pub fn link(&self) -> u32
        ensures { result ≡ self.now.header.link }
    {
        self.header.link
    }

    /// Whether fractions of a second are nanoseconds; else they are microseconds.
    pub fn nanos(&self) -> bool
        ensures { result ≡ self.now.header.nanos }
    {
        self.header.nanos
    }
}
