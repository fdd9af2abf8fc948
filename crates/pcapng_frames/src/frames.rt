//! A reader of one pcapng capture.
ghost use Rattle.std.specs.Prelude.{◌≡◌, ◌+◌, ◌<◌, ◌≤◌, ◌^◌, IsTrue, true, [], None, length, drop, option_map, vec_len, vec_capacity, OnOk, OnErr, IfOk, IfSome};
ghost use Rattle.net_io.specs.Depot.{octets_of, OnlyReads};
ghost use Rattle.net_io.specs.file_window.Window.{IsFrom};
ghost use Rattle.pcapng_frames.specs.Section.{no_section};
ghost use Rattle.pcapng_frames.specs.Block.{block_at};
ghost use Rattle.pcapng_frames.specs.Capture.{is_pcapng, frames_at};
ghost use Rattle.pcapng_frames.specs.Reader.{IsNgReady, IsNgAnswer, NgChain, next_at, found_here, begun_block};
ghost use Rattle.pcapng_frames.specs.inside.Parts.{rest_at, IsAhead};

use crate::ahead::has_packet;
use crate::blocks::{Turn, read_block, read_frame};
use crate::look::stop_at;
use crate::section::SectionTable;
use crate::{NgHead, NgKind, NgStop};
use net_io::{Depot, Window};
use std::alloc::Global;
use std::marker::Model;

/// A reader of one pcapng capture: the name of its file, the present section, the octet at which it stands, and a window
/// of 65,536 octets of the file. A longer packet takes what the window lacks by a read of its own.
#[derive(Drop)]
pub struct NgFrames {
    name: String,
    section: SectionTable,
    place: u64,
    window: Window,
}

impl Model for NgFrames {
    ghost use Rattle.std.specs.Prelude.{◌+◌, ◌<◌, ◌^◌, length, string_bytes};
    ghost use Rattle.pcapng_frames.specs.Reader.{NgReader};

    ghost Value = { NgReader };

    ghost view = { λ f. record { name = string_bytes f.name; section = f.section.section; place = f.place; ahead = f.window } };

    ghost invariant = { λ f. f.place + length f.window < 2 ^ 64 };
}

/// Reads blocks up to the next frame; after a refusal all stands where it stood, and the window is empty.
fn next_frame<D: Depot>(
    depot: &mut D,
    name: &str,
    place: &mut u64,
    window: &mut Window,
    section: &mut SectionTable,
    into: &mut Vec<u8>,
) -> Result<Option<NgHead>, NgStop>
    requires ahead { IsAhead (D.state depot.old) name.now place.old window.old }
    requires place { place.old + length window.old < 2 ^ 64 }
    ensures answer { IsTrue (D.state depot.old).tells
        → IsNgAnswer (option_map (found_here section.new.section place.new into.new.items)) result
        (next_at section.old.section place.old (rest_at (D.state depot.old) name.now place.old)) }
    ensures chain { IsTrue (D.state depot.old).tells
        → NgChain (octets_of ((D.state depot.old).held name.now))
        section.old.section place.old section.new.section place.new }
    ensures end { IfOk result (λ read. read ≡ None → IsTrue (D.state depot.old).tells
        → frames_at section.new.section place.new (rest_at (D.state depot.old) name.now place.new)
        ≡ record { frames = []; fault = None }) }
    ensures none { IfOk result (λ read. read ≡ None → into.new.items ≡ []) }
    ensures stands { OnErr result (place.new ≡ place.old) }
    ensures section { OnErr result (section.new.section ≡ section.old.section) }
    ensures empty { OnErr result (into.new.items ≡ []) }
    ensures nanos { IfOk result (λ read. IfSome read (λ head. head.nanos < 1000000000)) }
    ensures captured { vec_len into.new ≤ 262144 }
    ensures memory { vec_capacity into.old ≤ vec_capacity into.new }
    ensures ahead { IsAhead (D.state depot.old) name.now place.new window.new }
    ensures place { place.new + length window.new < 2 ^ 64 }
    ensures frame { OnlyReads NgStop.ReadFault result name.now (D.state depot.old)
        (D.state depot.new) }
{
    section.forget_earlier();
    let mark = section.mark();
    let start = *place;
    into.clear();
    match read_frame(depot, name, place, window, section, into) {
        Ok(read) => Ok(read),
        Err(stop) => {
            section.back(mark);
            *place = start;
            window.clear();
            into.clear();
            Err(stop)
        }
    }
}

impl NgFrames {
    /// Reads the first section header of the capture of this name, and stands behind it. The reader keeps the name. The
    /// condition, where content is told, is that the file's first four octets are `0a 0d 0d 0a`. `Capture` tells the
    /// header's first fault and its octet: Short, Magic, BlockLength, Trailer or Version; `ReadFault` comes only where the
    /// count of failed reads of this name rose in this call, and no other answer moves a count.
    pub fn begin<D: Depot>(alloc: Global, depot: &mut D, name: &str) -> Result<NgFrames, NgStop>
        requires pcapng { IsTrue (D.state depot.old).tells
            → is_pcapng (octets_of ((D.state depot.old).held name.now)) ≡ true }
        ensures answer { IsTrue (D.state depot.old).tells
            → IsNgAnswer begun_block result
            (block_at no_section 0 (octets_of ((D.state depot.old).held name.now))) }
        ensures name { IfOk result (λ frames. frames.name ≡ name.now) }
        ensures ready { IfOk result (λ frames. IsNgReady (D.state depot.new) frames) }
        ensures frame { OnlyReads NgStop.ReadFault result name.now (D.state depot.old)
            (D.state depot.new) }
    {
        let own_name = String::from_str(alloc, name)?;
        let mut window = Window::new(alloc)?;
        let mut section = SectionTable::new(alloc);
        let mut place = 0;
        let mut none = Vec::new(alloc);
        let turn = read_block(
            depot,
            name,
            &mut place,
            &mut window,
            &mut section,
            &mut none,
        )?;
        let Turn::Passed = turn else {
            return Err(stop_at(0, NgKind::Magic));
        };
        Ok(NgFrames {
            name: own_name,
            section,
            place,
            window,
        })
    }

    /// Reads blocks from where the reader stands up to the next packet, puts its octets into `into`, in place of what was
    /// there, and goes behind it; None exactly where the file ends after whole blocks, and then nothing is left. `Capture`
    /// tells a block's first fault and its octet; `ReadFault` comes only where the count of failed reads of the file's name
    /// rose in this call, and no other answer moves a count. After each of these errors the reader stands where it stood, with
    /// the section that it had, and `into` is empty; `into` keeps its memory.
    pub fn next<D: Depot>(
        &mut self,
        depot: &mut D,
        into: &mut Vec<u8>,
    ) -> Result<Option<NgHead>, NgStop>
        requires ready { IsNgReady (D.state depot.old) self.old }
        ensures answer { IsTrue (D.state depot.old).tells
            → IsNgAnswer
            (option_map (found_here self.new.section self.new.place into.new.items)) result
            (next_at self.old.section self.old.place
            (drop self.old.place (octets_of ((D.state depot.old).held self.old.name)))) }
        ensures end { IfOk result (λ read. read ≡ None → IsTrue (D.state depot.old).tells
            → frames_at self.new.section self.new.place
            (drop self.new.place (octets_of ((D.state depot.old).held self.old.name)))
            ≡ record { frames = []; fault = None }) }
        ensures fits { IfOk result (λ read. IfSome read (λ head. head.nanos < 1000000000)) }
        ensures captured { vec_len into.new ≤ 262144 }
        ensures none { IfOk result (λ read. read ≡ None → into.new.items ≡ []) }
        ensures stands { OnErr result (self.new.place ≡ self.old.place) }
        ensures section { OnErr result (self.new.section ≡ self.old.section) }
        ensures empty { OnErr result (into.new.items ≡ []) }
        ensures memory { vec_capacity into.old ≤ vec_capacity into.new }
        ensures name { self.new.name ≡ self.old.name }
        ensures ready { IsNgReady (D.state depot.new) self.new }
        ensures frame { OnlyReads NgStop.ReadFault result self.old.name (D.state depot.old)
            (D.state depot.new) }
    {
        next_frame(
            depot,
            self.name.as_str(),
            &mut self.place,
            &mut self.window,
            &mut self.section,
            into,
        )
    }

    /// Whether the next packet stands in what was read, so that `next` reads nothing.
    pub fn is_ahead(&self) -> bool {
        has_packet(self.section.order(), self.place, self.window.ahead())
    }
}
