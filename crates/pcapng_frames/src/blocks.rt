//! Whole blocks: one, and those up to the next frame.
ghost use Rattle.std.specs.Prelude.{◌≡◌, ◌+◌, ◌-◌, ◌<◌, ◌≤◌, ◌^◌, IsTrue, [], None, length, drop, min, vec_len, vec_capacity, option_map, OnOk, IfOk, IfSome};
ghost use Rattle.net_io.specs.Depot.{octets_of, OnlyReads};
ghost use Rattle.net_io.specs.file_window.Window.{IsFrom};
ghost use Rattle.pcapng_frames.specs.Head.{least_total, whole_at};
ghost use Rattle.pcapng_frames.specs.Block.{said_by, block_at};
ghost use Rattle.pcapng_frames.specs.Capture.{frames_at};
ghost use Rattle.pcapng_frames.specs.Reader.{IsNgAnswer, NgChain, next_at, found_here};
ghost use Rattle.pcapng_frames.specs.inside.Parts.{rest_at, IsAhead, HasNanos, turn_said, turn_block};
ghost use Rattle.pcapng_frames.specs.inside.Table.{KeepsTable};

use crate::describing::{take_interface, take_section};
use crate::head::{BlockHead, INTERFACE, OBSOLETE, PACKET, SECTION_HEADER, SIMPLE};
use crate::look::stop_at;
use crate::reading::{check_whole, read_head};
use crate::section::SectionTable;
use crate::taking::take_packet;
use crate::{NgHead, NgKind, NgStop};
use net_io::{Depot, Window};

/// What one block was to a reader of frames.
#[derive(Clone, Copy, Debug, PartialEq, Eq)]
pub enum Turn {
    /// The file ends here.
    End,
    /// The block gives no frame.
    Passed,
    /// The block is a packet.
    Frame(NgHead),
}

/// Takes in what a whole block says, and lets the window stand behind it.
fn take_block<D: Depot>(
    depot: &mut D,
    name: &str,
    head: BlockHead,
    place: u64,
    window: &mut Window,
    section: &mut SectionTable,
    into: &mut Vec<u8>,
) -> Result<Turn, NgStop>
    requires least { least_total head.kind ≤ head.total }
    requires held { min head.total 65536 ≤ length window.old }
    requires near { place < 2 ^ 40 }
    requires empty { into.old.items ≡ [] }
    requires ahead { IsAhead (D.state depot.old) name.now place window.old }
    requires place { place + length window.old < 2 ^ 64 }
    requires whole { IsTrue (D.state depot.old).tells
        → head.total ≤ length (rest_at (D.state depot.old) name.now place) }
    ensures answer { IsTrue (D.state depot.old).tells
        → IsNgAnswer (turn_said section.new.section head.total into.new.items) result
        (said_by section.old.section place (rest_at (D.state depot.old) name.now place) head) }
    ensures some { IfOk result (λ turn. turn ≡ Turn.End → ⊥) }
    ensures passed { IfOk result (λ turn. turn ≡ Turn.Passed → into.new.items ≡ []) }
    ensures later { KeepsTable section.old section.new }
    ensures nanos { IfOk result (λ turn. HasNanos turn) }
    ensures captured { OnOk result (vec_len into.new ≤ 262144) }
    ensures memory { vec_capacity into.old ≤ vec_capacity into.new }
    ensures ahead { OnOk result
        (IsAhead (D.state depot.old) name.now (place + head.total) window.new) }
    ensures place { OnOk result (place + head.total + length window.new < 2 ^ 64) }
    ensures frame { OnlyReads NgStop.ReadFault result name.now (D.state depot.old)
        (D.state depot.new) }
{
    match head.kind {
        SECTION_HEADER => {
            take_section(head, place, window, section)?;
            Ok(Turn::Passed)
        }
        INTERFACE => {
            take_interface(depot, name, head, place, window, section)?;
            Ok(Turn::Passed)
        }
        PACKET => {
            let given = take_packet(depot, name, head, place, window, section, into)?;
            Ok(Turn::Frame(given))
        }
        OBSOLETE | SIMPLE => Err(stop_at(place, NgKind::Block)),
        _ => {
            window.skip(head.total as usize);
            Ok(Turn::Passed)
        }
    }
}

/// Reads the block at `place` and goes behind it, or stands at the file's end.
pub fn read_block<D: Depot>(
    depot: &mut D,
    name: &str,
    place: &mut u64,
    window: &mut Window,
    section: &mut SectionTable,
    into: &mut Vec<u8>,
) -> Result<Turn, NgStop>
    requires empty { into.old.items ≡ [] }
    requires ahead { IsAhead (D.state depot.old) name.now place.old window.old }
    requires place { place.old + length window.old < 2 ^ 64 }
    ensures answer { IsTrue (D.state depot.old).tells
        → IsNgAnswer (turn_block section.new.section (place.new - place.old) into.new.items) result
        (block_at section.old.section place.old (rest_at (D.state depot.old) name.now place.old)) }
    ensures end { IfOk result (λ turn. turn ≡ Turn.End → place.new ≡ place.old) }
    ensures stays { IfOk result (λ turn. turn ≡ Turn.End → section.new ≡ section.old) }
    ensures moved { IfOk result (λ turn. turn ≡ Turn.Passed → place.old + 12 ≤ place.new) }
    ensures near { IfOk result (λ turn. turn ≡ Turn.Passed → place.old < 2 ^ 40) }
    ensures passed { IfOk result (λ turn. turn ≡ Turn.Passed → into.new.items ≡ []) }
    ensures none { IfOk result (λ turn. turn ≡ Turn.End → into.new.items ≡ []) }
    ensures onward { place.old ≤ place.new }
    ensures later { KeepsTable section.old section.new }
    ensures nanos { IfOk result (λ turn. HasNanos turn) }
    ensures captured { OnOk result (vec_len into.new ≤ 262144) }
    ensures memory { vec_capacity into.old ≤ vec_capacity into.new }
    ensures ahead { OnOk result (IsAhead (D.state depot.old) name.now place.new window.new) }
    ensures place { OnOk result (place.new + length window.new < 2 ^ 64) }
    ensures frame { OnlyReads NgStop.ReadFault result name.now (D.state depot.old)
        (D.state depot.new) }
{
    let Some(head) = read_head(depot, name, section.order(), *place, window)? else {
        return Ok(Turn::End);
    };
    check_whole(depot, name, head, *place, window)?;
    let turn = take_block(depot, name, head, *place, window, section, into)?;
    *place += u64::from(head.total);
    Ok(turn)
}

/// Reads blocks up to the next frame, and goes behind it; None at the file's end.
pub fn read_frame<D: Depot>(
    depot: &mut D,
    name: &str,
    place: &mut u64,
    window: &mut Window,
    section: &mut SectionTable,
    into: &mut Vec<u8>,
) -> Result<Option<NgHead>, NgStop>
    requires empty { into.old.items ≡ [] }
    requires ahead { IsAhead (D.state depot.old) name.now place.old window.old }
    requires place { place.old + length window.old < 2 ^ 64 }
    ensures answer { IsTrue (D.state depot.old).tells
        → IsNgAnswer (option_map (found_here section.new.section place.new into.new.items)) result
        (next_at section.old.section place.old (rest_at (D.state depot.old) name.now place.old)) }
    ensures chain { OnOk result
        (IsTrue (D.state depot.old).tells
        → NgChain (octets_of ((D.state depot.old).held name.now))
        section.old.section place.old section.new.section place.new) }
    ensures end { IfOk result (λ read. read ≡ None → IsTrue (D.state depot.old).tells
        → frames_at section.new.section place.new (rest_at (D.state depot.old) name.now place.new)
        ≡ record { frames = []; fault = None }) }
    ensures none { IfOk result (λ read. read ≡ None → into.new.items ≡ []) }
    ensures onward { place.old ≤ place.new }
    ensures later { KeepsTable section.old section.new }
    ensures nanos { IfOk result (λ read. IfSome read (λ head. head.nanos < 1000000000)) }
    ensures captured { OnOk result (vec_len into.new ≤ 262144) }
    ensures memory { vec_capacity into.old ≤ vec_capacity into.new }
    ensures ahead { OnOk result (IsAhead (D.state depot.old) name.now place.new window.new) }
    ensures place { OnOk result (place.new + length window.new < 2 ^ 64) }
    ensures frame { OnlyReads NgStop.ReadFault result name.now (D.state depot.old)
        (D.state depot.new) }
{
    loop {
        match read_block(depot, name, place, window, section, into)? {
            Turn::End => return Ok(None),
            Turn::Frame(head) => return Ok(Some(head)),
            Turn::Passed => {}
        }
    }
}
