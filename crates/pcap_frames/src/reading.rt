//! Reading the header and the records of a capture through a window of its file.
ghost use Rattle.std.specs.Prelude.{◌≡◌, ◌+◌, ◌-◌, ◌<◌, ◌≤◌, ◌^◌, IsTrue, [], length, drop, take, min, ◌++◌, Option, Some, None, Ok, option_map, is_ok, is_some, if◌then◌else◌, vec_len, vec_capacity, OnOk, OnErr, IfOk, IfSome};
ghost use Rattle.net_io.specs.Depot.{octets_of, OnlyReads};
ghost use Rattle.net_io.specs.file_window.Window.{IsFrom};
ghost use Rattle.pcap_frames.specs.Header.{capture_header};
ghost use Rattle.pcap_frames.specs.Record.{head_at, behind_head, record_at};
ghost use Rattle.pcap_frames.specs.Reader.{IsAnswerOf, SpeaksOf};

use crate::header::{CAPTURE_HEAD, read_header};
use crate::record::{RECORD_HEAD, RecordHead, read_record_head};
use crate::{CaptureFault, CaptureHeader, CaptureKind, FrameHead, FrameStop, OctetOrder};
use net_io::{Depot, WINDOW, Window, take_behind};

/// The file ends at this octet, too early.
fn short(octet: u64) -> FrameStop
    ensures { result ≡ FrameStop.Capture (record { octet = octet; kind = CaptureKind.Short }) }
{
    FrameStop::Capture(CaptureFault {
        octet,
        kind: CaptureKind::Short,
    })
}

/// Reads the head of the record at `place`; None at the file's end.
fn read_head<D: Depot>(
    depot: &mut D,
    name: &str,
    order: OctetOrder,
    place: u64,
    window: &mut Window,
) -> Result<Option<RecordHead>, FrameStop>
    requires ahead { IsTrue (D.state depot.old).tells
        → IsFrom (octets_of ((D.state depot.old).held name.now)) place window.old }
    requires place { place + length window.old < 2 ^ 64 }
    ensures answer { IsTrue (D.state depot.old).tells
        → IsAnswerOf (λ read. read) result
        (head_at order place (drop place (octets_of ((D.state depot.old).held name.now)))) }
    ensures head { IfOk result (λ read. IfSome read (λ head. 16 ≤ length window.new)) }
    ensures captured { IfOk result (λ read. IfSome read (λ head. head.captured ≤ 262144)) }
    ensures ahead { IsTrue (D.state depot.old).tells
        → IsFrom (octets_of ((D.state depot.old).held name.now)) place window.new }
    ensures place { place + length window.new < 2 ^ 64 }
    ensures frame { OnlyReads FrameStop.ReadFault result name.now
        (D.state depot.old)
        (D.state depot.new) }
{
    window.reach(depot, name, place, RECORD_HEAD)?;
    Ok(read_record_head(order, place, window.ahead())?)
}

/// Takes the octets of a record that has room in a window.
fn take_held<D: Depot>(
    depot: &mut D,
    name: &str,
    head: RecordHead,
    place: &mut u64,
    window: &mut Window,
    into: &mut Vec<u8>,
) -> Result<(), FrameStop>
    requires room { 16 + head.captured ≤ 65536 }
    requires head { 16 ≤ length window.old }
    requires empty { into.old.items ≡ [] }
    requires ahead { IsTrue (D.state depot.old).tells
        → IsFrom (octets_of ((D.state depot.old).held name.now)) place.old window.old }
    requires place { place.old + length window.old < 2 ^ 64 }
    ensures answer { IsTrue (D.state depot.old).tells
        → IsAnswerOf (λ taken. Some (record { head = head.frame; octets = into.new.items })) result
        (behind_head place.old (drop place.old (octets_of ((D.state depot.old).held name.now)))
        (Ok (Some head))) }
    ensures captured { OnOk result (vec_len into.new ≡ head.captured) }
    ensures moved { place.new ≡
        (if is_ok result then place.old + (16 + head.captured) else place.old) }
    ensures ahead { IsTrue (D.state depot.old).tells
        → IsFrom (octets_of ((D.state depot.old).held name.now)) place.new window.new }
    ensures memory { vec_capacity into.old ≤ vec_capacity into.new }
    ensures place { place.new + length window.new < 2 ^ 64 }
    ensures frame { OnlyReads FrameStop.ReadFault result name.now
        (D.state depot.old)
        (D.state depot.new) }
{
    let size = RECORD_HEAD + head.captured as usize;
    window.reach(depot, name, *place, size)?;
    let ahead = window.ahead();
    if ahead.len() < size {
        return Err(short(*place + ahead.len() as u64));
    }
    into.extend_from_slice(&ahead[RECORD_HEAD..size])?;
    window.pass(size);
    *place += size as u64;
    Ok(())
}

/// Takes the octets of a record that is longer than a window: those of the window, and the rest by a read of its own.
fn take_long<D: Depot>(
    depot: &mut D,
    name: &str,
    head: RecordHead,
    place: &mut u64,
    window: &mut Window,
    into: &mut Vec<u8>,
) -> Result<(), FrameStop>
    requires long { 65536 < 16 + head.captured }
    requires head { 16 ≤ length window.old }
    requires empty { into.old.items ≡ [] }
    requires ahead { IsTrue (D.state depot.old).tells
        → IsFrom (octets_of ((D.state depot.old).held name.now)) place.old window.old }
    requires place { place.old + length window.old < 2 ^ 64 }
    ensures answer { IsTrue (D.state depot.old).tells
        → IsAnswerOf (λ taken. Some (record { head = head.frame; octets = into.new.items })) result
        (behind_head place.old (drop place.old (octets_of ((D.state depot.old).held name.now)))
        (Ok (Some head))) }
    ensures captured { OnOk result (vec_len into.new ≡ head.captured) }
    ensures moved { place.new ≡
        (if is_ok result then place.old + (16 + head.captured) else place.old) }
    ensures ahead { IsTrue (D.state depot.old).tells
        → IsFrom (octets_of ((D.state depot.old).held name.now)) place.new window.new }
    ensures memory { vec_capacity into.old ≤ vec_capacity into.new }
    ensures place { place.new + length window.new < 2 ^ 64 }
    ensures frame { OnlyReads FrameStop.ReadFault result name.now
        (D.state depot.old)
        (D.state depot.new) }
{
    let captured = head.captured as usize;
    let n = take_behind(depot, name, *place, window, RECORD_HEAD, captured, into)?;
    let end = *place + (RECORD_HEAD + n) as u64;
    if n < captured {
        return Err(short(end));
    }
    window.clear();
    *place = end;
    Ok(())
}

/// Takes the captured octets behind the head of the record at `place`, and goes behind them.
fn take_octets<D: Depot>(
    depot: &mut D,
    name: &str,
    head: RecordHead,
    place: &mut u64,
    window: &mut Window,
    into: &mut Vec<u8>,
) -> Result<(), FrameStop>
    requires head { 16 ≤ length window.old }
    requires empty { into.old.items ≡ [] }
    requires ahead { IsTrue (D.state depot.old).tells
        → IsFrom (octets_of ((D.state depot.old).held name.now)) place.old window.old }
    requires place { place.old + length window.old < 2 ^ 64 }
    ensures answer { IsTrue (D.state depot.old).tells
        → IsAnswerOf (λ taken. Some (record { head = head.frame; octets = into.new.items })) result
        (behind_head place.old (drop place.old (octets_of ((D.state depot.old).held name.now)))
        (Ok (Some head))) }
    ensures captured { OnOk result (vec_len into.new ≡ head.captured) }
    ensures moved { place.new ≡
        (if is_ok result then place.old + (16 + head.captured) else place.old) }
    ensures ahead { IsTrue (D.state depot.old).tells
        → IsFrom (octets_of ((D.state depot.old).held name.now)) place.new window.new }
    ensures memory { vec_capacity into.old ≤ vec_capacity into.new }
    ensures place { place.new + length window.new < 2 ^ 64 }
    ensures frame { OnlyReads FrameStop.ReadFault result name.now
        (D.state depot.old)
        (D.state depot.new) }
{
    if RECORD_HEAD + head.captured as usize <= WINDOW {
        take_held(depot, name, head, place, window, into)
    } else {
        take_long(depot, name, head, place, window, into)
    }
}

/// Reads the record at `place` and goes behind it; None at the file's end.
pub fn read_record<D: Depot>(
    depot: &mut D,
    name: &str,
    order: OctetOrder,
    place: &mut u64,
    window: &mut Window,
    into: &mut Vec<u8>,
) -> Result<Option<FrameHead>, FrameStop>
    requires empty { into.old.items ≡ [] }
    requires ahead { IsTrue (D.state depot.old).tells
        → IsFrom (octets_of ((D.state depot.old).held name.now)) place.old window.old }
    requires place { place.old + length window.old < 2 ^ 64 }
    ensures answer { IsTrue (D.state depot.old).tells
        → IsAnswerOf (option_map (λ head. record { head = head; octets = into.new.items })) result
        (record_at order place.old
        (drop place.old (octets_of ((D.state depot.old).held name.now)))) }
    ensures captured { OnOk result (vec_len into.new ≤ 262144) }
    ensures none { IfOk result (λ read. read ≡ None → into.new.items ≡ []) }
    ensures moved { IfOk result
        (λ read. place.new ≡ place.old + (if is_some read then 16 + vec_len into.new else 0)) }
    ensures stands { OnErr result (place.new ≡ place.old) }
    ensures ahead { IsTrue (D.state depot.old).tells
        → IsFrom (octets_of ((D.state depot.old).held name.now)) place.new window.new }
    ensures memory { vec_capacity into.old ≤ vec_capacity into.new }
    ensures place { place.new + length window.new < 2 ^ 64 }
    ensures frame { OnlyReads FrameStop.ReadFault result name.now
        (D.state depot.old)
        (D.state depot.new) }
{
    let Some(head) = read_head(depot, name, order, *place, window)? else {
        return Ok(None);
    };
    take_octets(depot, name, head, place, window, into)?;
    Ok(Some(head.frame))
}

/// Reads the header of the file, and goes behind it.
pub fn read_start<D: Depot>(
    depot: &mut D,
    name: &str,
    window: &mut Window,
) -> Result<CaptureHeader, FrameStop>
    requires empty { window.old ≡ [] }
    ensures answer { IsTrue (D.state depot.old).tells
        → IsAnswerOf (λ header. header) result
        (capture_header (octets_of ((D.state depot.old).held name.now))) }
    ensures present { IsTrue (D.state depot.old).tells
        → SpeaksOf ((D.state depot.old).held name.now) result }
    ensures ahead { OnOk result
        (IsTrue (D.state depot.old).tells
        → IsFrom (octets_of ((D.state depot.old).held name.now)) 24 window.new) }
    ensures place { OnOk result (24 + length window.new < 2 ^ 64) }
    ensures frame { OnlyReads FrameStop.ReadFault result name.now
        (D.state depot.old)
        (D.state depot.new) }
{
    window.reach(depot, name, 0, CAPTURE_HEAD)?;
    let header = read_header(window.ahead())?;
    window.pass(CAPTURE_HEAD);
    Ok(header)
}
