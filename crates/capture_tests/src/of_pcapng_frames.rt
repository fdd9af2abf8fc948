//! What no clause says: files worked by hand, and that calls succeed with ample memory. Whole files stand in `files`, faults
//! in `faults`, times, interfaces and padding in `packets`, what goes past a window in `long`.
ghost use Rattle.std.specs.Prelude.{◌≤◌, ◌+◌, length};
ghost use Rattle.net_io.specs.Memory.{memory_state};
ghost use Rattle.pcapng_frames.specs.Reader.{IsNgReady};

mod faults;
mod files;
mod long;
mod packets;

use crate::checks::same;
use net_io::{MemoryDepot, OctetOrder};
use pcapng_frames::{NgFault, NgFrames, NgHead, NgKind, NgStop};
use std::alloc::Global;
use std::fmt::Debug;
use std::process::Abort;

/// An IPv4 packet of 28 octets.
const PACKET: [u8; 28] = [
    0x45, 0, 0, 0x1c, 0, 0, 0x40, 0, 0x40, 0x11, 0x26, 0xcf, 10, 0, 0, 1, 10, 0, 0, 2, 3, 0xe8, 0,
    0x35, 0, 8, 0xe7, 0xbe,
];

/// A section header and a raw IP interface of nanoseconds, lowest octet first.
const HEAD: [u8; 60] = [
    0x0a, 0x0d, 0x0d, 0x0a, 0x1c, 0, 0, 0, 0x4d, 0x3c, 0x2b, 0x1a, 1, 0, 0, 0, 0xff, 0xff, 0xff,
    0xff, 0xff, 0xff, 0xff, 0xff, 0x1c, 0, 0, 0, 1, 0, 0, 0, 0x20, 0, 0, 0, 0x65, 0, 0, 0, 0, 0, 4,
    0, 9, 0, 1, 0, 9, 0, 0, 0, 0, 0, 0, 0, 0x20, 0, 0, 0,
];

/// What `PACKET` of that interface at second 1 gives.
const ONE: NgHead = NgHead {
    seconds: 1,
    nanos: 0,
    link: 101,
};

fn add(rt: &impl Abort, file: &mut Vec<u8>, octets: &[u8]) {
    file.extend_from_slice(octets).expect(rt, "memory");
}

fn add_u16(rt: &impl Abort, file: &mut Vec<u8>, order: OctetOrder, n: u16) {
    match order {
        OctetOrder::Little => add(rt, file, &n.to_le_bytes()),
        OctetOrder::Big => add(rt, file, &n.to_be_bytes()),
    }
}

fn add_u32(rt: &impl Abort, file: &mut Vec<u8>, order: OctetOrder, n: u32) {
    match order {
        OctetOrder::Little => add(rt, file, &n.to_le_bytes()),
        OctetOrder::Big => add(rt, file, &n.to_be_bytes()),
    }
}

/// The next multiple of four.
fn padded(count: u32) -> u32
    requires { count ≤ 262144 }
    ensures { (count ≤ result) × (result ≤ count + 3) }
{
    count + (4 - count % 4) % 4
}

/// A block of this type with this body, padded.
fn add_block(rt: &impl Abort, file: &mut Vec<u8>, order: OctetOrder, kind: u32, body: &[u8])
    requires { length body.now ≤ 262144 }
{
    let count = body.len() as u32;
    let room = padded(count);
    add_u32(rt, file, order, kind);
    add_u32(rt, file, order, room + 12);
    add(rt, file, body);
    add(rt, file, &[0; 3][..(room - count) as usize]);
    add_u32(rt, file, order, room + 12);
}

/// A section header of version 1.0 without options, whose length isn't told.
fn add_section(rt: &impl Abort, file: &mut Vec<u8>, order: OctetOrder) {
    add_u32(rt, file, order, 0x0a0d_0d0a);
    add_u32(rt, file, order, 28);
    add_u32(rt, file, order, 0x1a2b_3c4d);
    add_u16(rt, file, order, 1);
    add_u16(rt, file, order, 0);
    add(rt, file, &[0xff; 8]);
    add_u32(rt, file, order, 28);
}

/// An interface of this link type: without options, or with its resolution alone.
fn add_interface(
    rt: &impl Abort,
    file: &mut Vec<u8>,
    order: OctetOrder,
    link: u16,
    resolution: Option<u8>,
) {
    let total = if resolution == None { 20 } else { 28 };
    add_u32(rt, file, order, 1);
    add_u32(rt, file, order, total);
    add_u16(rt, file, order, link);
    add_u16(rt, file, order, 0);
    add_u32(rt, file, order, 0);
    if let Some(resolution) = resolution {
        add_u16(rt, file, order, 9);
        add_u16(rt, file, order, 1);
        add(rt, file, &[resolution, 0, 0, 0]);
    }
    add_u32(rt, file, order, total);
}

/// A packet of an interface, at a count of units in its high and its low part.
fn add_packet(
    rt: &impl Abort,
    file: &mut Vec<u8>,
    order: OctetOrder,
    interface: u32,
    units: (u32, u32),
    octets: &[u8],
)
    requires { length octets.now ≤ 262144 }
{
    let count = octets.len() as u32;
    let room = padded(count);
    add_u32(rt, file, order, 6);
    add_u32(rt, file, order, 32 + room);
    add_u32(rt, file, order, interface);
    add_u32(rt, file, order, units.0);
    add_u32(rt, file, order, units.1);
    add_u32(rt, file, order, count);
    add_u32(rt, file, order, count);
    add(rt, file, octets);
    add(rt, file, &[0; 3][..(room - count) as usize]);
    add_u32(rt, file, order, 32 + room);
}

/// A packet of the interface of `HEAD` at second 1.
fn add_one(rt: &impl Abort, file: &mut Vec<u8>, octets: &[u8])
    requires { length octets.now ≤ 262144 }
{
    add_packet(rt, file, OctetOrder::Little, 0, (0, 1_000_000_000), octets);
}

/// `HEAD`, and `PACKET` at second 1: 120 octets, the packet's block from octet 60 on.
fn capture(rt: &impl Abort, alloc: Global) -> Vec<u8> {
    let mut file = Vec::new(alloc);
    add(rt, &mut file, &HEAD);
    add_one(rt, &mut file, &PACKET);
    file
}

/// The first `n` octets of a file, or all.
fn cut(file: &[u8], n: usize) -> &[u8]
    ensures { length result.now ≤ n }
{
    &file[..n.min(file.len())]
}

/// Sets one octet of a file.
fn change(file: &mut [u8], place: usize, octet: u8) {
    if place < file.len() {
        file[place] = octet;
    }
}

/// What the calls of a reader give up to the first that gives no frame: how many frames, how many octets in all, the head of
/// the last, why it stops, and whether one more call answers the same.
#[derive(Clone, Copy, Debug, PartialEq, Eq)]
struct Given {
    frames: u32,
    octets: usize,
    last: Option<NgHead>,
    stop: Option<NgStop>,
    again: bool,
}

/// Reads on, and once more where no frame comes.
fn read_on(frames: &mut NgFrames, depot: &mut MemoryDepot, into: &mut Vec<u8>) -> Given
    requires { IsNgReady (memory_state depot.old) frames.old }
{
    let mut given = NOTHING;
    for _turn in 0..2000u32 {
        match frames.next(depot, into) {
            Ok(Some(head)) => {
                given.frames = given.frames.saturating_add(1);
                given.octets = given.octets.saturating_add(into.len());
                given.last = Some(head);
            }
            Ok(None) => {
                given.again = frames.next(depot, into) == Ok(None);
                return given;
            }
            Err(stop) => {
                given.stop = Some(stop);
                given.again = frames.next(depot, into) == Err(stop);
                return given;
            }
        }
    }
    given
}

const NOTHING: Given = Given {
    frames: 0,
    octets: 0,
    last: None,
    stop: None,
    again: true,
};

/// What a reader gives of a file that begins as pcapng does, read by pieces.
fn read_file(rt: &impl Abort, alloc: Global, file: &[u8]) -> Given {
    if !file.starts_with(&[0x0a, 0x0d, 0x0d, 0x0a]) {
        return NOTHING;
    }
    let mut depot = MemoryDepot::new(alloc, &[], 50_000).expect(rt, "memory");
    depot.put("a.pcapng", file).expect(rt, "memory");
    let mut into = Vec::new(alloc);
    match NgFrames::begin(alloc, &mut depot, "a.pcapng") {
        Ok(mut frames) => read_on(&mut frames, &mut depot, &mut into),
        Err(stop) => Given {
            stop: Some(stop),
            ..NOTHING
        },
    }
}

/// Ends the test unless a reader gives this of a file.
fn gives<C: Debug + Drop>(rt: &impl Abort, alloc: Global, case: C, file: &[u8], wanted: Given) {
    same(rt, case, read_file(rt, alloc, file), wanted);
}

fn whole(frames: u32, octets: usize, last: NgHead) -> Given {
    Given {
        frames,
        octets,
        last: Some(last),
        ..NOTHING
    }
}

/// No frame comes, and this fault.
fn broken(octet: u64, kind: NgKind) -> Given {
    Given {
        stop: Some(NgStop::Capture(NgFault { octet, kind })),
        ..NOTHING
    }
}
