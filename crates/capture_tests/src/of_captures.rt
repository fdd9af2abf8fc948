//! What no clause says: files of both formats worked by hand, fault places, that calls succeed, and whose memory is used.
ghost use Rattle.std.specs.Prelude.{◌≤◌, length};
ghost use Rattle.net_io.specs.Memory.{memory_state};
ghost use Rattle.captures.specs.Reader.{IsReadable};
ghost use Rattle.captures.specs.Written.{IsTime};

use crate::checks::{holds, same};
use captures::*;
use net_io::{IoFault, MemoryDepot};
use pcap_frames::{CaptureFault, CaptureKind, FrameHead};
use pcapng_frames::{NgFault, NgKind};
use std::alloc::{AllocError, Global};
use std::process::Abort;

/// UDP from 10.0.0.1 to 10.0.0.2, in IPv4 without a label.
const PACKET: [u8; 28] = [
    0x45, 0, 0, 0x1c, 0, 0, 0x40, 0, 0x40, 0x11, 0x26, 0xcf, 10, 0, 0, 1, 10, 0, 0, 2, 3, 0xe8, 0,
    0x35, 0, 8, 0xe7, 0xbe,
];

/// What stands in front of it in an Ethernet frame; behind a tag of IEEE 802.1Q; and in front of what is ARP, and no packet of IP.
const PLAIN: [u8; 14] = [2, 0, 0, 0, 0, 2, 2, 0, 0, 0, 0, 1, 8, 0];

const TAGGED: [u8; 18] = [2, 0, 0, 0, 0, 2, 2, 0, 0, 0, 0, 1, 0x81, 0, 0, 100, 8, 0];

const ARP: [u8; 14] = [2, 0, 0, 0, 0, 2, 2, 0, 0, 0, 0, 1, 8, 6];

/// The header of a libpcap file of Ethernet in microseconds, and of one of raw IP in nanoseconds whose highest octets come first.
const ETHERNET: [u8; 24] = [
    0xd4, 0xc3, 0xb2, 0xa1, 2, 0, 4, 0, 0, 0, 0, 0, 0, 0, 0, 0, 0, 0, 4, 0, 1, 0, 0, 0,
];

const BIG: [u8; 24] = [
    0xa1, 0xb2, 0x3c, 0x4d, 0, 2, 0, 4, 0, 0, 0, 0, 0, 0, 0, 0, 0, 4, 0, 0, 0, 0, 0, 101,
];

/// A record's head in front of 28 octets, of second 1 and fraction 5.
const BIG_RECORD: [u8; 16] = [0, 0, 0, 1, 0, 0, 0, 5, 0, 0, 0, 28, 0, 0, 0, 28];

/// A section of pcapng with an interface of raw IP in microseconds, and one of Ethernet in nanoseconds.
const SECTION: [u8; 80] = [
    0x0a, 0x0d, 0x0d, 0x0a, 28, 0, 0, 0, 0x4d, 0x3c, 0x2b, 0x1a, 1, 0, 0, 0, 0xff, 0xff, 0xff,
    0xff, 0xff, 0xff, 0xff, 0xff, 28, 0, 0, 0, 1, 0, 0, 0, 20, 0, 0, 0, 101, 0, 0, 0, 0, 0, 0, 0,
    20, 0, 0, 0, 1, 0, 0, 0, 32, 0, 0, 0, 1, 0, 0, 0, 0, 0, 0, 0, 9, 0, 1, 0, 9, 0, 0, 0, 0, 0, 0,
    0, 32, 0, 0, 0,
];

/// Seconds and a fraction.
fn time(seconds: u32, fraction: u32) -> FrameHead {
    FrameHead { seconds, fraction }
}

fn add_u32(file: &mut Vec<u8>, number: u32) -> Result<(), AllocError> {
    file.extend_from_slice(&number.to_le_bytes())
}

/// A record of a libpcap file at second 1 and fraction 5: what stands in front of a packet, and the packet.
fn add_record(file: &mut Vec<u8>, front: &[u8], packet: &[u8]) -> Result<(), AllocError>
    requires front { length front.now ≤ 65536 }
    requires packet { length packet.now ≤ 65536 }
{
    let count = front.len() as u32 + packet.len() as u32;
    add_u32(file, 1)?;
    add_u32(file, 5)?;
    add_u32(file, count)?;
    add_u32(file, count)?;
    file.extend_from_slice(front)?;
    file.extend_from_slice(packet)
}

/// A packet block of this interface at so many units, less than 2^32; its octets padded by two where its front has 14 or 18.
fn add_packet(
    file: &mut Vec<u8>,
    interface: u32,
    units: u32,
    front: &[u8],
    packet: &[u8],
) -> Result<(), AllocError>
    requires front { length front.now ≤ 65536 }
    requires packet { length packet.now ≤ 65536 }
{
    let count = front.len() as u32 + packet.len() as u32;
    let total = 32 + count.div_ceil(4) * 4;
    add_u32(file, 6)?;
    add_u32(file, total)?;
    add_u32(file, interface)?;
    add_u32(file, 0)?;
    add_u32(file, units)?;
    add_u32(file, count)?;
    add_u32(file, count)?;
    file.extend_from_slice(front)?;
    file.extend_from_slice(packet)?;
    file.extend_from_slice(&[0; 3][..(total - 32 - count) as usize])?;
    add_u32(file, total)
}

/// A packet in which nothing was read yet.
fn no_packet(alloc: Global) -> PacketIn {
    PacketIn {
        bytes: Octets::of(Vec::new(alloc)),
        is_ip: true,
    }
}

/// The first `n` octets of a file, or all.
fn cut(file: &[u8], n: usize) -> &[u8] {
    &file[..n.min(file.len())]
}

/// Whether the next frames have these times and packets, and then no frame comes.
fn frames_are(
    reader: &mut CaptureReader,
    depot: &mut MemoryDepot,
    into: &mut PacketIn,
    wanted: &[(FrameHead, bool, &[u8])],
) -> bool
    requires { IsReadable (memory_state depot.old) reader.old }
    ensures { IsReadable (memory_state depot.new) reader.new }
{
    for (head, is_ip, octets) in wanted {
        if reader.next(depot, into) != Ok(Some(*head)) {
            return false;
        }
        if into.is_ip != *is_ip || into.bytes.as_slice() != *octets {
            return false;
        }
    }
    true
}

/// Whether no frame comes, and then again none, and no octets with it.
fn ends(reader: &mut CaptureReader, depot: &mut MemoryDepot, into: &mut PacketIn) -> bool
    requires { IsReadable (memory_state depot.old) reader.old }
{
    reader.next(depot, into) == Ok(None)
        && into.bytes.as_slice().is_empty()
        && reader.next(depot, into) == Ok(None)
        && into.bytes.as_slice().is_empty()
}

/// A folder with one file, of which one call moves at most seven octets.
fn folder(rt: &impl Abort, alloc: Global, file: &[u8]) -> MemoryDepot {
    let mut depot = MemoryDepot::new(alloc, &[], 7).expect(rt, "memory");
    depot.put("c", file).expect(rt, "memory");
    depot
}

/// Why the file's reading doesn't begin; None where it begins.
fn refusal(rt: &impl Abort, alloc: Global, file: &[u8]) -> Option<ReadStop> {
    let mut depot = folder(rt, alloc, file);
    CaptureReader::begin(alloc, &mut depot, "c").err()
}

fn broken(octet: u64, kind: CaptureKind) -> ReadStop {
    ReadStop::Capture(CaptureFault { octet, kind })
}

fn ng_broken(octet: u64, kind: NgKind) -> ReadStop {
    ReadStop::Ng(NgFault { octet, kind })
}

/// Ends the test unless a file is of this format, has these frames and then ends.
fn file_has(
    rt: &impl Abort,
    alloc: Global,
    file: &[u8],
    format: CaptureFormat,
    wanted: &[(FrameHead, bool, &[u8])],
) {
    let mut depot = folder(rt, alloc, file);
    let mut reader = CaptureReader::begin(alloc, &mut depot, "c").expect(rt, "a reader");
    same(rt, "format", reader.format(), format);
    let mut into = no_packet(alloc);
    let are = frames_are(&mut reader, &mut depot, &mut into, wanted);
    holds(rt, ("frames", format), are);
    holds(
        rt,
        ("end", format),
        ends(&mut reader, &mut depot, &mut into),
    );
}

fn append(rt: &impl Abort, file: &mut Vec<u8>, octets: &[u8]) {
    file.extend_from_slice(octets).expect(rt, "memory");
}

#[test]
fn a_libpcap_file_has_one_link_type(rt: HostRuntime) {
    let mut file = Vec::new(rt.alloc());
    append(&rt, &mut file, &ETHERNET);
    add_record(&mut file, &PLAIN, &PACKET).expect(&rt, "memory");
    add_record(&mut file, &TAGGED, &PACKET).expect(&rt, "memory");
    add_record(&mut file, &ARP, &PACKET[..4]).expect(&rt, "memory");
    add_record(&mut file, &[], &PACKET[..3]).expect(&rt, "memory");
    add_record(&mut file, &PLAIN, &[]).expect(&rt, "memory");
    let arp = [2, 0, 0, 0, 0, 2, 2, 0, 0, 0, 0, 1, 8, 6, 0x45, 0, 0, 0x1c];
    let one = time(1, 5);
    let wanted = [
        (one, true, &PACKET[..]),
        (one, true, &PACKET[..]),
        (one, false, &arp[..]),
        (one, false, &PACKET[..3]),
        (one, true, &[][..]),
    ];
    let format = CaptureFormat::Pcap { nanos: false };
    file_has(&rt, rt.alloc(), &file, format, &wanted);
}

#[test]
fn a_packet_of_pcapng_has_a_link_type_of_its_own(rt: HostRuntime) {
    let mut file = Vec::new(rt.alloc());
    append(&rt, &mut file, &SECTION);
    add_packet(&mut file, 0, 1_000_005, &[], &PACKET).expect(&rt, "memory");
    add_packet(&mut file, 1, 1_000_000_005, &TAGGED, &PACKET).expect(&rt, "memory");
    add_packet(&mut file, 1, 1_000_000_005, &PLAIN, &PACKET).expect(&rt, "memory");
    add_packet(&mut file, 0, 1_000_005, &PLAIN, &PACKET[..2]).expect(&rt, "memory");
    add_packet(&mut file, 1, 3_999_999_999, &ARP, &PACKET[..2]).expect(&rt, "memory");
    let raw = [2, 0, 0, 0, 0, 2, 2, 0, 0, 0, 0, 1, 8, 0, 0x45, 0];
    let arp = [2, 0, 0, 0, 0, 2, 2, 0, 0, 0, 0, 1, 8, 6, 0x45, 0];
    let wanted = [
        (time(1, 5000), true, &PACKET[..]),
        (time(1, 5), true, &PACKET[..]),
        (time(1, 5), true, &PACKET[..]),
        (time(1, 5000), true, &raw[..]),
        (time(3, 999_999_999), false, &arp[..]),
    ];
    file_has(&rt, rt.alloc(), &file, CaptureFormat::Pcapng, &wanted);
}

#[test]
fn the_first_four_octets_tell_the_format(rt: HostRuntime) {
    let alloc = rt.alloc();
    for n in 0..5usize {
        let short = Some(broken(n as u64, CaptureKind::Short));
        same(&rt, ("libpcap", n), refusal(&rt, alloc, &BIG[..n]), short);
        let ng = Some(ng_broken(n as u64, NgKind::Short));
        let wanted = if n < 4 { short } else { ng };
        let found = refusal(&rt, alloc, &SECTION[..n]);
        same(&rt, ("pcapng", n), found, wanted);
    }
    for (file, stop) in [
        (&SECTION[1..], broken(0, CaptureKind::Magic)),
        (&SECTION[..11], ng_broken(11, NgKind::Short)),
        (&BIG[..23], broken(23, CaptureKind::Short)),
    ] {
        same(&rt, file, refusal(&rt, alloc, file), Some(stop));
    }
    same(&rt, "pcapng", refusal(&rt, alloc, &SECTION[..28]), None);
    same(&rt, "libpcap", refusal(&rt, alloc, &BIG), None);
}

/// Ends the test unless a reader gives two frames of `PACKET`, then this fault again and again, and no octets with it.
fn breaks_behind_two(rt: &impl Abort, alloc: Global, file: &[u8], head: FrameHead, stop: ReadStop) {
    let mut depot = folder(rt, alloc, file);
    let mut into = no_packet(alloc);
    let mut reader = CaptureReader::begin(alloc, &mut depot, "c").expect(rt, "a reader");
    let wanted = [(head, true, &PACKET[..]), (head, true, &PACKET[..])];
    let are = frames_are(&mut reader, &mut depot, &mut into, &wanted);
    holds(rt, ("frames", stop), are);
    same(rt, "first", reader.next(&mut depot, &mut into), Err(stop));
    holds(rt, ("no octets", stop), into.bytes.as_slice().is_empty());
    same(rt, "again", reader.next(&mut depot, &mut into), Err(stop));
}

#[test]
fn a_fault_is_told_of_libpcap(rt: HostRuntime) {
    let mut file = Vec::new(rt.alloc());
    append(&rt, &mut file, &BIG);
    for _ in 0..3u32 {
        append(&rt, &mut file, &BIG_RECORD);
        append(&rt, &mut file, &PACKET);
    }
    same(&rt, "octets", file.len(), 156);
    let stop = broken(155, CaptureKind::Short);
    breaks_behind_two(&rt, rt.alloc(), cut(&file, 155), time(1, 5), stop);
}

#[test]
fn a_fault_is_told_of_pcapng(rt: HostRuntime) {
    let mut file = Vec::new(rt.alloc());
    append(&rt, &mut file, &SECTION);
    for interface in [0, 0, 2] {
        add_packet(&mut file, interface, 1_000_005, &[], &PACKET).expect(&rt, "memory");
    }
    same(&rt, "octets", file.len(), 260);
    let head = time(1, 5000);
    let stop = ng_broken(208, NgKind::Interface);
    breaks_behind_two(&rt, rt.alloc(), &file, head, stop);
    let stop = ng_broken(259, NgKind::Short);
    breaks_behind_two(&rt, rt.alloc(), cut(&file, 259), head, stop);
}

#[test]
fn an_absent_file_is_told(rt: HostRuntime) {
    let mut depot = folder(&rt, rt.alloc(), &BIG);
    let begun = CaptureReader::begin(rt.alloc(), &mut depot, "absent").err();
    same(&rt, "absent", begun, Some(ReadStop::ReadFault));
}

/// Why the file's reading doesn't begin where its first or its second read fails.
fn unread(rt: &impl Abort, alloc: Global, file: &[u8], fail: u32) -> Option<ReadStop> {
    let mut depot = MemoryDepot::new(alloc, &[fail], 1000).expect(rt, "memory");
    depot.put("c", file).expect(rt, "memory");
    CaptureReader::begin(alloc, &mut depot, "c").err()
}

#[test]
fn reads_that_fail_are_told(rt: HostRuntime) {
    for fail in [1, 2] {
        let stop = Some(ReadStop::ReadFault);
        let found = unread(&rt, rt.alloc(), &BIG, fail);
        same(&rt, ("libpcap", fail), found, stop);
        let found = unread(&rt, rt.alloc(), &SECTION, fail);
        same(&rt, ("pcapng", fail), found, stop);
    }
}

/// A packet in memory of so many octets.
fn packet_of(rt: &impl Abort, alloc: Global, count: usize) -> PacketIn {
    let mut octets = Vec::new(alloc);
    octets.reserve(count).expect(rt, "memory");
    PacketIn {
        bytes: Octets::of(octets),
        is_ip: false,
    }
}

#[test]
fn a_packet_is_put_in_the_memory_that_was_lent(rt: HostRuntime) {
    let mut file = Vec::new(rt.alloc());
    append(&rt, &mut file, &ETHERNET);
    add_record(&mut file, &PLAIN, &PACKET).expect(&rt, "memory");
    add_record(&mut file, &PLAIN, &PACKET).expect(&rt, "memory");
    lends(&rt, rt.alloc(), cut(&file, 139));
}

/// Ends the test unless a packet, and a fault after it, leave the memory that was lent.
fn lends(rt: &impl Abort, alloc: Global, file: &[u8]) {
    let mut depot = folder(rt, alloc, file);
    let mut into = packet_of(rt, alloc, 100_000);
    let mut reader = CaptureReader::begin(alloc, &mut depot, "c").expect(rt, "a reader");
    let found = reader.next(&mut depot, &mut into);
    same(rt, "a packet", found, Ok(Some(time(1, 5))));
    same(rt, "its octets", into.bytes.as_slice(), PACKET.as_slice());
    holds(rt, "a fault", reader.next(&mut depot, &mut into).is_err());
    holds(
        rt,
        "the memory",
        into.bytes.into_vec().capacity() >= 100_000,
    );
}

/// Ends the test unless a file that is written in this format gives what was written.
fn reads_back(rt: &impl Abort, alloc: Global, format: CaptureFormat)
    requires { IsTime format (record { seconds = 7; fraction = 999999999 }) }
{
    let late = FrameHead {
        seconds: 7,
        fraction: 999_999_999,
    };
    let mut file = Vec::new(alloc);
    format.write_head(&mut file).expect(rt, "memory");
    format
        .write_frame(late, &PACKET, &mut file)
        .expect(rt, "memory");
    format
        .write_frame(late, &PACKET[..27], &mut file)
        .expect(rt, "memory");
    let wanted = [(late, true, &PACKET[..]), (late, true, &PACKET[..27])];
    file_has(rt, alloc, &file, format, &wanted);
}

#[test]
fn what_is_written_is_read_back(rt: HostRuntime) {
    reads_back(&rt, rt.alloc(), CaptureFormat::Pcap { nanos: false });
    reads_back(&rt, rt.alloc(), CaptureFormat::Pcap { nanos: true });
    reads_back(&rt, rt.alloc(), CaptureFormat::Pcapng);
}

const RAW: CaptureFormat = CaptureFormat::Pcap { nanos: true };

const HEAD: FrameHead = FrameHead {
    seconds: 1,
    fraction: 2,
};

#[test]
fn a_capture_is_made_in_pieces(rt: HostRuntime) {
    let alloc = rt.alloc();
    let mut depot = MemoryDepot::new(alloc, &[], 100000).expect(&rt, "memory");
    let mut waits = create_capture(alloc, &mut depot, "c", RAW).expect(&rt, "made");
    same(&rt, "a head waits", waits.len(), 24);
    same(&rt, "an empty file", depot.get("c"), Some(b"".as_slice()));
    add_frame(&mut depot, "c", RAW, HEAD, &[9; 40], &mut waits).expect(&rt, "waits");
    same(&rt, "a frame waits", waits.len(), 80);
    add_frame(&mut depot, "c", RAW, HEAD, &[9; 17000], &mut waits).expect(&rt, "appended");
    same(&rt, "nothing waits", waits.len(), 0);
    add_frame(&mut depot, "c", RAW, HEAD, b"123", &mut waits).expect(&rt, "waits");
    append_rest(&mut depot, "c", &mut waits).expect(&rt, "appended");
    is_made(&rt, depot.get("c").expect(&rt, "there"));
}

/// The head of a capture is finished where the call of this number fails: the file is made, appended to and ended.
fn is_finished(
    rt: &impl Abort,
    alloc: Global,
    fails: u32,
    finished: Result<(), IoFault>,
    octets: usize,
) {
    let mut depot = MemoryDepot::new(alloc, &[fails], 9).expect(rt, "memory");
    let mut waits = create_capture(alloc, &mut depot, "c", RAW).expect(rt, "made");
    let found = finish_capture(&mut depot, "c", &mut waits);
    same(rt, fails, found, finished);
    same(
        rt,
        fails,
        depot.get("c").map(|file| file.len()),
        Some(octets),
    );
}

#[test]
fn a_capture_is_finished(rt: HostRuntime) {
    let alloc = rt.alloc();
    is_finished(&rt, alloc, 3, Err(IoFault::Failed), 9);
    is_finished(&rt, alloc, 5, Err(IoFault::Failed), 24);
    is_finished(&rt, alloc, 6, Ok(()), 24);
}

fn is_made(rt: &impl Abort, made: &[u8]) {
    same(rt, "octets", made.len(), 24 + 56 + 17016 + 19);
    let magic = b"\x4d\x3c\xb2\xa1".as_slice();
    same(rt, "magic", made.get(..4), Some(magic));
    let last = b"\x01\0\0\0\x02\0\0\0\x03\0\0\0\x03\0\0\x00123".as_slice();
    same(rt, "last frame", made.get(17096..), Some(last));
}
