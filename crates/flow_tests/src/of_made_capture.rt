//! Packets and a capture, octet by octet, as another program computed them; that a buffer is used again.

ghost use Rattle.std.specs.Prelude.{◌≡◌, ◌+◌, ◌^◌, ◌<◌, OnOk};

use crate::checks::same;
use made_run::Maker;
use mls_label::OutOfMemory;
use pcap_frames::{FrameHead, write_frame, write_head};
use std::process::Abort;

/// A packet by its checksum, the last octet of its source, and its options.
fn packet(checksum: [u8; 2], source: u8, options: [u8; 12]) -> [u8; 40] {
    let mut packet = [
        0x48, 0, 0, 0x28, 0, 0, 0, 0, 0x40, 0x11, 0, 0, 10, 0, 0, source, 10, 0, 0, 2, 0, 0, 0, 0,
        0, 0, 0, 0, 0, 0, 0, 0, 3, 0xe8, 0, 0x35, 0, 8, 0, 0,
    ];
    packet[10..12].copy_from_slice(&checksum);
    packet[20..32].copy_from_slice(&options);
    packet
}

/// What changes from packet to packet: the checksum, the last octet of the source, and the options.
type Changes = ([u8; 2], u8, [u8; 12]);

/// The first three packets from four numbers.
const FIRST: &[(u64, Changes, Changes, Changes)] = &[
    (
        0,
        (
            [0xd6, 0xa8],
            0x7e,
            [0x86, 12, 0, 0, 0, 16, 1, 6, 0, 0, 0x05, 0x7b],
        ),
        (
            [0xd3, 0xa0],
            0x11,
            [0x86, 12, 0, 0, 0, 16, 1, 6, 0, 2, 0x08, 0xee],
        ),
        (
            [0xe6, 0x04],
            0x22,
            [0x86, 12, 0, 0, 0, 16, 1, 6, 0, 2, 0xf6, 0x78],
        ),
    ),
    (
        1,
        (
            [0x84, 0x86],
            0xac,
            [0x86, 12, 0, 0, 0, 16, 1, 6, 0, 0, 0x57, 0x6f],
        ),
        (
            [0x73, 0x66],
            0xb3,
            [0x86, 12, 0, 0, 0, 16, 1, 6, 0, 2, 0x68, 0x86],
        ),
        (
            [0xe1, 0x25],
            0x99,
            [0x86, 12, 0, 0, 0, 16, 1, 6, 0, 1, 0xfa, 0xe1],
        ),
    ),
    (
        7,
        (
            [0x98, 0xbb],
            0xbc,
            [0x86, 12, 0, 0, 0, 16, 1, 6, 0, 2, 0x43, 0x28],
        ),
        (
            [0x36, 0x08],
            0x7f,
            [0x86, 12, 0, 0, 0, 16, 1, 6, 0, 0, 0xa6, 0x1a],
        ),
        (
            [0xc6, 0xe5],
            0x62,
            [0x86, 12, 0, 0, 0, 16, 1, 6, 0, 0, 0x15, 0x5a],
        ),
    ),
    (
        0xffff_ffff_ffff_ffff,
        (
            [0x28, 0xc6],
            0x51,
            [0x86, 12, 0, 0, 0, 16, 1, 6, 0, 3, 0xb3, 0x87],
        ),
        (
            [0x32, 0xdc],
            0x6f,
            [0x86, 12, 0, 0, 0, 16, 1, 6, 0, 1, 0xa9, 0x55],
        ),
        (
            [0xe9, 0xe4],
            0xab,
            [0x86, 12, 0, 0, 0, 16, 1, 6, 0, 3, 0xf2, 0x0e],
        ),
    ),
];

/// Whether the next packet is this one, at this second.
fn next_is(
    maker: &mut Maker,
    octets: &mut Vec<u8>,
    seconds: u32,
    changes: Changes,
) -> Result<bool, OutOfMemory>
    requires { maker.old.made + 1 < 2 ^ 32 }
    ensures { OnOk result (maker.new.made ≡ maker.old.made + 1) }
{
    let head = maker.next(octets)?;
    let fraction = 0;
    Ok(head == FrameHead { seconds, fraction } && is_packet(octets, changes))
}

fn is_packet(octets: &[u8], changes: Changes) -> bool {
    let (checksum, source, options) = changes;
    octets == packet(checksum, source, options).as_slice()
}

fn begins(
    rt: &impl Abort,
    octets: &mut Vec<u8>,
    (seed, first, second, third): (u64, Changes, Changes, Changes),
) {
    let mut maker = Maker::new(seed);
    let is_first = next_is(&mut maker, octets, 1, first).expect(rt, "memory");
    same(rt, (1, seed), is_first, true);
    let is_second = next_is(&mut maker, octets, 2, second).expect(rt, "memory");
    same(rt, (2, seed), is_second, true);
    let is_third = next_is(&mut maker, octets, 3, third).expect(rt, "memory");
    same(rt, (3, seed), is_third, true);
    same(rt, ("made", seed), maker.made(), 3);
}

#[test]
fn first_packets(rt: HostRuntime) {
    let mut octets = Vec::new(rt.alloc());
    for packets in FIRST {
        begins(&rt, &mut octets, *packets);
    }
}

/// Seeds, each with its first number above it: numbers whose labels have no category, the first alone, the last alone, those of one octet alone, or all; and those that no
/// bit but the level's, the bitmap's or the source's tells apart.
const NUMBERS: &[(u64, Changes)] = &[
    (
        // 0
        0x9995_b5b6_2153_5015,
        ([0xdc, 0xa5], 0, [0x86, 10, 0, 0, 0, 16, 1, 4, 0, 0, 0, 0]),
    ),
    (
        // 0xffff_ffff
        0x0b9b_eed3_eeb5_2770,
        ([0xdc, 0xa5], 0, [0x86, 10, 0, 0, 0, 16, 1, 4, 0, 0, 0, 0]),
    ),
    (
        // 0x0080_0000_0000_0000
        0xec15_b5b6_2153_5015,
        (
            [0x5c, 0xa3],
            0,
            [0x86, 11, 0, 0, 0, 16, 1, 5, 0, 0, 0x80, 0],
        ),
    ),
    (
        // 0x0000_0100_0000_0000
        0x37be_5ab6_2153_5015,
        ([0xdc, 0xa0], 0, [0x86, 12, 0, 0, 0, 16, 1, 6, 0, 0, 0, 1]),
    ),
    (
        // 0x0000_8000_0000_0000
        0xade8_35b6_2153_5015,
        (
            [0xdc, 0x21],
            0,
            [0x86, 12, 0, 0, 0, 16, 1, 6, 0, 0, 0, 0x80],
        ),
    ),
    (
        // 0x0250_0001_0000_0000
        0xc9c3_de5b_2153_5015,
        (
            [0x8c, 0xa0],
            1,
            [0x86, 11, 0, 0, 0, 16, 1, 5, 0, 2, 0x50, 0],
        ),
    ),
    (
        // 0x03ff_ffff_0000_0000
        0xfaf7_8d11_2153_5015,
        (
            [0xdb, 0x9f],
            0xff,
            [0x86, 12, 0, 0, 0, 16, 1, 6, 0, 3, 0xff, 0xff],
        ),
    ),
    (
        // 0xffff_ffff_ffff_ffff
        0xd8fd_c62e_eeb5_2770,
        (
            [0xdb, 0x9f],
            0xff,
            [0x86, 12, 0, 0, 0, 16, 1, 6, 0, 3, 0xff, 0xff],
        ),
    ),
    (
        // 0xfc80_0000_0000_0000
        0x5815_b5b6_2153_5015,
        (
            [0x5c, 0xa3],
            0,
            [0x86, 11, 0, 0, 0, 16, 1, 5, 0, 0, 0x80, 0],
        ),
    ),
    (
        // 0x0100_0000_0000_0000
        0x3e95_b5b6_2153_5015,
        ([0xdc, 0xa4], 0, [0x86, 10, 0, 0, 0, 16, 1, 4, 0, 1, 0, 0]),
    ),
];

fn comes_first(rt: &impl Abort, octets: &mut Vec<u8>, seed: u64, changes: Changes) {
    let mut maker = Maker::new(seed);
    maker.next(octets).expect(rt, "memory");
    assert!(rt; is_packet(octets, changes), "from {seed}: {octets:?}");
}

#[test]
fn packets_of_numbers(rt: HostRuntime) {
    let mut octets = Vec::new(rt.alloc());
    for &(seed, changes) in NUMBERS {
        comes_first(&rt, &mut octets, seed, changes);
    }
}

/// The capture of two packets from the number 1.
const CAPTURE: &[u8] = &[
    0xd4, 0xc3, 0xb2, 0xa1, 2, 0, 4, 0, 0, 0, 0, 0, 0, 0, 0, 0, 0, 0, 4, 0, 0x65, 0, 0, 0, 1, 0, 0,
    0, 0, 0, 0, 0, 0x28, 0, 0, 0, 0x28, 0, 0, 0, 0x48, 0, 0, 0x28, 0, 0, 0, 0, 0x40, 0x11, 0x84,
    0x86, 10, 0, 0, 0xac, 10, 0, 0, 2, 0x86, 12, 0, 0, 0, 16, 1, 6, 0, 0, 0x57, 0x6f, 3, 0xe8, 0,
    0x35, 0, 8, 0, 0, 2, 0, 0, 0, 0, 0, 0, 0, 0x28, 0, 0, 0, 0x28, 0, 0, 0, 0x48, 0, 0, 0x28, 0, 0,
    0, 0, 0x40, 0x11, 0x73, 0x66, 10, 0, 0, 0xb3, 10, 0, 0, 2, 0x86, 12, 0, 0, 0, 16, 1, 6, 0, 2,
    0x68, 0x86, 3, 0xe8, 0, 0x35, 0, 8, 0, 0,
];

fn append_next(rt: &impl Abort, maker: &mut Maker, octets: &mut Vec<u8>, file: &mut Vec<u8>)
    requires { maker.old.made + 1 < 2 ^ 32 }
    ensures { maker.new.made ≡ maker.old.made + 1 }
{
    let head = maker.next(octets).expect(rt, "memory");
    assert_eq!(rt; octets.len(), 40);
    write_frame(head, octets, file).expect(rt, "memory");
}

#[test]
fn a_capture_of_two_packets(rt: HostRuntime) {
    let mut maker = Maker::new(1);
    let mut octets = Vec::new(rt.alloc());
    let mut file = Vec::new(rt.alloc());
    write_head(false, &mut file).expect(&rt, "memory");
    append_next(&rt, &mut maker, &mut octets, &mut file);
    append_next(&rt, &mut maker, &mut octets, &mut file);
    same(&rt, "file", file.as_slice(), CAPTURE);
}

// What the buffer held goes, and its room stays.
#[test]
fn a_buffer_is_used_again(rt: HostRuntime) {
    let mut octets = vec![in rt.alloc(); 9u8; 100].expect(&rt, "memory");
    let room = octets.capacity();
    let mut maker = Maker::new(1);
    maker.next(&mut octets).expect(&rt, "memory");
    same(&rt, "first", octets.len(), 40);
    maker.next(&mut octets).expect(&rt, "memory");
    same(&rt, "second", octets.len(), 40);
    same(&rt, "room", octets.capacity(), room);
}

fn is_sent<T: Send>(_: &T) {}

// A maker may go to another thread.
#[test]
fn a_maker_is_sent(_rt: HostRuntime) {
    is_sent(&Maker::new(0));
}
