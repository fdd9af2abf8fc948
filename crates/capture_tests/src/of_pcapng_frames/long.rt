//! Blocks, options and packets that go past a window, and reads that fail.
ghost use Rattle.std.specs.Prelude.{◌≤◌, length};

use super::*;
use crate::checks::same;

/// How many octets a block's body has, and where its block ends behind `HEAD`.
const LONG: &[(usize, usize)] = &[
    (0, 72),
    (4, 76),
    (65_520, 65_592),
    (65_524, 65_596),
    (65_528, 65_600),
    (200_000, 200_072),
];

/// `HEAD`, a block of no known type with this body, and `PACKET`.
fn with_block(rt: &impl Abort, alloc: Global, body: &[u8]) -> Vec<u8>
    requires { length body.now ≤ 262144 }
{
    let mut file = Vec::new(alloc);
    add(rt, &mut file, &HEAD);
    add_block(rt, &mut file, OctetOrder::Little, 0x8000_0001, body);
    add_one(rt, &mut file, &PACKET);
    file
}

fn is_cut_at(rt: &impl Abort, alloc: Global, file: &[u8], at: usize) {
    gives(
        rt,
        alloc,
        at,
        cut(file, at),
        broken(at as u64, NgKind::Short),
    );
}

fn is_passed_over(rt: &impl Abort, alloc: Global, body: &[u8], end: usize)
    requires { length body.now ≤ 262144 }
{
    let mut file = with_block(rt, alloc, body);
    gives(rt, alloc, end, &file, whole(1, 28, ONE));
    for less in [1usize, 2, 3, 4] {
        is_cut_at(rt, alloc, &file, end.saturating_sub(less));
    }
    change(&mut file, end.saturating_sub(1), 9);
    let trailer = (end as u64).saturating_sub(4);
    gives(rt, alloc, end, &file, broken(trailer, NgKind::Trailer));
}

#[test]
fn long_blocks_are_passed_over(rt: HostRuntime) {
    let body = vec![in rt.alloc(); 7u8; 200_000].expect(&rt, "memory");
    for (count, end) in LONG {
        let long = cut(&body, *count);
        assert!(rt; long.len() <= 262_144);
        is_passed_over(&rt, rt.alloc(), long, *end);
    }
}

#[test]
fn a_far_end_is_found(rt: HostRuntime) {
    let body = vec![in rt.alloc(); 7u8; 200_000].expect(&rt, "memory");
    let file = with_block(&rt, rt.alloc(), &body);
    for at in [65_596usize, 65_597, 70_000, 131_132, 150_001, 200_068] {
        is_cut_at(&rt, rt.alloc(), &file, at);
    }
}

/// An interface with so many options in front of its resolution, and another resolution behind it.
fn options(rt: &impl Abort, alloc: Global, count: u32) -> Vec<u8> {
    let mut body = Vec::new(alloc);
    add(rt, &mut body, &[0x65, 0, 0, 0, 0, 0, 4, 0]);
    for _ in 0..count {
        add(rt, &mut body, &[2, 0, 5, 0, 1, 2, 3, 4, 5, 0, 0, 0]);
    }
    add(rt, &mut body, &[9, 0, 1, 0, 9, 0, 0, 0]);
    add(rt, &mut body, &[9, 0, 1, 0, 6, 0, 0, 0]);
    body
}

/// A file of such an interface and `PACKET`.
fn with_options(rt: &impl Abort, alloc: Global, count: u32) -> Vec<u8> {
    let body = options(rt, alloc, count);
    let mut file = Vec::new(alloc);
    add(rt, &mut file, &HEAD[..28]);
    add_block(rt, &mut file, OctetOrder::Little, 1, cut(&body, 262_144));
    add_one(rt, &mut file, &PACKET);
    file
}

fn go_past(rt: &impl Abort, alloc: Global, count: u32, last: usize) {
    let mut file = with_options(rt, alloc, count);
    gives(rt, alloc, (count, "whole"), &file, whole(1, 28, ONE));
    change(&mut file, last.saturating_add(2), 2);
    let fault = broken(last as u64, NgKind::Options);
    gives(rt, alloc, (count, "a broken last one"), &file, fault);
    change(&mut file, last, 0);
    gives(
        rt,
        alloc,
        (count, "none after the end"),
        &file,
        whole(1, 28, ONE),
    );
}

#[test]
fn options_go_past_the_window(rt: HostRuntime) {
    for (count, last) in [(0u32, 52usize), (1, 64), (8_000, 96_052), (20_000, 240_052)] {
        go_past(&rt, rt.alloc(), count, last);
    }
}

fn is_whole(rt: &impl Abort, alloc: Global, long: &[u8])
    requires { length long.now ≤ 262144 }
{
    let mut file = capture(rt, alloc);
    add_one(rt, &mut file, long);
    add_one(rt, &mut file, &PACKET);
    let count = long.len();
    gives(rt, alloc, count, &file, whole(3, count + 56, ONE));
}

#[test]
fn long_packets_are_whole(rt: HostRuntime) {
    let octets = vec![in rt.alloc(); 7u8; 262_144].expect(&rt, "memory");
    for count in [65_503usize, 65_504, 65_505, 65_508, 100_001, 262_144] {
        let long = cut(&octets, count);
        assert!(rt; long.len() == count && count <= 262_144);
        is_whole(&rt, rt.alloc(), long);
    }
}

/// Ends the test unless a reader whose read of this number fails stands where it stood, and then gives a frame of this many octets.
fn goes_on(rt: &impl Abort, alloc: Global, file: &[u8], fail: u32, count: usize) {
    assert!(rt; file.starts_with(&[0x0a, 0x0d, 0x0d, 0x0a]));
    let mut depot = MemoryDepot::new(alloc, &[fail], 1_000_000).expect(rt, "memory");
    depot.put("a.pcapng", file).expect(rt, "memory");
    let mut frames = NgFrames::begin(alloc, &mut depot, "a.pcapng").expect(rt, "a reader");
    let mut into = Vec::new(alloc);
    let failed = frames.next(&mut depot, &mut into);
    same(rt, ("fault", fail), failed, Err(NgStop::ReadFault));
    same(rt, ("no octets", fail), into.len(), 0);
    let given = frames.next(&mut depot, &mut into);
    let found = (given, into.len());
    same(rt, ("frame", fail), found, (Ok(Some(ONE)), count));
}

#[test]
fn a_reader_goes_on_where_it_stood(rt: HostRuntime) {
    let octets = vec![in rt.alloc(); 6u8; 100_000].expect(&rt, "memory");
    let mut file = Vec::new(rt.alloc());
    add(&rt, &mut file, &HEAD);
    add_one(&rt, &mut file, &octets);
    for fail in [2u32, 3] {
        goes_on(&rt, rt.alloc(), &file, fail, 100_000);
    }
}
