//! What no clause says: that calls succeed with ample memory, and the real edge once each way.
use crate::checks::same;
use crate::of_net_io::worn::Worn;
use net_io::*;
use std::alloc::{Alloc, Global};
use std::fs;
use std::os::unix;
use std::process::Abort;

mod worn;

// From an octet on, how many of four are read, and the buffer then.
const READS: &[(u64, usize, [u8; 4])] = &[
    (0, 4, *b"0123"),
    (2, 3, *b"234."),
    (4, 1, *b"4..."),
    (5, 0, *b"...."),
    (u64::MAX, 0, *b"...."),
];

/// How many octets a read gives, and the buffer then.
type Four = (Result<usize, IoFault>, [u8; 4]);

fn four_from<D: Depot>(depot: &mut D, name: &str, at: u64) -> Four {
    let mut buf = *b"....";
    let read = read_full(depot, name, at, &mut buf);
    (read, buf)
}

/// A read over what the buffer held, and of it those octets that were read.
fn four_over<D: Depot>(depot: &mut D, name: &str, at: u64) -> Four {
    let (mut buf, mut over) = (*b"....", *b"????");
    let read = read_full_over(depot, name, at, &mut over);
    let count = read.unwrap_or(0);
    buf[..count].copy_from_slice(&over[..count]);
    (read, buf)
}

/// A read from an octet on in both ways.
fn fours<D: Depot>(depot: &mut D, name: &str, at: u64) -> (Four, Four) {
    let from = four_from(depot, name, at);
    (from, four_over(depot, name, at))
}

fn reads_all<D: Depot>(rt: &impl Abort, depot: &mut D, piece: usize) {
    for &(at, count, want) in READS {
        let read = (Ok(count), want);
        same(rt, (at, piece), fours(depot, "p.bin", at), (read, read));
    }
}

fn reads_whole<D: Depot>(rt: &impl Abort, alloc: Global, depot: &mut D) {
    let whole = read_whole(alloc, depot, "p.bin", 5).expect(rt, "5 octets");
    same(rt, "whole", whole.as_slice(), b"01234".as_slice());
    let longer = read_whole(alloc, depot, "p.bin", 4).err();
    same(rt, "longer", longer, Some(WholeFault::TooLong));
}

#[test]
fn reads_by_pieces(rt: HostRuntime) {
    for piece in [1, 2, 9] {
        let mut depot = MemoryDepot::new(rt.alloc(), &[], piece).expect(&rt, "memory");
        depot.put("p.bin", b"01234").expect(&rt, "memory");
        reads_all(&rt, &mut depot, piece);
        reads_whole(&rt, rt.alloc(), &mut depot);
    }
}

// The fourth call fails, which is the third append by pieces of two octets.
#[test]
fn calls_fail_by_plan(rt: HostRuntime) {
    let mut depot = MemoryDepot::new(rt.alloc(), &[4], 2).expect(&rt, "memory");
    depot.create("c").expect(&rt, "made");
    same(&rt, "no failed call", depot.failed(), None);
    let appended = append_all(&mut depot, "c", b"12345");
    same(&rt, "the third append", appended, Err(IoFault::Failed));
    let found = depot.read_at("a", 0, &mut [0]);
    same(&rt, "of no file", found, Err(IoFault::Failed));
    let found = depot.failed();
    same(&rt, "first failed call", found, Some(DepotCall::Append));
    same(&rt, "two appends", depot.get("c"), Some(b"1234".as_slice()));
    same(&rt, "read", depot.read_at("c", 3, &mut [0]), Ok(1));
}

// The third call ends the file, which holds what was appended.
#[test]
fn ends_fail_by_plan(rt: HostRuntime) {
    let mut depot = MemoryDepot::new(rt.alloc(), &[3], 9).expect(&rt, "memory");
    depot.create("c").expect(&rt, "made");
    append_all(&mut depot, "c", b"123").expect(&rt, "appended");
    let ended = depot.finish("c");
    same(&rt, "an end that fails", ended, Err(IoFault::Failed));
    let found = depot.failed();
    same(&rt, "failed call", found, Some(DepotCall::Append));
    same(&rt, "held", depot.get("c"), Some(b"123".as_slice()));
    same(&rt, "an end", depot.finish("c"), Ok(()));
}

#[test]
fn writes_fail_by_plan(rt: HostRuntime) {
    let mut sink = MemorySink::new(rt.alloc(), &[2], 3).expect(&rt, "memory");
    let written = write_all_to(&mut sink, b"abcdefgh");
    same(&rt, "the second write", written, Err(IoFault::Failed));
    same(&rt, "the rest", write_all_to(&mut sink, b"defgh"), Ok(()));
    same(&rt, "written", sink.bytes(), b"abcdefgh".as_slice());
}

#[test]
fn a_safe_depot_succeeds(rt: HostRuntime) {
    let mut depot = SafeDepot::new(rt.alloc());
    depot.put("a", b"x").expect(&rt, "memory");
    depot.create("c").expect(&rt, "made");
    append_all(&mut depot, "c", b"123").expect(&rt, "appended");
    same(&rt, "an end", depot.finish("c"), Ok(()));
    let whole = read_whole(rt.alloc(), &mut depot, "c", 9).expect(&rt, "3 octets");
    same(&rt, "whole", whole.as_slice(), b"123".as_slice());
    same(&rt, "no failed call", depot.failed(), None);
    let found = depot.read_at("b", 0, &mut [0]);
    same(&rt, "of no file", found, Err(IoFault::Failed));
    same(&rt, "failed call", depot.failed(), Some(DepotCall::Read));
}

#[test]
fn a_safe_sink_succeeds(rt: HostRuntime) {
    let mut sink = SafeSink::new(rt.alloc());
    same(&rt, "write", write_all_to(&mut sink, b"abc"), Ok(()));
    same(&rt, "written", sink.bytes(), b"abc".as_slice());
}

fn make_with<D: Depot>(rt: &impl Abort, depot: &mut D, name: &str, octets: &[u8]) {
    depot.create(name).expect(rt, "made");
    append_all(depot, name, octets).expect(rt, "appended");
}

// The file that was read last stays open: on from there, back, another one, and the first again.
fn reads_in_turn<D: Depot>(rt: &impl Abort, depot: &mut D, name: &str, other: &str) {
    for (file, at, count, want) in [
        (name, 0, 4, *b"0123"),
        (name, 4, 2, *b"45.."),
        (name, 3, 3, *b"345."),
        (other, 1, 2, *b"bc.."),
        (name, 6, 0, *b"...."),
        (name, 1 << 63, 0, *b"...."),
    ] {
        let read = (Ok(count), want);
        same(rt, at, fours(depot, file, at), (read, read));
    }
}

fn fails_without_a_file(rt: &impl Abort, depot: &mut RealDepot<&HostRuntime>, name: &str) {
    let read = depot.read_at(name, 0, &mut [0]);
    same(rt, "a read of no file", read, Err(IoFault::Failed));
    let appended = depot.append(name, b"x");
    same(rt, "an append to no file", appended, Err(IoFault::Failed));
}

fn makes_and_reads(files: &HostRuntime, rt: &impl Abort, name: &str, other: &str) {
    let mut depot = RealDepot::new(files, files.alloc()).expect(rt, "memory");
    fails_without_a_file(rt, &mut depot, name);
    make_with(rt, &mut depot, name, b"012345");
    make_with(rt, &mut depot, other, b"abc");
    reads_in_turn(rt, &mut depot, name, other);
}

#[test]
fn real_files(rt: HostRuntime) {
    let id = std::process::id(rt.process());
    let name = format!(in rt.alloc(); "/tmp/net_io-{id}").expect(&rt, "memory");
    let other = format!(in rt.alloc(); "/tmp/net_io-{id}-2").expect(&rt, "memory");
    makes_and_reads(&rt, &rt, &name, &other);
    fs::remove_file(&rt, &name).expect(&rt, "removed");
    fs::remove_file(&rt, &other).expect(&rt, "removed");
}

fn is_held(files: &HostRuntime, rt: &impl Abort, name: &str, want: &str) {
    let held = fs::read_to_string(files, name).ok();
    same(rt, want, held.as_deref(), Some(want));
}

// What one folder makes, another one can't make before it is ended. It stays as it is.
fn make_in_turn(files: &HostRuntime, rt: &impl Abort, name: &str) {
    let mut first = RealDepot::new(files, files.alloc()).expect(rt, "memory");
    let mut second = RealDepot::new(files, files.alloc()).expect(rt, "memory");
    make_with(rt, &mut first, name, b"012");
    let refused = second.create(name);
    same(rt, "a file that is held", refused, Err(IoFault::Failed));
    is_held(files, rt, name, "012");
    same(rt, "an end", first.finish(name), Ok(()));
    same(rt, "made anew", second.create(name), Ok(()));
    is_held(files, rt, name, "");
}

// Calls that were interrupted are made again, a file is made where none can be held, and an error that comes late is told.
fn makes_worn_files(files: &HostRuntime, rt: &impl Abort, name: &str) {
    let mut depot = RealDepot::new(Worn(files), files.alloc()).expect(rt, "memory");
    make_with(rt, &mut depot, name, b"012");
    let read = (Ok(3), *b"012.");
    same(rt, "read", fours(&mut depot, name, 0), (read, read));
    same(rt, "an end", depot.finish(name), Err(IoFault::Failed));
    is_held(files, rt, name, "012");
}

#[test]
fn files_are_held_and_ended(rt: HostRuntime) {
    let id = std::process::id(rt.process());
    let name = format!(in rt.alloc(); "/tmp/net_io-{id}-held").expect(&rt, "memory");
    make_in_turn(&rt, &rt, &name);
    makes_worn_files(&rt, &rt, &name);
    fs::remove_file(&rt, &name).expect(&rt, "removed");
}

// Names, in a folder of their own, of files that are protected or made, and of what is no regular file. The protected `to_later` leads to
// `later`, which isn't there.
const REFUSED: &[&str] = &[
    "in",
    "./in",
    "sub/../in",
    "link",
    "hard",
    "later",
    "to_later",
    "nowhere",
    "made",
    "of_made",
    "sub",
    "../../dev/null",
];

const AFTERWARDS: &[(&str, Option<&str>)] = &[
    ("in", Some("kept")),
    ("made", Some("abc")),
    ("old", Some("")),
    ("new", Some("")),
    ("later", None),
    ("none", None),
];

fn within(rt: &impl Abort, alloc: Global, folder: &str, name: &str) -> String {
    format!(in alloc; "{folder}/{name}").expect(rt, "memory")
}

fn write_file<R: Abort + fs::Files>(rt: &R, name: &str, octets: &str) {
    fs::write(rt, name, octets).expect(rt, "written");
}

fn link<R: Abort + fs::Files>(rt: &R, file: &str, link: &str) {
    unix::fs::symlink(rt, file, link).expect(rt, "linked");
}

// Two files, a link that leads to each name, and a second name of the first file.
fn set_up<R: Abort + Alloc + fs::Files>(rt: &R, alloc: Global, folder: &str) {
    fs::create_dir_all(rt, &within(rt, alloc, folder, "sub")).expect(rt, "folders");
    for (file, octets) in [("in", "kept"), ("old", "old")] {
        write_file(rt, &within(rt, alloc, folder, file), octets);
    }
    let kept = within(rt, alloc, folder, "in");
    fs::hard_link(rt, &kept, &within(rt, alloc, folder, "hard")).expect(rt, "linked");
    for (file, name) in [
        ("in", "link"),
        ("later", "to_later"),
        ("none", "nowhere"),
        ("made", "of_made"),
    ] {
        link(rt, file, &within(rt, alloc, folder, name));
    }
}

fn make_files<D: Depot>(rt: &impl Abort, alloc: Global, folder: &str, depot: &mut D) {
    for name in ["in", "to_later"] {
        depot
            .protect(&within(rt, alloc, folder, name))
            .expect(rt, "memory");
    }
    for name in ["old", "new", "made"] {
        depot
            .create(&within(rt, alloc, folder, name))
            .expect(rt, "made");
    }
}

fn are_refused<D: Depot>(rt: &impl Abort, alloc: Global, folder: &str, depot: &mut D) {
    for &name in REFUSED {
        let refused = depot.create(&within(rt, alloc, folder, name));
        same(rt, name, refused, Err(IoFault::Failed));
    }
}

fn are_held(files: &HostRuntime, rt: &impl Abort, alloc: Global, folder: &str) {
    for &(name, want) in AFTERWARDS {
        let held = fs::read_to_string(files, &within(rt, alloc, folder, name)).ok();
        same(rt, name, held.as_deref(), want);
    }
}

#[test]
fn guarded_files(rt: HostRuntime) {
    let id = std::process::id(rt.process());
    let alloc = rt.alloc();
    let folder = format!(in alloc; "/tmp/net_io-{id}-guarded").expect(&rt, "memory");
    set_up(&rt, alloc, &folder);
    let mut depot = RealDepot::new(&rt, alloc).expect(&rt, "memory");
    make_files(&rt, alloc, &folder, &mut depot);
    append_all(&mut depot, &within(&rt, alloc, &folder, "made"), b"abc").expect(&rt, "appended");
    are_refused(&rt, alloc, &folder, &mut depot);
    are_held(&rt, &rt, alloc, &folder);
    fs::remove_dir_all(&rt, &folder).expect(&rt, "removed");
}

#[test]
fn standard_output(rt: HostRuntime) {
    let mut sink = RealSink::new(&rt);
    let written = write_all_to(&mut sink, b"a line on standard output\n");
    same(&rt, "a line", written, Ok(()));
}
