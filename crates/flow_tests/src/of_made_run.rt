//! Captures in a folder in memory, with ample memory, against counts and files that another program computed.

use crate::checks::same;
use label_flow::OpenGate;
use made_run::*;
use net_io::{DepotCall, MemoryDepot};
use std::alloc::Global;
use std::process::Abort;
use std::sync::Wait;
use std::thread::Threads;

/// By seed and count: how many packets are delivered, how many are denied, and the file's digest. Of 1,025 packets the last stands in a
/// batch of its own; of 3,000 the last batch isn't full.
const CAPTURES: &[(u64, u32, u32, u32, u64)] = &[
    (1, 0, 0, 0, 0xcad0_2cb5_1f29_1192),
    (1, 1, 0, 1, 0x4c91_3686_692c_b2db),
    (5, 1, 1, 0, 0x4eba_aa92_9974_c149),
    (1, 1024, 190, 834, 0x7cf7_e384_e36c_3a74),
    (1, 2048, 389, 1659, 0xbe47_2320_2ad3_cd5d),
    (0xffff_ffff_ffff_ffff, 1025, 195, 830, 0xc971_cc5a_d027_15c8),
    (1, 3000, 568, 2432, 0xd475_4168_5790_84c1),
    (7, 3000, 541, 2459, 0xb9f2_0edd_307f_de73),
];

/// Appends that fail, by their numbers among all calls, and how many octets of the capture of 600 packets the file holds then. An append
/// takes at most 4,096 octets; the first piece has 16,432, the second 16,408, and 784 are left. The last call ends the file, which is whole.
const FAILS: &[(u32, usize)] = &[
    (2, 0),
    (3, 4096),
    (6, 16384),
    (7, 16432),
    (8, 20528),
    (11, 32816),
    (12, 32840),
    (13, 33624),
];

// FNV-1a of 64 bits.
fn digest(octets: &[u8]) -> u64 {
    let mut digest = 0xcbf2_9ce4_8422_2325u64;
    for octet in octets {
        digest = (digest ^ u64::from(*octet)).wrapping_mul(0x100_0000_01b3);
    }
    digest
}

// A folder with two files, whose call of this number fails (0: none).
fn folder(rt: &impl Abort, alloc: Global, fails: u32) -> MemoryDepot {
    let mut depot = MemoryDepot::new(alloc, &[fails], 4096).expect(rt, "memory");
    depot.put("made.pcap", b"before").expect(rt, "memory");
    depot.put("other", b"kept").expect(rt, "memory");
    depot
}

fn made(
    rt: &(impl Abort + Threads + Wait + Sync),
    alloc: Global,
    seed: u64,
    count: u32,
    depot: &mut MemoryDepot,
) -> Result<Verdicts, MadeStop> {
    let made = make_capture(rt, alloc, &OpenGate, seed, count, "made.pcap", depot);
    assert!(rt; depot.get("other") == Some(b"kept".as_slice()));
    made
}

fn is_made(
    rt: &(impl Abort + Threads + Wait + Sync),
    alloc: Global,
    (seed, count, delivered, denied, file): (u64, u32, u32, u32, u64),
) {
    let mut depot = folder(rt, alloc, 0);
    let made = made(rt, alloc, seed, count, &mut depot);
    same(rt, (seed, count), made, Ok(Verdicts { delivered, denied }));
    assert!(rt; depot.failed().is_none());
    let octets = depot.get("made.pcap").expect(rt, "a file");
    same(rt, (seed, count), octets.len(), 24 + 56 * count as usize);
    same(rt, (seed, count), digest(octets), file);
}

#[test]
fn captures_are_made_and_judged(rt: HostRuntime) {
    for case in CAPTURES {
        is_made(&rt, rt.alloc(), *case);
    }
}

fn stops_at_append(
    rt: &(impl Abort + Threads + Wait + Sync),
    alloc: Global,
    call: u32,
    left: Option<&[u8]>,
) {
    let mut depot = folder(rt, alloc, call);
    let made = made(rt, alloc, 1, 600, &mut depot);
    same(rt, call, made, Err(MadeStop::Append));
    same(rt, call, depot.failed(), Some(DepotCall::Append));
    same(rt, call, depot.get("made.pcap"), left);
}

#[test]
fn appends_that_fail_stop_a_making(rt: HostRuntime) {
    let mut depot = folder(&rt, rt.alloc(), 14);
    let made = made(&rt, rt.alloc(), 1, 600, &mut depot);
    assert!(rt; made.is_ok() && depot.failed().is_none());
    let whole = depot.get("made.pcap").expect(&rt, "a file");
    for &(call, octets) in FAILS {
        stops_at_append(&rt, rt.alloc(), call, whole.get(..octets));
    }
}

#[test]
fn a_file_that_cannot_be_made_stops_a_making(rt: HostRuntime) {
    let mut depot = folder(&rt, rt.alloc(), 1);
    let made = made(&rt, rt.alloc(), 1, 600, &mut depot);
    same(&rt, "made", made, Err(MadeStop::Create));
    same(&rt, "failed", depot.failed(), Some(DepotCall::Create));
    same(
        &rt,
        "left",
        depot.get("made.pcap"),
        Some(b"before".as_slice()),
    );
}
