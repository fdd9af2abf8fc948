//! Calls over a folder and a stream in memory: reports that are judged in `judged`, what comes in front of that and calls that fail in `stops`.

mod judged;
mod stops;

use super::*;
use net_io::{MemoryDepot, MemorySink};
use std::alloc::Global;
use std::process::Abort;
use worked_values::octets_of;

/// Captures: a name, and the octets in hexadecimal. All but the last two are of link type 101. An unlabelled packet from 10.0.0.1 to 10.0.0.2
/// once, twice, three times without the last six octets, and once in pcapng; none, in either format; a wrong magic, in either format; Ethernet with ARP, a packet
/// with a CIPSO option behind a tag of IEEE 802.1Q, and one from 192.168.7.9 and one from 172.16.0.1 without a label.
const FILES: &str = "one.pcap
d4c3b2a1020004000000000000000000000004006500000001000000000000001c0000001c0000004500001c00004000
401126cf0a0000010a00000203e800350008e7be

two.pcap
d4c3b2a1020004000000000000000000000004006500000001000000000000001c0000001c0000004500001c00004000
401126cf0a0000010a00000203e800350008e7be02000000000000001c0000001c0000004500001c00004000401126cf
0a0000010a00000203e800350008e7be

cut.pcap
d4c3b2a1020004000000000000000000000004006500000001000000000000001c0000001c0000004500001c00004000
401126cf0a0000010a00000203e800350008e7be02000000000000001c0000001c0000004500001c00004000401126cf
0a0000010a00000203e800350008e7be03000000000000001c0000001c0000004500001c00004000401126cf0a000001
0a00000203e8

one.pcapng
0a0d0d0a1c0000004d3c2b1a01000000ffffffffffffffff1c0000000100000020000000650000000000040009000100
090000000000000020000000060000003c000000000000000000000000ca9a3b1c0000001c0000004500001c00004000
401126cf0a0000010a00000203e800350008e7be3c000000

empty.pcap
d4c3b2a10200040000000000000000000000040065000000

empty.pcapng
0a0d0d0a1c0000004d3c2b1a01000000ffffffffffffffff1c0000000100000020000000650000000000040009000100
090000000000000020000000

bad.pcap
00c3b2a10200040000000000000000000000040065000000

bad.pcapng
0a0d0d0a1c0000004d3c2b1a01000000ffffffffffffffff18000000

site.pcap
d4c3b2a1020004000000000000000000ffff00000100000000ca9a3b000000002a0000002a0000000200000000020200
00000001080600010800060400010200000000010a0000010000000000000a00000201ca9a3b000000003a0000003a00
0000020000000002020000000001810000640800480000280000000040118ca00a0000010a000002860b000000100105
0002500003e800350008000002ca9a3b000000003d0000003d00000002000000000202000000000108004500002f0000
4000401168d8c0a807090a00003503e80035001b25520001010000010000000000000161000001000103ca9a3b000000
002a0000002a00000002000000000202000000000108004500001c00004000401184beac1000010a00000203e8003500
0845ae";

const USAGE: &str = "usage: netlabel_audit <script> <report> <n>\n";

/// The words of a line, which single spaces part.
fn words_of(rt: &impl Abort, alloc: Global, line: &str) -> Vec<String> {
    let mut words = Vec::new(alloc);
    for word in line.split(' ') {
        let word = String::from_str(alloc, word).expect(rt, "there is memory");
        words.push(word).expect(rt, "there is memory");
    }
    words
}

/// A folder with the script `s`, the report `r` and all captures, where the read of this number fails (0: none). All is read in pieces of so
/// many octets.
fn folder(
    rt: &impl Abort,
    alloc: Global,
    script: &str,
    report: &str,
    read: u32,
    piece: usize,
) -> MemoryDepot {
    let mut depot = MemoryDepot::new(alloc, &[read], piece.max(1)).expect(rt, "there is memory");
    depot
        .put("s", script.as_bytes())
        .expect(rt, "there is memory");
    depot
        .put("r", report.as_bytes())
        .expect(rt, "there is memory");
    for file in FILES.split("\n\n") {
        let (name, digits) = file.split_once('\n').expect(rt, "a file");
        let octets = octets_of(alloc, digits).expect(rt, "there is memory");
        depot.put(name, &octets).expect(rt, "there is memory");
    }
    depot
}

/// The status of the words of a line and what is printed, where the write of this number fails (0: none).
fn told(
    rt: &impl Abort,
    alloc: Global,
    line: &str,
    depot: MemoryDepot,
    write: u32,
) -> (u8, Vec<u8>) {
    let mut depot = depot;
    let mut sink = MemorySink::new(alloc, &[write], 7).expect(rt, "there is memory");
    let words = words_of(rt, alloc, line);
    let status = audit(alloc, &words, &mut depot, &mut sink);
    (
        status,
        Vec::from_slice(alloc, sink.bytes()).expect(rt, "there is memory"),
    )
}

/// Whether the call ends with this status and has printed this text.
fn answers(
    rt: &impl Abort,
    alloc: Global,
    line: &str,
    script: &str,
    report: &str,
    status: u8,
    text: &str,
) -> bool {
    let depot = folder(rt, alloc, script, report, 0, 4096);
    let (got, printed) = told(rt, alloc, line, depot, 0);
    got == status && printed.as_slice() == text.as_bytes()
}
