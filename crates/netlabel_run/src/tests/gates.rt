//! Commands that come while packets are on their way: with gates that hold a command or a look back, and over many packets.

ghost use Rattle.std.specs.Prelude.{◌<◌};

use super::flows::{ONE_LABEL_REPLIES, call, folder, with_line};
use super::three::DIGITS;
use call_report::FlowSeen;
use label_flow::{Gate, OpenGate};
use mls_label::write_decimal;
use std::alloc::Global;
use std::process::Abort;
use std::str::from_utf8;
use std::sync::Wait;
use std::sync::atomic::{AtomicU64, Ordering};
use std::thread::{Threads, yield_now};
use worked_values::octets_of;
use worked_values::scripts::{CROSSING, EXCHANGE};

/// So many turns a gate waits at most.
const LIMIT: u64 = 1_000_000_000;

/// For the last command that the first packet's third look finds, what becomes of that packet.
const ENDS: [(u32, &str); 5] = [
    (15, "delivered s2:c7 to 10.0.0.2 versions 15,15,15,15\n"),
    (16, "denied 13 NoMap hop 3 node h versions 15,15,16\n"),
    (17, "denied 13 NoMap hop 3 node h versions 15,15,17\n"),
    (18, "denied 13 NoMap hop 3 node h versions 15,15,18\n"),
    (19, "delivered s2:c8 to 10.0.0.2 versions 15,15,19,19\n"),
];

/// Commands go on behind 15 once the first packet's third look is called, which waits for command `last`; and behind that one once the second
/// packet's first look is called. So with one worker the third look and those behind it find `last`, and where it is 15, all of them.
#[derive(Drop)]
struct Held {
    last: u32,
    looked: AtomicU64,
    stepped: AtomicU64,
    passed: AtomicU64,
    failed: AtomicU64,
}

fn gate_at(last: u32) -> Held {
    Held {
        last,
        looked: AtomicU64::new(0),
        stepped: AtomicU64::new(0),
        passed: AtomicU64::new(0),
        failed: AtomicU64::new(0),
    }
}

// Waits for a flag, with a limit of turns.
fn wait_for(flag: &AtomicU64, failed: &AtomicU64) {
    for _ in 0..LIMIT {
        if flag.load(Ordering::SeqCst) > 0 {
            return;
        }
        yield_now();
    }
    failed.store(1, Ordering::SeqCst);
}

impl Gate for Held {
    fn before_look(&self, _worker: u32, packet: u64, hop: u32) {
        if packet == 1 && hop == 3 {
            self.looked.store(1, Ordering::SeqCst);
            if self.last > 15 {
                wait_for(&self.stepped, &self.failed);
            }
        }
        if packet == 2 && hop == 1 {
            self.passed.store(1, Ordering::SeqCst);
        }
    }

    fn before_step(&self, version: u32) {
        if version == 16 {
            wait_for(&self.looked, &self.failed);
        }
        if version > self.last {
            wait_for(&self.passed, &self.failed);
        }
    }

    fn after_step(&self, version: u32) {
        if version == self.last {
            self.stepped.store(1, Ordering::SeqCst);
        }
    }
}

/// The worked script of four nodes, with one category, its first flow alone, and those commands behind it.
pub fn exchanging(rt: &impl Abort, alloc: Global) -> String {
    let (nodes, flows) = CROSSING.split_once("flow ").expect(rt, "a flow");
    let flow = flows.lines().next().expect(rt, "a flow");
    let (front, back) = flow.split_once("s2:c1,c3").expect(rt, "a label");
    format!(in alloc; "{nodes}flow {front}s2:c1{back}\n{EXCHANGE}").expect(rt, "there is memory")
}

#[test]
fn a_look_finds_the_commands_before_it(rt: HostRuntime) {
    let alloc = rt.alloc();
    let script = exchanging(&rt, alloc);
    for (last, end) in ENDS {
        let gate = gate_at(last);
        let mut depot = folder(&rt, alloc, script.as_str(), 0);
        depot
            .put("one.pcap", &repeated(&rt, alloc, 2))
            .expect(&rt, "there is memory");
        let ran = call(&rt, alloc, "run s -w 1", depot, 0, &gate);
        assert!(rt; ran.status == 0 && gate.failed.load(Ordering::SeqCst) == 0);
        let line = format!(in alloc; "\npacket 1.1 {end}packet 1.2 ").expect(
            &rt,
            "there is memory",
        );
        let printed = from_utf8(&ran.printed).expect(&rt, "a text");
        assert!(rt; printed.contains(line.as_str()), "{line}");
        assert!(rt; printed.ends_with("\ncommand 19 h done\ndone\n"));
    }
}

/// A capture with one packet again and again.
fn repeated(rt: &impl Abort, alloc: Global, count: u32) -> Vec<u8> {
    let three = octets_of(alloc, DIGITS).expect(rt, "there is memory");
    let head = three.get(..24).expect(rt, "a head");
    let record = three.get(24..68).expect(rt, "a record");
    let mut capture = Vec::from_slice(alloc, head).expect(rt, "there is memory");
    for _ in 0..count {
        capture
            .extend_from_slice(record)
            .expect(rt, "there is memory");
    }
    capture
}

/// What is printed of that capture where no command stands behind the flow.
fn all_delivered(rt: &impl Abort, alloc: Global, count: u64) -> Vec<u8> {
    let mut text = Vec::from_slice(alloc, ONE_LABEL_REPLIES.as_bytes()).expect(
        rt,
        "there is memory",
    );
    text.extend_from_slice(b"flow 1 one.pcap\n")
        .expect(rt, "there is memory");
    for number in 0..count {
        text.extend_from_slice(b"packet 1.")
            .expect(rt, "there is memory");
        write_decimal(number + 1, &mut text).expect(rt, "there is memory");
        text.extend_from_slice(b" delivered s1:c2 to 10.0.0.2 versions 4\n")
            .expect(rt, "there is memory");
    }
    let end = format!(in alloc; "end 1 packets {count} passed {count} denied 0\ndone\n").expect(
        rt,
        "there is memory",
    );
    text.extend_from_slice(end.as_str().as_bytes())
        .expect(rt, "there is memory");
    text
}

/// The version of a packet of one hop.
fn version_of(packet: &[u32]) -> u32 {
    match packet {
        [version] => *version,
        _ => 0,
    }
}

/// Each of so many packets has one version, 4 or 5, and none of a worker's packets has an older one than the packet before.
fn none_falls(rt: &impl Abort, flow: &FlowSeen, workers: usize) -> bool
    requires { 0 < workers }
{
    let mut latest = [4u32; 16];
    for place in 0..flow.len() {
        let version = version_of(flow.packet(place));
        let before = latest.get_mut(place % workers).expect(rt, "a worker");
        if version < *before || version > 5 {
            return false;
        }
        *before = version;
    }
    true
}

#[test]
fn batches_keep_the_order_of_packets(rt: HostRuntime) {
    let alloc = rt.alloc();
    for (line, wanted) in [("", true), ("\nmgmt version", false)] {
        let flow = format!(in alloc; "flow one.pcap - receive:r,eth0{line}").expect(
            &rt,
            "there is memory",
        );
        let script = with_line(&rt, alloc, flow.as_str());
        let mut depot = folder(&rt, alloc, script.as_str(), 0);
        depot
            .put("one.pcap", &repeated(&rt, alloc, 2049))
            .expect(&rt, "there is memory");
        let ran = call(&rt, alloc, "run s", depot, 0, &OpenGate);
        assert!(rt; ran.status == 0);
        if wanted {
            assert!(rt; ran.printed.as_slice() == all_delivered(&rt, alloc, 2049).as_slice());
        }
        let flows = ran.seen.flows();
        assert!(rt; flows.len() == 1 && flows[0].len() == 2049);
        assert!(rt; none_falls(&rt, &flows[0], 4));
    }
}

/// Which workers have looked, a bit for each.
#[derive(Drop)]
struct Looked {
    workers: AtomicU64,
}

impl Gate for Looked {
    fn before_look(&self, worker: u32, _packet: u64, _hop: u32) {
        if worker < 64 {
            self.workers.fetch_or(1 << worker, Ordering::SeqCst);
        }
    }

    fn before_step(&self, _version: u32) {}

    fn after_step(&self, _version: u32) {}
}

#[test]
fn each_worker_has_packets(rt: HostRuntime) {
    let alloc = rt.alloc();
    let script = with_line(&rt, alloc, "flow one.pcap - receive:r,eth0");
    let gate = Looked {
        workers: AtomicU64::new(0),
    };
    let mut depot = folder(&rt, alloc, script.as_str(), 0);
    depot
        .put("one.pcap", &repeated(&rt, alloc, 16))
        .expect(&rt, "there is memory");
    let ran = call(&rt, alloc, "run s -w 16", depot, 0, &gate);
    assert_eq!(rt; ran.status, 0);
    assert_eq!(rt; gate.workers.load(Ordering::SeqCst), 65_535);
}

/// A receiver that goes between two flows.
const GOES: &str = "flow one.pcap - receive:r,eth0
flow one.pcap - receive:r,eth0
receiver del address:10.0.0.2
flow one.pcap - receive:r,eth0";

/// What becomes of the packet of the second flow: it is judged before that command or behind it.
const EITHER: [&str; 2] = [
    "packet 2.1 delivered s1:c2 to 10.0.0.2 versions 4\nend 2 packets 1 passed 1 denied 0\n",
    "packet 2.1 denied 10 NoReceiver hop 1 node r versions 5\nend 2 packets 1 passed 0 denied 1\n",
];

fn went(rt: &impl Abort, alloc: Global, second: &str) -> String {
    format!(in alloc;
        "{ONE_LABEL_REPLIES}flow 1 one.pcap\npacket 1.1 delivered s1:c2 to 10.0.0.2 versions 4\nend 1 packets 1 passed 1 denied 0\nflow 2 one.pcap\n{second}command 5 r done\nflow 3 one.pcap\npacket 3.1 denied 10 NoReceiver hop 1 node r versions 5\nend 3 packets 1 passed 0 denied 1\ndone\n"
    ).expect(rt, "there is memory")
}

#[test]
fn a_command_stands_between_two_flows(rt: HostRuntime) {
    let alloc = rt.alloc();
    let script = with_line(&rt, alloc, GOES);
    let [before, behind] = EITHER;
    for _ in 0..20u32 {
        let mut depot = folder(&rt, alloc, script.as_str(), 0);
        depot
            .put("one.pcap", &repeated(&rt, alloc, 1))
            .expect(&rt, "there is memory");
        let ran = call(&rt, alloc, "run s", depot, 0, &OpenGate);
        assert_eq!(rt; ran.status, 0);
        assert!(rt;
            ran.printed.as_slice() == went(&rt, alloc, before).as_str().as_bytes()
                || ran.printed.as_slice() == went(&rt, alloc, behind).as_str().as_bytes()
        );
    }
}
