//! One flow over a folder and a stream in memory, whose steps are all made beside it, in front of the first look.

ghost use Rattle.std.specs.Prelude.{◌≡◌, ◌≢◌, ◌<◌, length, All, Some};
ghost use Rattle.label_commands.specs.flow_lines.Hop.{node_of};
ghost use Rattle.node_tables.specs.Steps.{tables_after};

use call_report::{FlowSeen, Report};
use captures::{CaptureFormat, FileFault};
use domain_map::read_name;
use label_commands::{FlowLine, Flows, NodeNames, read_flow};
use label_flow::Gate;
use net_io::{DepotCall, MemoryDepot, MemorySink};
use node_tables::Network;
use pcap_frames::{CaptureFault, CaptureKind, FrameHead};
use script_lines::{Step, words_into};
use script_run::*;
use shared_tables::SharedSteps;
use std::alloc::Global;
use std::process::Abort;
use std::str::from_utf8;
use std::sync::Wait;
use std::sync::atomic::{AtomicU64, Ordering};
use std::thread::{Threads, yield_now};
use worked_networks::steps_of;

const LINES: [(usize, &str); 4] = [
    (0, "unlbl accept on"),
    (0, "unlbl add default address:10.0.0.0/8 label:s1:c2"),
    (0, "map add default protocol:unlbl"),
    (0, "receiver add address:10.0.0.2 domain:sink_t level:s1:c2"),
];

const FLOW: &str = "in.pcap out.pcap receive:r,eth0";

/// The header of a capture of packets alone.
const HEADER: [u8; 24] = [
    0xd4, 0xc3, 0xb2, 0xa1, 2, 0, 4, 0, 0, 0, 0, 0, 0, 0, 0, 0, 0, 0, 4, 0, 101, 0, 0, 0,
];

/// In front of the octets of one, in seconds and millionths.
const PACKET_HEAD: [u8; 16] = [1, 0, 0, 0, 2, 0, 0, 0, 28, 0, 0, 0, 28, 0, 0, 0];

/// UDP from 10.0.0.1 to 10.0.0.2 without a label.
const PACKET: [u8; 28] = [
    0x45, 0x00, 0x00, 0x1c, 0x00, 0x00, 0x40, 0x00, 0x40, 0x11, 0x26, 0xcf, 0x0a, 0x00, 0x00, 0x01,
    0x0a, 0x00, 0x00, 0x02, 0x03, 0xe8, 0x00, 0x35, 0x00, 0x08, 0xe7, 0xbe,
];

/// The same from 172.16.0.1, for whom no label is set.
const STRANGER: [u8; 28] = [
    0x45, 0x00, 0x00, 0x1c, 0x00, 0x00, 0x40, 0x00, 0x40, 0x11, 0x84, 0xbe, 0xac, 0x10, 0x00, 0x01,
    0x0a, 0x00, 0x00, 0x02, 0x03, 0xe8, 0x00, 0x35, 0x00, 0x08, 0x45, 0xae,
];

/// The header of a capture of Ethernet in billionths of a second, and that of what is made of it.
const ETHERNET: [u8; 24] = [
    0x4d, 0x3c, 0xb2, 0xa1, 2, 0, 4, 0, 0, 0, 0, 0, 0, 0, 0, 0, 0xff, 0xff, 0, 0, 1, 0, 0, 0,
];

const ITS_OUTPUT: [u8; 24] = [
    0x4d, 0x3c, 0xb2, 0xa1, 2, 0, 4, 0, 0, 0, 0, 0, 0, 0, 0, 0, 0, 0, 4, 0, 101, 0, 0, 0,
];

/// ARP, of which only the front is there.
const ARP: [u8; 30] = [
    1, 0, 0, 0, 7, 0, 0, 0, 14, 0, 0, 0, 14, 0, 0, 0, 2, 0, 0, 0, 0, 2, 2, 0, 0, 0, 0, 1, 8, 6,
];

/// The front of a frame behind a tag of IEEE 802.1Q, and that of one without; 1 and 3 seconds, and 999,999,999 and 8 billionths.
const TAGGED: [u8; 34] = [
    1, 0, 0, 0, 0xff, 0xc9, 0x9a, 0x3b, 46, 0, 0, 0, 46, 0, 0, 0, 2, 0, 0, 0, 0, 2, 2, 0, 0, 0, 0,
    1, 0x81, 0, 0, 100, 8, 0,
];

const PLAIN: [u8; 30] = [
    3, 0, 0, 0, 8, 0, 0, 0, 42, 0, 0, 0, 42, 0, 0, 0, 2, 0, 0, 0, 0, 2, 2, 0, 0, 0, 0, 1, 8, 0,
];

/// The fronts of the tagged and the plain frame's packets in the output.
const FIRST_HEAD: [u8; 16] = [1, 0, 0, 0, 0xff, 0xc9, 0x9a, 0x3b, 28, 0, 0, 0, 28, 0, 0, 0];

const SECOND_HEAD: [u8; 16] = [3, 0, 0, 0, 8, 0, 0, 0, 28, 0, 0, 0, 28, 0, 0, 0];

/// The section header of a pcapng file, as it is written.
const SECTION: [u8; 28] = [
    0x0a, 0x0d, 0x0d, 0x0a, 0x1c, 0, 0, 0, 0x4d, 0x3c, 0x2b, 0x1a, 1, 0, 0, 0, 0xff, 0xff, 0xff,
    0xff, 0xff, 0xff, 0xff, 0xff, 0x1c, 0, 0, 0,
];

/// Its interface of packets alone, in billionths of a second, as it is written.
const RAW_INTERFACE: [u8; 32] = [
    1, 0, 0, 0, 0x20, 0, 0, 0, 0x65, 0, 0, 0, 0, 0, 4, 0, 9, 0, 1, 0, 9, 0, 0, 0, 0, 0, 0, 0, 0x20,
    0, 0, 0,
];

/// One of Ethernet, in millionths.
const ETHERNET_INTERFACE: [u8; 20] = [
    1, 0, 0, 0, 0x14, 0, 0, 0, 1, 0, 0, 0, 0, 0, 4, 0, 0x14, 0, 0, 0,
];

/// In front of the octets of a packet of the first interface, at second 1, and behind them.
const NG_PACKET_HEAD: [u8; 28] = [
    6, 0, 0, 0, 0x3c, 0, 0, 0, 0, 0, 0, 0, 0, 0, 0, 0, 0, 0xca, 0x9a, 0x3b, 0x1c, 0, 0, 0, 0x1c, 0,
    0, 0,
];

const NG_END: [u8; 4] = [0x3c, 0, 0, 0];

/// ARP on the first interface, of which only the front is there.
const NG_ARP: [u8; 48] = [
    6, 0, 0, 0, 0x30, 0, 0, 0, 0, 0, 0, 0, 0, 0, 0, 0, 0x47, 0x4b, 0x4c, 0, 0x0e, 0, 0, 0, 0x0e, 0,
    0, 0, 2, 0, 0, 0, 0, 2, 2, 0, 0, 0, 0, 1, 8, 6, 0, 0, 0x30, 0, 0, 0,
];

/// The front of a frame of Ethernet there, at 3 seconds and 8 millionths, and its end.
const NG_PLAIN: [u8; 42] = [
    6, 0, 0, 0, 0x4c, 0, 0, 0, 0, 0, 0, 0, 0, 0, 0, 0, 0xc8, 0xc6, 0x2d, 0, 0x2a, 0, 0, 0, 0x2a, 0,
    0, 0, 2, 0, 0, 0, 0, 2, 2, 0, 0, 0, 0, 1, 8, 0,
];

const NG_PLAIN_END: [u8; 6] = [0, 0, 0x4c, 0, 0, 0];

/// In front of a packet of the second interface, at 1 second and 999,999,999 billionths.
const NG_RAW_HEAD: [u8; 28] = [
    6, 0, 0, 0, 0x3c, 0, 0, 0, 1, 0, 0, 0, 0, 0, 0, 0, 0xff, 0x93, 0x35, 0x77, 0x1c, 0, 0, 0, 0x1c,
    0, 0, 0,
];

/// The fronts of both in the output.
const NG_FIRST_HEAD: [u8; 28] = [
    6, 0, 0, 0, 0x3c, 0, 0, 0, 0, 0, 0, 0, 0, 0, 0, 0, 0x40, 0x7d, 0xd0, 0xb2, 0x1c, 0, 0, 0, 0x1c,
    0, 0, 0,
];

const NG_SECOND_HEAD: [u8; 28] = [
    6, 0, 0, 0, 0x3c, 0, 0, 0, 0, 0, 0, 0, 0, 0, 0, 0, 0xff, 0x93, 0x35, 0x77, 0x1c, 0, 0, 0, 0x1c,
    0, 0, 0,
];

const ETHERNET_LINES: &str = "flow 3 in.pcap
packet 3.1 denied 22 NotIp hop 0 node - versions -
packet 3.2 delivered s1:c2 to 10.0.0.2 versions 4
packet 3.3 denied 4 NoStatic hop 1 node r versions 4
packet 3.4 delivered s1:c2 to 10.0.0.2 versions 4
end 3 packets 4 passed 2 denied 2
";

const NG_LINES: &str = "flow 3 in.pcap
packet 3.1 delivered s1:c2 to 10.0.0.2 versions 4
packet 3.2 denied 4 NoStatic hop 1 node r versions 4
packet 3.3 delivered s1:c2 to 10.0.0.2 versions 4
end 3 packets 3 passed 2 denied 1
";

const LAST_LINES: &str = "packet 3.2048 delivered s1:c2 to 10.0.0.2 versions 4
packet 3.2049 delivered s1:c2 to 10.0.0.2 versions 4
end 3 packets 2049 passed 2049 denied 0
";

/// Captures of packets of 44 octets that end somewhere: the file's octets, how many packets may be read, how many are judged, and the end.
const ENDS: [(usize, u64, usize, Ended); 8] = [
    (150, 9, 2, Ended::Broken),
    (112, 1, 1, Ended::TooMany),
    (100, 1, 1, Ended::Broken),
    (68, 1, 1, Ended::GoesOn),
    (68, 0, 0, Ended::TooMany),
    (30, 0, 0, Ended::Broken),
    (24, 0, 0, Ended::GoesOn),
    (20, 9, 0, Ended::Broken),
];

/// The same of pcapng captures of packets of 60 octets.
const NG_ENDS: [(usize, u64, usize, Ended); 9] = [
    (200, 9, 2, Ended::Broken),
    (180, 1, 1, Ended::TooMany),
    (150, 1, 1, Ended::Broken),
    (120, 1, 1, Ended::GoesOn),
    (120, 0, 0, Ended::TooMany),
    (60, 0, 0, Ended::GoesOn),
    (40, 0, 0, Ended::Broken),
    (28, 0, 0, Ended::GoesOn),
    (20, 9, 0, Ended::Broken),
];

/// How a flow ends.
#[derive(Clone, Copy, Debug, PartialEq, Eq)]
enum Ended {
    GoesOn,
    Broken,
    TooMany,
    Stopped(FlowStop),
}

/// What a flow leaves.
#[derive(Drop)]
struct Ran {
    seen: FlowSeen,
    end: FlowEnd,
    printed: Vec<u8>,
}

/// Looks wait for the last step.
#[derive(Drop)]
struct Late {
    stepped: AtomicU64,
}

impl Gate for Late {
    fn before_look(&self, _worker: u32, _packet: u64, _hop: u32) {
        for _turn in 0..1_000_000_000u64 {
            if self.stepped.load(Ordering::SeqCst) > 0 {
                return;
            }
            yield_now();
        }
    }

    fn before_step(&self, _version: u32) {}

    fn after_step(&self, version: u32) {
        if version == 4 {
            self.stepped.store(1, Ordering::SeqCst);
        }
    }
}

fn names_of(rt: &impl Abort, alloc: Global) -> NodeNames
    ensures { length result ≡ 1 }
{
    let mut names = NodeNames::empty(alloc);
    let name = read_name(b"r").expect(rt, "a name");
    names.add(name).expect(rt, "memory");
    assert!(rt; names.len() == 1);
    names
}

fn flow_of(rt: &impl Abort, alloc: Global, names: &NodeNames) -> FlowLine
    requires { length names.now ≡ 1 }
    ensures hops { All (λ hop. node_of hop < 1) result.hops }
    ensures before { result.before ≡ 0 }
    ensures apart { result.output ≢ Some result.input }
{
    let mut words = Vec::new(alloc);
    words_into(FLOW.as_bytes(), &mut words).expect(rt, "memory");
    let flows = Flows::empty(alloc);
    let Ok(flow) = read_flow("own", names, &flows, 0, FLOW.len(), &words) else {
        panic!(rt; "a flow")
    };
    assert!(rt; flow.before == 0);
    flow
}

fn fresh(rt: &impl Abort, alloc: Global, steps: &[Step]) -> Network
    ensures { result ≡ tables_after 1 steps.now 0 }
{
    let _later = steps;
    Network::fresh(alloc, 1).expect(rt, "memory")
}

/// The third flow, of which so many packets may be read, over a stream whose write of this number fails (0: none).
fn called(
    rt: &(impl Abort + Threads + Wait + Sync),
    alloc: Global,
    most: u64,
    depot: &mut MemoryDepot,
    write: u32,
) -> Ran {
    let nodes = names_of(rt, alloc);
    let flow = flow_of(rt, alloc, &nodes);
    let steps = steps_of(alloc, 1, &LINES).expect(rt, "commands");
    let network = fresh(rt, alloc, &steps);
    let steps = SharedSteps::of(alloc, steps).expect(rt, "memory");
    let place = FlowPlace {
        flow: &flow,
        number: 3,
        most: most.min(1_048_576),
        upto: 4,
        workers: 2,
        names: nodes.as_slice(),
        steps: &steps,
    };
    let gate = Late {
        stepped: AtomicU64::new(0),
    };
    let mut sink = MemorySink::new(alloc, &[write], 4096).expect(rt, "memory");
    let mut report = Report::new(alloc);
    let runner = Runner {
        rt,
        alloc,
        gate: &gate,
    };
    let (seen, end) = run_flow(&runner, &place, &network, &mut report, depot, &mut sink);
    let flushed = report.flush(&mut sink);
    assert!(rt; flushed.is_ok());
    let printed = Vec::from_slice(alloc, sink.bytes()).expect(rt, "memory");
    Ran { seen, end, printed }
}

fn joined(rt: &impl Abort, alloc: Global, parts: &[&[u8]]) -> Vec<u8> {
    let mut octets = Vec::new(alloc);
    for part in parts {
        octets.extend_from_slice(part).expect(rt, "memory");
    }
    octets
}

/// A capture of so many packets.
fn capture(rt: &impl Abort, alloc: Global, packets: usize) -> Vec<u8> {
    let mut file = joined(rt, alloc, &[&HEADER]);
    for _packet in 0..packets {
        file.extend_from_slice(&PACKET_HEAD).expect(rt, "memory");
        file.extend_from_slice(&PACKET).expect(rt, "memory");
    }
    file
}

/// A pcapng capture of so many packets.
fn ng_capture(rt: &impl Abort, alloc: Global, packets: usize) -> Vec<u8> {
    let mut file = joined(rt, alloc, &[&SECTION, &RAW_INTERFACE]);
    for _packet in 0..packets {
        file.extend_from_slice(&NG_PACKET_HEAD).expect(rt, "memory");
        file.extend_from_slice(&PACKET).expect(rt, "memory");
        file.extend_from_slice(&NG_END).expect(rt, "memory");
    }
    file
}

/// Writes a packet of this second behind others of a pcapng capture.
fn write_at(rt: &impl Abort, seconds: u32, packet: &[u8; 28], file: &mut Vec<u8>) {
    let head = FrameHead {
        seconds,
        fraction: 0,
    };
    let written = CaptureFormat::Pcapng.write_frame(head, packet, file);
    assert!(rt; written.is_ok());
}

/// A folder with a capture, whose call of this number fails (0: none).
fn folder(rt: &impl Abort, alloc: Global, input: &[u8], fails: u32) -> MemoryDepot {
    let mut depot = MemoryDepot::new(alloc, &[fails], 4096).expect(rt, "memory");
    depot.put("in.pcap", input).expect(rt, "memory");
    depot
}

/// A fault is where the file of so many octets ends.
fn end_of(rt: &impl Abort, end: FlowEnd, octets: usize) -> Ended {
    match end {
        FlowEnd::GoesOn => Ended::GoesOn,
        FlowEnd::Broken(FileFault::Pcap(CaptureFault { octet, kind })) => {
            assert!(rt; octet == octets as u64 && kind == CaptureKind::Short);
            Ended::Broken
        }
        FlowEnd::Broken(FileFault::Pcapng(fault)) => {
            assert!(rt; fault.octet == octets as u64);
            Ended::Broken
        }
        FlowEnd::TooMany => Ended::TooMany,
        FlowEnd::Stopped(stop) => Ended::Stopped(stop),
    }
}

#[test]
fn frames_give_packets(rt: HostRuntime) {
    let alloc = rt.alloc();
    let input = joined(
        &rt,
        alloc,
        &[
            &ETHERNET, &ARP, &TAGGED, &PACKET, &PLAIN, &STRANGER, &PLAIN, &PACKET,
        ],
    );
    let output = joined(
        &rt,
        alloc,
        &[&ITS_OUTPUT, &FIRST_HEAD, &PACKET, &SECOND_HEAD, &PACKET],
    );
    let mut depot = folder(&rt, alloc, &input, 0);
    let ran = called(&rt, alloc, 4, &mut depot, 0);
    assert!(rt; end_of(&rt, ran.end, 0) == Ended::GoesOn);
    assert_eq!(rt; ran.printed.as_slice(), ETHERNET_LINES.as_bytes());
    assert!(rt; depot.get("out.pcap") == Some(output.as_slice()));
    assert!(rt; ran.seen.len() == 4 && ran.seen.packet(0).is_empty());
    assert!(rt; ran.seen.packet(3) == [4].as_slice());
}

// The interfaces have link types and resolutions of their own. What is made has its one interface.
#[test]
fn interfaces_give_packets(rt: HostRuntime) {
    let alloc = rt.alloc();
    let input = joined(
        &rt,
        alloc,
        &[
            &SECTION,
            &ETHERNET_INTERFACE,
            &RAW_INTERFACE,
            &NG_ARP,
            &NG_PLAIN,
            &PACKET,
            &NG_PLAIN_END,
            &NG_RAW_HEAD,
            &STRANGER,
            &NG_END,
            &NG_RAW_HEAD,
            &PACKET,
            &NG_END,
        ],
    );
    let output = joined(
        &rt,
        alloc,
        &[
            &SECTION,
            &RAW_INTERFACE,
            &NG_FIRST_HEAD,
            &PACKET,
            &NG_END,
            &NG_SECOND_HEAD,
            &PACKET,
            &NG_END,
        ],
    );
    let mut depot = folder(&rt, alloc, &input, 0);
    let ran = called(&rt, alloc, 4, &mut depot, 0);
    assert!(rt; end_of(&rt, ran.end, 0) == Ended::GoesOn);
    assert_eq!(rt; ran.printed.as_slice(), ETHERNET_LINES.as_bytes());
    assert!(rt; depot.get("out.pcap") == Some(output.as_slice()));
    assert!(rt; ran.seen.len() == 4 && ran.seen.packet(0).is_empty());
}

// A pcapng capture that is written is read, and what is made of it is the same without the packet that was denied.
#[test]
fn written_packets_are_read(rt: HostRuntime) {
    let alloc = rt.alloc();
    let mut input = Vec::new(alloc);
    let begun = CaptureFormat::Pcapng.write_head(&mut input);
    assert!(rt; begun.is_ok());
    write_at(&rt, 1, &PACKET, &mut input);
    write_at(&rt, 2, &STRANGER, &mut input);
    write_at(&rt, 1, &PACKET, &mut input);
    let output = ng_capture(&rt, alloc, 2);
    let mut depot = folder(&rt, alloc, &input, 0);
    let ran = called(&rt, alloc, 3, &mut depot, 0);
    assert!(rt; end_of(&rt, ran.end, 0) == Ended::GoesOn);
    assert_eq!(rt; ran.printed.as_slice(), NG_LINES.as_bytes());
    assert!(rt; depot.get("out.pcap") == Some(output.as_slice()));
}

// Nine batches, of which the last has one packet. The output is the input again.
#[test]
fn batches_follow_each_other(rt: HostRuntime) {
    let alloc = rt.alloc();
    let input = capture(&rt, alloc, 2049);
    let mut depot = folder(&rt, alloc, &input, 0);
    let ran = called(&rt, alloc, 4096, &mut depot, 0);
    assert!(rt; end_of(&rt, ran.end, 0) == Ended::GoesOn);
    let text = from_utf8(&ran.printed).expect(&rt, "a text");
    assert!(rt; text.lines().count() == 2051 && text.ends_with(LAST_LINES));
    assert!(rt; ran.seen.len() == 2049);
    assert!(rt; depot.get("out.pcap") == Some(input.as_slice()));
}

/// What is left of a capture up to so many octets: its packets, and whether it goes on.
fn ends_so(
    rt: &(impl Abort + Threads + Wait + Sync),
    alloc: Global,
    whole: &[u8],
    case: (usize, u64, usize, Ended),
) -> MemoryDepot {
    let (octets, most, packets, wanted) = case;
    let input = whole.get(..octets).expect(rt, "a beginning");
    let mut depot = folder(rt, alloc, input, 0);
    let ran = called(rt, alloc, most, &mut depot, 0);
    assert!(rt; end_of(rt, ran.end, octets) == wanted);
    let text = from_utf8(&ran.printed).expect(rt, "a text");
    let lines = text.lines().filter(|line| line.starts_with("packet "));
    assert!(rt; lines.count() == packets && ran.seen.len() == packets);
    let last = text.lines().any(|line| line.starts_with("end "));
    assert!(rt; last == (wanted == Ended::GoesOn));
    depot
}

/// A capture of so many packets: how many octets its first section has, what stands in front of the packets, and what each packet takes.
#[derive(Clone, Copy)]
struct Whole<'o> {
    octets: &'o [u8],
    packets: usize,
    section: usize,
    head: usize,
    packet: usize,
}

/// Each beginning of a capture ends so, and what is made of it has all packets in front of the end.
fn all_end_so(
    rt: &(impl Abort + Threads + Wait + Sync),
    alloc: Global,
    whole: &Whole<'_>,
    cases: &[(usize, u64, usize, Ended)],
) {
    for case in cases {
        let depot = ends_so(rt, alloc, whole.octets, *case);
        let (octets, _, packets, _) = *case;
        let output = if octets < whole.section {
            None
        } else {
            let packets = packets.min(whole.packets);
            let records = whole.packet.checked_mul(packets).expect(rt, "a length");
            let end = whole.head.checked_add(records).expect(rt, "a length");
            whole.octets.get(..end)
        };
        assert!(*rt; depot.get("out.pcap") == output);
    }
}

/// The same of a libpcap capture of so many packets.
fn pcap_ends_so(
    rt: &(impl Abort + Threads + Wait + Sync),
    alloc: Global,
    packets: usize,
    cases: &[(usize, u64, usize, Ended)],
) {
    let octets = capture(rt, alloc, packets);
    let whole = Whole {
        octets: &octets,
        packets,
        section: 24,
        head: 24,
        packet: 44,
    };
    all_end_so(rt, alloc, &whole, cases);
}

// All packets in front of an end are printed and written. Where no more may be read, what stands behind tells the end.
#[test]
fn captures_end_somewhere(rt: HostRuntime) {
    pcap_ends_so(&rt, rt.alloc(), 3, &ENDS);
}

// The same in pcapng, where an output is made as soon as the first section's header is whole.
#[test]
fn pcapng_captures_end_somewhere(rt: HostRuntime) {
    let alloc = rt.alloc();
    let octets = ng_capture(&rt, alloc, 3);
    let whole = Whole {
        octets: &octets,
        packets: 3,
        section: 28,
        head: 60,
        packet: 60,
    };
    all_end_so(&rt, alloc, &whole, &NG_ENDS);
}

// What stands behind the first batch of two workers, where some packets are read ahead: an end, a broken record, or one packet too many.
const AHEAD: [(usize, u64, usize, Ended); 3] = [
    (26_444, 9999, 600, Ended::Broken),
    (26_424, 9999, 600, Ended::GoesOn),
    (90_180, 550, 550, Ended::TooMany),
];

// Packets that were read ahead come in front of what stands behind them.
#[test]
fn packets_that_were_read_ahead_come_first(rt: HostRuntime) {
    pcap_ends_so(&rt, rt.alloc(), 2049, &AHEAD);
}

/// Whether a piece of 4,096 octets ends in the record that follows so many packets, or these are all, or none.
fn end_in_a_piece(packets: usize) -> bool {
    if packets == 0 || packets >= 2049 {
        return packets <= 2049;
    }
    let end = 24 + 44 * packets;
    (end + 43) / 4096 * 4096 >= end
}

// The file is read by pieces of 4,096 octets: where a read fails, the packets that are whole in those before it come first.
#[test]
fn packets_come_in_front_of_a_read_that_fails(rt: HostRuntime) {
    let alloc = rt.alloc();
    let whole = capture(&rt, alloc, 2049);
    let mut is_late = false;
    for call in 8..40u32 {
        let mut depot = folder(&rt, alloc, &whole, call);
        let ran = called(&rt, alloc, 9999, &mut depot, 0);
        if depot.failed() == Some(DepotCall::Read) {
            assert!(rt; end_of(&rt, ran.end, 0) == Ended::Stopped(FlowStop::Read));
            let packets = ran.seen.len();
            assert!(rt; end_in_a_piece(packets));
            let text = from_utf8(&ran.printed).expect(&rt, "a text");
            let lines = text.lines().filter(|line| line.starts_with("packet "));
            assert!(rt; lines.count() == packets);
            is_late = is_late || packets > 0;
        }
    }
    assert!(rt; is_late);
}

// Each call of the folder fails in turn, and each write.
#[test]
fn calls_that_fail_stop_a_flow(rt: HostRuntime) {
    let alloc = rt.alloc();
    let input = capture(&rt, alloc, 2);
    for call in 1..100u32 {
        let mut depot = folder(&rt, alloc, &input, call);
        let ran = called(&rt, alloc, 9, &mut depot, 0);
        let wanted = match depot.failed() {
            Some(DepotCall::Read) => Ended::Stopped(FlowStop::Read),
            Some(DepotCall::Create) => Ended::Stopped(FlowStop::Create),
            Some(DepotCall::Append) => Ended::Stopped(FlowStop::Append),
            None => Ended::GoesOn,
        };
        assert!(rt; end_of(&rt, ran.end, 0) == wanted);
        if wanted == Ended::GoesOn {
            assert!(rt; call > 4);
            break;
        }
    }
    let many = capture(&rt, alloc, 600);
    let mut depot = folder(&rt, alloc, &many, 0);
    let ran = called(&rt, alloc, 4096, &mut depot, 1);
    assert!(rt; end_of(&rt, ran.end, 0) == Ended::Stopped(FlowStop::Print));
}
