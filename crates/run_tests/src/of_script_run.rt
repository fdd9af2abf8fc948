//! Worked scripts over a folder and a stream in memory, and calls that fail in them.

ghost use Rattle.std.specs.Prelude.{ℕ, List};
ghost use Rattle.label_commands.specs.Sound.{IsSoundScript};

use label_commands::{Script, read_script};
use net_io::{DepotCall, MemoryDepot, MemorySink};
use script_run::*;
use std::alloc::Global;
use std::process::Abort;
use std::sync::Wait;
use std::thread::Threads;
use worked_values::packets::{CAPTURE_HEAD, LIST_10, PLAIN_4};
use worked_values::scripts::{CROSSED, CROSSING};
use worked_values::{append_octets, octets_of};

/// In front of a packet's octets in a capture.
const RECORD_HEAD: &str = "01000000000000001c0000001c000000";

/// The beginning of a pcapng capture, and what stands in front of and behind a packet of second 1 in it.
const NG_HEAD: &str =
    "0a0d0d0a1c0000004d3c2b1a01000000ffffffffffffffff1c0000000100000020000000650000000000040009000100090000000000000020000000";

const NG_PACKET_HEAD: &str = "060000003c000000000000000000000000ca9a3b1c0000001c000000";

const NG_PACKET_END: &str = "3c000000";

/// The same of a packet of 44 octets.
const NG_LABELLED_HEAD: &str = "060000004c000000000000000000000000ca9a3b2c0000002c000000";

const NG_LABELLED_END: &str = "4c000000";

/// A pcapng capture of one packet that is broken: an octet's place and value, how many octets there are, and the line of the fault.
const NG_FAULTS: [(usize, u8, usize, &str); 3] = [
    (0, 0x0a, 100, "capture 1 octet 100 Short\n"),
    (116, 0, 120, "capture 1 octet 116 Trailer\n"),
    (68, 1, 120, "capture 1 octet 68 Interface\n"),
];

/// A node that knows one sender, and forgets its receiver behind the second flow.
const FORGETTING: &str = "node r
unlbl accept on
unlbl add default address:0.0.0.0/0 label:s1:c2
map add default protocol:unlbl
receiver add address:10.0.0.2 domain:sink_t level:s1:c2
flow one.pcap - receive:r,eth0
flow one.pcap - receive:r,eth0
receiver del address:10.0.0.2
flow one.pcap - receive:r,eth0
";

/// What is printed in front of the second flow's packet, which may be judged before the receiver goes or behind that.
const FIRST: &str = "command 1 r done
command 2 r done
command 3 r done
command 4 r done
flow 1 one.pcap
packet 1.1 delivered s1:c2 to 10.0.0.2 versions 4
end 1 packets 1 passed 1 denied 0
flow 2 one.pcap
";

const EARLY: &str = "packet 2.1 delivered s1:c2 to 10.0.0.2 versions 4
end 2 packets 1 passed 1 denied 0
";

const LATE: &str = "packet 2.1 denied 10 NoReceiver hop 1 node r versions 5
end 2 packets 1 passed 0 denied 1
";

const LAST: &str = "command 5 r done
flow 3 one.pcap
packet 3.1 denied 10 NoReceiver hop 1 node r versions 5
end 3 packets 1 passed 0 denied 1
done
";

/// Scripts of nodes that judge no packet: the text, the status, and what is printed.
const IDLE: [(&str, Status, &str); 4] = [
    ("", Status::Done, "done\n"),
    (
        "node r\nflow empty.pcap - receive:r,eth0\nflow empty.pcap - receive:r,eth0\n",
        Status::Done,
        "flow 1 empty.pcap\nend 1 packets 0 passed 0 denied 0\nflow 2 empty.pcap\nend 2 packets 0 passed 0 denied 0\ndone\n",
    ),
    (
        "node r\nflow empty.pcap - receive:r,eth0\nunlbl accept on\nflow absent.pcap - receive:r,eth0\nunlbl accept on\n",
        Status::ReadFault,
        "flow 1 empty.pcap\nend 1 packets 0 passed 0 denied 0\ncommand 1 r done\nflow 2 absent.pcap\n",
    ),
    (
        "node r\nflow header.pcap out.pcap receive:r,eth0\nunlbl accept on\n",
        Status::WrongCapture,
        "flow 1 header.pcap\ncapture 1 octet 20 Short\n",
    ),
];

fn script_of(rt: &impl Abort, alloc: Global, text: &str) -> Script
    ensures { (own : List ℕ) × IsSoundScript own result }
{
    read_script(alloc, text.as_bytes(), "script").expect(rt, "a script")
}

/// A capture of so many packets, up to an octet.
fn capture(rt: &impl Abort, alloc: Global, packets: usize, octets: usize) -> Vec<u8> {
    let mut file = octets_of(alloc, CAPTURE_HEAD).expect(rt, "there is memory");
    for _packet in 0..packets {
        append_octets(RECORD_HEAD, &mut file).expect(rt, "there is memory");
        append_octets(PLAIN_4, &mut file).expect(rt, "there is memory");
    }
    file.truncate(octets);
    file
}

/// A pcapng capture of a packet.
fn ng_capture(rt: &impl Abort, alloc: Global, head: &str, packet: &str, end: &str) -> Vec<u8> {
    let mut file = octets_of(alloc, NG_HEAD).expect(rt, "there is memory");
    append_octets(head, &mut file).expect(rt, "there is memory");
    append_octets(packet, &mut file).expect(rt, "there is memory");
    append_octets(end, &mut file).expect(rt, "there is memory");
    file
}

/// A folder of captures whose call of this number fails (0: none).
fn folder(rt: &impl Abort, alloc: Global, fails: u32, one: &[u8]) -> MemoryDepot {
    let mut depot = MemoryDepot::new(alloc, &[fails], 64).expect(rt, "there is memory");
    depot.put("one.pcap", one).expect(rt, "there is memory");
    for (name, octets) in [("empty.pcap", 24), ("header.pcap", 20)] {
        let file = capture(rt, alloc, 0, octets);
        depot.put(name, &file).expect(rt, "there is memory");
    }
    depot
}

/// The status and what is printed, where the write of this number fails (0: none).
fn ran(
    rt: &(impl Abort + Threads + Wait + Sync),
    alloc: Global,
    text: &str,
    depot: &mut MemoryDepot,
    write: u32,
) -> (Status, Vec<u8>) {
    let mut sink = MemorySink::new(alloc, &[write], 7).expect(rt, "there is memory");
    let script = script_of(rt, alloc, text);
    let (_seen, status) = run_script(rt, alloc, &script, 2, depot, &mut sink, &OpenGate);
    let printed = Vec::from_slice(alloc, sink.bytes()).expect(rt, "there is memory");
    (status, printed)
}

#[test]
fn packets_cross_and_arrive(rt: HostRuntime) {
    let alloc = rt.alloc();
    let one = capture(&rt, alloc, 1, 68);
    let mut depot = folder(&rt, alloc, 0, &one);
    let (status, printed) = ran(&rt, alloc, CROSSING, &mut depot, 0);
    assert!(rt; status == Status::Done);
    assert_eq!(rt; printed.as_slice(), CROSSED.as_bytes());
    let far = depot.get("far.pcap").expect(&rt, "the output");
    let crossed = octets_of(alloc, LIST_10).expect(&rt, "there is memory");
    assert!(rt; far.len() == 84 && far.ends_with(&crossed));
}

// The output of a pcapng capture is one.
#[test]
fn pcapng_packets_cross_and_arrive(rt: HostRuntime) {
    let alloc = rt.alloc();
    let one = ng_capture(&rt, alloc, NG_PACKET_HEAD, PLAIN_4, NG_PACKET_END);
    let wanted = ng_capture(&rt, alloc, NG_LABELLED_HEAD, LIST_10, NG_LABELLED_END);
    let mut depot = folder(&rt, alloc, 0, &one);
    let (status, printed) = ran(&rt, alloc, CROSSING, &mut depot, 0);
    assert!(rt; status == Status::Done);
    assert_eq!(rt; printed.as_slice(), CROSSED.as_bytes());
    assert!(rt; depot.get("far.pcap") == Some(wanted.as_slice()));
}

#[test]
fn later_commands_are_seen(rt: HostRuntime) {
    let alloc = rt.alloc();
    let one = capture(&rt, alloc, 1, 68);
    let mut depot = folder(&rt, alloc, 0, &one);
    let (status, printed) = ran(&rt, alloc, FORGETTING, &mut depot, 0);
    assert!(rt; status == Status::Done);
    let text = printed.as_slice();
    let behind = text
        .strip_prefix(FIRST.as_bytes())
        .expect(&rt, "the first flow");
    let second = behind
        .strip_suffix(LAST.as_bytes())
        .expect(&rt, "the third flow");
    assert!(rt; second == EARLY.as_bytes() || second == LATE.as_bytes());
}

// Three records, of which the third is cut off.
#[test]
fn a_broken_capture_ends_the_call(rt: HostRuntime) {
    let alloc = rt.alloc();
    let one = capture(&rt, alloc, 3, 150);
    let mut depot = folder(&rt, alloc, 0, &one);
    let (status, printed) = ran(&rt, alloc, FORGETTING, &mut depot, 0);
    assert!(rt; status == Status::WrongCapture);
    let wanted = b"packet 1.2 delivered s1:c2 to 10.0.0.2 versions 4\ncapture 1 octet 150 Short\n";
    assert!(rt; printed.ends_with(wanted.as_slice()));
}

#[test]
fn a_broken_pcapng_capture_ends_the_call(rt: HostRuntime) {
    let alloc = rt.alloc();
    for (place, octet, octets, line) in NG_FAULTS {
        let mut one = ng_capture(&rt, alloc, NG_PACKET_HEAD, PLAIN_4, NG_PACKET_END);
        let at = one.get_mut(place).expect(&rt, "an octet");
        *at = octet;
        one.truncate(octets);
        let mut depot = folder(&rt, alloc, 0, &one);
        let (status, printed) = ran(&rt, alloc, FORGETTING, &mut depot, 0);
        assert!(rt; status == Status::WrongCapture);
        assert!(rt; printed.ends_with(line.as_bytes()));
    }
}

#[test]
fn flows_without_packets(rt: HostRuntime) {
    let alloc = rt.alloc();
    for (text, wanted, lines) in IDLE {
        let mut depot = folder(&rt, alloc, 0, b"");
        let (status, printed) = ran(&rt, alloc, text, &mut depot, 0);
        assert!(rt; status == wanted);
        assert_eq!(rt; printed.as_slice(), lines.as_bytes());
    }
}

// The eighth call ends the output of the first flow with packets, which is whole then; its `end` line isn't printed.
#[test]
fn an_output_whose_end_fails_has_no_end_line(rt: HostRuntime) {
    let alloc = rt.alloc();
    let one = capture(&rt, alloc, 1, 68);
    let mut depot = folder(&rt, alloc, 8, &one);
    let (status, printed) = ran(&rt, alloc, CROSSING, &mut depot, 0);
    assert!(rt; status == Status::WriteFault);
    assert!(rt; depot.failed() == Some(DepotCall::Append));
    let far = depot.get("far.pcap").expect(&rt, "the output");
    assert!(rt; far.len() == 84);
    let rest = CROSSED.as_bytes().strip_prefix(printed.as_slice());
    let rest = rest.expect(&rt, "the rest of the report");
    assert!(rt; rest.starts_with(b"end 1 "));
}

// What is printed where a call fails begins what is printed where none does.
#[test]
fn each_call_fails_in_turn(rt: HostRuntime) {
    let alloc = rt.alloc();
    let one = capture(&rt, alloc, 1, 68);
    for call in 1..6u32 {
        let mut depot = folder(&rt, alloc, call, &one);
        let (status, printed) = ran(&rt, alloc, CROSSING, &mut depot, 0);
        assert!(rt; status == Status::ReadFault || status == Status::WriteFault);
        assert!(rt; CROSSED.as_bytes().starts_with(&printed));
        let mut depot = folder(&rt, alloc, 0, &one);
        let (status, printed) = ran(&rt, alloc, CROSSING, &mut depot, call);
        assert!(rt; status == Status::WriteFault);
        assert!(rt; CROSSED.as_bytes().starts_with(&printed));
    }
}
