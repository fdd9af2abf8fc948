//! Worked lines.

use call_report::{
    WalkLines, agree_or_disagree, bad_versions, done, no_flow, packet_limit, packets_limit,
    write_capture, write_flow, write_flow_end, write_hops, write_made, write_ok, write_packet,
    write_packets_end, write_script_stop, write_verdict,
};
use captures::FileFault;
use domain_map::{Address, read_name};
use ip_headers::Cause;
use label_commands::{Hop, LimitName, ScriptFault, ScriptKind, ScriptStop, read_file_name};
use label_flow::{Disagree, End, Octets, PacketIn, Versions, Walked};
use mls_label::{Label, Proto};
use mls_range::read_label_into;
use packet_label::{Carrier, Denial};
use pcap_frames::{CaptureFault, CaptureKind};
use pcapng_frames::{NgFault, NgKind};
use std::alloc::Global;
use std::process::Abort;

/// Each denial, and what is printed of it.
const DENIALS: [(Denial, &str); 10] = [
    (
        Denial::BadHeader { octet: 24 },
        "denied 1 BadHeader octet 24\n",
    ),
    (
        Denial::BadOption { octet: 0 },
        "denied 2 BadOption octet 0\n",
    ),
    (Denial::Unlabelled, "denied 3 Unlabelled\n"),
    (
        Denial::UnknownDoi { octet: 22 },
        "denied 5 UnknownDoi octet 22\n",
    ),
    (
        Denial::TagNotAllowed { octet: 26 },
        "denied 6 TagNotAllowed octet 26\n",
    ),
    (
        Denial::CategoryUnmapped { category: 65534 },
        "denied 8 CategoryUnmapped category 65534\n",
    ),
    (
        Denial::AlreadyLabelled { octet: 20 },
        "denied 14 AlreadyLabelled octet 20\n",
    ),
    (
        Denial::NotCrossable {
            cause: Cause::NoChecksum,
        },
        "denied 21 NotCrossable NoChecksum\n",
    ),
    (Denial::NotIp, "denied 22 NotIp\n"),
    (Denial::BelowRange, "denied 23 BelowRange\n"),
];

#[test]
fn prints_denials(rt: HostRuntime) {
    let label = Label::lowest();
    for (denial, text) in DENIALS {
        let mut line = Vec::new(rt.alloc());
        write_verdict(&Err(denial), &label, &mut line).expect(&rt, "there is memory");
        assert_eq!(rt; line.as_slice(), text.as_bytes());
    }
}

/// Scripts and limits that stop a call.
const STOPS: [(ScriptStop, &str); 3] = [
    (
        ScriptStop::Fault(ScriptFault {
            line: 16384,
            octet: 17,
            kind: ScriptKind::NameTwice,
        }),
        "script line 16384 octet 17 NameTwice\n",
    ),
    (
        ScriptStop::Limit {
            what: LimitName::Nodes,
            number: 32,
        },
        "limit nodes 32\n",
    ),
    (ScriptStop::OutOfMemory, ""),
];

#[test]
fn prints_stops(rt: HostRuntime) {
    let mut line = Vec::new(rt.alloc());
    for (stop, text) in STOPS {
        line.clear();
        write_script_stop(stop, &mut line).expect(&rt, "there is memory");
        assert_eq!(rt; line.as_slice(), text.as_bytes());
    }
    line.clear();
    write_ok(32, 16384, 256, &mut line).expect(&rt, "there is memory");
    assert_eq!(rt;
        line.as_slice(),
        b"ok 32 nodes 16384 commands 256 flows\n".as_slice()
    );
    assert_eq!(rt; packet_limit(), b"limit packet 65575\n".as_slice());
    assert_eq!(rt; packets_limit(), b"limit packets 1048576\n".as_slice());
    assert_eq!(rt; done(), b"done\n".as_slice());
}

/// Each fault of a libpcap file, and what is printed of it.
const BROKEN: [(u64, CaptureKind, &str); 6] = [
    (0, CaptureKind::Magic, "octet 0 Magic"),
    (4, CaptureKind::Version, "octet 4 Version"),
    (20, CaptureKind::LinkType, "octet 20 LinkType"),
    (32, CaptureKind::Captured, "octet 32 Captured"),
    (4294967296, CaptureKind::SnapCut, "octet 4294967296 SnapCut"),
    (3, CaptureKind::Short, "octet 3 Short"),
];

/// Each fault of a pcapng file, and what is printed of it.
const NG_BROKEN: [(u64, NgKind, &str); 14] = [
    (4, NgKind::Short, "octet 4 Short"),
    (1099511627776, NgKind::Long, "octet 1099511627776 Long"),
    (8, NgKind::Magic, "octet 8 Magic"),
    (5, NgKind::BlockLength, "octet 5 BlockLength"),
    (116, NgKind::Trailer, "octet 116 Trailer"),
    (12, NgKind::Version, "octet 12 Version"),
    (60, NgKind::Block, "octet 60 Block"),
    (44, NgKind::Options, "octet 44 Options"),
    (68, NgKind::Interface, "octet 68 Interface"),
    (68, NgKind::LinkType, "octet 68 LinkType"),
    (68, NgKind::Resolution, "octet 68 Resolution"),
    (80, NgKind::Captured, "octet 80 Captured"),
    (80, NgKind::SnapCut, "octet 80 SnapCut"),
    (72, NgKind::Time, "octet 72 Time"),
];

/// Whether this is printed of a fault of capture 256, behind the capture's number.
fn prints(rt: &impl Abort, alloc: Global, fault: FileFault, text: &str) -> bool {
    let mut line = Vec::new(alloc);
    write_capture(256, fault, &mut line).expect(rt, "there is memory");
    let Some(rest) = line.strip_prefix(b"capture 256 ") else {
        return false;
    };
    rest.strip_suffix(b"\n") == Some(text.as_bytes())
}

#[test]
fn prints_faults_of_captures(rt: HostRuntime) {
    for (octet, kind, text) in BROKEN {
        let fault = FileFault::Pcap(CaptureFault { octet, kind });
        assert!(rt; prints(&rt, rt.alloc(), fault, text));
    }
    for (octet, kind, text) in NG_BROKEN {
        let fault = FileFault::Pcapng(NgFault { octet, kind });
        assert!(rt; prints(&rt, rt.alloc(), fault, text));
    }
}

/// UDP in IPv4 without a label.
const PACKET: [u8; 28] = [
    0x45, 0, 0, 0x1c, 0, 0, 0x40, 0, 0x40, 0x11, 0x26, 0xcf, 10, 0, 0, 1, 10, 0, 0, 2, 3, 0xe8, 0,
    0x35, 0, 8, 0xe7, 0xbe,
];

/// How many octets of it were read, whether as a packet of IP, and what is printed.
const SHOWN: [(usize, bool, &str); 4] = [
    (28, true, "packet 7 unlbl\n"),
    (28, false, "packet 7 NotIp\n"),
    (3, true, "packet 7 BadHeader octet 3\n"),
    (0, false, "packet 7 NotIp\n"),
];

#[test]
fn prints_packets(rt: HostRuntime) {
    let alloc = rt.alloc();
    let mut label = Label::lowest();
    let mut line = Vec::new(alloc);
    for (count, is_ip, text) in SHOWN {
        let octets = &PACKET[..count.min(28)];
        let octets = Vec::from_slice(alloc, octets).expect(&rt, "there is memory");
        let packet = PacketIn {
            bytes: Octets::of(octets),
            is_ip,
        };
        line.clear();
        write_packet(7, &packet, &mut label, &mut line).expect(&rt, "there is memory");
        assert_eq!(rt; line.as_slice(), text.as_bytes());
    }
    line.clear();
    write_packets_end(1048576, &mut line).expect(&rt, "there is memory");
    assert_eq!(rt; line.as_slice(), b"end packets 1048576\n".as_slice());
}

/// What became of a packet under no version.
fn walked(end: End) -> Walked {
    Walked {
        end,
        versions: Versions::empty(),
    }
}

#[test]
fn prints_flows(rt: HostRuntime) {
    let alloc = rt.alloc();
    let input = read_file_name(alloc, b"one.pcap")
        .expect(&rt, "there is memory")
        .expect(&rt, "a name");
    let names = [
        read_name(b"s").expect(&rt, "a name"),
        read_name(b"r").expect(&rt, "a name"),
    ];
    let hops = [Hop::Receive {
        node: 1,
        interface: read_name(b"eth0").expect(&rt, "a name"),
    }];
    let mut label = Label::lowest();
    read_label_into(b"s2:c7,c8", &mut label).expect(&rt, "a label");
    let ends = [
        End::Delivered {
            label,
            receiver: Address::V4([10, 0, 0, 2]),
        },
        End::Sent {
            carrier: Carrier::Calipso { doi: 9 },
        },
        End::Sent {
            carrier: Carrier::Cipso { doi: 16 },
        },
        End::Sent {
            carrier: Carrier::Unlabelled,
        },
        End::Denied {
            hop: 0,
            denial: Denial::NotIp,
        },
        End::Denied {
            hop: 1,
            denial: Denial::NoReceiver,
        },
    ];
    let mut line = Vec::new(alloc);
    let mut lines = WalkLines::new(alloc);
    write_flow(1, &input, &mut line).expect(&rt, "there is memory");
    for end in ends {
        lines
            .write(1, 1, &names, &hops, &walked(end), &mut line)
            .expect(&rt, "there is memory");
    }
    write_flow_end(1, 6, 4, 2, &mut line).expect(&rt, "there is memory");
    assert_eq!(rt;
        line.as_slice(),
        b"flow 1 one.pcap\npacket 1.1 delivered s2:c7,c8 to 10.0.0.2 versions -\npacket 1.1 sent calipso,9 versions -\npacket 1.1 sent cipsov4,16 versions -\npacket 1.1 sent unlbl versions -\npacket 1.1 denied 22 NotIp hop 0 node - versions -\npacket 1.1 denied 10 NoReceiver hop 1 node r versions -\nend 1 packets 6 passed 4 denied 2\n".as_slice()
    );
}

/// Packets one after the other: over each number of digits, in another flow, in front, and at the largest number.
const NUMBERS: [(u64, u64, &str); 14] = [
    (1, 9, "packet 1.9 denied 22 NotIp hop 0 node - versions -\n"),
    (
        1,
        10,
        "packet 1.10 denied 22 NotIp hop 0 node - versions -\n",
    ),
    (
        1,
        11,
        "packet 1.11 denied 22 NotIp hop 0 node - versions -\n",
    ),
    (
        1,
        99,
        "packet 1.99 denied 22 NotIp hop 0 node - versions -\n",
    ),
    (
        1,
        100,
        "packet 1.100 denied 22 NotIp hop 0 node - versions -\n",
    ),
    (
        1,
        109,
        "packet 1.109 denied 22 NotIp hop 0 node - versions -\n",
    ),
    (
        1,
        110,
        "packet 1.110 denied 22 NotIp hop 0 node - versions -\n",
    ),
    (
        1,
        999,
        "packet 1.999 denied 22 NotIp hop 0 node - versions -\n",
    ),
    (
        1,
        1000,
        "packet 1.1000 denied 22 NotIp hop 0 node - versions -\n",
    ),
    (
        12,
        1001,
        "packet 12.1001 denied 22 NotIp hop 0 node - versions -\n",
    ),
    (
        12,
        1001,
        "packet 12.1001 denied 22 NotIp hop 0 node - versions -\n",
    ),
    (
        12,
        1,
        "packet 12.1 denied 22 NotIp hop 0 node - versions -\n",
    ),
    (
        12,
        u64::MAX,
        "packet 12.18446744073709551615 denied 22 NotIp hop 0 node - versions -\n",
    ),
    (
        12,
        0,
        "packet 12.0 denied 22 NotIp hop 0 node - versions -\n",
    ),
];

#[test]
fn numbers_go_on(rt: HostRuntime) {
    let mut lines = WalkLines::new(rt.alloc());
    let frame = walked(End::Denied {
        hop: 0,
        denial: Denial::NotIp,
    });
    for (flow, number, text) in NUMBERS {
        let mut line = Vec::new(rt.alloc());
        lines
            .write(flow, number, &[], &[], &frame, &mut line)
            .expect(&rt, "there is memory");
        assert_eq!(rt; line.as_slice(), text.as_bytes());
    }
}

#[test]
fn prints_agreement(rt: HostRuntime) {
    let mut line = Vec::new(rt.alloc());
    let category = Disagree {
        proto: Proto::Cipso,
        doi: 10,
        level: false,
        wire: 4,
        left: 1,
        right: 3,
    };
    let level = Disagree {
        proto: Proto::Calipso,
        doi: 4294967295,
        level: true,
        wire: 255,
        left: 4294967295,
        right: 0,
    };
    write_hops(1, None, &mut line).expect(&rt, "there is memory");
    write_hops(3, Some(category), &mut line).expect(&rt, "there is memory");
    write_hops(15, Some(level), &mut line).expect(&rt, "there is memory");
    assert_eq!(rt;
        line.as_slice(),
        b"hop 1 2 agree\nhop 3 4 disagree cipsov4 10 category 4 1 3\nhop 15 16 disagree calipso 4294967295 level 255 4294967295 0\n".as_slice()
    );
    assert_eq!(rt; agree_or_disagree(true), b"agree\n".as_slice());
    assert_eq!(rt; agree_or_disagree(false), b"disagree\n".as_slice());
    assert_eq!(rt; no_flow(), b"script line 0 octet 0 NoFlow\n".as_slice());
    assert_eq!(rt;
        bad_versions(),
        b"script line 0 octet 0 BadVersions\n".as_slice()
    );
}

/// How many packets were made, delivered and denied, and what is printed of them.
const MADE: [(u64, u64, u64, &str); 3] = [
    (0, 0, 0, "made 0 delivered 0 denied 0\n"),
    (1, 0, 1, "made 1 delivered 0 denied 1\n"),
    (
        1048576,
        196608,
        851968,
        "made 1048576 delivered 196608 denied 851968\n",
    ),
];

#[test]
fn prints_made_captures(rt: HostRuntime) {
    for (count, delivered, denied, text) in MADE {
        let mut line = Vec::new(rt.alloc());
        write_made(count, delivered, denied, &mut line).expect(&rt, "there is memory");
        assert_eq!(rt; line.as_slice(), text.as_bytes());
    }
}
