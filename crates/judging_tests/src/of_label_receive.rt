//! Packets at a node, each with the commands that the node was given, and the same one step away.

use crate::checks::same;
use domain_map::{Address, Name, read_name};
use label_receive::*;
use mls_label::Label;
use mls_range::read_label;
use packet_label::Denial;
use std::alloc::Global;
use std::process::Abort;
use worked_networks::node_after;
use worked_values::octets_of;
use worked_values::packets::{BEHIND_4, CUT_4, LABELLED_4, MISALIGNED_4, PLAIN_4, WRONG_SUM_4};

/// `LABELLED_4` with `s3:c0`, `s4`, `s3:c0,c2,c9` and `s4:c0,c2,c9`.
const KNOWN: &str =
    "480000280000000040115c9f0a0000010a000002860b0000001001050003800003e8003500080000";

const UNKNOWN_LEVEL: &str =
    "48000028000000004011dca00a0000010a000002860a0000001001040004000003e8003500080000";

const UNKNOWN_TWO: &str =
    "480000280000000040113c5d0a0000010a000002860c0000001001060003a04003e8003500080000";

const UNKNOWN_BOTH: &str =
    "480000280000000040113c5c0a0000010a000002860c0000001001060004a04003e8003500080000";

/// IPv6 from fd00::1 to fd00::2 with a CALIPSO option of DOI 9 and `s7:c0`, at octet 42.
const C: &str =
    "6000000000180040fd000000000000000000000000000001fd0000000000000000000000000000021101070c000000090107cfbb8000000003e8003500080000";

const DOI: &str = "cipsov4 add pass doi:16 tags:1";

const TRANS: &str = "cipsov4 add trans doi:16 tags:1 levels:0=5,1=3 categories:0=1,1=0";

const SIX: &str = "calipso add trans doi:9 levels:2=7 categories:1=0";

const MAP: &str = "map add default protocol:cipsov4,16";

const UNLBL: &str = "map add default protocol:unlbl";

const SINK: &str = "receiver add address:10.0.0.2 domain:sink_t level:s2:c0.c5";

const ACCEPT: &str = "unlbl accept on";

const ALL: &str = "unlbl add default address:0.0.0.0/0 label:s1:c2";

const V4: Address = Address::V4([10, 0, 0, 2]);

const V6: Address = Address::V6([0xfd, 0, 0, 0, 0, 0, 0, 0, 0, 0, 0, 0, 0, 0, 0, 2]);

/// What a packet is: its commands, its octets, and the label and receiver or the denial.
type Case = (
    &'static [&'static str],
    &'static str,
    Result<(&'static str, Address), Denial>,
);

/// Octets that are no packet, before all else.
const BROKEN: &[Case] = &[
    (&[], "", Err(Denial::BadHeader { octet: 0 })),
    (
        &[DOI, MAP, SINK],
        WRONG_SUM_4,
        Err(Denial::BadHeader { octet: 10 }),
    ),
    (
        &[DOI, MAP, SINK],
        CUT_4,
        Err(Denial::BadHeader { octet: 2 }),
    ),
    (
        &[DOI, MAP, SINK],
        "480000280000000040118ca00a0000010a0000",
        Err(Denial::BadHeader { octet: 19 }),
    ),
    (
        &[DOI, MAP, SINK],
        MISALIGNED_4,
        Err(Denial::BadOption { octet: 28 }),
    ),
    (
        &[],
        "4b00003400000000401166bd0a0000010a000002860b000000100105000250860b000000100105000250000003e8003500080000",
        Err(Denial::BadOption { octet: 31 }),
    ),
    (&[DOI, MAP, SINK], LABELLED_4, Ok(("s2:c1,c3", V4))),
];

/// Packets with a label option.
const LABELLED: &[Case] = &[
    (&[], LABELLED_4, Err(Denial::UnknownDoi { octet: 22 })),
    (
        &["cipsov4 add pass doi:17 tags:1"],
        BEHIND_4,
        Err(Denial::UnknownDoi { octet: 23 }),
    ),
    (
        &["calipso add pass doi:16"],
        LABELLED_4,
        Err(Denial::UnknownDoi { octet: 22 }),
    ),
    (
        &["cipsov4 add pass doi:9 tags:1"],
        C,
        Err(Denial::UnknownDoi { octet: 44 }),
    ),
    (
        &["cipsov4 add pass doi:16 tags:2,5"],
        LABELLED_4,
        Err(Denial::TagNotAllowed { octet: 26 }),
    ),
    (
        &["cipsov4 add trans doi:16 tags:5 levels:0=5"],
        BEHIND_4,
        Err(Denial::TagNotAllowed { octet: 27 }),
    ),
    (
        &["cipsov4 add pass doi:16 tags:5,1", MAP, SINK],
        BEHIND_4,
        Ok(("s2:c1,c3", V4)),
    ),
    (
        &[TRANS, MAP, SINK],
        UNKNOWN_LEVEL,
        Err(Denial::LevelUnmapped),
    ),
    (
        &[TRANS, MAP, SINK],
        UNKNOWN_BOTH,
        Err(Denial::LevelUnmapped),
    ),
    (
        &[TRANS, MAP, SINK],
        UNKNOWN_TWO,
        Err(Denial::CategoryUnmapped { category: 2 }),
    ),
    (&[TRANS, MAP, SINK], KNOWN, Ok(("s1:c1", V4))),
    (
        &[
            TRANS,
            MAP,
            "receiver add address:10.0.0.2 domain:sink_t level:s1:c0",
        ],
        KNOWN,
        Err(Denial::NotDominated),
    ),
    (
        &[
            TRANS,
            MAP,
            "receiver add address:10.0.0.2 domain:sink_t level:s1:c1",
        ],
        KNOWN,
        Ok(("s1:c1", V4)),
    ),
    (
        &[
            SIX,
            "map add default protocol:calipso,9",
            "receiver add address:fd00::2 domain:sink_t level:s2:c1",
        ],
        C,
        Ok(("s2:c1", V6)),
    ),
];

/// Packets without one.
const SET: &[Case] = &[
    (&[], PLAIN_4, Err(Denial::Unlabelled)),
    (&[UNLBL, ALL, SINK], PLAIN_4, Err(Denial::Unlabelled)),
    (&[ACCEPT], PLAIN_4, Err(Denial::NoStatic)),
    (
        &[
            ACCEPT,
            UNLBL,
            ALL,
            SINK,
            "unlbl add interface:eth0 address:10.0.0.2/32 label:s1:c2",
        ],
        PLAIN_4,
        Err(Denial::NoStatic),
    ),
    (
        &[
            ACCEPT,
            UNLBL,
            ALL,
            "receiver add address:10.0.0.2 domain:sink_t level:s1:c2",
        ],
        PLAIN_4,
        Ok(("s1:c2", V4)),
    ),
    (&[ACCEPT, UNLBL, ALL], PLAIN_4, Err(Denial::NoReceiver)),
    (
        &[
            ACCEPT,
            UNLBL,
            "unlbl add default address:0.0.0.0/0 label:s0-s1:c2",
            "receiver add address:10.0.0.2 domain:sink_t level:s1-s1:c2",
        ],
        PLAIN_4,
        Err(Denial::BelowRange),
    ),
    (
        &[
            ACCEPT,
            UNLBL,
            "unlbl add default address:0.0.0.0/0 label:s0-s1:c2",
            SINK,
        ],
        PLAIN_4,
        Ok(("s1:c2", V4)),
    ),
];

/// Ranges of interfaces.
const RANGES: &[Case] = &[
    (
        &[DOI, "range add interface:eth0 range:s0-s2:c1"],
        LABELLED_4,
        Err(Denial::OutsideRange),
    ),
    (
        &[DOI, "range add default range:s2:c2-s2:c0.c5"],
        LABELLED_4,
        Err(Denial::OutsideRange),
    ),
    (
        &[DOI, MAP, SINK, "range add interface:eth1 range:s0"],
        LABELLED_4,
        Ok(("s2:c1,c3", V4)),
    ),
    (
        &[
            DOI,
            MAP,
            SINK,
            "range add interface:eth0 range:s2:c1,c3",
            "range add default range:s0",
        ],
        LABELLED_4,
        Ok(("s2:c1,c3", V4)),
    ),
    (
        &[
            ACCEPT,
            "unlbl add default address:0.0.0.0/0 label:s0-s1:c2",
            "range add default range:s1-s1:c2",
        ],
        PLAIN_4,
        Err(Denial::OutsideRange),
    ),
    (
        &[
            ACCEPT,
            "unlbl add default address:0.0.0.0/0 label:s0-s1:c2",
            "range add default range:s0-s1",
        ],
        PLAIN_4,
        Err(Denial::OutsideRange),
    ),
    (
        &[
            ACCEPT,
            "unlbl add default address:0.0.0.0/0 label:s0-s1:c2",
            "range add default range:s0-s1:c2",
        ],
        PLAIN_4,
        Err(Denial::NoReceiver),
    ),
];

/// Receivers and their maps.
const RECEIVERS: &[Case] = &[
    (
        &[
            DOI,
            "receiver add address:10.0.0.1 domain:sink_t level:s2:c0.c5",
        ],
        LABELLED_4,
        Err(Denial::NoReceiver),
    ),
    (
        &[DOI, "receiver add address:10.0.0.2 domain:sink_t level:s0"],
        LABELLED_4,
        Err(Denial::MapRefuses),
    ),
    (&[ACCEPT, ALL, SINK], PLAIN_4, Err(Denial::MapRefuses)),
    (&[DOI, UNLBL, SINK], LABELLED_4, Err(Denial::MapRefuses)),
    (
        &[
            DOI,
            "cipsov4 add pass doi:17 tags:1",
            "map add default protocol:cipsov4,17",
            SINK,
        ],
        LABELLED_4,
        Err(Denial::MapRefuses),
    ),
    (
        &[
            DOI,
            "calipso add pass doi:16",
            "map add default protocol:calipso,16",
            SINK,
        ],
        LABELLED_4,
        Err(Denial::MapRefuses),
    ),
    (
        &[
            DOI,
            UNLBL,
            "map add domain:sink_t address:10.0.0.1/32 protocol:cipsov4,16",
            SINK,
        ],
        LABELLED_4,
        Ok(("s2:c1,c3", V4)),
    ),
    (
        &[
            DOI,
            MAP,
            "map add domain:sink_t address:10.0.0.2/32 protocol:cipsov4,16",
            SINK,
        ],
        LABELLED_4,
        Err(Denial::MapRefuses),
    ),
    (
        &[
            DOI,
            MAP,
            "receiver add address:10.0.0.2 domain:sink_t level:s2:c1",
        ],
        LABELLED_4,
        Err(Denial::NotDominated),
    ),
    (
        &[
            DOI,
            MAP,
            "receiver add address:10.0.0.2 domain:sink_t level:s2:c2-s2:c2",
        ],
        LABELLED_4,
        Err(Denial::NotDominated),
    ),
    (
        &[
            DOI,
            MAP,
            "receiver add address:10.0.0.2 domain:sink_t level:s2:c2-s2:c0.c5",
        ],
        LABELLED_4,
        Err(Denial::BelowRange),
    ),
    (
        &[
            DOI,
            MAP,
            "receiver add address:10.0.0.2 domain:sink_t level:s3-s3:c0.c5",
        ],
        LABELLED_4,
        Err(Denial::BelowRange),
    ),
    (
        &[
            DOI,
            MAP,
            "receiver add address:10.0.0.2 domain:sink_t level:s2:c1-s2:c0.c5",
        ],
        LABELLED_4,
        Ok(("s2:c1,c3", V4)),
    ),
];

/// What one call answers, and the label that it found.
fn answers(
    rt: &impl Abort,
    text: &str,
    found: Result<Address, Denial>,
    local: &Label,
    wanted: Result<(&str, Address), Denial>,
) {
    same(rt, text, found, wanted.map(|(_, receiver)| receiver));
    if let Ok((label, _)) = wanted {
        let label = read_label(label.as_bytes()).expect(rt, "a label");
        assert!(rt; local.same(&label), "{text}");
    }
}

/// A packet by both calls.
fn receives(
    rt: &impl Abort,
    alloc: Global,
    interface: &Name,
    room: &mut Room,
    (lines, text, wanted): Case,
) {
    let network = node_after(alloc, lines).expect(rt, "a node");
    assert!(rt; network.nodes() > 0);
    let packet = octets_of(alloc, text).expect(rt, "memory");
    let found = receive_into(network.node(0), interface, &packet, room);
    answers(rt, text, found, &room.local, wanted);
    match receive(network.node(0), interface, &packet) {
        Ok(delivered) => answers(rt, text, Ok(delivered.receiver), &delivered.label, wanted),
        Err(denial) => answers(rt, text, Err(denial), &room.local, wanted),
    }
}

/// Each packet of a node, with the same room for all.
#[test]
fn packets_at_a_node(rt: HostRuntime) {
    let interface = read_name(b"eth0").expect(&rt, "a name");
    let mut room = Room::lowest();
    for cases in [BROKEN, LABELLED, SET, RANGES, RECEIVERS] {
        for case in cases {
            receives(&rt, rt.alloc(), &interface, &mut room, *case);
        }
    }
}
