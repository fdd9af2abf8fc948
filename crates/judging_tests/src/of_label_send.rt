//! Packets that are sent at a node, each with the commands that the node was given, and the same one step away. The octets were
//! worked from RFC 791, RFC 8200, FIPS 188 and RFC 5570, apart from the program.

use crate::checks::same;
use domain_map::{Name, read_name};
use label_send::*;
use mls_label::Label;
use mls_range::read_label;
use packet_label::{Carrier, Denial, Stop};
use std::alloc::Global;
use std::process::Abort;
use worked_networks::node_after;
use worked_values::append_octets;
use worked_values::packets::{BITMAP_8, CALIPSO_9, LABELLED_4, PLAIN_4, PLAIN_6};

/// `PLAIN_4` with an option of 29 octets, and with one of 30.
const WITH_29: &str =
    "4d00003c000040004011d5910a0000010a000002441d05000000000000000000000000000000000000000000000000000000000003e800350008e7be";

const WITH_30: &str =
    "4d00003c000040004011d5900a0000010a000002441e05000000000000000000000000000000000000000000000000000000000003e800350008e7be";

const DOI: &str = "cipsov4 add pass doi:8 tags:1";

const MAP: &str = "map add default protocol:cipsov4,8";

const DOI_SIX: &str = "calipso add pass doi:9";

const MAP_SIX: &str = "map add default protocol:calipso,9";

const UNLBL: &str = "map add default protocol:unlbl";

const ONE_TO_SEVEN: &str = "calipso add trans doi:9 levels:2=7 categories:1=0,4=1951,5=1952";

const C8: Answer = Ok(Carrier::Cipso { doi: 8 });

const C9: Answer = Ok(Carrier::Calipso { doi: 9 });

const PLAIN: Answer = Ok(Carrier::Unlabelled);

const OUTSIDE: Answer = Err(Stop::Denied(Denial::OutsideRange));

const NO_MAP: Answer = Err(Stop::Denied(Denial::NoMap));

const WRONG: Answer = Err(Stop::Denied(Denial::WrongVersion));

const INEXPRESSIBLE: Answer = Err(Stop::Denied(Denial::Inexpressible));

const NO_ROOM: Answer = Err(Stop::Denied(Denial::NoRoom));

const TOO_LONG: Answer = Err(Stop::Denied(Denial::TooLong));

type Answer = Result<Carrier, Stop>;

/// The node's commands, the label, the packet, what is answered, and what is written.
type Case = (
    &'static [&'static str],
    &'static str,
    &'static str,
    Answer,
    &'static str,
);

/// Octets: a front, so many of one octet, and an end.
type Long = (&'static str, u8, usize, &'static str);

type LongCase = (&'static [&'static str], &'static str, Long, Answer, Long);

/// Faults of the header, and label options that are there already: they come before all else.
const BEFORE: &[Case] = &[
    (
        &[],
        "s2:c1,c3",
        "",
        Err(Stop::Denied(Denial::BadHeader { octet: 0 })),
        "",
    ),
    (
        &[DOI, MAP],
        "s2:c1,c3",
        "4500001c00004000401127cf0a0000010a00000203e800350008e7be",
        Err(Stop::Denied(Denial::BadHeader { octet: 10 })),
        "",
    ),
    (
        &[DOI, MAP],
        "s2:c1,c3",
        "4500001c00004000401126cf0a0000010a00000203e800350008e7",
        Err(Stop::Denied(Denial::BadHeader { octet: 2 })),
        "",
    ),
    (
        &[DOI, MAP],
        "s2:c1,c3",
        "4600002000004000401191c10a0000010a0000029409000003e800350008e7be",
        Err(Stop::Denied(Denial::BadHeader { octet: 21 })),
        "",
    ),
    (
        &[DOI, MAP],
        "s2:c1,c3",
        "4900002c000040004011b7150a0000010a0000029486860b00000010010500025000000003e800350008e7be",
        Err(Stop::Denied(Denial::BadHeader { octet: 21 })),
        "",
    ),
    (
        &["range add default range:s0"],
        "s2:c1,c3",
        LABELLED_4,
        Err(Stop::Denied(Denial::AlreadyLabelled { octet: 20 })),
        "",
    ),
    (
        &[DOI, MAP],
        "s2:c1,c3",
        "48000028000040004011ffeb0a0000010a00000201860b00000010010500025003e800350008e7be",
        Err(Stop::Denied(Denial::AlreadyLabelled { octet: 21 })),
        "",
    ),
    (
        &[DOI, MAP],
        "s2:c1,c3",
        "4b00003400004000401126bd0a0000010a000002860b000000100105000250860b000000100105000250000003e800350008e7be",
        Err(Stop::Denied(Denial::AlreadyLabelled { octet: 20 })),
        "",
    ),
    (
        &[],
        "s2:c1,c3",
        "600000000018003ffd000000000000000000000000000001fd0000000000000000000000000000021101070c000000090107cfbb8000000003e80035000801bd",
        Err(Stop::Denied(Denial::AlreadyLabelled { octet: 42 })),
        "",
    ),
    (
        &[DOI_SIX, MAP_SIX],
        "s2:c1,c3",
        "600000000020003ffd000000000000000000000000000001fd000000000000000000000000000002110200070c000000090107cfbb800000000105000000000003e80035000801bd",
        Err(Stop::Denied(Denial::AlreadyLabelled { octet: 43 })),
        "",
    ),
];

/// The interface's range, the map for the domain and the destination, and the version.
const FOUND: &[Case] = &[
    (
        &["range add interface:eth0 range:s0-s2:c1"],
        "s2:c1,c3",
        PLAIN_4,
        OUTSIDE,
        "",
    ),
    (
        &["range add interface:eth0 range:s0-s2:c1,c3"],
        "s2:c1,c3",
        PLAIN_4,
        NO_MAP,
        "",
    ),
    (
        &["range add default range:s3-s3:c1,c3"],
        "s2:c1,c3",
        PLAIN_6,
        OUTSIDE,
        "",
    ),
    (
        &[
            "range add default range:s3",
            "range add interface:eth0 range:s2",
            UNLBL,
        ],
        "s2",
        PLAIN_6,
        PLAIN,
        PLAIN_6,
    ),
    (&[], "s2:c1,c3", PLAIN_4, NO_MAP, ""),
    (
        &[DOI, "map add domain:other_t protocol:cipsov4,8"],
        "s2:c1,c3",
        PLAIN_4,
        NO_MAP,
        "",
    ),
    (
        &[
            "cipsov4 add pass doi:1 tags:1",
            "cipsov4 add pass doi:2 tags:1",
            "map add domain:web_t address:10.0.0.0/8 protocol:cipsov4,1",
            "map add domain:web_t address:10.1.0.0/16 protocol:cipsov4,2",
            UNLBL,
        ],
        "s2:c1,c3",
        "4500001c00004000401125d00a0000010b00000103e800350008e7be",
        NO_MAP,
        "",
    ),
    (
        &[
            "cipsov4 add pass doi:1 tags:1",
            "cipsov4 add pass doi:2 tags:1",
            "map add domain:web_t address:10.0.0.0/8 protocol:cipsov4,1",
            "map add domain:web_t address:10.1.0.0/16 protocol:cipsov4,2",
            UNLBL,
        ],
        "s2:c1,c3",
        "4500001c0000400040111bbc0a0909090a01020303e800350008e7be",
        Ok(Carrier::Cipso { doi: 2 }),
        "48000028000040004011419b0a0909090a010203860b0000000201050002500003e800350008e7be",
    ),
    (
        &[
            "cipsov4 add pass doi:1 tags:1",
            "cipsov4 add pass doi:2 tags:1",
            "map add domain:web_t address:10.0.0.0/8 protocol:cipsov4,1",
            "map add domain:web_t address:10.1.0.0/16 protocol:cipsov4,2",
            UNLBL,
        ],
        "s2:c1,c3",
        "4500001c0000400040111cbf0b0000010a09090903e800350008e7be",
        Ok(Carrier::Cipso { doi: 1 }),
        "48000028000040004011429f0b0000010a090909860b0000000101050002500003e800350008e7be",
    ),
    (&[DOI, MAP], "s2:c240", PLAIN_6, WRONG, ""),
    (&[DOI_SIX, MAP_SIX], "s2:c1952", PLAIN_4, WRONG, ""),
    (&[DOI_SIX, MAP_SIX], "s2:c1,c3", PLAIN_6, C9, CALIPSO_9),
];

/// Packets without a label: what is kept, and what is lost.
const UNLABELLED: &[Case] = &[
    (&[UNLBL], "s2:c1,c3", PLAIN_4, PLAIN, PLAIN_4),
    (
        &[UNLBL],
        "s255:c65534",
        "4500001c00004000001166cf0a0000010a00000203e800350008e7be",
        PLAIN,
        "4500001c00004000001166cf0a0000010a00000203e800350008e7be",
    ),
    (
        &[UNLBL],
        "s2:c1,c3",
        "4500001c00004000401126cf0a0000010a00000203e800350008e7beffff",
        PLAIN,
        PLAIN_4,
    ),
    (
        &[UNLBL],
        "s2:c1,c3",
        "4600002000004000401123ca0a0000010a0000020101010003e800350008e7be",
        PLAIN,
        PLAIN_4,
    ),
    (&[UNLBL], "s2:c1,c3", WITH_30, PLAIN, WITH_30),
    (
        &[UNLBL],
        "s2:c1,c3",
        "600000000010003ffd000000000000000000000000000001fd000000000000000000000000000002110001040000000003e80035000801bd",
        PLAIN,
        PLAIN_6,
    ),
    (
        &[UNLBL],
        "s2:c1,c3",
        "600000000010003ffd000000000000000000000000000001fd000000000000000000000000000002110005020000010003e80035000801bd",
        PLAIN,
        "600000000010003ffd000000000000000000000000000001fd000000000000000000000000000002110005020000010003e80035000801bd",
    ),
];

/// CIPSO: tags 1, 2 and 5, pairs of numbers, and the room of a header.
const CIPSO: &[Case] = &[
    (&[DOI, MAP], "s2:c1,c3", PLAIN_4, C8, BITMAP_8),
    (
        &[DOI, MAP],
        "s2:c1,c3",
        "4500001c00004000001166cf0a0000010a00000203e800350008e7be",
        C8,
        "480000280000400000118ca80a0000010a000002860b0000000801050002500003e800350008e7be",
    ),
    (
        &[DOI, MAP],
        "s2:c239",
        PLAIN_4,
        C8,
        "4f00004400004000401195510a0000010a0000028628000000080122000200000000000000000000000000000000000000000000000000000000000103e800350008e7be",
    ),
    (&[DOI, MAP], "s2:c240", PLAIN_4, INEXPRESSIBLE, ""),
    (
        &["cipsov4 add pass doi:8 tags:2,1", MAP],
        "s2:c1,c3",
        PLAIN_4,
        C8,
        "4900002c0000400040119a9a0a0000010a000002860e000000080208000200010003000003e800350008e7be",
    ),
    (
        &["cipsov4 add pass doi:8 tags:1,2", MAP],
        "s2:c240",
        PLAIN_4,
        C8,
        "480000280000400040119ab60a0000010a000002860c000000080206000200f003e800350008e7be",
    ),
    (
        &["cipsov4 add pass doi:8 tags:2", MAP],
        "s0:c0.c14",
        PLAIN_4,
        C8,
        "4f00004400004000401193eb0a0000010a000002862800000008022200000000000100020003000400050006000700080009000a000b000c000d000e03e800350008e7be",
    ),
    (
        &["cipsov4 add pass doi:8 tags:2", MAP],
        "s0:c0.c15",
        PLAIN_4,
        INEXPRESSIBLE,
        "",
    ),
    (
        &["cipsov4 add pass doi:8 tags:1,2,5", MAP],
        "s0:c0.c300",
        PLAIN_4,
        C8,
        "48000028000040004011977c0a0000010a000002860c0000000805060000012c03e800350008e7be",
    ),
    (
        &["cipsov4 add pass doi:8 tags:5", MAP],
        "s0:c1,c3,c5,c7,c9,c11,c13",
        PLAIN_4,
        C8,
        "4f00004400004000401190f60a0000010a00000286260000000805200000000d000d000b000b0009000900070007000500050003000300010001000003e800350008e7be",
    ),
    (
        &["cipsov4 add pass doi:8 tags:5", MAP],
        "s0:c1,c3,c5,c7,c9,c11,c13,c15",
        PLAIN_4,
        INEXPRESSIBLE,
        "",
    ),
    (
        &[
            "cipsov4 add trans doi:8 tags:2 levels:2=12 categories:1=4,3=5",
            MAP,
        ],
        "s2:c1,c3",
        PLAIN_4,
        C8,
        "4900002c0000400040119a8b0a0000010a000002860e000000080208000c00040005000003e800350008e7be",
    ),
    (
        &[
            "cipsov4 add trans doi:8 tags:2 levels:2=12 categories:1=4,3=5",
            MAP,
        ],
        "s3:c1,c3",
        PLAIN_4,
        INEXPRESSIBLE,
        "",
    ),
    (
        &[
            "cipsov4 add trans doi:8 tags:2 levels:2=12 categories:1=4,3=5",
            MAP,
        ],
        "s2:c1,c4",
        PLAIN_4,
        INEXPRESSIBLE,
        "",
    ),
    (
        &[
            "cipsov4 add trans doi:8 tags:1 levels:2=12 categories:1=240",
            MAP,
        ],
        "s2:c1",
        PLAIN_4,
        INEXPRESSIBLE,
        "",
    ),
    (
        &[DOI, MAP],
        "s2:c1,c3",
        WITH_29,
        C8,
        "4f00004400004000401128430a0000010a000002860b000000080105000250441d05000000000000000000000000000000000000000000000000000003e800350008e7be",
    ),
    (&[DOI, MAP], "s2:c1,c3", WITH_30, NO_ROOM, ""),
    (&[DOI, MAP], "s2:c240", WITH_30, INEXPRESSIBLE, ""),
    (
        &["cipsov4 add pass doi:8 tags:1,5", MAP],
        "s2:c239",
        "4600002000004000401191c60a0000010a0000029404000003e800350008e7be",
        NO_ROOM,
        "",
    ),
    (
        &["cipsov4 add pass doi:8 tags:5,1", MAP],
        "s2:c239",
        "4600002000004000401191c60a0000010a0000029404000003e800350008e7be",
        C8,
        "4a00003000004000401100b80a0000010a000002860e000000080508000200ef00ef94040000000003e800350008e7be",
    ),
];

/// CALIPSO: 61 words, and pairs of numbers.
const CALIPSO: &[Case] = &[
    (
        &[ONE_TO_SEVEN, MAP_SIX],
        "s2:c1",
        PLAIN_6,
        C9,
        "600000000018003ffd000000000000000000000000000001fd0000000000000000000000000000021101070c000000090107cfbb8000000003e80035000801bd",
    ),
    (
        &[ONE_TO_SEVEN, MAP_SIX],
        "s2:c1",
        "600000000010003ffd000000000000000000000000000001fd000000000000000000000000000002110005020000010003e80035000801bd",
        C9,
        "600000000020003ffd000000000000000000000000000001fd0000000000000000000000000000021102070c000000090107cfbb80000000010005020000010003e80035000801bd",
    ),
    (&[ONE_TO_SEVEN, MAP_SIX], "s3", PLAIN_6, INEXPRESSIBLE, ""),
    (
        &[ONE_TO_SEVEN, MAP_SIX],
        "s2:c2",
        PLAIN_6,
        INEXPRESSIBLE,
        "",
    ),
    (
        &[ONE_TO_SEVEN, MAP_SIX],
        "s2:c5",
        PLAIN_6,
        INEXPRESSIBLE,
        "",
    ),
    (
        &[DOI_SIX, MAP_SIX],
        "s2:c1951",
        PLAIN_6,
        C9,
        "600000000108003ffd000000000000000000000000000001fd000000000000000000000000000002111f07fc000000093d024e660000000000000000000000000000000000000000000000000000000000000000000000000000000000000000000000000000000000000000000000000000000000000000000000000000000000000000000000000000000000000000000000000000000000000000000000000000000000000000000000000000000000000000000000000000000000000000000000000000000000000000000000000000000000000000000000000000000000000000000000000000000000000000000000000000000000000000000000000000000000000000000000000000000000000000000000000000000000000000000000000000000103e80035000801bd",
    ),
    (&[DOI_SIX, MAP_SIX], "s2:c1952", PLAIN_6, INEXPRESSIBLE, ""),
    (&[DOI_SIX, MAP_SIX], "s0:c2000", PLAIN_6, INEXPRESSIBLE, ""),
    (
        &[DOI_SIX, MAP_SIX],
        "s2:c1,c3",
        "6000000000081100fd000000000000000000000000000001fd00000000000000000000000000000203e80035000801bd",
        C9,
        "6000000000180000fd000000000000000000000000000001fd0000000000000000000000000000021101070c00000009010214b35000000003e80035000801bd",
    ),
];

/// Packets at the edges of room and length.
const LONG: &[LongCase] = &[
    (
        &[UNLBL],
        "s2",
        ("4500ffff00004000401126eb0a0000010a000002", 0, 65515, ""),
        PLAIN,
        ("4500ffff00004000401126eb0a0000010a000002", 0, 65515, ""),
    ),
    (
        &[DOI, MAP],
        "s2",
        ("4500ffff00004000401126eb0a0000010a000002", 0, 65515, ""),
        TOO_LONG,
        ("", 0, 0, ""),
    ),
    (
        &[DOI, MAP],
        "s2",
        ("4500fff300004000401126f70a0000010a000002", 0, 65503, ""),
        C8,
        (
            "4800ffff0000400040119cd20a0000010a000002860a00000008010400020000",
            0,
            65503,
            "",
        ),
    ),
    (
        &[DOI, MAP],
        "s2",
        ("4500fff400004000401126f60a0000010a000002", 0, 65504, ""),
        TOO_LONG,
        ("", 0, 0, ""),
    ),
    (
        &[DOI, MAP],
        "s2:c240",
        ("4500fff400004000401126f60a0000010a000002", 0, 65504, ""),
        INEXPRESSIBLE,
        ("", 0, 0, ""),
    ),
    (
        &[DOI, MAP],
        "s2:c1,c3",
        (
            "4d00ffff000040004011d5cc0a0000010a000002441e050000000000000000000000000000000000000000000000000000000000",
            0,
            65483,
            "",
        ),
        NO_ROOM,
        ("", 0, 0, ""),
    ),
    (
        &[DOI_SIX, MAP_SIX],
        "s2",
        (
            "60000000ffef113ffd000000000000000000000000000001fd000000000000000000000000000002",
            0,
            65519,
            "",
        ),
        C9,
        (
            "60000000ffff003ffd000000000000000000000000000001fd000000000000000000000000000002110107080000000900029b3c01020000",
            0,
            65519,
            "",
        ),
    ),
    (
        &[DOI_SIX, MAP_SIX],
        "s2",
        (
            "60000000fff0113ffd000000000000000000000000000001fd000000000000000000000000000002",
            0,
            65520,
            "",
        ),
        TOO_LONG,
        ("", 0, 0, ""),
    ),
    (
        &[DOI_SIX, MAP_SIX],
        "s2:c1,c3",
        (
            "6000000007f8003ffd000000000000000000000000000001fd00000000000000000000000000000211fd",
            62,
            1984,
            "1e2c000000000000000000000000000000000000000000000000000000000000000000000000000000000000000003e80035000801bd",
        ),
        C9,
        (
            "600000000808003ffd000000000000000000000000000001fd00000000000000000000000000000211ff070c00000009010214b3500000000100",
            62,
            1984,
            "1e2c000000000000000000000000000000000000000000000000000000000000000000000000000000000000000003e80035000801bd",
        ),
    ),
    (
        &[DOI_SIX, MAP_SIX],
        "s2:c1,c3",
        (
            "600000000800003ffd000000000000000000000000000001fd00000000000000000000000000000211fe",
            62,
            1984,
            "1e2d0000000000000000000000000000000000000000000000000000000000000000000000000000000000000000000105000000000003e80035000801bd",
        ),
        NO_ROOM,
        ("", 0, 0, ""),
    ),
];

fn octets(rt: &impl Abort, alloc: Global, (front, fill, count, end): Long) -> Vec<u8> {
    let mut octets = Vec::new(alloc);
    append_octets(front, &mut octets).expect(rt, "memory");
    let length = octets.len().saturating_add(count);
    octets.resize(length, fill).expect(rt, "memory");
    append_octets(end, &mut octets).expect(rt, "memory");
    octets
}

/// What is lent to all calls: names, a label, and what was written last.
#[derive(Drop)]
struct Lent {
    domain: Name,
    interface: Name,
    wire: Label,
    out: Vec<u8>,
}

/// What one call answers, and what it writes.
fn answers(
    rt: &impl Abort,
    alloc: Global,
    (found, out): (Answer, &[u8]),
    (_, label, packet, wanted, written): LongCase,
) {
    same(rt, (label, packet), found, wanted);
    let written = octets(rt, alloc, written);
    assert!(rt; out == written.as_slice(), "{label} {packet:?}");
}

/// A packet by both calls.
fn sends(rt: &impl Abort, alloc: Global, lent: &mut Lent, case: LongCase) {
    let network = node_after(alloc, case.0).expect(rt, "a node");
    assert!(rt; network.nodes() > 0);
    let label = read_label(case.1.as_bytes()).expect(rt, "a label");
    let packet = octets(rt, alloc, case.2);
    let Lent {
        domain,
        interface,
        wire,
        out,
    } = lent;
    let tables = network.node(0);
    let found = send_into(tables, domain, interface, &label, &packet, wire, out);
    answers(rt, alloc, (found, out.as_slice()), case);
    let found = send(tables, domain, interface, &label, &packet, out);
    answers(rt, alloc, (found, out.as_slice()), case);
}

fn lend(rt: &impl Abort, alloc: Global) -> Lent {
    Lent {
        domain: read_name(b"web_t").expect(rt, "a name"),
        interface: read_name(b"eth0").expect(rt, "a name"),
        wire: Label::lowest(),
        out: Vec::new(alloc),
    }
}

fn sends_each(rt: &impl Abort, alloc: Global, lent: &mut Lent, cases: &[Case]) {
    for &(lines, label, packet, wanted, written) in cases {
        let (packet, written) = ((packet, 0, 0, ""), (written, 0, 0, ""));
        sends(rt, alloc, lent, (lines, label, packet, wanted, written));
    }
}

#[test]
fn packets_of_a_node(rt: HostRuntime) {
    let mut lent = lend(&rt, rt.alloc());
    for cases in [BEFORE, FOUND, UNLABELLED, CIPSO, CALIPSO] {
        sends_each(&rt, rt.alloc(), &mut lent, cases);
    }
    for case in LONG {
        sends(&rt, rt.alloc(), &mut lent, *case);
    }
}
