// Worked values: packets made by hand from RFC 791, RFC 8200, FIPS 188 and RFC 5570, and the first test that fails of broken
// ones.

ghost use Rattle.ip_headers.specs.declared.version.Version.TheVariants as version;
ghost use Rattle.ip_headers.specs.Written.{IsLabelOption};

use crate::checks::{are_octets, holds, octets, same};
use arrayvec::ArrayVec;
use ip_headers::{HeadFault, HeadKind, read4, read6};
use mls_label::{Label, Tag};
use packet_label::*;
use std::alloc::Global;
use std::process::Abort;
use worked_values::packets::{
    ALERT_6, BEHIND_4, BITMAP_16, CALIPSO_9, CUT_4, LABELLED_4, LIST_10, MISALIGNED_4, PLAIN_4,
    WRONG_SUM_4,
};

/// A name, the octets, the label option's place, DOI, tag, level and categories.
type Labelled = (
    &'static str,
    &'static str,
    usize,
    u32,
    Option<Tag>,
    u8,
    &'static [u16],
);

const LABELLED: &[Labelled] = &[
    (
        "version 4, a bitmap",
        LABELLED_4,
        20,
        16,
        Some(Tag::One),
        2,
        &[1, 3],
    ),
    (
        "version 4, categories one by one",
        LIST_10,
        20,
        10,
        Some(Tag::Two),
        12,
        &[4, 5],
    ),
    (
        "version 4, ranges",
        "4900002c000000004011d7310a0000010a000002861000000010050a000100320030000003e8003500080000",
        20,
        16,
        Some(Tag::Five),
        1,
        &[0, 48, 49, 50],
    ),
    (
        "version 4, behind a NOP",
        BEHIND_4,
        21,
        16,
        Some(Tag::One),
        2,
        &[1, 3],
    ),
    (
        "version 4, behind another option",
        "4900002c000000004011f7970a0000010a00000294040000860b0000001001050002500003e8003500080000",
        24,
        16,
        Some(Tag::One),
        2,
        &[1, 3],
    ),
    (
        "version 4, octets past the total length",
        "480000280000000040118ca00a0000010a000002860b0000001001050002500003e8003500080000ff",
        20,
        16,
        Some(Tag::One),
        2,
        &[1, 3],
    ),
    (
        "version 6, no category",
        "6000000000180040fd000000000000000000000000000001fd00000000000000000000000000000211010708000000100002bfd90102000003e8003500080000",
        42,
        16,
        None,
        2,
        &[],
    ),
    ("version 6, one word", CALIPSO_9, 42, 9, None, 2, &[1, 3]),
    (
        "version 6, behind padding",
        "6000000000180040fd000000000000000000000000000001fd0000000000000000000000000000021101000708000000100002bfd901010003e8003500080000",
        43,
        16,
        None,
        2,
        &[],
    ),
];

const FAULTS: &[(&str, &str, CarryFault)] = &[
    ("no octet", "", CarryFault::Header { octet: 0 }),
    ("version 5 over a 4", "54", CarryFault::Header { octet: 0 }),
    ("version 0 over a 6", "06", CarryFault::Header { octet: 0 }),
    (
        "version 4 over a 6, short",
        "46",
        CarryFault::Header { octet: 1 },
    ),
    (
        "version 6 over a 4, short",
        "64",
        CarryFault::Header { octet: 1 },
    ),
    (
        "version 4, 19 octets",
        "480000280000000040118ca00a0000010a0000",
        CarryFault::Header { octet: 19 },
    ),
    (
        "version 4, header checksum",
        WRONG_SUM_4,
        CarryFault::Header { octet: 10 },
    ),
    (
        "version 4, without the last octet",
        CUT_4,
        CarryFault::Header { octet: 2 },
    ),
    (
        "version 4, a broken list behind a broken label",
        "460000200000000040119bbf0a0000010a0000028602440903e8003500080000",
        CarryFault::Header { octet: 23 },
    ),
    (
        "version 4, a header checksum over a broken label",
        "480000280000000040118aa10a0000010a000002860b0000001003050002500003e8003500080000",
        CarryFault::Header { octet: 10 },
    ),
    (
        "version 4, a second label over a broken one",
        "4600002000000000401159c60a0000010a0000028602860203e8003500080000",
        CarryFault::Option { octet: 22 },
    ),
    (
        "version 4, a second label",
        "4900002c00000000401105990a0000010a000002860b000000100105000250018602000003e8003500080000",
        CarryFault::Option { octet: 32 },
    ),
    (
        "version 4, option length",
        "48000028000000004011dca40a0000010a00000286090000001001050000000003e8003500080000",
        CarryFault::Option { octet: 21 },
    ),
    (
        "version 4, DOI 0",
        "480000280000000040118cb00a0000010a000002860b0000000001050002500003e8003500080000",
        CarryFault::Option { octet: 25 },
    ),
    (
        "version 4, tag type",
        "480000280000000040118aa00a0000010a000002860b0000001003050002500003e8003500080000",
        CarryFault::Option { octet: 26 },
    ),
    (
        "version 4, tag type behind a NOP",
        "480000280000000040113fea0a0000010a00000201860b00000010030500025003e8003500080000",
        CarryFault::Option { octet: 27 },
    ),
    (
        "version 4, tag length",
        "480000280000000040118ca10a0000010a000002860b0000001001040002500003e8003500080000",
        CarryFault::Option { octet: 27 },
    ),
    (
        "version 4, alignment octet",
        MISALIGNED_4,
        CarryFault::Option { octet: 28 },
    ),
    (
        "version 4, equal categories",
        "4900002c000000004011da940a0000010a000002860e000000100208000200010001000003e8003500080000",
        CarryFault::Option { octet: 33 },
    ),
    (
        "version 6, 39 octets",
        "600000000018003ffd000000000000000000000000000001fd0000000000000000000000000000",
        CarryFault::Header { octet: 39 },
    ),
    (
        "version 6, a jumbo payload",
        "6000000000100040fd000000000000000000000000000001fd0000000000000000000000000000021100c2040001000003e8003500080000",
        CarryFault::Header { octet: 42 },
    ),
    (
        "version 6, a broken list behind a bad checksum",
        "6000000000180040fd000000000000000000000000000001fd00000000000000000000000000000211010708000000100003bfd90105000003e8003500080000",
        CarryFault::Header { octet: 53 },
    ),
    (
        "version 6, a second label over a bad checksum",
        "6000000000180040fd000000000000000000000000000001fd00000000000000000000000000000211010708000000100003bfd90700010003e8003500080000",
        CarryFault::Option { octet: 52 },
    ),
    (
        "version 6, option length",
        "6000000000180040fd000000000000000000000000000001fd00000000000000000000000000000211010707000000100002bf010300000003e8003500080000",
        CarryFault::Option { octet: 43 },
    ),
    (
        "version 6, DOI 0",
        "6000000000180040fd000000000000000000000000000001fd00000000000000000000000000000211010708000000000002bfd90102000003e8003500080000",
        CarryFault::Option { octet: 47 },
    ),
    (
        "version 6, words",
        "6000000000180040fd000000000000000000000000000001fd00000000000000000000000000000211010708000000100102bfd90102000003e8003500080000",
        CarryFault::Option { octet: 48 },
    ),
    (
        "version 6, checksum",
        "6000000000180040fd000000000000000000000000000001fd00000000000000000000000000000211010708000000100003bfd90102000003e8003500080000",
        CarryFault::Option { octet: 50 },
    ),
    (
        "version 6, checksum behind padding",
        "6000000000180040fd000000000000000000000000000001fd0000000000000000000000000000021101000708000000100003bfd901010003e8003500080000",
        CarryFault::Option { octet: 51 },
    ),
];

const PLACES: &[(&str, &str, Option<usize>)] = &[
    ("version 4, a label", LABELLED_4, Some(20)),
    (
        "version 4, a broken label",
        "480000280000000040118aa00a0000010a000002860b0000001003050002500003e8003500080000",
        Some(20),
    ),
    (
        "version 4, two labels",
        "4600002000000000401159c60a0000010a0000028602860203e8003500080000",
        Some(20),
    ),
    ("version 4, behind a NOP", BEHIND_4, Some(21)),
    ("version 4, no label", PLAIN_4, None),
    (
        "version 6, a bad checksum",
        "6000000000180040fd000000000000000000000000000001fd00000000000000000000000000000211010708000000100003bfd90102000003e8003500080000",
        Some(42),
    ),
    (
        "version 6, two labels",
        "6000000000180040fd000000000000000000000000000001fd00000000000000000000000000000211010708000000100002bfd90700010003e8003500080000",
        Some(42),
    ),
    ("version 6, no label", ALERT_6, None),
];

/// DOI 16, tag 1, level 2, categories 1 and 3.
fn cipso() -> ArrayVec<u8, 40>
    ensures { IsLabelOption version.V4 result.items }
{
    let mut option = ArrayVec::new();
    option
        .try_extend_from_slice(&[134, 11, 0, 0, 0, 16, 1, 5, 0, 2, 80])
        .unwrap();
    option
}

/// DOI 16, level 2, no category.
fn calipso() -> ArrayVec<u8, 254>
    ensures { IsLabelOption version.V6 result.items }
{
    let mut option = ArrayVec::new();
    option
        .try_extend_from_slice(&[7, 8, 0, 0, 0, 16, 0, 2, 0xbf, 0xd9])
        .unwrap();
    option
}

fn tag_of(wire: &Wire) -> Option<Tag> {
    match wire {
        Wire::Cipso { tag, .. } => Some(*tag),
        Wire::Calipso { .. } => None,
    }
}

fn has_cats(label: &Label, cats: &[u16]) -> bool {
    label.cats.count() as usize == cats.len() && cats.iter().all(|c| label.cats.contains(*c))
}

fn is_labelled(rt: &impl Abort, alloc: Global, row: &Labelled) {
    let (name, text, at, doi, tag, level, cats) = *row;
    let bytes = octets(rt, alloc, text);
    let found = carried(&bytes).expect(rt, name);
    let wire = found.wire.as_ref().expect(rt, name);
    let label = wire.label();
    let parts = (wire.at(), wire.doi(), tag_of(wire), label.level);
    same(rt, name, parts, (at, doi, tag, level));
    holds(rt, name, has_cats(label, cats));
}

#[test]
fn labels_of_worked_packets(rt: HostRuntime) {
    for row in LABELLED {
        is_labelled(&rt, rt.alloc(), row);
    }
}

#[test]
fn first_faults_of_broken_packets(rt: HostRuntime) {
    for &(name, text, fault) in FAULTS {
        let bytes = octets(&rt, rt.alloc(), text);
        same(&rt, name, carried(&bytes).err(), Some(fault));
    }
}

#[test]
fn places_of_first_labels(rt: HostRuntime) {
    for &(name, text, place) in PLACES {
        let bytes = octets(&rt, rt.alloc(), text);
        let (_, found) = label_at(&bytes).expect(&rt, name);
        same(&rt, name, found, place);
    }
    let none = HeadFault {
        octet: 0,
        kind: HeadKind::Version,
    };
    same(&rt, "no octet", label_at(&[]).err(), Some(none));
    same(&rt, "version 5", label_at(&[0x54]).err(), Some(none));
}

/// Packets, and what they are without their labels.
const BARE: &[(&str, &str)] = &[
    (
        LABELLED_4,
        "4500001c00000000401166cf0a0000010a00000203e8003500080000",
    ),
    (PLAIN_4, PLAIN_4),
    (
        CALIPSO_9,
        "6000000000081140fd000000000000000000000000000001fd00000000000000000000000000000203e80035000801bd",
    ),
];

fn is_bared(rt: &impl Abort, alloc: Global, text: &str, bare: &str) {
    let bytes = octets(rt, alloc, text);
    let found = carried(&bytes).expect(rt, text);
    let mut out = Vec::new(alloc);
    same(rt, text, relabel(&found.packet, None, 64, &mut out), Ok(()));
    are_octets(rt, alloc, text, &out, bare);
}

#[test]
fn packets_without_their_labels(rt: HostRuntime) {
    for (text, bare) in BARE {
        is_bared(&rt, rt.alloc(), text, bare);
    }
}

#[test]
fn a_packet_of_version_4_with_another_label(rt: HostRuntime) {
    let bytes = octets(&rt, rt.alloc(), PLAIN_4);
    let packet = Packet::V4(read4(&bytes).expect(&rt, "a packet"));
    let option = WireOption::Cipso(cipso());
    let mut out = Vec::new(rt.alloc());
    let done = relabel(&packet, Some(&option), 64, &mut out);
    same(&rt, "done", done, Ok(()));
    are_octets(&rt, rt.alloc(), "written", &out, BITMAP_16);
}

#[test]
fn a_packet_of_version_6_with_another_label(rt: HostRuntime) {
    let bytes = octets(&rt, rt.alloc(), ALERT_6);
    let packet = Packet::V6(read6(&bytes).expect(&rt, "a packet"));
    let option = WireOption::Calipso(calipso());
    let mut out = Vec::new(rt.alloc());
    let done = relabel(&packet, Some(&option), 64, &mut out);
    same(&rt, "done", done, Ok(()));
    let labelled =
        "6000000000200040fd000000000000000000000000000001fd00000000000000000000000000000211020708000000100002bfd901040000000005020000010003e8003500080000";
    are_octets(&rt, rt.alloc(), "written", &out, labelled);
}
