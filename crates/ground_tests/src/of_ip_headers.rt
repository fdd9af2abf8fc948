// Worked values: packets made by hand from RFC 791 and RFC 8200, and the first test that fails of broken ones.

ghost use Rattle.std.specs.Prelude.{IsTrue};
ghost use Rattle.ip_headers.specs.declared.version.Version.TheVariants.{V4, V6};
ghost use Rattle.ip_headers.specs.Swapped.{IsWholeOption};
ghost use Rattle.ip_headers.specs.Written.{IsLabelOption};

use crate::checks::same;
use ip_headers::*;
use std::alloc::Global;
use std::process::Abort;
use worked_values::octets_of;
use worked_values::packets::{ALERT_6, BITMAP_16, CUT_4, LABELLED_4, PLAIN_4, WRONG_SUM_4};

const FAULTS4: &[(&str, &str, usize, HeadKind)] = &[
    ("no octet", "", 0, HeadKind::Short),
    ("one octet", "45", 1, HeadKind::Short),
    (
        "19 octets",
        "480000280000000040118ca00a0000010a0000",
        19,
        HeadKind::Short,
    ),
    (
        "version 5",
        "580000280000000040118ca00a0000010a000002860b0000001001050002500003e8003500080000",
        0,
        HeadKind::Version,
    ),
    (
        "version 0",
        "080000280000000040118ca00a0000010a000002860b0000001001050002500003e8003500080000",
        0,
        HeadKind::Version,
    ),
    (
        "version 6",
        "680000280000000040118ca00a0000010a000002860b0000001001050002500003e8003500080000",
        0,
        HeadKind::Version,
    ),
    (
        "IHL 0",
        "400000280000000040118ca00a0000010a000002860b0000001001050002500003e8003500080000",
        0,
        HeadKind::HeaderLength,
    ),
    (
        "IHL 4",
        "440000280000000040118ca00a0000010a000002860b0000001001050002500003e8003500080000",
        0,
        HeadKind::HeaderLength,
    ),
    (
        "total length 0",
        "480000000000000040118ca00a0000010a000002860b0000001001050002500003e8003500080000",
        2,
        HeadKind::TotalLength,
    ),
    (
        "total length below the header",
        "4800001f0000000040118ca00a0000010a000002860b0000001001050002500003e8003500080000",
        2,
        HeadKind::TotalLength,
    ),
    (
        "header past the octets",
        "4800001c00004000401126cf0a0000010a00000203e800350008e7be",
        2,
        HeadKind::TotalLength,
    ),
    ("without the last octet", CUT_4, 2, HeadKind::TotalLength),
    ("checksum octet 10", WRONG_SUM_4, 10, HeadKind::Checksum),
    (
        "checksum octet 11",
        "480000280000000040118ca10a0000010a000002860b0000001001050002500003e8003500080000",
        10,
        HeadKind::Checksum,
    ),
    (
        "type of service changed",
        "480100280000000040118ca00a0000010a000002860b0000001001050002500003e8003500080000",
        10,
        HeadKind::Checksum,
    ),
    (
        "last octet of the header changed",
        "480000280000000040118ca00a0000010a000002860b0000001001050002500103e8003500080000",
        10,
        HeadKind::Checksum,
    ),
    (
        "first option, length 0",
        "46000018000000004011dfd20a0000010a00000286000000",
        21,
        HeadKind::OptionList,
    ),
    (
        "first option, length 1",
        "4600001800000000401121d20a0000010a00000244010000",
        21,
        HeadKind::OptionList,
    ),
    (
        "first option passes",
        "4600001800000000401121ce0a0000010a00000244050000",
        21,
        HeadKind::OptionList,
    ),
    (
        "middle option passes",
        "4700001c000000004011de830a0000010a0000020144030082070000",
        25,
        HeadKind::OptionList,
    ),
    (
        "last octet has no length octet",
        "46000018000000004011638e0a0000010a00000201010144",
        24,
        HeadKind::OptionList,
    ),
    (
        "last option passes",
        "460000180000000040119bcd0a0000010a00000286024403",
        23,
        HeadKind::OptionList,
    ),
    (
        "second label and then a broken option",
        "4700001c00000000401114c10a0000010a0000028602860244090000",
        25,
        HeadKind::OptionList,
    ),
    (
        "second label behind the first",
        "4600001800000000401159ce0a0000010a00000286028602",
        22,
        HeadKind::SecondLabel,
    ),
    (
        "second label in the middle",
        "480000200000000040114eb60a0000010a0000028604aabb018604ccdd010101",
        25,
        HeadKind::SecondLabel,
    ),
    (
        "second label at the end",
        "4700001c00000000401156c80a0000010a0000028602010101018602",
        26,
        HeadKind::SecondLabel,
    ),
    (
        "third label",
        "4700001c000000004011d1c60a0000010a0000028602860286020101",
        22,
        HeadKind::SecondLabel,
    ),
];

const FAULTS6: &[(&str, &str, usize, HeadKind)] = &[
    ("no octet", "", 0, HeadKind::Short),
    ("one octet", "60", 1, HeadKind::Short),
    (
        "39 octets",
        "6000000000081140fd000000000000000000000000000001fd0000000000000000000000000000",
        39,
        HeadKind::Short,
    ),
    (
        "version 4",
        "4000000000081140fd000000000000000000000000000001fd00000000000000000000000000000203e8003500080000",
        0,
        HeadKind::Version,
    ),
    (
        "version 15",
        "f000000000081140fd000000000000000000000000000001fd00000000000000000000000000000203e8003500080000",
        0,
        HeadKind::Version,
    ),
    (
        "payload length above the octets",
        "6000000000081140fd000000000000000000000000000001fd00000000000000000000000000000203e80035000800",
        4,
        HeadKind::TotalLength,
    ),
    (
        "header alone, payload length 1",
        "6000000000011140fd000000000000000000000000000001fd000000000000000000000000000002",
        4,
        HeadKind::TotalLength,
    ),
    (
        "Hop-by-Hop in 7 octets",
        "6000000000070040fd000000000000000000000000000001fd00000000000000000000000000000203e8003500080000",
        4,
        HeadKind::TotalLength,
    ),
    (
        "Hop-by-Hop in no octet",
        "6000000000000040fd000000000000000000000000000001fd00000000000000000000000000000203e8003500080000",
        4,
        HeadKind::TotalLength,
    ),
    (
        "Hop-by-Hop passes the payload",
        "6000000000080040fd000000000000000000000000000001fd0000000000000000000000000000021101010400000000",
        41,
        HeadKind::HeaderLength,
    ),
    (
        "Hop-by-Hop of 2048 octets passes",
        "6000000000100040fd000000000000000000000000000001fd00000000000000000000000000000211ff01040000000003e8003500080000",
        41,
        HeadKind::HeaderLength,
    ),
    (
        "first option passes",
        "6000000000080040fd000000000000000000000000000001fd0000000000000000000000000000021100050500000000",
        43,
        HeadKind::OptionList,
    ),
    (
        "middle option passes",
        "6000000000080040fd000000000000000000000000000001fd000000000000000000000000000002110000000005ff00",
        46,
        HeadKind::OptionList,
    ),
    (
        "last octet has no length octet",
        "6000000000080040fd000000000000000000000000000001fd0000000000000000000000000000021100000000000005",
        48,
        HeadKind::OptionList,
    ),
    (
        "last option passes",
        "6000000000080040fd000000000000000000000000000001fd0000000000000000000000000000021100010200000501",
        47,
        HeadKind::OptionList,
    ),
    (
        "jumbo and second label and then a broken option",
        "6000000000100040fd000000000000000000000000000001fd0000000000000000000000000000021101c204000100000700070005080000",
        53,
        HeadKind::OptionList,
    ),
    (
        "jumbo first",
        "6000000000080040fd000000000000000000000000000001fd0000000000000000000000000000021100c20400010000",
        42,
        HeadKind::Jumbo,
    ),
    (
        "jumbo in the middle",
        "6000000000100040fd000000000000000000000000000001fd00000000000000000000000000000211010000c20400010000010400000000",
        44,
        HeadKind::Jumbo,
    ),
    (
        "jumbo last",
        "6000000000100040fd000000000000000000000000000001fd0000000000000000000000000000021101010800000000000000000000c200",
        54,
        HeadKind::Jumbo,
    ),
    (
        "jumbo behind two labels",
        "6000000000080040fd000000000000000000000000000001fd000000000000000000000000000002110007000700c200",
        46,
        HeadKind::Jumbo,
    ),
    (
        "second label behind the first",
        "6000000000080040fd000000000000000000000000000001fd0000000000000000000000000000021100070007000100",
        44,
        HeadKind::SecondLabel,
    ),
    (
        "second label in the middle",
        "6000000000100040fd000000000000000000000000000001fd00000000000000000000000000000211010702aabb000702ccdd0103000000",
        47,
        HeadKind::SecondLabel,
    ),
    (
        "second label at the end",
        "6000000000100040fd000000000000000000000000000001fd00000000000000000000000000000211010708000000100002bfd901000700",
        54,
        HeadKind::SecondLabel,
    ),
];

/// Packets of version 4, the octet of the first option of type 130 and that option, and the octet of the second; 0 where there is none.
const SOUGHT: &[(&str, &str, usize, &str, usize)] = &[
    (
        "no option",
        "4500001c00000000401166cf0a0000010a00000203e8003500080000",
        0,
        "",
        0,
    ),
    (
        "another type",
        "46000020000000004011d1c60a0000010a0000029404000003e8003500080000",
        0,
        "",
        0,
    ),
    (
        "first",
        "4600002000000000401189460a0000010a00000282045a8003e8003500080000",
        20,
        "82045a80",
        0,
    ),
    (
        "behind no-operations and another type",
        "480000280000000040110eb80a0000010a00000201019404000082033d01010103e8003500080000",
        26,
        "82033d",
        0,
    ),
    (
        "two",
        "4800002800000000401134350a0000010a00000282045a809404000082033d0103e8003500080000",
        20,
        "82045a80",
        28,
    ),
    (
        "three",
        "480000280000000040112d350a0000010a0000028203ab0182045a808203ab0003e8003500080000",
        20,
        "8203ab",
        24,
    ),
    (
        "behind a label option",
        "4900002c000000004011ab100a0000010a0000028606000000108203ab9404000000000003e8003500080000",
        26,
        "8203ab",
        0,
    ),
    (
        "behind the end of the list",
        "47000024000000004011cd030a0000010a000002940400000082033d03e8003500080000",
        0,
        "",
        0,
    ),
];

/// Packets of version 4, an option, and the packet with it in place of those of type 130.
const SWAPPED: &[(&str, &str, &str, &str)] = &[
    (
        "alone, for a label option",
        "4600002000000000401189460a0000010a00000282045a8003e8003500080000",
        "860b000000100105000240",
        "480000280000000040119ca00a0000010a000002860b0000001001050002400003e8003500080000",
    ),
    (
        "in place of a label option",
        "480000280000000040119ca00a0000010a000002860b0000001001050002400003e8003500080000",
        "82045a80",
        "4600002000000000401189460a0000010a00000282045a8003e8003500080000",
    ),
    (
        "no option before",
        "4500001c00000000401166cf0a0000010a00000203e8003500080000",
        "82045a80",
        "4600002000000000401189460a0000010a00000282045a8003e8003500080000",
    ),
    (
        "between others, with no-operations and padding",
        "4900002c00000000401144940a0000010a000002014404050082045a800194040000000003e8003500080000",
        "860b000000100105000240",
        "4a00003000000000401191bb0a0000010a000002860b00000010010500024044040500940400000003e8003500080000",
    ),
    (
        "behind others, and one hop",
        "4800002800000000011198b60a0000010a00000244040500940400008203ab0003e8003500080000",
        "82045a80",
        "48000028000000000111e9350a0000010a00000282045a80440405009404000003e8003500080000",
    ),
    (
        "two of the type",
        "4800002800000000401134350a0000010a00000282045a809404000082033d0103e8003500080000",
        "860b000000100105000240",
        "4900002c00000000401197080a0000010a000002860b000000100105000240940400000003e8003500080000",
    ),
    (
        "the type behind a label option",
        "4900002c000000004011ab100a0000010a0000028606000000108203ab9404000000000003e8003500080000",
        "82045a80",
        "47000024000000004011f43d0a0000010a00000282045a809404000003e8003500080000",
    ),
    (
        "the type behind the end of the list",
        "47000024000000004011cd030a0000010a000002940400000082033d03e8003500080000",
        "0702",
        "47000024000000004011c9c00a0000010a000002070294040000000003e8003500080000",
    ),
    (
        "20 octets beside 20 others",
        "4b0000340000000040113b1e0a0000010a000002441405000000000000000000000000000000000082045a8003e8003500080000",
        "8614000000100110000200000000000000000000",
        "4f0000440000000040118c5c0a0000010a0000028614000000100110000200000000000000000000441405000000000000000000000000000000000003e8003500080000",
    ),
    (
        "2 octets beside 38 others",
        "4f00004400000000401112800a0000010a0000024426050000000000000000000000000000000000000000000000000000000000000000000000010103e8003500080000",
        "8602",
        "4f0000440000000040118d7e0a0000010a0000028602442605000000000000000000000000000000000000000000000000000000000000000000000003e8003500080000",
    ),
    (
        "40 octets alone",
        "4600002000000000401189460a0000010a00000282045a8003e8003500080000",
        "86280000001001240002000000000000000000000000000000000000000000000000000000000000",
        "4f000044000000004011d5480a0000010a0000028628000000100124000200000000000000000000000000000000000000000000000000000000000003e8003500080000",
    ),
];

/// Packets of version 4 and an option for which they have no room beside their others.
const NO_ROOM: &[(&str, &str, &str)] = &[
    (
        "21 octets beside 20 others",
        "4b0000340000000040113b1e0a0000010a000002441405000000000000000000000000000000000082045a8003e8003500080000",
        "861500000010011100020000000000000000000000",
    ),
    (
        "2 octets beside 40 others",
        "4f000044000000004011137f0a0000010a0000024428050000000000000000000000000000000000000000000000000000000000000000000000000003e8003500080000",
        "8602",
    ),
];

const PAYLOAD: [u8; 8] = [0x03, 0xe8, 0, 0x35, 0, 8, 0xe7, 0xbe];

/// DOI 16, tag 1, level 2, categories 1 and 3.
fn cipso() -> [u8; 11]
    ensures { IsLabelOption V4 result }
{
    [134, 11, 0, 0, 0, 16, 1, 5, 0, 2, 80]
}

/// DOI 16, level 2, no category.
fn calipso() -> [u8; 10]
    ensures { IsLabelOption V6 result }
{
    [7, 8, 0, 0, 0, 16, 0, 2, 0xbf, 0xd9]
}

/// The octets of a packet in hexadecimal digits.
fn octets(rt: &impl Abort, alloc: Global, text: &str) -> Vec<u8> {
    octets_of(alloc, text).expect(rt, "memory")
}

/// Ends the test unless these octets are those of a text.
fn are_octets(rt: &impl Abort, alloc: Global, case: &str, found: &[u8], text: &str) {
    let wanted = octets(rt, alloc, text);
    same(rt, case, found, wanted.as_slice());
}

fn is_refused4(rt: &impl Abort, alloc: Global, name: &str, text: &str, fault: HeadFault) {
    let bytes = octets(rt, alloc, text);
    same(rt, name, read4(&bytes).err(), Some(fault));
    let is_front = front4(&bytes).is_ok();
    same(rt, name, is_front, fault.kind == HeadKind::SecondLabel);
}

fn is_refused6(rt: &impl Abort, alloc: Global, name: &str, text: &str, fault: HeadFault) {
    let bytes = octets(rt, alloc, text);
    same(rt, name, read6(&bytes).err(), Some(fault));
    let is_front = front6(&bytes).is_ok();
    same(rt, name, is_front, fault.kind == HeadKind::SecondLabel);
}

#[test]
fn first_faults_of_version_4(rt: HostRuntime) {
    for &(name, text, octet, kind) in FAULTS4 {
        is_refused4(&rt, rt.alloc(), name, text, HeadFault { octet, kind });
    }
}

#[test]
fn first_faults_of_version_6(rt: HostRuntime) {
    for &(name, text, octet, kind) in FAULTS6 {
        is_refused6(&rt, rt.alloc(), name, text, HeadFault { octet, kind });
    }
}

#[test]
fn a_labelled_packet_of_version_4(rt: HostRuntime) {
    let bytes = octets(&rt, rt.alloc(), LABELLED_4);
    let option = cipso();
    let packet = read4(&bytes).expect(&rt, "a packet");
    let fields = (packet.hops(), packet.protocol(), packet.has_others());
    same(&rt, "fields", fields, (64, 17, false));
    same(&rt, "source", packet.source(), [10, 0, 0, 1]);
    same(&rt, "destination", packet.destination(), [10, 0, 0, 2]);
    same(&rt, "payload", packet.payload().len(), 8);
    let found = packet.label_option();
    same(&rt, "label option", found, Some((20, &option[..])));
    let mut out = Vec::new(rt.alloc());
    let done = rebuild4(&packet, Some(&option), 64, &mut out);
    same(&rt, "labelled", done, Ok(()));
    same(&rt, "labelled", out.as_slice(), bytes.as_slice());
    same(&rt, "bare", rebuild4(&packet, None, 64, &mut out), Ok(()));
    let bare = "4500001c00000000401166cf0a0000010a00000203e8003500080000";
    are_octets(&rt, rt.alloc(), "bare", &out, bare);
}

#[test]
fn a_plain_packet_of_version_4(rt: HostRuntime) {
    let bytes = octets(&rt, rt.alloc(), PLAIN_4);
    let packet = front4(&bytes).expect(&rt, "a packet");
    let fields = (packet.tos(), packet.id(), packet.flags_offset());
    same(&rt, "fields", fields, (0, 0, 0x4000));
    same(&rt, "label option", packet.label_option(), None);
    let mut out = Vec::new(rt.alloc());
    let done = rebuild4(&packet, Some(&cipso()), 64, &mut out);
    same(&rt, "labelled", done, Ok(()));
    are_octets(&rt, rt.alloc(), "labelled", &out, BITMAP_16);
}

/// Ends the test unless a packet has these options of type 130: the first with its octet, and the octet of the second.
fn has_options(rt: &impl Abort, name: &str, bytes: &[u8], wanted: ((usize, &[u8]), usize)) {
    let packet = front4(bytes).expect(rt, "a packet");
    let (first, second) = packet.others(130);
    let found = (first.unwrap_or((0, &[])), second.unwrap_or(0));
    same(rt, name, found, wanted);
}

#[test]
fn options_of_one_type(rt: HostRuntime) {
    for &(name, text, at, option, behind) in SOUGHT {
        let bytes = octets(&rt, rt.alloc(), text);
        let option = octets(&rt, rt.alloc(), option);
        has_options(&rt, name, &bytes, ((at, &option), behind));
    }
}

/// Whether an option may be written.
fn is_whole(option: &[u8]) -> bool
    ensures { IsTrue result → IsWholeOption option.now }
{
    match option {
        [_, size, ..] => option.len() <= 40 && usize::from(*size) == option.len(),
        _ => false,
    }
}

/// Writes a packet into `out` with an option in place of those of type 130.
fn swap(
    rt: &impl Abort,
    name: &str,
    bytes: &[u8],
    option: &[u8],
    out: &mut Vec<u8>,
) -> Result<(), Rebuild> {
    let packet = read4(bytes).expect(rt, "a packet");
    assert!(rt; is_whole(option), "{name}");
    rebuild_swap4(&packet, 130, option, out)
}

#[test]
fn another_option_in_place_of_those_of_one_type(rt: HostRuntime) {
    for &(name, text, option, swapped) in SWAPPED {
        let bytes = octets(&rt, rt.alloc(), text);
        let option = octets(&rt, rt.alloc(), option);
        let mut out = Vec::new(rt.alloc());
        let found = swap(&rt, name, &bytes, &option, &mut out);
        same(&rt, name, found, Ok(()));
        are_octets(&rt, rt.alloc(), name, &out, swapped);
    }
}

#[test]
fn no_room_for_another_option(rt: HostRuntime) {
    for &(name, text, option) in NO_ROOM {
        let bytes = octets(&rt, rt.alloc(), text);
        let option = octets(&rt, rt.alloc(), option);
        let mut out = octets(&rt, rt.alloc(), "00");
        let found = swap(&rt, name, &bytes, &option, &mut out);
        same(&rt, name, found, Err(Rebuild::NoRoom));
        same(&rt, name, out.len(), 0);
    }
}

#[test]
fn a_router_alert_keeps_its_place(rt: HostRuntime) {
    let bytes = octets(&rt, rt.alloc(), ALERT_6);
    let packet = read6(&bytes).expect(&rt, "a packet");
    let fields = (packet.class(), packet.flow_label(), packet.hops());
    same(&rt, "fields", fields, (0, 0, 64));
    same(&rt, "protocol", packet.protocol(), 17);
    let last = (packet.source()[15], packet.destination()[15]);
    same(&rt, "addresses", last, (1, 2));
    same(&rt, "others", packet.has_others(), true);
    same(&rt, "label option", packet.label_option(), None);
    same(&rt, "payload", packet.payload().len(), 8);
    let mut out = Vec::new(rt.alloc());
    let done = rebuild6(&packet, Some(&calipso()), 64, &mut out);
    same(&rt, "labelled", done, Ok(()));
    let labelled =
        "6000000000200040fd000000000000000000000000000001fd00000000000000000000000000000211020708000000100002bfd901040000000005020000010003e8003500080000";
    are_octets(&rt, rt.alloc(), "labelled", &out, labelled);
    same(&rt, "bare", rebuild6(&packet, None, 64, &mut out), Ok(()));
    same(&rt, "bare", out.as_slice(), bytes.as_slice());
}

#[test]
fn a_packet_of_version_4_by_its_fields(rt: HostRuntime) {
    let fields = Fields4 {
        tos: 0,
        id: 0,
        flags_offset: 0x4000,
        hops: 64,
        protocol: 17,
        source: [10, 0, 0, 1],
        destination: [10, 0, 0, 2],
    };
    let mut out = Vec::new(rt.alloc());
    let done = write4(&fields, Some(&cipso()), &PAYLOAD, &mut out);
    same(&rt, "done", done, Ok(()));
    are_octets(&rt, rt.alloc(), "written", &out, BITMAP_16);
}

#[test]
fn a_packet_of_version_6_by_its_fields(rt: HostRuntime) {
    let fields = Fields6 {
        class: 0x12,
        flow_label: 0x34567,
        hops: 63,
        protocol: 17,
        source: [0xfd, 0, 0, 0, 0, 0, 0, 0, 0, 0, 0, 0, 0, 0, 0, 1],
        destination: [0xfd, 0, 0, 0, 0, 0, 0, 0, 0, 0, 0, 0, 0, 0, 0, 2],
    };
    let mut out = Vec::new(rt.alloc());
    let done = write6(&fields, Some(&calipso()), &PAYLOAD, &mut out);
    same(&rt, "done", done, Ok(()));
    let written =
        "612345670018003ffd000000000000000000000000000001fd00000000000000000000000000000211010708000000100002bfd90102000003e800350008e7be";
    are_octets(&rt, rt.alloc(), "written", &out, written);
}

// The worked sum of RFC 1071, section 3, and a last octet with no partner.
#[test]
fn sums_of_words(rt: HostRuntime) {
    let cases: [(&[u8], u16); 7] = [
        (&[0x00, 0x01, 0xf2, 0x03, 0xf4, 0xf5, 0xf6, 0xf7], 0xddf2),
        (&[0x12], 0x1200),
        (&[0x12, 0x34, 0x56], 0x6834),
        (&[0xff, 0xff, 0, 1, 0xff, 0xff], 1),
        (&[0xff; 7], 0xff00),
        (&[0xff; 8], 0xffff),
        (&[], 0),
    ];
    for (octets, sum) in cases {
        same(&rt, octets, ones_sum(octets), sum);
    }
    same(&rt, "with a carry", ones_add(0xffff, 1), 1);
}
