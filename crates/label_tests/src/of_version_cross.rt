// Worked values: packets made by hand from RFC 791, RFC 8200, RFC 793 and RFC 768, their checksums once anew by RFC 1071 and
// once by RFC 1624.

ghost use Rattle.ip_headers.specs.declared.version.Version.TheVariants.{V4, V6};
ghost use Rattle.ip_headers.specs.Written.{IsLabelOption};

use crate::checks::{are_octets, octets, same};
use ip_headers::{Fields4, Fields6, read4, read6, write4, write6};
use std::alloc::Global;
use std::process::Abort;
use version_cross::*;
use worked_values::packets::{BITMAP_8, CALIPSO_9, LIST_10, PLAIN_4};

const SOURCE4: [u8; 4] = [10, 0, 0, 1];

const DESTINATION4: [u8; 4] = [10, 0, 0, 2];

const SOURCE6: [u8; 16] = [0xfd, 0, 0, 0, 0, 0, 0, 0, 0, 0, 0, 0, 0, 0, 0, 1];

const DESTINATION6: [u8; 16] = [0xfd, 0, 0, 0, 0, 0, 0, 0, 0, 0, 0, 0, 0, 0, 0, 2];

/// A name, the packet of version 4, and what it is in version 6.
const TO_SIX: &[(&str, &str, &str)] = &[
    ("UDP", BITMAP_8, CALIPSO_9),
    (
        "TCP, one octet of data, a type of service",
        "482e003512344000090671440a0000010a000002860b00000008010500025000c0000050000000010000000050022000618d00005a",
        "62e0000000250008fd000000000000000000000000000001fd0000000000000000000000000000020601070c00000009010214b350000000c00000500000000100000000500220007b8b00005a",
    ),
    (
        "UDP, three octets of data, no label before",
        "45b8001fffff00000211a4140a0000010a00000203e80035000b2356616263",
        "6b800000001b0001fd000000000000000000000000000001fd0000000000000000000000000000021101070c00000009010214b35000000003e80035000b3d54616263",
    ),
    (
        "UDP, its last octet damaged",
        "4800002b0000400040114ca50a0000010a000002860b0000000801050002500003e80035000b2356616264",
        "60000000001b003ffd000000000000000000000000000001fd0000000000000000000000000000021101070c00000009010214b35000000003e80035000b3d54616264",
    ),
    (
        "UDP, a new checksum of 0",
        "4800002a0000400040114ca60a0000010a000002860b0000000801050002500003e80035000ae60101b9",
        "60000000001a003ffd000000000000000000000000000001fd0000000000000000000000000000021101070c00000009010214b35000000003e80035000affff01b9",
    ),
    (
        "TCP, a new checksum of 0",
        "480000360000400040064ca50a0000010a000002860b00000008010500025000c0000050000000010000000050022000e6010000d58a",
        "600000000026003ffd000000000000000000000000000001fd0000000000000000000000000000020601070c00000009010214b350000000c000005000000001000000005002200000000000d58a",
    ),
    (
        "TCP, an old checksum of all ones",
        "480000360000400040064ca50a0000010a000002860b00000008010500025000c0000050000000010000000050022000ffff0000bb8c",
        "600000000026003ffd000000000000000000000000000001fd0000000000000000000000000000020601070c00000009010214b350000000c000005000000001000000005002200019fe0000bb8c",
    ),
];

/// A name, the packet of version 6, and what it is in version 4.
const TO_FOUR: &[(&str, &str, &str)] = &[
    (
        "UDP, its last octet damaged",
        "600000000018003ffd000000000000000000000000000001fd0000000000000000000000000000021101070c00000009010214b35000000003e80035000801be",
        "48000028000040003e114ea80a0000010a000002860b0000000801050002500003e800350008e7bf",
    ),
    (
        "TCP, one octet of data, class and flow label, no label before",
        "62e3456700150609fd000000000000000000000000000001fd000000000000000000000000000002c00000500000000100000000500220007b8b00005a",
        "482e003500004000080684780a0000010a000002860b00000008010500025000c0000050000000010000000050022000618d00005a",
    ),
    (
        "UDP, a new checksum of 0",
        "6fffffff001a00fffd000000000000000000000000000001fd0000000000000000000000000000021101070c00000009010214b35000000003e80035000a19fee7ba",
        "48ff002a00004000fe118da60a0000010a000002860b0000000801050002500003e80035000affffe7ba",
    ),
];

const CAUSES4: &[(&str, &str, Option<Cause>)] = &[
    ("UDP without options", PLAIN_4, None),
    (
        "the reserved flag",
        "4500001c000080004011e6ce0a0000010a00000203e800350008e7be",
        None,
    ),
    (
        "TCP, a checksum of 0",
        "4500002800000000400666ce0a0000010a000002c000005000000001000000005002200000000000",
        None,
    ),
    (
        "padding before the label",
        "4800002800000000401147ec0a0000010a00000201860b00000008010500025003e800350008e7be",
        None,
    ),
    (
        "ICMP",
        "4500001c00000000400166df0a0000010a0000020800f7ff00000000",
        Some(Cause::Protocol),
    ),
    (
        "protocol 0",
        "4500001c00000000400066e00a0000010a00000203e800350008e7be",
        Some(Cause::Protocol),
    ),
    (
        "a fragment of ICMP",
        "4500001c00002000400146df0a0000010a0000020800f7ff00000000",
        Some(Cause::Protocol),
    ),
    (
        "more fragments follow",
        "4500001c00002000401146cf0a0000010a00000203e800350008e7be",
        Some(Cause::Fragment),
    ),
    (
        "the offset 1",
        "4500001c00000001401166ce0a0000010a00000203e800350008e7be",
        Some(Cause::Fragment),
    ),
    (
        "the last offset, not to be fragmented",
        "4500001c00005fff401106d00a0000010a00000203e800350008e7be",
        Some(Cause::Fragment),
    ),
    (
        "a fragment with a Router Alert",
        "46000020000020004011b1c60a0000010a0000029404000003e800350008e7be",
        Some(Cause::Fragment),
    ),
    (
        "a Router Alert behind the label",
        "4900002c000040004011b79e0a0000010a000002860b000000080105000250019404000003e800350008e7be",
        Some(Cause::Options),
    ),
    (
        "a Router Alert before seven octets",
        "4600001f00004000401191c70a0000010a0000029404000003e800350008e7",
        Some(Cause::Options),
    ),
    (
        "TCP, 19 octets",
        "4500002700004000400626cf0a0000010a000002c0000050000000010000000050022000000000",
        Some(Cause::Segment),
    ),
    (
        "UDP, seven octets, a checksum of 0",
        "4500001b00004000401126d00a0000010a00000203e80035000800",
        Some(Cause::Segment),
    ),
    (
        "TCP, no octet",
        "4500001400004000400626e20a0000010a000002",
        Some(Cause::Segment),
    ),
    (
        "UDP, a checksum of 0",
        "480000280000400040114ca80a0000010a000002860b0000000801050002500003e8003500080000",
        Some(Cause::NoChecksum),
    ),
];

const CAUSES6: &[(&str, &str, Option<Cause>)] = &[
    (
        "UDP",
        "6000000000180040fd000000000000000000000000000001fd0000000000000000000000000000021101070c00000009010214b35000000003e80035000801bd",
        None,
    ),
    (
        "TCP without options, a checksum of 0",
        "6000000000140640fd000000000000000000000000000001fd000000000000000000000000000002c000005000000001000000005002200000000000",
        None,
    ),
    (
        "padding alone",
        "6000000000100040fd000000000000000000000000000001fd000000000000000000000000000002110001040000000003e80035000801bd",
        None,
    ),
    (
        "ICMPv6",
        "6000000000180040fd000000000000000000000000000001fd0000000000000000000000000000023a01070c00000009010214b35000000003e80035000801bd",
        Some(Cause::Protocol),
    ),
    (
        "a Fragment header",
        "6000000000102c40fd000000000000000000000000000001fd000000000000000000000000000002110000010000000103e80035000801bd",
        Some(Cause::Protocol),
    ),
    (
        "ICMPv6 behind a Router Alert",
        "6000000000100040fd000000000000000000000000000001fd0000000000000000000000000000023a0005020000010003e80035000801bd",
        Some(Cause::Protocol),
    ),
    (
        "a Router Alert",
        "6000000000100040fd000000000000000000000000000001fd000000000000000000000000000002110005020000010003e80035000801bd",
        Some(Cause::Options),
    ),
    (
        "a Router Alert before seven octets",
        "60000000000f0040fd000000000000000000000000000001fd000000000000000000000000000002110005020000010003e80035000801",
        Some(Cause::Options),
    ),
    (
        "TCP, 19 octets",
        "6000000000230040fd000000000000000000000000000001fd0000000000000000000000000000020601070c00000009010214b350000000c0000050000000010000000050022000000000",
        Some(Cause::Segment),
    ),
    (
        "UDP, seven octets",
        "6000000000071140fd000000000000000000000000000001fd00000000000000000000000000000203e80035000801",
        Some(Cause::Segment),
    ),
    (
        "UDP, a checksum of 0",
        "6000000000180040fd000000000000000000000000000001fd0000000000000000000000000000021101070c00000009010214b35000000003e8003500080000",
        Some(Cause::NoChecksum),
    ),
];

/// DOI 9, level 2, categories 1 and 3.
fn calipso() -> [u8; 14]
    ensures { IsLabelOption V6 result }
{
    [7, 12, 0, 0, 0, 9, 1, 2, 0x14, 0xb3, 0x50, 0, 0, 0]
}

/// DOI 8, tag 1, level 2, categories 1 and 3.
fn cipso() -> [u8; 11]
    ensures { IsLabelOption V4 result }
{
    [134, 11, 0, 0, 0, 8, 1, 5, 0, 2, 80]
}

/// DOI 10, tag 2, level 12, categories 4 and 5.
fn listed() -> [u8; 14]
    ensures { IsLabelOption V4 result }
{
    [134, 14, 0, 0, 0, 10, 2, 8, 0, 12, 0, 4, 0, 5]
}

/// Writes into `out` what a packet of version 4 is in version 6, one hop on.
fn cross4(rt: &impl Abort, name: &str, bytes: &[u8], out: &mut Vec<u8>) {
    let view = read4(bytes).expect(rt, "a packet");
    assert_eq!(rt; crossable4(&view), None, "{name}");
    let hops = view.hops().saturating_sub(1);
    let done = cross4to6(&view, SOURCE6, DESTINATION6, &calipso(), hops, out);
    same(rt, name, done, Ok(()));
}

/// Writes into `out` what a packet of version 6 is in version 4, one hop on.
fn cross6(rt: &impl Abort, name: &str, bytes: &[u8], out: &mut Vec<u8>) {
    let view = read6(bytes).expect(rt, "a packet");
    assert_eq!(rt; crossable6(&view), None, "{name}");
    let hops = view.hops().saturating_sub(1);
    let done = cross6to4(&view, SOURCE4, DESTINATION4, &cipso(), hops, out);
    same(rt, name, done, Ok(()));
}

#[test]
fn packets_of_version_4_cross(rt: HostRuntime) {
    let mut out = Vec::new(rt.alloc());
    for (name, from, to) in TO_SIX {
        cross4(&rt, name, &octets(&rt, rt.alloc(), from), &mut out);
        are_octets(&rt, rt.alloc(), name, &out, to);
    }
}

#[test]
fn packets_of_version_6_cross(rt: HostRuntime) {
    let mut out = Vec::new(rt.alloc());
    for (name, from, to) in TO_FOUR {
        cross6(&rt, name, &octets(&rt, rt.alloc(), from), &mut out);
        are_octets(&rt, rt.alloc(), name, &out, to);
    }
}

#[test]
fn a_packet_crosses_and_comes_back(rt: HostRuntime) {
    let mut half = Vec::new(rt.alloc());
    cross4(&rt, "there", &octets(&rt, rt.alloc(), BITMAP_8), &mut half);
    let view = read6(&half).expect(&rt, "a packet");
    same(&rt, "hops", view.hops(), 63);
    assert_eq!(rt; crossable6(&view), None);
    let mut far = Vec::new(rt.alloc());
    let done = cross6to4(&view, SOURCE4, DESTINATION4, &listed(), 62, &mut far);
    same(&rt, "back", done, Ok(()));
    are_octets(&rt, rt.alloc(), "back", &far, LIST_10);
}

fn has_cause4(rt: &impl Abort, name: &str, bytes: &[u8], cause: Option<Cause>) {
    let view = read4(bytes).expect(rt, "a packet");
    same(rt, name, crossable4(&view), cause);
}

fn has_cause6(rt: &impl Abort, name: &str, bytes: &[u8], cause: Option<Cause>) {
    let view = read6(bytes).expect(rt, "a packet");
    same(rt, name, crossable6(&view), cause);
}

#[test]
fn first_causes_of_version_4(rt: HostRuntime) {
    for &(name, text, cause) in CAUSES4 {
        has_cause4(&rt, name, &octets(&rt, rt.alloc(), text), cause);
    }
}

#[test]
fn first_causes_of_version_6(rt: HostRuntime) {
    for &(name, text, cause) in CAUSES6 {
        has_cause6(&rt, name, &octets(&rt, rt.alloc(), text), cause);
    }
}

fn zeros(rt: &impl Abort, alloc: Global, size: usize) -> Vec<u8> {
    vec![in alloc; 0u8; size].expect(rt, "memory")
}

/// The longest CALIPSO option, of 254 octets.
fn longest() -> [u8; 254]
    ensures { IsLabelOption V6 result }
{
    let mut option = [0; 254];
    option[0] = 7;
    option[1] = 252;
    option
}

/// A packet of TCP of version 4 with so many octets.
fn packet4(rt: &impl Abort, alloc: Global, size: usize) -> Vec<u8> {
    let fields = Fields4 {
        tos: 0,
        id: 0,
        flags_offset: 0,
        hops: 64,
        protocol: 6,
        source: SOURCE4,
        destination: DESTINATION4,
    };
    let payload = zeros(rt, alloc, size);
    let mut packet = Vec::new(alloc);
    let found = write4(&fields, None, &payload, &mut packet);
    same(rt, size, found, Ok(()));
    packet
}

/// A packet of TCP of version 6 with so many octets.
fn packet6(rt: &impl Abort, alloc: Global, size: usize) -> Vec<u8> {
    let fields = Fields6 {
        class: 0,
        flow_label: 0,
        hops: 64,
        protocol: 6,
        source: SOURCE6,
        destination: DESTINATION6,
    };
    let payload = zeros(rt, alloc, size);
    let mut packet = Vec::new(alloc);
    let found = write6(&fields, None, &payload, &mut packet);
    same(rt, size, found, Ok(()));
    packet
}

/// An answer, and how many octets are written then.
type Answer = (Result<(), CrossFault>, usize);

fn cross_longest4(rt: &impl Abort, packet: &[u8], out: &mut Vec<u8>, wanted: Answer) {
    let view = read4(packet).expect(rt, "a packet");
    assert_eq!(rt; crossable4(&view), None);
    let done = cross4to6(&view, SOURCE6, DESTINATION6, &longest(), 63, out);
    same(rt, packet.len(), (done, out.len()), wanted);
}

fn cross_longest6(rt: &impl Abort, packet: &[u8], out: &mut Vec<u8>, wanted: Answer) {
    let view = read6(packet).expect(rt, "a packet");
    assert_eq!(rt; crossable6(&view), None);
    let done = cross6to4(&view, SOURCE4, DESTINATION4, &cipso(), 63, out);
    same(rt, packet.len(), (done, out.len()), wanted);
}

// A Hop-by-Hop header of 256 octets, and 65,279 of TCP behind it; one octet more doesn't go, and what was written goes.
#[test]
fn longest_packets_of_version_6(rt: HostRuntime) {
    let mut out = Vec::new(rt.alloc());
    let packet = packet4(&rt, rt.alloc(), 65279);
    cross_longest4(&rt, &packet, &mut out, (Ok(()), 65575));
    let packet = packet4(&rt, rt.alloc(), 65280);
    cross_longest4(&rt, &packet, &mut out, (Err(CrossFault::TooLong), 0));
}

// A header of 32 octets, and 65,503 of TCP behind it; one octet more doesn't go, and what was written goes.
#[test]
fn longest_packets_of_version_4(rt: HostRuntime) {
    let mut out = Vec::new(rt.alloc());
    let packet = packet6(&rt, rt.alloc(), 65503);
    cross_longest6(&rt, &packet, &mut out, (Ok(()), 65535));
    let packet = packet6(&rt, rt.alloc(), 65504);
    cross_longest6(&rt, &packet, &mut out, (Err(CrossFault::TooLong), 0));
}
