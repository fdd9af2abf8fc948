//! Packets at the bounds of their lengths.

use super::name;
use super::nodes::{CROSSROADS, node};
use crate::checks::same;
use label_gateway::{Room, forward_into};
use node_tables::Network;
use packet_label::{Denial, Stop};
use std::alloc::Global;
use std::process::Abort;
use worked_values::{append_octets, octets_of};

/// A domain, and a packet: its head, so many times a part, and what stands behind; then why it is denied, if it is, and how
/// many octets it has when it went on.
type Grown = (
    &'static str,
    [&'static str; 3],
    usize,
    Option<Denial>,
    usize,
);

const LENGTHS: &[Grown] = &[
    // IPv4, 65523 octets
    (
        "one_t",
        ["4500fff300004000400627020a0000010a000002", "00", ""],
        65503,
        None,
        65535,
    ),
    // IPv4, 65524 octets
    (
        "one_t",
        ["4500fff400004000400627010a0000010a000002", "00", ""],
        65504,
        Some(Denial::TooLong),
        0,
    ),
    // IPv4, the longest without its label
    (
        "none_t",
        ["4500ffff00004000400626f60a0000010a000002", "00", ""],
        65515,
        None,
        65535,
    ),
    // IPv4, too long and out of bounds
    (
        "one_t",
        ["4500ffff00004000400626f20a0000050a000002", "00", ""],
        65515,
        Some(Denial::Inexpressible),
        0,
    ),
    // IPv4, too long and no room
    (
        "one_t",
        [
            "4f00ffff000040004006796e0a0000010a00000244280505050505050505050505050505050505050505050505050505050505050505050505050505",
            "00",
            "",
        ],
        65475,
        Some(Denial::NoRoom),
        0,
    ),
    // IPv6, a payload of 65519 octets
    (
        "six_t",
        [
            "60000000ffef0640fd000000000000000000000000000001fd000000000000000000000000000002",
            "00",
            "",
        ],
        65519,
        None,
        65575,
    ),
    // IPv6, a payload of 65520 octets
    (
        "six_t",
        [
            "60000000fff00640fd000000000000000000000000000001fd000000000000000000000000000002",
            "00",
            "",
        ],
        65520,
        Some(Denial::TooLong),
        0,
    ),
    // IPv4 to IPv6, 65479 octets of TCP
    (
        "six_t",
        ["4500ffdb00004000400627160a0000050a000002", "00", ""],
        65479,
        None,
        65575,
    ),
    // IPv4 to IPv6, 65480 octets of TCP
    (
        "six_t",
        ["4500ffdc00004000400627150a0000050a000002", "00", ""],
        65480,
        Some(Denial::TooLong),
        0,
    ),
    // IPv6 to IPv4, 65503 octets of TCP
    (
        "one_t",
        [
            "60000000ffdf0640fd000000000000000000000000000001fd000000000000000000000000000002",
            "00",
            "",
        ],
        65503,
        None,
        65535,
    ),
    // IPv6 to IPv4, 65504 octets of TCP
    (
        "one_t",
        [
            "60000000ffe00640fd000000000000000000000000000001fd000000000000000000000000000002",
            "00",
            "",
        ],
        65504,
        Some(Denial::TooLong),
        0,
    ),
    // IPv6, 253 options
    (
        "six_t",
        [
            "6000000007f80040fd000000000000000000000000000001fd00000000000000000000000000000211fd",
            "1e06000000000000",
            "00000000000003e80035000801bd",
        ],
        253,
        None,
        2096,
    ),
    // IPv6, 254 options
    (
        "six_t",
        [
            "6000000008000040fd000000000000000000000000000001fd00000000000000000000000000000211fe",
            "1e06000000000000",
            "00000000000003e80035000801bd",
        ],
        254,
        Some(Denial::NoRoom),
        0,
    ),
];

fn grown(rt: &impl Abort, alloc: Global, [head, part, tail]: [&str; 3], times: usize) -> Vec<u8> {
    let mut packet = octets_of(alloc, head).expect(rt, "memory");
    for _ in 0..times {
        append_octets(part, &mut packet).expect(rt, "memory");
    }
    append_octets(tail, &mut packet).expect(rt, "memory");
    packet
}

fn is_at_bound(
    rt: &impl Abort,
    alloc: Global,
    network: &Network,
    room: &mut Room,
    out: &mut Vec<u8>,
    (domain, parts, times, denial, length): Grown,
) {
    assert!(rt; network.nodes() == 1);
    let packet = grown(rt, alloc, parts, times);
    let (from, to) = (name(rt, "eth0"), name(rt, "eth1"));
    let domain = name(rt, domain);
    let got = forward_into(network.node(0), &from, &to, &domain, &packet, room, out);
    same(rt, (parts, times), got.err(), denial.map(Stop::Denied));
    same(rt, (parts, times), out.len(), length);
}

#[test]
fn lengths_at_their_bounds(rt: HostRuntime) {
    let network = node(&rt, rt.alloc(), CROSSROADS);
    let mut room = Room::lowest();
    let mut out = Vec::new(rt.alloc());
    for case in LENGTHS {
        is_at_bound(&rt, rt.alloc(), &network, &mut room, &mut out, *case);
    }
}
