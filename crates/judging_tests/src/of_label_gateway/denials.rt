//! Packets that are denied.

use super::cases::{forward_case, line_of};
use crate::checks::same;
use std::alloc::Global;
use std::process::Abort;

/// Cases in which the fourth line is why the packet is denied.
const DENIALS: &str = "a category without a pair
few_pairs eth0 eth1 any
480000280000000040118ca00a0000010a000002860b0000001001050002500003e8003500080000
Some(Denied(Inexpressible))

the last hop
few_pairs eth0 eth1 any
48000028000000000111cba00a0000010a000002860b0000001001050002500003e8003500080000
Some(Denied(Expired))

no checksum of UDP
two_dois eth0 eth1 any
480000280000000040118ca00a0000010a000002860b0000001001050002500003e8003500080000
Some(Denied(NotCrossable { cause: NoChecksum }))

ICMPv6
into_four eth0 eth1 any
600000000018003ffd000000000000000000000000000001fd0000000000000000000000000000023a01070c00000009010214b35000000003e80035000801bd
Some(Denied(NotCrossable { cause: Protocol }))

a header checksum
crossroads eth0 eth1 two_t
480000280000400040114da00a0000010a000002860b0000001001050002500003e800350008e7be
Some(Denied(BadHeader { octet: 10 }))

no version
crossroads eth0 eth1 two_t
54
Some(Denied(BadHeader { octet: 0 }))

a tag type
crossroads eth0 eth1 two_t
480000280000400040114aa00a0000010a000002860b0000001003050002500003e800350008e7be
Some(Denied(BadOption { octet: 26 }))

a second label
crossroads eth0 eth1 two_t
4900002c00004000401149160a0000010a000002860b000000100105000250860200000003e800350008e7be
Some(Denied(BadOption { octet: 31 }))

a checksum of CALIPSO
crossroads eth0 eth1 six_t
6000000000180040fd000000000000000000000000000001fd0000000000000000000000000000021101070c00000009010215b35000000003e80035000801bd
Some(Denied(BadOption { octet: 50 }))

no label, none accepted
few_pairs eth0 eth1 any
4500001c00004000401126cf0a0000010a00000203e800350008e7be
Some(Denied(Unlabelled))

no label for the source
crossroads eth0 eth1 one_t
4500001c00004000401126cd0a0000030a00000203e800350008e7be
Some(Denied(NoStatic))

no label for the interface
crossroads eth2 eth1 one_t
4500001c00004000401126cf0a0000010a00000203e800350008e7be
Some(Denied(NoStatic))

another DOI
crossroads eth0 eth1 two_t
480000280000400040114c9c0a0000010a000002860b0000001401050002500003e800350008e7be
Some(Denied(UnknownDoi { octet: 22 }))

CIPSO's DOI in CALIPSO
crossroads eth0 eth1 six_t
6000000000180040fd000000000000000000000000000001fd0000000000000000000000000000021101070c000000100102b77e5000000003e80035000801bd
Some(Denied(UnknownDoi { octet: 44 }))

another tag behind a NOP
crossroads eth0 eth1 two_t
4900002c000040004011f5360a0000010a00000201860e0000001002080002000100030003e800350008e7be
Some(Denied(TagNotAllowed { octet: 27 }))

a level without a pair
crossroads eth0 eth1 one_t
4800002800004000401192a90a0000010a000002860b00000003010500060a0003e800350008e7be
Some(Denied(LevelUnmapped))

categories without pairs
crossroads eth0 eth1 one_t
4800002800004000401192660a0000010a000002860c00000003010600070a4003e800350008e7be
Some(Denied(CategoryUnmapped { category: 6 }))

above the incoming range, no hop left
crossroads low0 eth1 one_t
480000280000400000118ca00a0000010a000002860b0000001001050002500003e800350008e7be
Some(Denied(OutsideRange))

the low label below the incoming range
crossroads high0 eth1 one_t
4500001c00004000401126cc0a0000040a00000203e800350008e7be
Some(Denied(OutsideRange))

one hop left, above the outgoing range
crossroads eth0 low0 one_t
480000280000400001118ba00a0000010a000002860b0000001001050002500003e800350008e7be
Some(Denied(Expired))

no hop left
crossroads eth0 eth1 one_t
480000280000400000118ca00a0000010a000002860b0000001001050002500003e800350008e7be
Some(Denied(Expired))

one hop left in IPv6, no map
crossroads eth0 eth1 absent_t
6000000000180001fd000000000000000000000000000001fd0000000000000000000000000000021101070c00000009010214b35000000003e80035000801bd
Some(Denied(Expired))

above the outgoing range, no map
crossroads eth0 low0 absent_t
480000280000400040114ca00a0000010a000002860b0000001001050002500003e800350008e7be
Some(Denied(OutsideRange))

the low label below the outgoing range
crossroads eth0 high0 one_t
4500001c00004000401126cc0a0000040a00000203e800350008e7be
Some(Denied(OutsideRange))

no map for the domain
crossroads eth0 eth1 absent_t
480000280000400040114ca00a0000010a000002860b0000001001050002500003e800350008e7be
Some(Denied(NoMap))

no map for the destination, though one for the source
crossroads eth0 eth1 part_t
480000280000400040114ca00a0000010a000002860b0000001001050002500003e800350008e7be
Some(Denied(NoMap))

no partner of the source
crossroads eth0 eth1 six_t
480000280000400040014cae0a0000030a000002860b0000001001050002500003e800350008e7be
Some(Denied(NoPair))

no partner of the destination
crossroads eth0 eth1 six_t
480000280000400040114c9f0a0000010a000003860b0000001001050002500003e800350008e7be
Some(Denied(NoPair))

no partner of the source in IPv6
crossroads eth0 eth1 one_t
6000000000180040fd000000000000000000000000000003fd0000000000000000000000000000021101070c00000009010214b35000000003e80035000801bd
Some(Denied(NoPair))

no partner of the destination in IPv6
crossroads eth0 eth1 one_t
6000000000180040fd000000000000000000000000000001fd0000000000000000000000000000031101070c00000009010214b35000000003e80035000801bd
Some(Denied(NoPair))

a fragment
crossroads eth0 eth1 six_t
480000280000200040116ca00a0000010a000002860b0000001001050002500003e800350008e7be
Some(Denied(NotCrossable { cause: Fragment }))

a Router Alert, out of bounds
crossroads eth0 eth1 one_t
6000000000400040fd000000000000000000000000000001fd00000000000000000000000000000211060728000000090802317d800000000000000000000000000000000000000000000000000000000000800001040000000005020000010003e80035000801bd
Some(Denied(NotCrossable { cause: Options }))

seven octets
crossroads eth0 eth1 six_t
480000270000400040114ca10a0000010a000002860b0000001001050002500003e800350008e7
Some(Denied(NotCrossable { cause: Segment }))

a category past the bitmap
crossroads eth0 eth1 one_t
480000280000400040119aad0a0000010a000002860c000000110206000200f003e800350008e7be
Some(Denied(Inexpressible))

16 categories
crossroads eth0 eth1 two_t
480000280000400040119c9e0a0000010a000002860c0000001001060002ffff03e800350008e7be
Some(Denied(Inexpressible))

eight runs
crossroads eth0 eth1 five_t
48000028000040004011f1f30a0000010a000002860c0000001001060002aaaa03e800350008e7be
Some(Denied(Inexpressible))

a level without a pair outside
crossroads eth0 eth1 three_t
480000280000400040114c9f0a0000010a000002860b0000001001050003500003e800350008e7be
Some(Denied(Inexpressible))

a category past CALIPSO
crossroads eth0 eth1 six_t
4900002c00004000401188540a0000010a000002860e000000120508000207a007a0000003e800350008e7be
Some(Denied(Inexpressible))

out of bounds when it crosses
crossroads eth0 eth1 one_t
6000000000380040fd000000000000000000000000000001fd00000000000000000000000000000211050728000000090802ab1f00000000000000000000000000000000000000000000000000000000000080000102000003e80035000801bd
Some(Denied(Inexpressible))

one octet past the room of IPv4
crossroads eth0 eth1 two_t
4f000044000040004011edfe0a0000010a000002860b000000100105000250441b05050505050505050505050505050505050505050505050505000003e800350008e7be
Some(Denied(NoRoom))

out of bounds, one octet past the room
crossroads eth0 eth1 two_t
4f000044000040004011102b0a0000010a000002860c0000001001060002ffff441b050505050505050505050505050505050505050505050505050003e800350008e7be
Some(Denied(Inexpressible))";

fn denies(rt: &impl Abort, alloc: Global, case: &str, out: &mut Vec<u8>) {
    out.push(1).expect(rt, "memory");
    let stop = forward_case(rt, alloc, case, out).err();
    let stop = format!(in alloc; "{stop:?}").expect(rt, "memory");
    same(rt, case, stop.as_str(), line_of(rt, case, 3));
    assert!(rt; out.is_empty(), "{case}");
}

#[test]
fn the_first_reason_denies(rt: HostRuntime) {
    let mut out = Vec::new(rt.alloc());
    for case in DENIALS.split("\n\n") {
        denies(&rt, rt.alloc(), case, &mut out);
    }
}
