use crate::checks::same;
use doi_table::Proto;
use label_receive::Room;
use packet_label::{Denial, Stop};
use ripso_border::*;
use std::alloc::Global;
use std::process::Abort;
use worked_networks::node_after;
use worked_values::octets_of;

/// Level 3 has a remote number that is no class, category 5 one that is no flag, and no tag of type 1 can say category 300.
const DOI: &str =
    "cipsov4 add trans doi:16 tags:1 levels:0=171,2=90,3=7 categories:1=0,2=6,3=7,4=27,5=28,300=5";

/// A packet, what is answered, and what is written: all in hexadecimal digits.
type Case = (&'static str, Result<(), Stop>, &'static str);

const COME_IN: &[Case] = &[
    // What was worked by hand.
    (
        "4600002000000000401189460a0000010a00000282045a8003e8003500080000",
        Ok(()),
        "480000280000000040119ca00a0000010a000002860b0000001001050002400003e8003500080000",
    ),
    // Flags 0, 6, 7 and 27, between other options, which stay.
    (
        "4a000030000000004011ce190a0000010a0000029404000082075a838101029906aabbccdd00000003e8003500080000",
        Ok(()),
        "4b000034000000004011bcef0a0000010a000002860b000000100105000278940400009906aabbccdd00000003e8003500080000",
    ),
    // Octets without flags.
    (
        "47000024000000004011873d0a0000010a00000282075a810101000003e8003500080000",
        Ok(()),
        "480000280000000040119ca00a0000010a000002860b0000001001050002400003e8003500080000",
    ),
    // No flags, behind a No Operation.
    (
        "46000020000000004011609e0a0000010a000002018203ab03e8003500080000",
        Ok(()),
        "48000028000000004011dca40a0000010a000002860a0000001001040000000003e8003500080000",
    ),
    (
        "4600002000000000401189470a0000010a00000282045a8003e8003500080000",
        Err(Stop::Denied(Denial::BadHeader { octet: 10 })),
        "",
    ),
    (
        "600000000008113ffd000000000000000000000000000001fd00000000000000000000000000000203e80035000801bd",
        Err(Stop::Denied(Denial::WrongVersion)),
        "",
    ),
    // An option 134, whatever it says, in front of an option 130 that is wrong.
    (
        "47000024000000004011b03e0a0000010a000002820402808603aa0003e8003500080000",
        Err(Stop::Denied(Denial::AlreadyLabelled { octet: 24 })),
        "",
    ),
    (
        "46000020000000004011d1c60a0000010a0000029404000003e8003500080000",
        Err(Stop::Denied(Denial::Unlabelled)),
        "",
    ),
    // A second option 130, whatever the first says.
    (
        "480000280000000040116eb50a0000010a000002820402809404000082045a8003e8003500080000",
        Err(Stop::Denied(Denial::BadOption { octet: 28 })),
        "",
    ),
    (
        "470000240000000040114c3e0a0000010a000002940400008204028003e8003500080000",
        Err(Stop::Denied(Denial::BadOption { octet: 26 })),
        "",
    ),
    (
        "4600002000000000401189450a0000010a00000282045a8103e8003500080000",
        Err(Stop::Denied(Denial::BadOption { octet: 23 })),
        "",
    ),
    (
        "46000020000000004011e2860a0000010a0000028204014003e8003500080000",
        Err(Stop::Denied(Denial::LevelUnmapped)),
        "",
    ),
    (
        "4600002000000000401188e60a0000010a00000282045ae003e8003500080000",
        Err(Stop::Denied(Denial::CategoryUnmapped { category: 1 })),
        "",
    ),
    (
        "4600002000000000401189c20a0000010a00000282045a0403e8003500080000",
        Err(Stop::Denied(Denial::Inexpressible)),
        "",
    ),
    // 31 octets of others leave no room for 10.
    (
        "4e000040000000004011c05e0a0000010a000002991f00000000000000000000000000000000000000000000000000000000008203ab000003e8003500080000",
        Err(Stop::Denied(Denial::NoRoom)),
        "",
    ),
    // 30 do.
    (
        "4e00004000000000401197880a0000010a000002991e000000000000000000000000000000000000000000000000000000008203ab00000003e8003500080000",
        Ok(()),
        "4f0000440000000040113c6a0a0000010a000002860a0000001001040000991e0000000000000000000000000000000000000000000000000000000003e8003500080000",
    ),
];

const GO_OUT: &[Case] = &[
    // What was worked by hand.
    (
        "480000280000000040119ca00a0000010a000002860b0000001001050002400003e8003500080000",
        Ok(()),
        "4600002000000000401189460a0000010a00000282045a8003e8003500080000",
    ),
    // Flags 0, 6, 7 and 27.
    (
        "4b0000340000000040112d7f0a0000010a00000294040000860b0000001001050002789906aabbccdd00000003e8003500080000",
        Ok(()),
        "4a0000300000000040115d8a0a0000010a00000282075a83810102940400009906aabbccdd00000003e8003500080000",
    ),
    (
        "480000280000000040119ca10a0000010a000002860b0000001001050002400003e8003500080000",
        Err(Stop::Denied(Denial::BadHeader { octet: 10 })),
        "",
    ),
    (
        "4b00003400000000401176cd0a0000010a000002860b000000100105000240860b000000100105000240000003e8003500080000",
        Err(Stop::Denied(Denial::BadOption { octet: 31 })),
        "",
    ),
    (
        "480000280000000040119ba00a0000010a000002860b0000001001050102400003e8003500080000",
        Err(Stop::Denied(Denial::BadOption { octet: 28 })),
        "",
    ),
    (
        "600000000008113ffd000000000000000000000000000001fd00000000000000000000000000000203e80035000801bd",
        Err(Stop::Denied(Denial::WrongVersion)),
        "",
    ),
    (
        "4600002000000000401189460a0000010a00000282045a8003e8003500080000",
        Err(Stop::Denied(Denial::Unlabelled)),
        "",
    ),
    // An option 130, whatever it says, in front of another DOI.
    (
        "4900002c00000000401199220a0000010a000002860b000000080105000240820200000003e8003500080000",
        Err(Stop::Denied(Denial::AlreadyLabelled { octet: 31 })),
        "",
    ),
    (
        "480000280000000040119ca80a0000010a000002860b0000000801050002400003e8003500080000",
        Err(Stop::Denied(Denial::UnknownDoi { octet: 22 })),
        "",
    ),
    (
        "4900002c00000000401146950a0000010a00000294040000860c0000001002060002000103e8003500080000",
        Err(Stop::Denied(Denial::TagNotAllowed { octet: 30 })),
        "",
    ),
    // No remote level.
    (
        "480000280000000040119ca10a0000010a000002860b0000001001050001400003e8003500080000",
        Err(Stop::Denied(Denial::Inexpressible)),
        "",
    ),
    // No remote category.
    (
        "48000028000000004011dc5e0a0000010a000002860c0000001001060002004003e8003500080000",
        Err(Stop::Denied(Denial::Inexpressible)),
        "",
    ),
    // The remote level is no class.
    (
        "480000280000000040119c9f0a0000010a000002860b0000001001050003400003e8003500080000",
        Err(Stop::Denied(Denial::Inexpressible)),
        "",
    ),
    // The remote category is no flag.
    (
        "48000028000000004011d8a00a0000010a000002860b0000001001050002040003e8003500080000",
        Err(Stop::Denied(Denial::Inexpressible)),
        "",
    ),
];

fn crosses(
    rt: &impl Abort,
    alloc: Global,
    border: &Border,
    room: &mut Room,
    out: &mut Vec<u8>,
    (text, answer, written): Case,
) {
    assert!(rt; 0 < border.doi);
    let octets = octets_of(alloc, text).expect(rt, "digits");
    same(rt, text, cross(border, Some(&octets), room, out), answer);
    let wanted = octets_of(alloc, written).expect(rt, "digits");
    same(rt, text, out.as_slice(), wanted.as_slice());
}

fn denies_no_ip(rt: &impl Abort, border: &Border, room: &mut Room, out: &mut Vec<u8>) {
    assert!(rt; 0 < border.doi);
    let not_ip = Err(Stop::Denied(Denial::NotIp));
    same(rt, "not IP", cross(border, None, room, out), not_ip);
}

fn cross_each(rt: &impl Abort, alloc: Global, border: &Border, cases: &[Case]) {
    let mut room = Room::lowest();
    let mut out = Vec::new(alloc);
    for case in cases {
        crosses(rt, alloc, border, &mut room, &mut out, *case);
    }
    denies_no_ip(rt, border, &mut room, &mut out);
}

/// Whether each packet becomes what is wanted.
fn cross_as(rt: &impl Abort, alloc: Global, way: Way, cases: &[Case]) {
    let network = node_after(alloc, &[DOI]).expect(rt, "tables");
    assert!(rt; network.nodes() == 1);
    let definition = network
        .node(0)
        .dois()
        .find(Proto::Cipso, 16)
        .expect(rt, "defined");
    let border = Border {
        way,
        doi: 16,
        definition,
    };
    cross_each(rt, alloc, &border, cases);
}

#[test]
fn packets_come_in(rt: HostRuntime) {
    cross_as(&rt, rt.alloc(), Way::In, COME_IN);
}

#[test]
fn packets_go_out(rt: HostRuntime) {
    cross_as(&rt, rt.alloc(), Way::Out, GO_OUT);
}
