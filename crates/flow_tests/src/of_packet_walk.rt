// Worked flows: packets made by hand from RFC 791, RFC 8200, FIPS 188 and RFC 5570.

ghost use Rattle.std.specs.Prelude.{◌≡◌, ◌<◌, ◌≤◌, ◌^◌, length, All};
ghost use Rattle.std.specs.Arc.{arc_value};
ghost use Rattle.label_commands.specs.flow_lines.Hop.{node_of};
ghost use Rattle.shared_tables.specs.Plan.{network_after};

use crate::checks::same;
use domain_map::{read_name, write_address};
use label_commands::{FlowLine, Flows, NodeNames, read_flow};
use label_flow::*;
use mls_range::write_label;
use node_tables::Network;
use packet_label::Carrier;
use script_lines::{Step, command_of, read_said, words_into};
use shared_tables::{Board, Plan, Publisher, Viewer};
use std::alloc::Global;
use std::process::Abort;
use std::sync::{Arc, Wait};
use worked_networks::steps_of;
use worked_values::octets_of;
use worked_values::packets::{CALIPSO_9, LABELLED_4, LIST_10, PLAIN_4};

/// Four nodes: a sender, a gateway into IPv6, one back into IPv4, and a receiver with numbers of its own. Behind the first 15 commands the
/// second gateway takes up another definition.
static COMMANDS: [(usize, &str); 19] = [
    (0, "cipsov4 add pass doi:8 tags:1"),
    (0, "map add default protocol:cipsov4,8"),
    (1, "cipsov4 add pass doi:8 tags:1"),
    (1, "calipso add pass doi:9"),
    (1, "map add default protocol:calipso,9"),
    (1, "pair add address4:10.0.0.1 address6:fd00::1"),
    (1, "pair add address4:10.0.0.2 address6:fd00::2"),
    (2, "calipso add pass doi:9"),
    (
        2,
        "cipsov4 add trans doi:10 tags:2 levels:0=10,1=11,2=12 categories:1=5,3=4",
    ),
    (2, "map add default protocol:cipsov4,10"),
    (2, "pair add address4:10.0.0.1 address6:fd00::1"),
    (2, "pair add address4:10.0.0.2 address6:fd00::2"),
    (
        3,
        "cipsov4 add trans doi:10 tags:2 levels:0=10,1=11,2=12 categories:7=5,8=4",
    ),
    (3, "map add default protocol:cipsov4,10"),
    (
        3,
        "receiver add address:10.0.0.2 domain:sink_t level:s3:c7.c9",
    ),
    (2, "map del default"),
    (2, "cipsov4 del doi:10"),
    (
        2,
        "cipsov4 add trans doi:10 tags:2 levels:2=12 categories:1=4,3=5",
    ),
    (2, "map add default protocol:cipsov4,10"),
];

/// A node that receives packets without a label until its last command.
static RECEIVING: [(usize, &str); 5] = [
    (0, "unlbl accept on"),
    (0, "unlbl add default address:0.0.0.0/0 label:s1:c2"),
    (0, "map add default protocol:unlbl"),
    (0, "receiver add address:10.0.0.2 domain:sink_t level:s1:c2"),
    (0, "receiver del address:10.0.0.2"),
];

/// A node that knows DOI 16, and one that also receives.
static SITE: [(usize, &str); 6] = [
    (0, "cipsov4 add pass doi:16 tags:1"),
    (0, "map add default protocol:cipsov4,16"),
    (1, "cipsov4 add pass doi:16 tags:1"),
    (1, "map add default protocol:cipsov4,16"),
    (
        1,
        "receiver add address:10.0.0.2 domain:sink_t level:s2:c0.c5",
    ),
    (0, "range add interface:eth9 range:s0-s1"),
];

/// The way of a packet over hops, the packet, what is told of its walk, and the octets that it leaves.
type Case = (&'static str, &'static str, &'static str, &'static str);

const FAR_WALKS: &[Case] = &[
    (
        "send:a,app_t,eth0,s2:c1,c3 forward:b,eth0,eth1,any forward:c,eth0,eth1,any receive:d,eth0",
        PLAIN_4,
        "delivered s2:c7,c8 to 10.0.0.2 versions 15,15,15,15,",
        LIST_10,
    ),
    (
        "send:a,app_t,eth0,s2:c1,c3 forward:b,eth0,eth1,any",
        PLAIN_4,
        "sent calipso 9 versions 15,15,",
        CALIPSO_9,
    ),
];

const SITE_WALKS: &[Case] = &[
    (
        "receive:b,eth0",
        LABELLED_4,
        "delivered s2:c1,c3 to 10.0.0.2 versions 6,",
        LABELLED_4,
    ),
    (
        "forward:a,eth0,eth1,any receive:a,eth0",
        LABELLED_4,
        "denied NoReceiver hop 2 versions 6,6,",
        "",
    ),
    (
        "forward:a,eth9,eth1,any receive:b,eth0",
        LABELLED_4,
        "denied OutsideRange hop 1 versions 6,",
        "",
    ),
    (
        "send:a,app_t,eth0,s1 receive:b,eth0",
        LABELLED_4,
        "denied AlreadyLabelled hop 1 versions 6,",
        "",
    ),
    (
        "receive:b,eth0",
        PLAIN_4,
        "denied Unlabelled hop 1 versions 6,",
        "",
    ),
    ("receive:b,eth0", "", "denied NotIp hop 0 versions ", ""),
];

/// The way of a packet with one category over all four nodes.
const FAR: &str =
    "send:a,app_t,eth0,s2:c1 forward:b,eth0,eth1,any forward:c,eth0,eth1,any receive:d,eth0";

/// What is left of it: its category is 5 under the first definition of the second gateway, and 4 under the other one.
const LIST_5: &str =
    "48000028000040003e119d950a0000010a000002860c0000000a0206000c000503e800350008e7be";

const LIST_4: &str =
    "48000028000040003e119d960a0000010a000002860c0000000a0206000c000403e800350008e7be";

/// `PLAIN_4` behind one hop more.
const ONE_HOP_4: &str = "4500001c000040003f1127cf0a0000010a00000203e800350008e7be";

/// The way of a packet, the versions that are named for its hops, what is told of its walk, and the octets that it leaves.
type NamedCase = (&'static str, &'static [u32], &'static str, &'static str);

const FAR_NAMED: &[NamedCase] = &[
    (
        FAR,
        &[15, 15, 15, 15],
        "delivered s2:c7 to 10.0.0.2 versions 15,15,15,15,",
        LIST_5,
    ),
    (
        FAR,
        &[15, 15, 19, 19],
        "delivered s2:c8 to 10.0.0.2 versions 15,15,19,19,",
        LIST_4,
    ),
    (
        FAR,
        &[14, 14, 15, 19],
        "delivered s2:c7 to 10.0.0.2 versions 14,14,15,19,",
        LIST_5,
    ),
    (
        FAR,
        &[14, 14, 14, 14],
        "denied NoReceiver hop 4 versions 14,14,14,14,",
        "",
    ),
    (FAR, &[0], "denied NoMap hop 1 versions 0,", ""),
    (
        FAR,
        &[15, 15, 16],
        "denied NoMap hop 3 versions 15,15,16,",
        "",
    ),
    (
        FAR,
        &[15, 15, 18],
        "denied NoMap hop 3 versions 15,15,18,",
        "",
    ),
    (FAR, &[15, 15, 18, 19], "too many", ""),
    (FAR, &[15, 15, 18, 18, 18], "too many", ""),
    (FAR, &[15, 15, 15], "too few", ""),
    (FAR, &[15, 15, 19], "too few", ""),
    (FAR, &[], "too few", ""),
    (FAR, &[15, 15, 15, 15, 15], "too many", ""),
    (FAR, &[15, 15, 15, 15, 19], "too many", ""),
];

/// The same of a node's own packets.
const NEAR_NAMED: &[NamedCase] = &[
    (
        "receive:a,eth0",
        &[4],
        "delivered s1:c2 to 10.0.0.2 versions 4,",
        PLAIN_4,
    ),
    (
        "receive:a,eth0",
        &[3],
        "denied NoReceiver hop 1 versions 3,",
        "",
    ),
    (
        "receive:a,eth0",
        &[5],
        "denied NoReceiver hop 1 versions 5,",
        "",
    ),
    ("receive:a,eth0", &[], "too few", ""),
    ("receive:a,eth0", &[4, 4], "too many", ""),
    (
        "forward:a,eth0,eth1,any",
        &[4],
        "sent unlbl versions 4,",
        ONE_HOP_4,
    ),
];

fn names_of(rt: &impl Abort, alloc: Global) -> NodeNames {
    let mut names = NodeNames::empty(alloc);
    for name in ["a", "b", "c", "d"] {
        let name = read_name(name.as_bytes()).expect(rt, "a name");
        names.add(name).expect(rt, "memory");
    }
    names
}

fn flow_of(rt: &impl Abort, alloc: Global, names: &NodeNames, hops: &str) -> FlowLine
    ensures { All (λ hop. node_of hop < length names.now) result.hops }
{
    let line = format!(in alloc; "in out {hops}").expect(rt, "memory");
    let mut words = Vec::new(alloc);
    words_into(line.as_bytes(), &mut words).expect(rt, "memory");
    let flows = Flows::empty(alloc);
    let Ok(flow) = read_flow("own", names, &flows, 0, line.len(), &words) else {
        panic!(rt; "a flow")
    };
    flow
}

fn fresh(rt: &impl Abort, alloc: Global, plan: &Arc<Plan>, nodes: usize) -> Network
    requires { (arc_value plan.now).nodes ≡ nodes }
    ensures { result ≡ network_after (arc_value plan.now) 0 }
{
    Network::fresh(alloc, nodes).expect(rt, "memory")
}

// A board of these nodes at the version after so many of the commands.
fn begun<R: Wait + Abort>(
    rt: &R,
    alloc: Global,
    nodes: usize,
    commands: &[(usize, &str)],
    count: usize,
) -> (Publisher, Viewer)
    requires nodes { nodes ≤ 32 }
    requires few { length commands.now < 2 ^ 32 }
    requires count { count ≤ length commands.now }
    ensures { result.1.plan.nodes ≡ nodes }
{
    let steps = steps_of(alloc, nodes, commands).expect(rt, "commands");
    let plan = Plan::from_steps(alloc, steps, nodes).expect(rt, "memory");
    let network = fresh(rt, alloc, &plan, nodes);
    let (publisher, mut viewers) = Board::begin(rt, alloc, &network, plan, 0, 1).expect(
        rt, "memory",
    );
    let viewer = viewers.pop().expect(rt, "a viewer");
    (stepped(rt, publisher, count), viewer)
}

// The publisher behind so many steps.
fn stepped<R: Wait + Abort>(rt: &R, publisher: Publisher, steps: usize) -> Publisher
    requires { steps ≤ length publisher.plan.steps }
{
    let mut publisher = publisher;
    while (publisher.version() as usize) < steps {
        publisher.step(rt).expect(rt, "memory");
    }
    publisher
}

fn append(rt: &impl Abort, octets: &[u8], text: &mut Vec<u8>) {
    text.extend_from_slice(octets).expect(rt, "memory");
}

fn tell_sent(rt: &impl Abort, alloc: Global, carrier: &Carrier, text: &mut Vec<u8>) {
    let said = match carrier {
        Carrier::Unlabelled => format!(in alloc; "sent unlbl"),
        Carrier::Cipso { doi } => format!(in alloc; "sent cipso {doi}"),
        Carrier::Calipso { doi } => format!(in alloc; "sent calipso {doi}"),
    };
    append(rt, said.expect(rt, "memory").as_bytes(), text);
}

fn tell_denied(rt: &impl Abort, alloc: Global, hop: u32, why: &str, text: &mut Vec<u8>) {
    let said = format!(in alloc; "denied {why} hop {hop}").expect(rt, "memory");
    append(rt, said.as_bytes(), text);
}

fn tell_end(rt: &impl Abort, alloc: Global, end: &End, text: &mut Vec<u8>) {
    match end {
        End::Delivered { label, receiver } => {
            append(rt, b"delivered ", text);
            write_label(label, text).expect(rt, "memory");
            append(rt, b" to ", text);
            write_address(receiver, text).expect(rt, "memory");
        }
        End::Sent { carrier } => tell_sent(rt, alloc, carrier, text),
        End::Denied { hop, denial } => tell_denied(rt, alloc, *hop, denial.name(), text),
    }
}

fn tell_version(rt: &impl Abort, alloc: Global, version: u32, text: &mut Vec<u8>) {
    let said = format!(in alloc; "{version},").expect(rt, "memory");
    append(rt, said.as_bytes(), text);
}

// What became of a packet, in words.
fn tell(rt: &impl Abort, alloc: Global, walked: &Walked) -> Vec<u8> {
    let mut text = Vec::new(alloc);
    tell_end(rt, alloc, &walked.end, &mut text);
    append(rt, b" versions ", &mut text);
    for version in walked.versions.as_slice() {
        tell_version(rt, alloc, *version, &mut text);
    }
    text
}

fn packet_of(rt: &impl Abort, alloc: Global, digits: &str) -> PacketIn {
    let bytes = Octets::of(octets_of(alloc, digits).expect(rt, "memory"));
    let is_ip = !digits.is_empty();
    PacketIn { bytes, is_ip }
}

// What is told of a walk, and the octets that it leaves.
fn leaves(
    rt: &impl Abort,
    alloc: Global,
    walked: &Walked,
    out: &[u8],
    (hops, told, left): (&str, &str, &str),
) {
    let found = tell(rt, alloc, walked);
    same(rt, hops, found.as_slice(), told.as_bytes());
    let left = octets_of(alloc, left).expect(rt, "memory");
    same(rt, hops, out, left.as_slice());
}

/// A place for what becomes of a packet.
#[derive(Drop)]
struct Place {
    slot: WalkedSlot,
    shown: ShownWalks,
}

// A packet goes over its hops by the call that makes what it needs, and by the one that is lent it.
fn walks_twice(
    rt: &impl Abort,
    alloc: Global,
    viewer: &mut Viewer,
    flow: &FlowLine,
    room: WalkRoom,
    place: &mut Place,
    case: Case,
) -> WalkRoom
    requires { All (λ hop. node_of hop < viewer.old.plan.nodes) flow.now.hops }
{
    let (hops, digits, told, left) = case;
    let packet = packet_of(rt, alloc, digits);
    let mut out = Vec::new(alloc);
    let walked = walk(alloc, viewer, flow, 0, 1, &packet, &mut out, &OpenGate).expect(rt, "memory");
    leaves(rt, alloc, &walked, &out, (hops, told, left));
    let worker = Worker {
        flow,
        number: 0,
        gate: &OpenGate,
    };
    let room = walk_into(&worker, viewer, 2, &packet, room, &mut place.slot, &mut out).expect(
        rt, "memory",
    );
    leaves(
        rt,
        alloc,
        place.shown.show(&place.slot),
        &out,
        (hops, told, left),
    );
    room
}

// Each packet in one room and one place.
fn walks<R: Wait + Abort>(
    rt: &R,
    alloc: Global,
    commands: &[(usize, &str)],
    count: usize,
    cases: &[Case],
)
    requires few { length commands.now < 2 ^ 32 }
    requires count { count ≤ length commands.now }
{
    let names = names_of(rt, alloc);
    let nodes = names.len();
    assert!(rt; nodes <= 32);
    let mut room = WalkRoom::new(alloc).expect(rt, "memory");
    let mut place = Place {
        slot: WalkedSlot::new(alloc),
        shown: ShownWalks::new(),
    };
    for case in cases {
        let flow = flow_of(rt, alloc, &names, case.0);
        let (publisher, mut viewer) = begun(rt, alloc, nodes, commands, count);
        room = walks_twice(rt, alloc, &mut viewer, &flow, room, &mut place, *case);
        publisher.close(rt);
    }
}

#[test]
fn packets_go_over_four_nodes(rt: HostRuntime) {
    walks(&rt, rt.alloc(), &COMMANDS, 15, FAR_WALKS);
}

#[test]
fn walks_end_at_the_first_denial(rt: HostRuntime) {
    walks(&rt, rt.alloc(), &SITE, SITE.len(), SITE_WALKS);
}

/// The versions of a word of numbers between two bounds, and whether they rise.
const RISING: &[(u32, u32, &[u32], bool)] = &[
    (15, 19, &[15, 15, 19, 19], true),
    (15, 19, &[15, 19, 15, 15], false),
    (15, 19, &[15, 15, 18, 17], false),
    (15, 18, &[15, 15, 19, 19], false),
    (16, 19, &[15, 15, 19, 19], false),
    (16, 19, &[16], true),
    (4, 4, &[4], true),
    (4, 4, &[], true),
    (5, 4, &[], false),
];

#[test]
fn versions_rise(rt: HostRuntime) {
    for &(low, high, versions, rises) in RISING {
        same(&rt, (low, high, versions), rise(low, high, versions), rises);
    }
}

// What is told of the versions that are named, in words.
fn tell_named(
    rt: &impl Abort,
    alloc: Global,
    ended: Result<(), VersionsStop>,
    walked: &Walked,
) -> Vec<u8> {
    match ended {
        Ok(()) => tell(rt, alloc, walked),
        Err(VersionsStop::TooFew) => Vec::from_slice(alloc, b"too few").expect(rt, "memory"),
        Err(VersionsStop::TooMany) => Vec::from_slice(alloc, b"too many").expect(rt, "memory"),
        Err(VersionsStop::OutOfMemory) => panic!(rt; "memory"),
    }
}

/// What is lent to all walks under named versions.
#[derive(Drop)]
struct Lent {
    room: WalkRoom,
    place: Place,
    out: Vec<u8>,
}

fn lend(rt: &impl Abort, alloc: Global) -> Lent {
    Lent {
        room: WalkRoom::new(alloc).expect(rt, "memory"),
        place: Place {
            slot: WalkedSlot::new(alloc),
            shown: ShownWalks::new(),
        },
        out: Vec::new(alloc),
    }
}

fn leaves_named(
    rt: &impl Abort,
    alloc: Global,
    ended: Result<(), VersionsStop>,
    lent: &mut Lent,
    (hops, versions, told, left): NamedCase,
) {
    let walked = lent.place.shown.show(&lent.place.slot);
    let said = tell_named(rt, alloc, ended, walked);
    same(rt, (hops, versions), said.as_slice(), told.as_bytes());
    let left = octets_of(alloc, left).expect(rt, "memory");
    same(rt, (hops, versions), lent.out.as_slice(), left.as_slice());
}

// A packet goes over its hops under the versions that are named, from the tables before the first step on.
fn walks_named(
    rt: &impl Abort,
    alloc: Global,
    steps: &[Step],
    nodes: usize,
    flow: &FlowLine,
    lent: &mut Lent,
    case: NamedCase,
)
    requires few { length steps.now < 2 ^ 32 }
    requires steps { All (λ step. step.node < nodes) steps.now }
    requires hops { All (λ hop. node_of hop < nodes) flow.now.hops }
{
    let packet = packet_of(rt, alloc, PLAIN_4);
    let mut tables = StepTables::fresh(alloc, nodes, steps).expect(rt, "memory");
    assert!(rt; rise(tables.version(), steps.len() as u32, case.1));
    let ended = walk_named(
        &mut tables,
        flow,
        case.1,
        &packet,
        &mut lent.room,
        &mut lent.place.slot,
        &mut lent.out,
    );
    leaves_named(rt, alloc, ended, lent, case);
}

fn named_walks(rt: &impl Abort, alloc: Global, commands: &[(usize, &str)], cases: &[NamedCase])
    requires { length commands.now < 2 ^ 32 }
{
    let names = names_of(rt, alloc);
    let nodes = names.len();
    let steps = steps_of(alloc, nodes, commands).expect(rt, "commands");
    let mut lent = lend(rt, alloc);
    for case in cases {
        let flow = flow_of(rt, alloc, &names, case.0);
        walks_named(rt, alloc, &steps, nodes, &flow, &mut lent, *case);
    }
}

#[test]
fn packets_walk_under_named_versions(rt: HostRuntime) {
    named_walks(&rt, rt.alloc(), &COMMANDS, FAR_NAMED);
    named_walks(&rt, rt.alloc(), &RECEIVING, NEAR_NAMED);
}
