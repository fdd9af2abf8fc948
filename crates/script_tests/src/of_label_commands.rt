use crate::checks::same;
use label_commands::*;
use script_lines::ScriptKind as Kind;
use std::alloc::Global;
use std::process::Abort;
use worked_values::scripts::CROSSING;

/// A script that is refused, and the line, the octet and the kind of its first fault: each kind at an early place and at a late one.
const FAULTS: &[(&str, u32, usize, Kind)] = &[
    ("\u{1}", 1, 0, Kind::Octet),
    ("node a\u{1}", 1, 6, Kind::Octet),
    ("frob x\u{7f}", 1, 6, Kind::Octet),
    ("node a\r", 1, 6, Kind::Octet),
    ("frob x", 1, 0, Kind::Word),
    ("node a\nfrob x", 2, 0, Kind::Word),
    ("node a\nnetlabelctl node a", 2, 12, Kind::Word),
    ("node a\nnetlabelctl reading", 2, 12, Kind::Word),
    ("node a\nreading x", 2, 8, Kind::Word),
    (
        "node a\nunlbl del default address:1.2.3.4 address:x",
        2,
        34,
        Kind::Word,
    ),
    ("map list", 1, 0, Kind::NoNode),
    ("netlabelctl", 1, 0, Kind::NoNode),
    ("netlabelctl frob", 1, 0, Kind::NoNode),
    ("#\r\n\n\t reading # x", 3, 2, Kind::NoNode),
    ("node !", 1, 5, Kind::Value),
    ("node ! b", 1, 5, Kind::Value),
    ("node a\ncipsov4 add pass doi:0 tags:1", 2, 17, Kind::Value),
    ("node a\ncipsov4 add pass doi:1 tags:1,", 2, 23, Kind::Value),
    ("node a\nflow x -x receive:a,e", 2, 7, Kind::Value),
    ("node a\nflow x - receive:b,eth0", 2, 9, Kind::UnknownNode),
    (
        "node a\nflow x - forward:a,e,f,d receive:b,e\nnode b",
        2,
        25,
        Kind::UnknownNode,
    ),
    (
        "node a\nflow x - receive:a,e receive:a,e",
        2,
        9,
        Kind::HopOrder,
    ),
    (
        "node a\nflow x - forward:a,e,f,d send:a,d,e,s0",
        2,
        25,
        Kind::HopOrder,
    ),
    ("flow x s", 1, 7, Kind::NameTwice),
    (
        "node r\nflow a.pcap a.pcap receive:r,eth0",
        2,
        12,
        Kind::NameTwice,
    ),
    (
        "node a\nflow x y receive:a,e\nflow y - receive:a,e",
        3,
        5,
        Kind::NameTwice,
    ),
    ("node a b", 1, 7, Kind::Extra),
    ("node a\nunlbl accept on on", 2, 16, Kind::Extra),
    ("node a\nmap list default", 2, 9, Kind::Extra),
    ("node", 1, 4, Kind::Missing),
    ("flow", 1, 4, Kind::Missing),
    ("node a\r\nnetlabelctl\r\n", 2, 11, Kind::Missing),
    ("node a\nmap add default", 2, 15, Kind::Missing),
    ("node a\nmap add default  # x", 2, 20, Kind::Missing),
    ("node a\nreading\nreading x", 3, 8, Kind::Word),
    (
        "node a\nreading\nreading levels:0=5",
        3,
        0,
        Kind::ReadingTwice,
    ),
    (
        "node a\nreading\nnode b\nreading\nnode a\n reading",
        6,
        1,
        Kind::ReadingTwice,
    ),
    ("node a\nreading levels:0=5", 2, 0, Kind::NotIncreasing),
    (
        "node a\n\treading levels:255=254",
        2,
        1,
        Kind::NotIncreasing,
    ),
    (
        "node a\nreading levels:0=5 categories:1=5",
        2,
        0,
        Kind::NotIncreasing,
    ),
    (
        "node a\nreading categories:1=5,1=6",
        2,
        0,
        Kind::NotDistinct,
    ),
    ("node a\nreading levels:0=0,0=9", 2, 0, Kind::NotDistinct),
    (
        "node a\n reading categories:65534=0",
        2,
        1,
        Kind::NotDistinct,
    ),
    ("node a\nfrob\nnode !", 2, 0, Kind::Word),
];

#[test]
fn tells_the_first_fault(rt: HostRuntime) {
    for &(text, line, octet, kind) in FAULTS {
        let wanted = ScriptFault { line, octet, kind };
        let found = stop(rt.alloc(), text.as_bytes());
        same(&rt, text, found, Some(ScriptStop::Fault(wanted)));
    }
}

/// A script, and what it says: its steps in their written forms, its flows with the steps above them and their hops, its nodes.
const SCRIPTS: &[(&str, &str)] = &[
    ("", ""),
    ("#\n \t\r\n\n", ""),
    (
        "node a
cipsov4 add trans doi:8 tags:1 levels:0=5,1=5
map add default protocol:cipsov4,8
cipso add pass tags:1 doi:16
map add default protocol:cipsov4,16
cipsov4 del doi:16
cipsov4 list",
        "a cipsov4 add trans doi:8 tags:1 levels:0=5,1=5
a map add default protocol:cipsov4,8
a cipsov4 add pass doi:16 tags:1
a map add default protocol:cipsov4,16
a cipsov4 del doi:16
a cipsov4 list
a
",
    ),
    (
        CROSSING,
        "a cipsov4 add pass doi:8 tags:1
a map add default protocol:cipsov4,8
g cipsov4 add pass doi:8 tags:1
g calipso add pass doi:9
g map add default protocol:calipso,9
g pair add address4:10.0.0.1 address6:fd00::1
g pair add address4:10.0.0.2 address6:fd00::2
h calipso add pass doi:9
h cipsov4 add trans doi:10 tags:2 levels:0=10,1=11,2=12 categories:1=5,3=4
h map add default protocol:cipsov4,10
h pair add address4:10.0.0.1 address6:fd00::1
h pair add address4:10.0.0.2 address6:fd00::2
b cipsov4 add trans doi:10 tags:2 levels:0=10,1=11,2=12 categories:7=5,8=4
b map add default protocol:cipsov4,10
b receiver add address:10.0.0.2 domain:sink_t level:s3:c7.c9
flow one.pcap 15 ....
flow one.pcap 15 ..
a
g
h
b
",
    ),
    (
        "node r
unlbl accept on
unlbl add default address:0.0.0.0/0 label:s1:c2
map add default protocol:unlbl
receiver add address:10.0.0.2 domain:sink_t level:s1:c2
flow one.pcap - receive:r,eth0
flow one.pcap - receive:r,eth0
receiver del address:10.0.0.2
flow one.pcap - receive:r,eth0",
        "r unlbl accept on
r unlbl add default address:0.0.0.0/0 label:s1:c2
r map add default protocol:unlbl
r receiver add address:10.0.0.2 domain:sink_t level:s1:c2
r receiver del address:10.0.0.2
flow one.pcap 4 .
flow one.pcap 4 .
flow one.pcap 5 .
r
",
    ),
    (
        "# site
node fw
netlabelctl mgmt protocols
netlabelctl cipsov4 add pass doi:16 tags:1,2,5
netlabelctl map del default
netlabelctl map add default address:10.0.0.0/8 protocol:cipsov4,16
netlabelctl map add default address:192.168.7.0/24 protocol:unlbl
netlabelctl unlbl accept on
netlabelctl unlbl add interface:eth0 address:192.168.7.0/24 label:system_u:object_r:netlabel_peer_t:s0
receiver add address:10.0.0.2 domain:httpd_t level:s2:c0.c5
receiver add address:10.0.0.53 domain:named_t level:s0
range add interface:eth0 range:s0-s3:c0.c1023
flow site.pcap - receive:fw,eth0",
        "fw mgmt protocols
fw cipsov4 add pass doi:16 tags:1,2,5
fw map del default
fw map add default address:10.0.0.0/8 protocol:cipsov4,16
fw map add default address:192.168.7.0/24 protocol:unlbl
fw unlbl accept on
fw unlbl add interface:eth0 address:192.168.7.0/24 label:s0
fw receiver add address:10.0.0.2 domain:httpd_t level:s2:c0.c5
fw receiver add address:10.0.0.53 domain:named_t level:s0
fw range add interface:eth0 range:s0-s3:c0.c1023
flow site.pcap 10 .
fw
",
    ),
];

fn read(rt: &impl Abort, alloc: Global, text: &str) -> Script {
    read_script(alloc, text.as_bytes(), "s").expect(rt, text)
}

fn says(rt: &impl Abort, alloc: Global, text: &str, wanted: &str) {
    let script = read(rt, alloc, text);
    same(
        rt,
        text,
        script.readings.as_slice().len(),
        script.nodes.len(),
    );
    let said = said_by(rt, alloc, &script);
    same(rt, text, said.as_slice(), wanted.as_bytes());
}

#[test]
fn reads_scripts(rt: HostRuntime) {
    for &(text, wanted) in SCRIPTS {
        says(&rt, rt.alloc(), text, wanted);
    }
}

/// What a script says, as in `SCRIPTS`.
fn said_by(rt: &impl Abort, alloc: Global, script: &Script) -> Vec<u8> {
    let mut said = Vec::new(alloc);
    append_steps(rt, script, &mut said);
    append_flows(rt, alloc, script, &mut said);
    append_nodes(rt, script, &mut said);
    said
}

fn append(rt: &impl Abort, octets: &[u8], said: &mut Vec<u8>) {
    said.extend_from_slice(octets).expect(rt, "memory");
}

fn append_steps(rt: &impl Abort, script: &Script, said: &mut Vec<u8>) {
    for step in script.steps.as_slice() {
        let node = script.nodes.as_slice().get(step.node).expect(rt, "a node");
        append(rt, node.text(), said);
        append(rt, b" ", said);
        write_step(&step.command, said).expect(rt, "memory");
        append(rt, b"\n", said);
    }
}

fn append_flows(rt: &impl Abort, alloc: Global, script: &Script, said: &mut Vec<u8>) {
    for flow in script.flows.as_slice() {
        let (name, before) = (flow.input.text(), flow.before);
        let line = format!(in alloc; "flow {name} {before} ").expect(rt, "memory");
        append(rt, line.as_bytes(), said);
        append(rt, dots(flow.hops.hops().len()), said);
        append(rt, b"\n", said);
    }
}

/// A dot for each hop.
fn dots(hops: usize) -> &'static [u8] {
    let all: &'static [u8] = b"................";
    &all[..hops.min(16)]
}

fn append_nodes(rt: &impl Abort, script: &Script, said: &mut Vec<u8>) {
    for node in script.nodes.as_slice() {
        append(rt, node.text(), said);
        append(rt, b"\n", said);
    }
}

fn mean(rt: &impl Abort, first: &Reading, last: &Reading) {
    same(rt, "a", [first.category(7), first.category(1)], [7, 1]);
    let found = [last.category(7), last.category(1), last.category(2)];
    same(rt, "b", found, [1, 7, 2]);
    same(rt, "level", last.level(3), 3);
}

#[test]
fn numbers_mean_what_readings_name(rt: HostRuntime) {
    let script = read(&rt, rt.alloc(), CROSSING);
    let readings = script.readings.as_slice();
    let first = readings.first().expect(&rt, "the reading of a");
    let last = readings.last().expect(&rt, "the reading of b");
    mean(&rt, first, last);
}

/// Why a text is refused, if it is.
fn stop(alloc: Global, text: &[u8]) -> Option<ScriptStop> {
    read_script(alloc, text, "s").err()
}

fn limit(passed: Option<(LimitName, u32)>) -> Option<ScriptStop> {
    let (what, number) = passed?;
    Some(ScriptStop::Limit { what, number })
}

/// A text with so many parts behind its head.
fn repeated(rt: &impl Abort, alloc: Global, head: &str, part: &str, count: usize) -> Vec<u8> {
    let mut text = Vec::from_slice(alloc, head.as_bytes()).expect(rt, "memory");
    for _ in 0..count {
        append(rt, part.as_bytes(), &mut text);
    }
    text
}

/// So many lines that name as many nodes.
fn nodes(rt: &impl Abort, alloc: Global, count: u8) -> Vec<u8> {
    let mut text = Vec::new(alloc);
    for number in 0..count {
        let name = [b'a' + number % 26, b'a' + number / 26];
        append(rt, b"node ", &mut text);
        append(rt, &name, &mut text);
        append(rt, b"\n", &mut text);
    }
    text
}

fn takes_nodes(rt: &impl Abort, alloc: Global, count: u8, passed: Option<(LimitName, u32)>) {
    same(
        rt,
        count,
        stop(alloc, &nodes(rt, alloc, count)),
        limit(passed),
    );
}

#[test]
fn keeps_limits_of_nodes(rt: HostRuntime) {
    takes_nodes(&rt, rt.alloc(), 32, None);
    takes_nodes(&rt, rt.alloc(), 33, Some((LimitName::Nodes, 32)));
}

/// A head, a part and how many of it a script has, and the limit that it passes, if it does.
type Repeated = (&'static str, &'static str, usize, Option<(LimitName, u32)>);

const FORWARD: &str = " forward:a,e,f,d";

const FLOW: &str = "flow x - receive:a,e\n";

const LIMITS: &[Repeated] = &[
    ("node a\nflow x -", FORWARD, 16, None),
    ("node a\nflow x -", FORWARD, 17, Some((LimitName::Hops, 16))),
    ("node a\n", FLOW, 256, None),
    ("node a\n", FLOW, 257, Some((LimitName::Flows, 256))),
    ("", "\n", 16384, None),
    ("", "\n", 16385, Some((LimitName::Lines, 16384))),
    ("", "#", 1_048_576, None),
    (
        "\u{1}",
        "#",
        1_048_576,
        Some((LimitName::Octets, 1_048_576)),
    ),
];

fn keeps_limit(rt: &impl Abort, alloc: Global, (head, part, count, wanted): Repeated) {
    let text = repeated(rt, alloc, head, part, count);
    same(rt, (head, part, count), stop(alloc, &text), limit(wanted));
}

#[test]
fn keeps_limits(rt: HostRuntime) {
    for limit in LIMITS {
        keeps_limit(&rt, rt.alloc(), *limit);
    }
}
