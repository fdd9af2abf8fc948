//! Commands and what they answer.

use crate::checks::same;
use domain_map::{Address, Name, Protocol, read_address, read_name};
use mls_label::Proto;
use node_tables::*;
use script_lines::{Command, Said, Step, command_of, read_said, words_into};
use std::alloc::Global;
use std::process::Abort;

/// The place of a node, a command to it, and the answer: `done`, the refusal's name, or the lines of a listing, each with its end.
type Row = (usize, &'static str, &'static str);

type Rows = &'static [Row];

/// The worked script of a DOI that an entry names.
const NAMED: Rows = &[
    (
        0,
        "cipsov4 add trans doi:8 tags:1 levels:0=5,1=5",
        "NotOneToOne",
    ),
    (0, "map add default protocol:cipsov4,8", "DoiUnknown"),
    (0, "cipso add pass tags:1 doi:16", "done"),
    (0, "map add default protocol:cipsov4,16", "done"),
    (0, "cipsov4 del doi:16", "DoiInUse"),
    (0, "cipsov4 list", "cipsov4 add pass doi:16 tags:1\n"),
];

/// Definitions: what is tested first, and protocols that stand apart.
const DEFINITIONS: Rows = &[
    (0, "cipsov4 list", ""),
    (0, "calipso list doi:7", "DoiUnknown"),
    (0, "cipsov4 add pass doi:7 tags:2,1", "done"),
    (0, "cipsov4 add pass doi:7 tags:1", "DoiExists"),
    (
        0,
        "cipsov4 add trans doi:7 tags:1 levels:0=5,1=5",
        "DoiExists",
    ),
    (
        0,
        "cipsov4 add trans doi:8 tags:5 levels:0=5,1=3 categories:0=1,1=0",
        "done",
    ),
    (
        0,
        "cipsov4 add trans doi:9 tags:1 levels:0=5,0=6",
        "NotOneToOne",
    ),
    (
        0,
        "cipsov4 add trans doi:9 tags:1 levels:0=5 categories:4=1,2=3,9=1",
        "NotOneToOne",
    ),
    (0, "calipso del doi:7", "DoiUnknown"),
    (0, "calipso add pass doi:7", "done"),
    (0, "calipso add pass doi:7", "DoiExists"),
    (0, "calipso add trans doi:7 levels:2=7,3=7", "DoiExists"),
    (0, "calipso add trans doi:9 levels:2=7,3=7", "NotOneToOne"),
    (
        0,
        "calipso add trans doi:9 levels:2=7 categories:1=0,4=3000",
        "done",
    ),
    (0, "calipso add trans doi:5 levels:2=7", "done"),
    (
        0,
        "cipsov4 list",
        "cipsov4 add pass doi:7 tags:2,1
cipsov4 add trans doi:8 tags:5 levels:0=5,1=3 categories:0=1,1=0
",
    ),
    (
        0,
        "calipso list",
        "calipso add pass doi:7
calipso add trans doi:9 levels:2=7 categories:1=0,4=3000
calipso add trans doi:5 levels:2=7
",
    ),
    (
        0,
        "calipso list doi:5",
        "calipso add trans doi:5 levels:2=7\n",
    ),
    (0, "cipsov4 list doi:9", "DoiUnknown"),
    (0, "cipsov4 del doi:9", "DoiUnknown"),
    (0, "map add default protocol:calipso,7", "done"),
    (0, "calipso del doi:7", "DoiInUse"),
    (0, "cipsov4 del doi:7", "done"),
    (0, "cipsov4 add pass doi:7 tags:1", "done"),
    (
        0,
        "cipsov4 list",
        "cipsov4 add trans doi:8 tags:5 levels:0=5,1=3 categories:0=1,1=0
cipsov4 add pass doi:7 tags:1
",
    ),
    (0, "map del default", "done"),
    (0, "calipso del doi:7", "done"),
];

/// Entries of the map, whole and by single addresses.
const ENTRIES: Rows = &[
    (0, "map del default", "MapUnknown"),
    (0, "map add domain:x protocol:cipsov4,1", "DoiUnknown"),
    (0, "cipsov4 add pass doi:1 tags:1", "done"),
    (0, "map add domain:x protocol:calipso,1", "DoiUnknown"),
    (
        0,
        "map add domain:x address:10.0.0.0/8 protocol:cipsov4,1",
        "done",
    ),
    (0, "map add domain:y protocol:unlbl", "done"),
    (
        0,
        "map add domain:x address:11.1.2.3/8 protocol:unlbl",
        "done",
    ),
    (
        0,
        "map add domain:x address:11.0.0.0/8 protocol:cipsov4,2",
        "DoiUnknown",
    ),
    (
        0,
        "map add domain:x address:11.0.0.0/8 protocol:unlbl",
        "MapExists",
    ),
    (0, "map add domain:x protocol:unlbl", "MapHasAddresses"),
    (
        0,
        "map add domain:y address:11.0.0.0/8 protocol:unlbl",
        "MapPlain",
    ),
    (0, "map add domain:y protocol:unlbl", "MapExists"),
    (0, "map add domain:y protocol:cipsov4,2", "DoiUnknown"),
    (
        0,
        "map list",
        "map add domain:x address:10.0.0.0/8 protocol:cipsov4,1
map add domain:x address:11.0.0.0/8 protocol:unlbl
map add domain:y protocol:unlbl
",
    ),
    (0, "map del domain:z", "MapUnknown"),
    (0, "map del domain:y address:10.0.0.0/8", "MapUnknown"),
    (0, "map del domain:x address:10.0.0.0/9", "MapUnknown"),
    (0, "map del domain:x address:10.9.9.9/8", "done"),
    (
        0,
        "map list",
        "map add domain:x address:11.0.0.0/8 protocol:unlbl
map add domain:y protocol:unlbl
",
    ),
    (0, "cipsov4 del doi:1", "done"),
    (0, "map del domain:x address:11.0.0.0/8", "done"),
    (0, "map del domain:x", "MapUnknown"),
    (0, "map del domain:y", "done"),
    (0, "map list", ""),
];

/// The labels of unlabelled packets, in order of insertion over all interfaces.
const LABELS: Rows = &[
    (0, "unlbl list", "unlbl accept off\n"),
    (0, "unlbl accept on", "done"),
    (0, "unlbl add default address:0.0.0.0/0 label:s1:c2", "done"),
    (
        0,
        "unlbl add interface:eth0 address:192.168.7.9/24 label:u:r:t:s0-s2",
        "done",
    ),
    (
        0,
        "unlbl add default address:10.0.0.1/0 label:s3",
        "StaticExists",
    ),
    (0, "unlbl add default address:::/0 label:s0", "done"),
    (
        0,
        "unlbl list",
        "unlbl accept on
unlbl add default address:0.0.0.0/0 label:s1:c2
unlbl add interface:eth0 address:192.168.7.0/24 label:s0-s2
unlbl add default address:::/0 label:s0
",
    ),
    (
        0,
        "unlbl del interface:eth1 address:192.168.7.0/24",
        "StaticUnknown",
    ),
    (
        0,
        "unlbl del interface:eth0 address:192.168.7.0/25",
        "StaticUnknown",
    ),
    (0, "unlbl del default address:0.0.0.0/0", "done"),
    (0, "unlbl accept off", "done"),
    (
        0,
        "unlbl list",
        "unlbl accept off
unlbl add interface:eth0 address:192.168.7.0/24 label:s0-s2
unlbl add default address:::/0 label:s0
",
    ),
];

/// Receivers, ranges and pairs, and what the program knows of itself.
const OTHERS: Rows = &[
    (
        0,
        "receiver add address:10.0.0.2 domain:d level:s2:c1-s2:c0.c5",
        "done",
    ),
    (
        0,
        "receiver add address:10.0.0.2 domain:e level:s0",
        "ReceiverExists",
    ),
    (0, "receiver add address:::a00:2 domain:e level:s0", "done"),
    (0, "receiver del address:10.0.0.3", "ReceiverUnknown"),
    (0, "receiver del address:10.0.0.2", "done"),
    (0, "receiver del address:10.0.0.2", "ReceiverUnknown"),
    (0, "range del default", "RangeUnknown"),
    (0, "range add default range:s0", "done"),
    (0, "range add interface:eth0 range:s0-s3:c0.c1023", "done"),
    (0, "range add interface:eth0 range:s0", "RangeExists"),
    (0, "range add default range:s1", "RangeExists"),
    (0, "range del interface:eth1", "RangeUnknown"),
    (0, "range del interface:eth0", "done"),
    (0, "range del interface:eth0", "RangeUnknown"),
    (0, "pair del address4:10.0.0.1", "PairUnknown"),
    (0, "pair add address4:10.0.0.1 address6:fd00::1", "done"),
    (
        0,
        "pair add address4:10.0.0.1 address6:fd00::2",
        "PairExists",
    ),
    (
        0,
        "pair add address4:10.0.0.2 address6:fd00::1",
        "PairExists",
    ),
    (0, "pair del address4:10.0.0.2", "PairUnknown"),
    (0, "pair del address4:10.0.0.1", "done"),
    (0, "pair add address4:10.0.0.2 address6:fd00::1", "done"),
    (0, "mgmt version", "version 1\n"),
    (0, "mgmt protocols", "unlbl\ncipsov4\ncalipso\n"),
];

/// Two nodes, of which a command changes one.
const APART: Rows = &[
    (0, "cipsov4 add pass doi:16 tags:1", "done"),
    (1, "map add default protocol:cipsov4,16", "DoiUnknown"),
    (1, "cipsov4 list", ""),
    (1, "cipsov4 add pass doi:16 tags:2", "done"),
    (1, "unlbl accept on", "done"),
    (1, "map add default protocol:cipsov4,16", "done"),
    (0, "map list", ""),
    (0, "unlbl list", "unlbl accept off\n"),
    (0, "cipsov4 list", "cipsov4 add pass doi:16 tags:1\n"),
    (0, "cipsov4 del doi:16", "done"),
    (1, "cipsov4 list", "cipsov4 add pass doi:16 tags:2\n"),
];

fn said(rt: &impl Abort, alloc: Global, line: &[u8]) -> Said {
    let mut words = Vec::new(alloc);
    words_into(line, &mut words).expect(rt, "memory");
    read_said(alloc, false, &words, line.len()).expect(rt, "a command")
}

fn step(rt: &impl Abort, alloc: Global, node: usize, line: &[u8]) -> Step {
    let said = said(rt, alloc, line);
    let command = command_of(said.row, said.fields).expect(rt, "a command");
    let step = Step { node, command };
    step.copy(alloc).expect(rt, "memory")
}

/// What a reply says, in the form of the rows above.
fn append_reply(rt: &impl Abort, reply: &Reply, said: &mut Vec<u8>) {
    match reply {
        Reply::Done => said.extend_from_slice(b"done").expect(rt, "memory"),
        Reply::Refused(why) => said
            .extend_from_slice(why.name().as_bytes())
            .expect(rt, "memory"),
        Reply::Listed(lines) => append_lines(rt, lines, said),
    }
}

fn append_lines(rt: &impl Abort, lines: &ListText, said: &mut Vec<u8>) {
    for i in 0..lines.count() {
        said.extend_from_slice(lines.line(i)).expect(rt, "memory");
        said.push(b'\n').expect(rt, "memory");
    }
}

fn said_of(rt: &impl Abort, alloc: Global, reply: &Reply) -> Vec<u8> {
    let mut said = Vec::new(alloc);
    append_reply(rt, reply, &mut said);
    said
}

fn apply(rt: &impl Abort, network: &mut Network, step: &Step) -> Reply {
    assert!(rt; step.node < network.nodes());
    network.apply(step).expect(rt, "memory")
}

/// Carries out a command, and says the reply.
fn reply(
    rt: &impl Abort,
    alloc: Global,
    network: &mut Network,
    node: usize,
    line: &[u8],
) -> Vec<u8> {
    let step = step(rt, alloc, node, line);
    said_of(rt, alloc, &apply(rt, network, &step))
}

/// Carries out a command, which is answered so.
fn answers(
    rt: &impl Abort,
    alloc: Global,
    network: &mut Network,
    (node, line, wanted): (usize, &str, &str),
) {
    let said = reply(rt, alloc, network, node, line.as_bytes());
    same(rt, line, said.as_slice(), wanted.as_bytes());
}

/// All that a node lists.
fn listings(rt: &impl Abort, alloc: Global, network: &mut Network, node: usize) -> Vec<u8> {
    let mut all = Vec::new(alloc);
    for line in ["cipsov4 list", "calipso list", "map list", "unlbl list"] {
        let said = reply(rt, alloc, network, node, line.as_bytes());
        all.extend_from_slice(&said).expect(rt, "memory");
    }
    all
}

fn answers_row(rt: &impl Abort, alloc: Global, network: &mut Network, row: Row) {
    let (node, line, wanted) = row;
    let before = listings(rt, alloc, network, node);
    answers(rt, alloc, network, row);
    let unchanged = before == listings(rt, alloc, network, node);
    assert!(rt; wanted == "done" || unchanged, "{line} changed a table");
}

fn answers_all(rt: &impl Abort, alloc: Global, network: &mut Network, rows: Rows) {
    for row in rows {
        answers_row(rt, alloc, network, *row);
    }
}

/// What is answered by a network of two nodes.
const ALL: &[Rows] = &[NAMED, DEFINITIONS, ENTRIES, LABELS, OTHERS, APART];

#[test]
fn answers_commands(rt: HostRuntime) {
    for rows in ALL {
        let mut network = Network::fresh(rt.alloc(), 2).expect(&rt, "memory");
        answers_all(&rt, rt.alloc(), &mut network, rows);
    }
}

/// What both nodes list.
fn of_both(rt: &impl Abort, alloc: Global, network: &mut Network) -> Vec<u8> {
    let mut all = listings(rt, alloc, network, 0);
    all.extend_from_slice(&listings(rt, alloc, network, 1))
        .expect(rt, "memory");
    all
}

fn advance(rt: &impl Abort, network: &mut Network, step: &Step) {
    assert!(rt; step.node < network.nodes());
    network.advance(step).expect(rt, "memory");
}

fn goes_on_by(
    rt: &impl Abort,
    alloc: Global,
    replied: &mut Network,
    silent: &mut Network,
    (node, line, _): Row,
) {
    let step = step(rt, alloc, node, line.as_bytes());
    let _reply = apply(rt, replied, &step);
    advance(rt, silent, &step);
    lists_same(rt, alloc, replied, silent, line);
}

fn lists_same(
    rt: &impl Abort,
    alloc: Global,
    replied: &mut Network,
    silent: &mut Network,
    line: &str,
) {
    let unchanged = of_both(rt, alloc, replied) == of_both(rt, alloc, silent);
    assert!(rt; unchanged, "{line} without its reply");
}

/// Gives the steps of these rows to one network with their replies, and to another without them.
fn goes_on(rt: &impl Abort, alloc: Global, rows: Rows) {
    let mut replied = Network::fresh(alloc, 2).expect(rt, "memory");
    let mut silent = Network::fresh(alloc, 2).expect(rt, "memory");
    for row in rows {
        goes_on_by(rt, alloc, &mut replied, &mut silent, *row);
    }
}

#[test]
fn goes_on_without_replies(rt: HostRuntime) {
    for rows in ALL {
        goes_on(&rt, rt.alloc(), rows);
    }
}

/// What is set at the second node.
const SET: Rows = &[
    (1, "range add default range:s0-s1", "done"),
    (1, "range add interface:eth0 range:s0-s3:c0.c1023", "done"),
    (
        1,
        "receiver add address:10.0.0.2 domain:sink_t level:s1:c2-s2:c0.c5",
        "done",
    ),
    (1, "pair add address4:10.0.0.1 address6:fd00::1", "done"),
    (1, "pair add address4:10.0.0.2 address6:fd00::2", "done"),
    (1, "cipsov4 add pass doi:1 tags:1", "done"),
    (1, "cipsov4 add pass doi:2 tags:1", "done"),
    (
        1,
        "map add domain:web_t address:10.0.0.0/8 protocol:cipsov4,1",
        "done",
    ),
    (
        1,
        "map add domain:web_t address:10.1.0.0/16 protocol:cipsov4,2",
        "done",
    ),
    (1, "map add default protocol:unlbl", "done"),
    (1, "unlbl accept on", "done"),
    (
        1,
        "unlbl add interface:eth0 address:10.0.0.0/8 label:s1-s2",
        "done",
    ),
];

/// What takes some of it away.
const LESS: Rows = &[
    (1, "range del interface:eth0", "done"),
    (1, "receiver del address:10.0.0.2", "done"),
    (1, "pair del address4:10.0.0.1", "done"),
    (1, "map del domain:web_t address:10.1.0.0/16", "done"),
    (1, "unlbl accept off", "done"),
    (1, "unlbl del interface:eth0 address:10.0.0.0/8", "done"),
];

/// What takes the rest away.
const NONE: Rows = &[
    (1, "range del default", "done"),
    (1, "pair del address4:10.0.0.2", "done"),
    (1, "map del domain:web_t address:10.0.0.0/8", "done"),
    (1, "map del domain:web_t", "MapUnknown"),
    (1, "cipsov4 del doi:2", "done"),
];

const FIRST: Option<Protocol> = Some(Protocol::Cipso { doi: 1 });

const SECOND: Option<Protocol> = Some(Protocol::Cipso { doi: 2 });

fn name(rt: &impl Abort, text: &str) -> Name {
    read_name(text.as_bytes()).expect(rt, "a name")
}

fn address(rt: &impl Abort, text: &str) -> Address {
    read_address(text.as_bytes()).expect(rt, "an address")
}

fn protocol(rt: &impl Abort, tables: &Tables, domain: &str, text: &str) -> Option<Protocol> {
    tables.map().find(&name(rt, domain), &address(rt, text))
}

/// The protocols of four domains and addresses.
fn protocols(rt: &impl Abort, tables: &Tables) -> [Option<Protocol>; 4] {
    [
        protocol(rt, tables, "web_t", "10.1.2.3"),
        protocol(rt, tables, "web_t", "10.9.9.9"),
        protocol(rt, tables, "web_t", "11.0.0.1"),
        protocol(rt, tables, "other_t", "11.0.0.1"),
    ]
}

/// The levels of the ends of an interface's range.
fn range(rt: &impl Abort, tables: &Tables, interface: &str) -> Option<(u8, u8)> {
    let range = tables.find_range(&name(rt, interface))?;
    Some((range.low().level, range.high().level))
}

/// The levels of the ends of a receiver.
fn receiver(rt: &impl Abort, tables: &Tables) -> Option<(u8, u8)> {
    let receiver = tables.find_receiver(&address(rt, "10.0.0.2"))?;
    Some((receiver.low.level, receiver.level.level))
}

/// The levels of the labels of packets without a label.
fn labels(rt: &impl Abort, tables: &Tables) -> Option<(u8, u8)> {
    let (low, high) = tables
        .statics()
        .find(&name(rt, "eth0"), &address(rt, "10.0.0.9"))?;
    Some((low.level, high.level))
}

/// The last octets of the addresses that stand for others.
fn paired(tables: &Tables, last: u8) -> (Option<u8>, Option<u8>) {
    let six = [0xfd, 0, 0, 0, 0, 0, 0, 0, 0, 0, 0, 0, 0, 0, 0, last];
    (
        tables.find_six([10, 0, 0, last]).map(|six| six[15]),
        tables.find_four(six).map(|four| four[3]),
    )
}

/// A network with all that is set, with less of it and with none: copies of one, which goes on.
#[derive(Drop)]
struct Stages {
    set: Network,
    less: Network,
    none: Network,
}

fn staged(rt: &impl Abort, alloc: Global) -> Stages {
    let mut network = Network::fresh(alloc, 2).expect(rt, "memory");
    answers_all(rt, alloc, &mut network, SET);
    let set = network.copy().expect(rt, "memory");
    answers_all(rt, alloc, &mut network, LESS);
    let less = network.copy().expect(rt, "memory");
    answers_all(rt, alloc, &mut network, NONE);
    Stages {
        set,
        less,
        none: network,
    }
}

fn tables<'a>(rt: &impl Abort, network: &'a Network, node: usize) -> &'a Tables {
    assert!(rt; network.nodes() == 2 && node < 2);
    network.node(node)
}

fn finds_protocols(rt: &impl Abort, network: &Network, node: usize, wanted: [Option<Protocol>; 4]) {
    let found = protocols(rt, tables(rt, network, node));
    same(rt, wanted, found, wanted);
}

#[test]
fn finds_protocols_that_were_set(rt: HostRuntime) {
    let stages = staged(&rt, rt.alloc());
    let unlbl = Some(Protocol::Unlbl);
    finds_protocols(&rt, &stages.set, 1, [SECOND, FIRST, None, unlbl]);
    finds_protocols(&rt, &stages.less, 1, [FIRST, FIRST, None, unlbl]);
    finds_protocols(&rt, &stages.none, 1, [unlbl; 4]);
    finds_protocols(&rt, &stages.none, 0, [None; 4]);
}

#[test]
fn finds_ranges_that_were_set(rt: HostRuntime) {
    let stages = staged(&rt, rt.alloc());
    let (set, less) = (tables(&rt, &stages.set, 1), tables(&rt, &stages.less, 1));
    let none = tables(&rt, &stages.none, 1);
    same(&rt, "set", range(&rt, set, "eth0"), Some((0, 3)));
    same(&rt, "default", range(&rt, set, "eth1"), Some((0, 1)));
    same(&rt, "less", range(&rt, less, "eth0"), Some((0, 1)));
    same(&rt, "none", range(&rt, none, "eth0"), None);
}

#[test]
fn finds_labels_that_were_set(rt: HostRuntime) {
    let stages = staged(&rt, rt.alloc());
    let (set, less) = (tables(&rt, &stages.set, 1), tables(&rt, &stages.less, 1));
    same(&rt, "receiver, set", receiver(&rt, set), Some((1, 2)));
    same(&rt, "receiver, less", receiver(&rt, less), None);
    same(&rt, "labels, set", labels(&rt, set), Some((1, 2)));
    same(&rt, "labels, less", labels(&rt, less), None);
    assert!(rt; set.accepts() && !less.accepts());
}

#[test]
fn finds_pairs_that_were_set(rt: HostRuntime) {
    let stages = staged(&rt, rt.alloc());
    let (set, less) = (tables(&rt, &stages.set, 1), tables(&rt, &stages.less, 1));
    same(&rt, "1, set", paired(set, 1), (Some(1), Some(1)));
    same(&rt, "2, set", paired(set, 2), (Some(2), Some(2)));
    same(&rt, "1, less", paired(less, 1), (None, None));
    same(&rt, "2, less", paired(less, 2), (Some(2), Some(2)));
}

#[test]
fn finds_dois_that_were_set(rt: HostRuntime) {
    let stages = staged(&rt, rt.alloc());
    let (set, none) = (tables(&rt, &stages.set, 1), tables(&rt, &stages.none, 1));
    assert!(rt; set.dois().find(Proto::Cipso, 2).is_some());
    assert!(rt; none.dois().find(Proto::Cipso, 2).is_none());
}

/// The words of a command before and behind a number, how many of these a table takes, and the refusal of one that is there.
const LIMITS: &[(&str, &str, usize, &str)] = &[
    ("cipsov4 add pass doi:1", " tags:1", 64, "DoiExists"),
    ("calipso add pass doi:1", "", 64, "DoiExists"),
    ("map add domain:d", " protocol:unlbl", 256, "MapExists"),
    (
        "map add default address:fd00::1",
        " protocol:unlbl",
        256,
        "MapExists",
    ),
    (
        "unlbl add interface:e",
        " address:::/0 label:s0",
        256,
        "StaticExists",
    ),
    (
        "receiver add address:fd00::1",
        " domain:d level:s0",
        256,
        "ReceiverExists",
    ),
    ("range add interface:e", " range:s0", 64, "RangeExists"),
];

fn answers_number(
    rt: &impl Abort,
    alloc: Global,
    network: &mut Network,
    (head, tail): (&str, &str),
    number: usize,
    wanted: &str,
) {
    let line = format!(in alloc; "{head}{number}{tail}").expect(rt, "memory");
    answers(rt, alloc, network, (0, line.as_str(), wanted));
}

/// Fills a table by so many commands.
fn filled(rt: &impl Abort, alloc: Global, words: (&str, &str), most: usize) -> Network {
    let mut network = Network::fresh(alloc, 1).expect(rt, "memory");
    for number in 0..most {
        answers_number(rt, alloc, &mut network, words, number, "done");
    }
    network
}

// What is there is told before the table is full.
fn keeps_limit(
    rt: &impl Abort,
    alloc: Global,
    (head, tail, most, exists): (&str, &str, usize, &str),
) {
    let mut network = filled(rt, alloc, (head, tail), most);
    answers_number(rt, alloc, &mut network, (head, tail), 7, exists);
    answers_number(rt, alloc, &mut network, (head, tail), most, "TableFull");
}

#[test]
fn keeps_limits(rt: HostRuntime) {
    for limit in LIMITS {
        keeps_limit(&rt, rt.alloc(), *limit);
    }
}

fn pair(rt: &impl Abort, network: &mut Network, high: u8, low: u8) -> Reply {
    let four = [10, 0, high, low];
    let six = [0xfd, 0, 0, 0, 0, 0, 0, 0, 0, 0, 0, 0, 0, 0, high, low];
    let command = Command::PairAdd { four, six };
    apply(rt, network, &Step { node: 0, command })
}

fn answers_pair(
    rt: &impl Abort,
    alloc: Global,
    network: &mut Network,
    (high, low): (u8, u8),
    wanted: &str,
) {
    let said = said_of(rt, alloc, &pair(rt, network, high, low));
    same(rt, (high, low), said.as_slice(), wanted.as_bytes());
}

#[test]
fn takes_256_pairs(rt: HostRuntime) {
    let alloc = rt.alloc();
    let mut network = Network::fresh(alloc, 1).expect(&rt, "memory");
    for low in 0..=255u8 {
        answers_pair(&rt, alloc, &mut network, (0, low), "done");
    }
    answers_pair(&rt, alloc, &mut network, (0, 7), "PairExists");
    answers_pair(&rt, alloc, &mut network, (1, 0), "TableFull");
}

/// A definition with so many pairs of categories.
fn definition(rt: &impl Abort, alloc: Global, front: &str, pairs: u16) -> Vec<u8> {
    let mut line = Vec::from_slice(alloc, front.as_bytes()).expect(rt, "memory");
    line.extend_from_slice(b" categories:0=0")
        .expect(rt, "memory");
    for number in 1..pairs {
        let pair = format!(in alloc; ",{number}={number}").expect(rt, "memory");
        line.extend_from_slice(pair.as_bytes()).expect(rt, "memory");
    }
    line
}

/// How definitions begin, how many pairs of categories they have, and how a full table and then an empty one answer them.
const PAIRS: &[(&str, u16, &str, &str)] = &[
    (
        "cipsov4 add trans doi:10 tags:1 levels:0=0,1=0",
        1953,
        "DoiExists",
        "TooManyPairs",
    ),
    (
        "cipsov4 add trans doi:9 tags:1 levels:0=0,1=0",
        1953,
        "TooManyPairs",
        "TooManyPairs",
    ),
    (
        "cipsov4 add trans doi:9 tags:1 levels:0=0,1=0",
        1952,
        "NotOneToOne",
        "NotOneToOne",
    ),
    (
        "cipsov4 add trans doi:9 tags:1 levels:0=0",
        1952,
        "TableFull",
        "done",
    ),
    (
        "calipso add trans doi:9 levels:0=0",
        1953,
        "TooManyPairs",
        "TooManyPairs",
    ),
];

fn answers_pairs(
    rt: &impl Abort,
    alloc: Global,
    full: &mut Network,
    empty: &mut Network,
    (front, pairs, of_full, of_empty): (&str, u16, &str, &str),
) {
    let line = definition(rt, alloc, front, pairs);
    let said = reply(rt, alloc, full, 0, &line);
    same(
        rt,
        ("full", front, pairs),
        said.as_slice(),
        of_full.as_bytes(),
    );
    let said = reply(rt, alloc, empty, 0, &line);
    same(
        rt,
        ("empty", front, pairs),
        said.as_slice(),
        of_empty.as_bytes(),
    );
}

#[test]
fn takes_1952_pairs_of_categories(rt: HostRuntime) {
    let alloc = rt.alloc();
    let mut full = filled(&rt, alloc, ("cipsov4 add pass doi:1", " tags:1"), 64);
    let mut empty = Network::fresh(alloc, 1).expect(&rt, "memory");
    for row in PAIRS {
        answers_pairs(&rt, alloc, &mut full, &mut empty, *row);
    }
}
