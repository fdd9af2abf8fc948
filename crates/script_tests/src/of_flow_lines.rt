use crate::checks::same;
use label_commands::ScriptKind::{HopOrder, Missing, NameTwice, UnknownNode, Value};
use label_commands::*;
use std::alloc::Global;
use std::process::Abort;

/// The flow above each line, behind two commands.
const ABOVE: &str = "flow x y receive:a,e";

/// Lines, and where and why they are refused, in the script `s` under the nodes `a` and `b`.
const REFUSED: &[(&str, usize, ScriptKind)] = &[
    ("flow", 4, Missing),
    ("flow z", 6, Missing),
    ("flow z -  # x", 13, Missing),
    ("flow -z - receive:a,e", 5, Value),
    ("flow y - receive:a,e", 5, NameTwice),
    ("flow z -z receive:a,e", 7, Value),
    ("flow z z receive:a,e", 7, NameTwice),
    ("flow z s receive:a,e", 7, NameTwice),
    ("flow z x receive:a,e", 7, NameTwice),
    ("flow z y receive:a,e", 7, NameTwice),
    ("flow z - pass:a,e", 9, ScriptKind::Word),
    ("flow z - receive", 9, ScriptKind::Word),
    ("flow z - receive:a", 9, Value),
    ("flow z - receive:a,e,f", 9, Value),
    ("flow z - receive:c,e! receive:a,e", 9, Value),
    ("flow z - receive:c,e receive:a,e", 9, UnknownNode),
    ("flow z - receive:a,e receive:a,e", 9, HopOrder),
    ("flow z - forward:a,e,f receive:a,e", 9, Value),
    ("flow z - forward:a,e,f,d,g receive:a,e", 9, Value),
    ("flow z - forward:a,e,f,d send:b,d,e,s0", 25, HopOrder),
    ("flow z - send:a,d,e", 9, Value),
    ("flow z - send:a,d,e,s0:c1,c2,", 9, Value),
    ("flow z - send:a,d,e,s0-s1", 9, Value),
    ("flow z - send:a,d,e,s256", 9, Value),
];

/// Lines that are read, each with how many hops it has.
const READ: &[(&str, usize)] = &[
    ("flow x z receive:b,e", 1),
    ("flow s z receive:b,e", 1),
    ("flow z\t- send:a,d,e,s0:c1,c2 # x", 1),
    (
        "flow z z2 send:a,d,e,s1 forward:b,e,f,d forward:a,e,f,d receive:b,e",
        4,
    ),
];

const FIFTEEN: &str =
    "flow z - forward:a,e,f,d forward:a,e,f,d forward:a,e,f,d forward:a,e,f,d forward:a,e,f,d forward:a,e,f,d forward:a,e,f,d forward:a,e,f,d forward:a,e,f,d forward:a,e,f,d forward:a,e,f,d forward:a,e,f,d forward:a,e,f,d forward:a,e,f,d forward:a,e,f,d";

/// As many octets as a file name may have.
const LONGEST: &str =
    "a23456789_123456789_123456789_123456789_123456789_123456789_123456789_123456789_123456789_123456789_123456789_123456789_1234567";

/// The nodes `a` and `b`.
fn two_nodes(alloc: Global) -> Result<NodeNames, LineStop> {
    let mut nodes = NodeNames::empty(alloc);
    for name in ["a", "b"] {
        if let Some(name) = read_name(name.as_bytes()) {
            nodes.add(name)?;
        }
    }
    Ok(nodes)
}

/// What a flow line says under these flows, with so many steps above it.
fn read_under(
    alloc: Global,
    nodes: &NodeNames,
    flows: &Flows,
    before: u32,
    line: &str,
) -> Result<FlowLine, LineStop> {
    let mut words = Vec::new(alloc);
    words_into(line.as_bytes(), &mut words)?;
    read_flow("s", nodes, flows, before, line.len(), behind_first(&words))
}

/// The flows with `ABOVE`.
fn flows_above(rt: &impl Abort, alloc: Global, nodes: &NodeNames) -> Flows {
    let mut flows = Flows::empty(alloc);
    let above = read_under(alloc, nodes, &flows, 2, ABOVE).expect(rt, "a flow");
    flows.push(above).expect(rt, "memory");
    flows
}

/// What a flow line says under `ABOVE`.
fn read(rt: &impl Abort, alloc: Global, line: &str) -> Result<FlowLine, LineStop> {
    let nodes = two_nodes(alloc).expect(rt, "nodes");
    let flows = flows_above(rt, alloc, &nodes);
    read_under(alloc, &nodes, &flows, 4, line)
}

fn behind_first<'a, 'b>(words: &'b [Word<'a>]) -> &'b [Word<'a>] {
    match words {
        [_, behind @ ..] => behind,
        [] => words,
    }
}

fn stops(rt: &impl Abort, alloc: Global, line: &str, wanted: LineStop) {
    let found = read(rt, alloc, line).err();
    same(rt, line, found, Some(wanted));
}

#[test]
fn names_the_first_fault(rt: HostRuntime) {
    for &(line, octet, kind) in REFUSED {
        stops(&rt, rt.alloc(), line, LineStop::at(octet, kind));
    }
}

fn reads(rt: &impl Abort, alloc: Global, line: &str, hops: usize) {
    let flow = read(rt, alloc, line).expect(rt, line);
    same(rt, line, flow.hops.hops().len(), hops);
    same(rt, line, flow.before, 4);
}

#[test]
fn reads_flows(rt: HostRuntime) {
    for &(line, hops) in READ {
        reads(&rt, rt.alloc(), line, hops);
    }
}

/// A flow of fifteen hops, and what comes behind them.
fn fifteen(rt: &impl Abort, alloc: Global, behind: &str) -> String {
    format!(in alloc; "{FIFTEEN} {behind}").expect(rt, "memory")
}

#[test]
fn takes_sixteen_hops(rt: HostRuntime) {
    let last = fifteen(&rt, rt.alloc(), "receive:b,e");
    reads(&rt, rt.alloc(), last.as_str(), 16);
}

#[test]
fn takes_no_more_hops(rt: HostRuntime) {
    let behind = fifteen(&rt, rt.alloc(), "receive:b,e !");
    stops(
        &rt,
        rt.alloc(),
        behind.as_str(),
        LineStop::at(249, HopOrder),
    );
    let more = fifteen(&rt, rt.alloc(), "forward:a,e,f,d !");
    stops(
        &rt,
        rt.alloc(),
        more.as_str(),
        LineStop::Limit(LimitName::Hops),
    );
}

/// Texts that are names of files.
const FILES: &[&str] = &["a", "~-#", "in/one.pcap", LONGEST];

/// Texts that aren't.
const NO_FILES: &[&str] = &["", "-", "-a", "#a", "a b", "a\t", "\u{e9}"];

fn names_file(rt: &impl Abort, alloc: Global, text: &str) {
    let read = read_file_name(alloc, text.as_bytes()).expect(rt, "memory");
    same(rt, text, read.expect(rt, text).text(), text);
}

fn names_no_file(rt: &impl Abort, alloc: Global, text: &str) {
    let read = read_file_name(alloc, text.as_bytes()).expect(rt, "memory");
    assert!(rt; read.is_none(), "at {text:?}");
}

#[test]
fn knows_names_of_files(rt: HostRuntime) {
    for &text in FILES {
        names_file(&rt, rt.alloc(), text);
    }
    for &text in NO_FILES {
        names_no_file(&rt, rt.alloc(), text);
    }
    let longer = format!(in rt.alloc(); "{LONGEST}8").expect(&rt, "memory");
    names_no_file(&rt, rt.alloc(), longer.as_str());
}
