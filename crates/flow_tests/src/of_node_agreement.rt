use crate::checks::same;
use label_commands::{Reading, Step, read_script};
use label_flow::*;
use node_tables::{Network, Reply};
use std::alloc::Global;
use std::process::Abort;
use worked_values::scripts::{CROSSING, EXCHANGE};

fn carry_out(rt: &impl Abort, network: &mut Network, steps: &[Step]) {
    for step in steps {
        assert!(rt; step.node < network.nodes());
        let reply = network.apply(step).expect(rt, "memory");
        assert!(rt; matches!(reply, Reply::Done));
    }
}

fn agreement(
    rt: &impl Abort,
    network: &Network,
    readings: &[Reading],
    (left, right): (usize, usize),
) -> Option<Disagree> {
    assert!(rt; left < network.nodes() && right < network.nodes());
    assert!(rt; left < readings.len() && right < readings.len());
    agrees(
        network.node(left),
        network.node(right),
        &readings[left],
        &readings[right],
    )
}

// What two nodes of a script are told after its first steps.
fn compared(
    rt: &impl Abort,
    alloc: Global,
    text: &str,
    steps: usize,
    nodes: (usize, usize),
) -> Option<Disagree> {
    let script = read_script(alloc, text.as_bytes(), "script").expect(rt, "a script");
    let readings = script.readings.as_slice();
    let commands = script.steps.as_slice();
    let mut network = Network::fresh(alloc, readings.len()).expect(rt, "memory");
    assert!(rt; steps <= commands.len());
    carry_out(rt, &mut network, &commands[..steps]);
    agreement(rt, &network, readings, nodes)
}

// Protocol, DOI, whether it is a level, the number on the wire, and its two meanings.
type Told = (Proto, u32, bool, u16, u32, u32);

fn told(found: Option<Disagree>) -> Option<Told> {
    let d = found?;
    Some((d.proto, d.doi, d.level, d.wire, d.left, d.right))
}

const CIPSO: Proto = Proto::Cipso;

const CALIPSO: Proto = Proto::Calipso;

// What is shown, a script of two nodes, and what is told of them.
const ROWS: &[(&str, usize, &str, Option<Told>)] = &[
    (
        "nothing in common",
        2,
        "node a\ncipsov4 add trans doi:1 tags:2 levels:5=0\nnode b\ncalipso add pass doi:1",
        None,
    ),
    (
        "other DOIs",
        2,
        "node a\ncipsov4 add trans doi:1 tags:2 levels:5=0\nnode b\ncipsov4 add pass doi:2 tags:2",
        None,
    ),
    (
        "other numbers",
        2,
        "node a\ncipsov4 add trans doi:1 tags:2 levels:5=0 categories:1=2\nnode b\ncipsov4 add trans doi:1 tags:2 levels:6=1 categories:2=1",
        None,
    ),
    (
        "the first level",
        2,
        "node a\ncipsov4 add trans doi:1 tags:2 levels:5=0 categories:7=0\nnode b\ncipsov4 add pass doi:1 tags:2",
        Some((CIPSO, 1, true, 0, 5, 0)),
    ),
    (
        "the last level",
        2,
        "node a\ncipsov4 add pass doi:1 tags:2\nnode b\ncipsov4 add trans doi:1 tags:2 levels:4=255",
        Some((CIPSO, 1, true, 255, 255, 4)),
    ),
    (
        "a named level",
        2,
        "node a\ncipsov4 add pass doi:1 tags:2\nnode b\ncipsov4 add pass doi:1 tags:2\nreading levels:255=300",
        Some((CIPSO, 1, true, 255, 255, 300)),
    ),
    (
        "levels by their readings",
        2,
        "node a\ncipsov4 add trans doi:1 tags:2 levels:254=9\nreading levels:254=255,255=256\nnode b\ncipsov4 add trans doi:1 tags:2 levels:255=9",
        None,
    ),
    (
        "the first category",
        2,
        "node a\ncipsov4 add pass doi:1 tags:2\nnode b\ncipsov4 add trans doi:1 tags:2 levels:0=0 categories:9=0",
        Some((CIPSO, 1, false, 0, 0, 9)),
    ),
    (
        "the last category",
        2,
        "node a\ncipsov4 add trans doi:1 tags:2 levels:0=0 categories:9=65534\nnode b\ncipsov4 add pass doi:1 tags:2",
        Some((CIPSO, 1, false, 65534, 9, 65534)),
    ),
    (
        "the lowest number",
        2,
        "node a\ncipsov4 add trans doi:1 tags:2 levels:0=0 categories:1=9,2=4\nnode b\ncipsov4 add trans doi:1 tags:2 levels:0=0 categories:3=9,4=4",
        Some((CIPSO, 1, false, 4, 2, 4)),
    ),
    (
        "the lowest that the right names",
        2,
        "node a\ncipsov4 add pass doi:1 tags:2\nnode b\ncipsov4 add pass doi:1 tags:2\nreading categories:9=8,8=9,3=2,2=3",
        Some((CIPSO, 1, false, 2, 2, 3)),
    ),
    (
        "the lowest that the left names",
        2,
        "node a\ncipsov4 add pass doi:1 tags:2\nreading categories:1=6,6=1\nnode b\ncipsov4 add pass doi:1 tags:2\nreading categories:9=8,8=9",
        Some((CIPSO, 1, false, 1, 6, 1)),
    ),
    (
        "the same names",
        2,
        "node a\ncipsov4 add pass doi:1 tags:2\nreading categories:1=6,6=1\nnode b\ncipsov4 add pass doi:1 tags:2\nreading categories:6=1,1=6",
        None,
    ),
    (
        "the lowest DOI",
        4,
        "node a\ncipsov4 add pass doi:30 tags:2\ncipsov4 add pass doi:20 tags:2\nnode b\ncipsov4 add pass doi:20 tags:2\ncipsov4 add pass doi:30 tags:2\nreading categories:1=6,6=1",
        Some((CIPSO, 20, false, 1, 1, 6)),
    ),
    (
        "a level of a higher DOI",
        4,
        "node a\ncipsov4 add pass doi:2 tags:2\ncipsov4 add pass doi:1 tags:2\nnode b\ncipsov4 add trans doi:2 tags:2 levels:1=2\ncipsov4 add trans doi:1 tags:2 levels:0=0 categories:1=2",
        Some((CIPSO, 1, false, 2, 2, 1)),
    ),
    (
        "the highest DOI",
        2,
        "node a\ncipsov4 add pass doi:4294967295 tags:2\nnode b\ncipsov4 add trans doi:4294967295 tags:2 levels:1=2",
        Some((CIPSO, 4294967295, true, 2, 2, 1)),
    ),
    (
        "CIPSO first",
        4,
        "node a\ncalipso add pass doi:3\ncipsov4 add pass doi:20 tags:2\nnode b\ncalipso add trans doi:3 levels:1=2\ncipsov4 add trans doi:20 tags:2 levels:0=0 categories:1=2",
        Some((CIPSO, 20, false, 2, 2, 1)),
    ),
    (
        "CALIPSO behind CIPSO",
        4,
        "node a\ncipsov4 add pass doi:3 tags:2\ncalipso add pass doi:9\nnode b\ncipsov4 add pass doi:3 tags:2\ncalipso add trans doi:9 levels:2=7 categories:1=0",
        Some((CALIPSO, 9, true, 7, 7, 2)),
    ),
    (
        "names that CALIPSO can't carry",
        2,
        "node a\ncalipso add pass doi:9\nnode b\ncalipso add pass doi:9\nreading categories:3000=3001,3001=3000",
        None,
    ),
    (
        "the first such name",
        2,
        "node a\ncalipso add pass doi:9\nnode b\ncalipso add pass doi:9\nreading categories:1952=1953,1953=1952",
        None,
    ),
    (
        "the last name below",
        2,
        "node a\ncalipso add pass doi:9\nnode b\ncalipso add pass doi:9\nreading categories:1952=1951,1951=1952",
        Some((CALIPSO, 9, false, 1951, 1951, 1952)),
    ),
    (
        "CIPSO can carry them",
        2,
        "node a\ncipsov4 add pass doi:9 tags:2\nnode b\ncipsov4 add pass doi:9 tags:2\nreading categories:3000=3001,3001=3000",
        Some((CIPSO, 9, false, 3000, 3000, 3001)),
    ),
    (
        "a pair that CALIPSO can't carry",
        2,
        "node a\ncalipso add trans doi:9 levels:7=7 categories:1=1952\nnode b\ncalipso add pass doi:9",
        None,
    ),
    (
        "the last pair below",
        2,
        "node a\ncalipso add trans doi:9 levels:7=7 categories:1=1951\nnode b\ncalipso add pass doi:9",
        Some((CALIPSO, 9, false, 1951, 1, 1951)),
    ),
];

#[test]
fn tells_the_first_difference(rt: HostRuntime) {
    for &(name, steps, script, wanted) in ROWS {
        let found = compared(&rt, rt.alloc(), script, steps, (0, 1));
        same(&rt, name, told(found), wanted);
    }
}

// So many steps of `CROSSING` and `EXCHANGE`, two nodes, and what is told of them.
const NEIGHBOURS: &[(usize, (usize, usize), Option<Told>)] = &[
    (15, (0, 1), None),
    (15, (1, 2), None),
    (15, (2, 3), None),
    (18, (2, 3), Some((CIPSO, 10, false, 4, 1, 3))),
    (17, (2, 3), None),
    (19, (2, 3), Some((CIPSO, 10, false, 4, 1, 3))),
    (19, (3, 2), Some((CIPSO, 10, false, 4, 3, 1))),
];

#[test]
fn compares_neighbours_of_four_nodes(rt: HostRuntime) {
    let script = format!(in rt.alloc(); "{CROSSING}{EXCHANGE}").expect(&rt, "memory");
    for &(steps, nodes, wanted) in NEIGHBOURS {
        let found = compared(&rt, rt.alloc(), &script, steps, nodes);
        same(&rt, (steps, nodes), told(found), wanted);
    }
}
