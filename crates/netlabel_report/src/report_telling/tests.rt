use super::*;
use mls_label::Label;
use std::alloc::Global;
use std::process::Abort;

/// Lines of one report, and how they are told in each way but as CSV.
const LINES: &[(&str, &str, &str, &str)] = &[
    (
        "command 1 gate done",
        "",
        "",
        "{\"report\":1,\"line\":\"command\",\"step\":1,\"node\":\"gate\",\"answer\":\"done\"}\n",
    ),
    (
        "command 2 gate DoiExists",
        "refused 1.2 gate DoiExists\n",
        "",
        "{\"report\":1,\"line\":\"command\",\"step\":2,\"node\":\"gate\",\"answer\":\"DoiExists\"}\n",
    ),
    (
        "command 3 gate listed 1",
        "",
        "",
        "{\"report\":1,\"line\":\"command\",\"step\":3,\"node\":\"gate\",\"answer\":\"listed\",\"lines\":1}\n",
    ),
    (
        "  unlbl \"x\"",
        "",
        "",
        "{\"report\":1,\"line\":\"listed\",\"text\":\"unlbl \\\"x\\\"\"}\n",
    ),
    (
        "packet 1.2 delivered s0 to 10.9.0.2 versions 7,7",
        "",
        "",
        "{\"report\":1,\"line\":\"packet\",\"flow\":1,\"number\":2,\"became\":\"delivered\",\"label\":\"s0\",\"receiver\":\"10.9.0.2\",\"versions\":[7,7]}\n",
    ),
    (
        "packet 1.3 denied 22 NotIp hop 0 node - versions -",
        "",
        "packet 1.3 denied 22 NotIp hop 0 node - versions -\n",
        "{\"report\":1,\"line\":\"packet\",\"flow\":1,\"number\":3,\"became\":\"denied\",\"denial\":22,\"name\":\"NotIp\",\"hop\":0,\"node\":\"-\",\"versions\":[]}\n",
    ),
    ("done", "", "", "{\"report\":1,\"line\":\"done\"}\n"),
];

const SUM: &str =
    "reports 1 unfinished 0\ncommands 3 refused 1\npackets 2 delivered 1 sent 0 denied 1\ndenied 22 NotIp hop 0 node - packets 1\n";

/// Compares what is told of a line.
fn same(rt: &impl Abort, line: &str, found: &[u8], wanted: &str) {
    assert_eq!(rt; found, wanted.as_bytes(), "of {line}");
}

/// What is kept from line to line.
#[derive(Drop)]
struct Reading {
    label: Label,
    progress: Progress,
    tallies: Tallies,
}

fn new_reading(alloc: Global) -> Reading {
    Reading {
        label: Label::lowest(),
        progress: start(),
        tallies: Tallies::new(alloc),
    }
}

fn tells(rt: &impl Abort, alloc: Global, way: Way, kind: LineKind, line: &str, wanted: &str) {
    let manner = Manner {
        way,
        commands: Commands::unknown(),
    };
    let mut text = Vec::new(alloc);
    tell_line(&manner, 1, kind, line.as_bytes(), &mut text).expect(rt, "there is memory");
    same(rt, line, &text, wanted);
}

/// The kind of a line, which is counted.
fn taken(rt: &impl Abort, reading: &mut Reading, line: &str) -> LineKind {
    let octets = line.as_bytes();
    let kind = line_kind(
        &Commands::unknown(),
        &reading.progress,
        octets,
        &mut reading.label,
    )
    .expect(rt, "it is a line");
    count_line(kind, octets, &mut reading.progress, &mut reading.tallies).expect(
        rt,
        "there is memory",
    );
    kind
}

#[test]
fn tells_lines(rt: HostRuntime) {
    let alloc = rt.alloc();
    let mut reading = new_reading(alloc);
    for &(line, summary, denied, json) in LINES {
        let kind = taken(&rt, &mut reading, line);
        tells(&rt, alloc, Way::Summary, kind, line, summary);
        tells(&rt, alloc, Way::Denied, kind, line, denied);
        tells(&rt, alloc, Way::Json, kind, line, json);
    }
    count_end(&mut reading.progress);
    let mut sum = Vec::new(alloc);
    write_summary(&reading.progress, &reading.tallies, &mut sum).expect(&rt, "there is memory");
    same(&rt, "the sum", &sum, SUM);
}

/// Lines in the place of a listed one, and the octet at fault.
const NOT_LISTED: &[(&str, usize)] = &[
    ("", 0),
    ("unlbl", 0),
    (" unlbl", 1),
    ("  unlbl\taccept", 7),
    ("  \u{7f}", 2),
    ("  unlbl accept\r", 14),
];

/// Tells that a line is none from this octet on.
fn stops_at(rt: &impl Abort, reading: &mut Reading, line: &str, octet: usize) {
    let kind = line_kind(
        &Commands::unknown(),
        &reading.progress,
        line.as_bytes(),
        &mut reading.label,
    );
    assert_eq!(rt; kind.err(), Some(octet), "of {line}");
}

#[test]
fn lists_printable_lines(rt: HostRuntime) {
    let mut reading = new_reading(rt.alloc());
    taken(&rt, &mut reading, "command 1 gate listed 1");
    for &(line, octet) in NOT_LISTED {
        stops_at(&rt, &mut reading, line, octet);
    }
}
