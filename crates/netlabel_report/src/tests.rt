//! What no clause says: that calls succeed with ample memory, worked calls in each way, reads by small pieces, and reads and writes that fail.

use crate::top::report;
use net_io::{MemoryDepot, MemorySink};
use std::alloc::Global;
use std::process::Abort;

/// The files of the folder.
const FILES: &[(&str, &str)] = &[
    (
        "whole",
        "command 1 gate done\ncommand 2 gate DoiExists\ncommand 3 gate listed 1\n  unlbl \"x\"\nflow 1 a\npacket 1.1 delivered s0 to 10.9.0.2 versions 3\npacket 1.2 denied 3 Unlabelled hop 1 node gate versions 3\nend 1 packets 2 passed 1 denied 1\ndone\n",
    ),
    (
        "quiet",
        "command 1 gate done\nflow 1 a\npacket 1.1 sent unlbl versions 1\nend 1 packets 1 passed 1 denied 0\ndone\n",
    ),
    ("early", "command 1 gate listed 2\n  unlbl\n"),
    ("empty", ""),
    ("other", "command 1 gate done\ncommand 2 gate Done\n"),
    ("cut", "command 1 gate done\nflow 1 a\npacket 1.1 sent"),
    ("more", "done\ndone\n"),
    (
        "site",
        "# a site\nnode gate\ncipsov4 add pass doi:16 tags:1\n\nreading categories:1=70000\nnetlabelctl cipsov4 add pass doi:16 tags:1\nunlbl list\nnode press\nmap list\n",
    ),
    ("few", "command 2 gate DoiExists\n"),
    ("fifth", "command 5 gate done\n"),
    ("stranger", "command 4 press done\ncommand 4 gate done\n"),
    (
        "checked",
        "command 1 gate done\ncommand 2 gate DoiExists\ncommand 3 gate listed 1\n  unlbl\ncommand 4 press listed 0\nok 2 nodes 4 commands 0 flows\n",
    ),
    (
        "passed",
        "command 1 gate done\nflow 1 a\nlimit packets 1048576\n",
    ),
    ("after", "ok 1 nodes 0 commands 0 flows\ndone\n"),
];

/// Words, the status, and what is printed.
const CALLS: &[(&str, u8, &str)] = &[
    (
        "",
        1,
        "usage: netlabel_report [-e] [-s <script>] summary|denied|json|csv [<report>..]\n",
    ),
    (
        "-e",
        1,
        "usage: netlabel_report [-e] [-s <script>] summary|denied|json|csv [<report>..]\n",
    ),
    (
        "summary -e whole",
        1,
        "usage: netlabel_report [-e] [-s <script>] summary|denied|json|csv [<report>..]\n",
    ),
    (
        "-s site -e summary whole",
        1,
        "usage: netlabel_report [-e] [-s <script>] summary|denied|json|csv [<report>..]\n",
    ),
    (
        "whole",
        1,
        "usage: netlabel_report [-e] [-s <script>] summary|denied|json|csv [<report>..]\n",
    ),
    (
        "summary whole",
        0,
        "refused 1.2 gate DoiExists\nreports 1 unfinished 0\ncommands 3 refused 1\npackets 2 delivered 1 sent 0 denied 1\ndenied 3 Unlabelled hop 1 node gate packets 1\n",
    ),
    (
        "-e summary quiet whole whole early",
        8,
        "refused 2.2 gate DoiExists\nrefused 3.2 gate DoiExists\nended 4 unfinished\nreports 4 unfinished 1\ncommands 8 refused 2\npackets 5 delivered 2 sent 1 denied 2\ndenied 3 Unlabelled hop 1 node gate packets 2\n",
    ),
    ("-e denied quiet", 0, ""),
    (
        "denied whole early",
        0,
        "packet 1.2 denied 3 Unlabelled hop 1 node gate versions 3\nunfinished 2\n",
    ),
    (
        "-e denied whole",
        8,
        "packet 1.2 denied 3 Unlabelled hop 1 node gate versions 3\n",
    ),
    (
        "json early",
        0,
        "{\"report\":1,\"line\":\"command\",\"step\":1,\"node\":\"gate\",\"answer\":\"listed\",\"lines\":2}\n{\"report\":1,\"line\":\"listed\",\"text\":\"unlbl\"}\n{\"report\":1,\"line\":\"unfinished\"}\n",
    ),
    (
        "csv more",
        2,
        "report,line,step,node,answer,lines,flow,input,number,became,label,receiver,carrier,denial,name,octet,category,cause,hop,versions,packets,passed,denied,capture,kind,at,limit,most,nodes,commands,flows,text\n1,done,,,,,,,,,,,,,,,,,,,,,,,,,,,,,,\nreport 1 line 2 octet 0\n",
    ),
    (
        "summary empty",
        0,
        "ended 1 unfinished\nreports 1 unfinished 1\ncommands 0 refused 0\npackets 0 delivered 0 sent 0 denied 0\n",
    ),
    ("summary other", 2, "report 1 line 2 octet 15\n"),
    (
        "-e json whole cut",
        2,
        "{\"report\":1,\"line\":\"command\",\"step\":1,\"node\":\"gate\",\"answer\":\"done\"}\n{\"report\":1,\"line\":\"command\",\"step\":2,\"node\":\"gate\",\"answer\":\"DoiExists\"}\n{\"report\":1,\"line\":\"command\",\"step\":3,\"node\":\"gate\",\"answer\":\"listed\",\"lines\":1}\n{\"report\":1,\"line\":\"listed\",\"text\":\"unlbl \\\"x\\\"\"}\n{\"report\":1,\"line\":\"flow\",\"flow\":1,\"input\":\"a\"}\n{\"report\":1,\"line\":\"packet\",\"flow\":1,\"number\":1,\"became\":\"delivered\",\"label\":\"s0\",\"receiver\":\"10.9.0.2\",\"versions\":[3]}\n{\"report\":1,\"line\":\"packet\",\"flow\":1,\"number\":2,\"became\":\"denied\",\"denial\":3,\"name\":\"Unlabelled\",\"hop\":1,\"node\":\"gate\",\"versions\":[3]}\n{\"report\":1,\"line\":\"end\",\"flow\":1,\"packets\":2,\"passed\":1,\"denied\":1}\n{\"report\":1,\"line\":\"done\"}\n{\"report\":2,\"line\":\"command\",\"step\":1,\"node\":\"gate\",\"answer\":\"done\"}\n{\"report\":2,\"line\":\"flow\",\"flow\":1,\"input\":\"a\"}\nreport 2 line 3 octet 15\n",
    ),
    ("denied quiet cut", 2, "report 2 line 3 octet 15\n"),
    ("summary", 3, ""),
    (
        "denied whole absent",
        3,
        "packet 1.2 denied 3 Unlabelled hop 1 node gate versions 3\n",
    ),
    ("summary absent whole", 3, ""),
    (
        "-e -s site",
        1,
        "usage: netlabel_report [-e] [-s <script>] summary|denied|json|csv [<report>..]\n",
    ),
    (
        "-e -s site summary whole few",
        8,
        "refused 1.2 line 6 gate DoiExists\nrefused 2.2 line 6 gate DoiExists\nended 2 unfinished\nreports 2 unfinished 1\ncommands 4 refused 2\npackets 2 delivered 1 sent 0 denied 1\ndenied 3 Unlabelled hop 1 node gate packets 1\n",
    ),
    (
        "-s site json early",
        0,
        "{\"report\":1,\"line\":\"command\",\"step\":1,\"node\":\"gate\",\"answer\":\"listed\",\"lines\":2,\"at\":3}\n{\"report\":1,\"line\":\"listed\",\"text\":\"unlbl\"}\n{\"report\":1,\"line\":\"unfinished\"}\n",
    ),
    (
        "-s site csv few",
        0,
        "report,line,step,node,answer,lines,flow,input,number,became,label,receiver,carrier,denial,name,octet,category,cause,hop,versions,packets,passed,denied,capture,kind,at,limit,most,nodes,commands,flows,text\n1,command,2,\"gate\",\"DoiExists\",,,,,,,,,,,,,,,,,,,,,6,,,,,,\n1,unfinished,,,,,,,,,,,,,,,,,,,,,,,,,,,,,,\n",
    ),
    (
        "-e -s site summary checked",
        8,
        "refused 1.2 line 6 gate DoiExists\nreports 1 unfinished 0\ncommands 4 refused 1\npackets 0 delivered 0 sent 0 denied 0\n",
    ),
    (
        "-s site json checked",
        0,
        "{\"report\":1,\"line\":\"command\",\"step\":1,\"node\":\"gate\",\"answer\":\"done\",\"at\":3}\n{\"report\":1,\"line\":\"command\",\"step\":2,\"node\":\"gate\",\"answer\":\"DoiExists\",\"at\":6}\n{\"report\":1,\"line\":\"command\",\"step\":3,\"node\":\"gate\",\"answer\":\"listed\",\"lines\":1,\"at\":7}\n{\"report\":1,\"line\":\"listed\",\"text\":\"unlbl\"}\n{\"report\":1,\"line\":\"command\",\"step\":4,\"node\":\"press\",\"answer\":\"listed\",\"lines\":0,\"at\":9}\n{\"report\":1,\"line\":\"ok\",\"nodes\":2,\"commands\":4,\"flows\":0}\n",
    ),
    (
        "-e summary checked passed early",
        8,
        "refused 1.2 gate DoiExists\nended 2 limit packets 1048576\nended 3 unfinished\nreports 3 unfinished 1\ncommands 6 refused 1\npackets 0 delivered 0 sent 0 denied 0\n",
    ),
    ("denied after", 2, "report 1 line 2 octet 0\n"),
    (
        "-e summary passed absent",
        3,
        "ended 1 limit packets 1048576\n",
    ),
    ("-s site denied fifth", 2, "report 1 line 1 octet 8\n"),
    ("-s site denied stranger", 2, "report 1 line 2 octet 10\n"),
    ("-s whole summary whole", 2, "script line 1 octet 0 Word\n"),
    ("-s absent summary whole", 3, ""),
    ("-s absent csv whole", 3, ""),
    (
        "-s site csv absent",
        3,
        "report,line,step,node,answer,lines,flow,input,number,became,label,receiver,carrier,denial,name,octet,category,cause,hop,versions,packets,passed,denied,capture,kind,at,limit,most,nodes,commands,flows,text\n",
    ),
];

fn words_in(rt: &impl Abort, alloc: Global, line: &str) -> Vec<String> {
    let mut words = Vec::new(alloc);
    for word in line.split(' ') {
        let own = String::from_str(alloc, word).expect(rt, "memory");
        words.push(own).expect(rt, "memory");
    }
    words
}

/// A folder with these files, of which a read gives so many octets at the most, and fails where its number is planned to.
fn folder(rt: &impl Abort, alloc: Global, failing: &[u32], piece: usize) -> MemoryDepot {
    assert!(rt; piece > 0);
    let mut depot = MemoryDepot::new(alloc, failing, piece).expect(rt, "memory");
    for &(name, text) in FILES {
        depot.put(name, text.as_bytes()).expect(rt, "memory");
    }
    depot
}

/// A stream out, of which a write fails where its number is planned to.
fn stream(rt: &impl Abort, alloc: Global, failing: &[u32]) -> MemorySink {
    MemorySink::new(alloc, failing, 1_000_000).expect(rt, "memory")
}

/// Compares how a call ended and what it printed, by the words that it had.
fn same(rt: &impl Abort, case: &str, found: (u8, &[u8]), wanted: (u8, &[u8])) {
    assert_eq!(rt; found, wanted, "of {case}");
}

/// Makes a call, and compares it.
fn ends_so(
    rt: &impl Abort,
    alloc: Global,
    line: &str,
    depot: &mut MemoryDepot,
    sink: &mut MemorySink,
    wanted: (u8, &str),
) {
    let words = words_in(rt, alloc, line);
    let ended = report(alloc, &words, depot, sink);
    same(
        rt,
        line,
        (ended, sink.bytes()),
        (wanted.0, wanted.1.as_bytes()),
    );
}

/// Makes a call over a folder whose reads give so many octets at the most.
fn tells_in_pieces(rt: &impl Abort, alloc: Global, line: &str, piece: usize, wanted: (u8, &str)) {
    let mut depot = folder(rt, alloc, &[], piece);
    let mut sink = stream(rt, alloc, &[]);
    ends_so(rt, alloc, line, &mut depot, &mut sink, wanted);
}

#[test]
fn tells_reports(rt: HostRuntime) {
    let alloc = rt.alloc();
    for &(line, status, printed) in CALLS {
        tells_in_pieces(&rt, alloc, line, 7, (status, printed));
        tells_in_pieces(&rt, alloc, line, 1_000_000, (status, printed));
    }
}

/// How a report may end.
struct ReportEnd {
    text: &'static str,
    /// The status with `-e`, and what stands in the table above its sums.
    status: u8,
    ended: &'static str,
    sums: &'static str,
    denied: &'static str,
    json: &'static str,
    csv: &'static str,
}

const FINISHED: &str =
    "reports 2 unfinished 0\ncommands 0 refused 0\npackets 0 delivered 0 sent 0 denied 0\n";

const UNFINISHED: &str =
    "reports 2 unfinished 1\ncommands 0 refused 0\npackets 0 delivered 0 sent 0 denied 0\n";

/// What CSV has of a report that ends well.
const GOOD_ROWS: &str =
    "report,line,step,node,answer,lines,flow,input,number,became,label,receiver,carrier,denial,name,octet,category,cause,hop,versions,packets,passed,denied,capture,kind,at,limit,most,nodes,commands,flows,text\n1,done,,,,,,,,,,,,,,,,,,,,,,,,,,,,,,\n";

/// Reports that follow one that ends with `done`, and what is printed of them.
const ENDS: &[ReportEnd] = &[
    ReportEnd {
        text: "done\n",
        status: 0,
        ended: "",
        sums: FINISHED,
        denied: "",
        json: "{\"report\":2,\"line\":\"done\"}\n",
        csv: "2,done,,,,,,,,,,,,,,,,,,,,,,,,,,,,,,\n",
    },
    ReportEnd {
        text: "ok 2 nodes 7 commands 1 flows\n",
        status: 0,
        ended: "",
        sums: FINISHED,
        denied: "",
        json: "{\"report\":2,\"line\":\"ok\",\"nodes\":2,\"commands\":7,\"flows\":1}\n",
        csv: "2,ok,,,,,,,,,,,,,,,,,,,,,,,,,,,2,7,1,\n",
    },
    ReportEnd {
        text: "capture 1 octet 24 Short\n",
        status: 8,
        ended: "ended 2 capture 1 octet 24 Short\n",
        sums: FINISHED,
        denied: "",
        json: "{\"report\":2,\"line\":\"capture\",\"capture\":1,\"octet\":24,\"kind\":\"Short\"}\n",
        csv: "2,capture,,,,,,,,,,,,,,24,,,,,,,,1,\"Short\",,,,,,,\n",
    },
    ReportEnd {
        text: "limit packets 1048576\n",
        status: 8,
        ended: "ended 2 limit packets 1048576\n",
        sums: FINISHED,
        denied: "",
        json: "{\"report\":2,\"line\":\"limit\",\"limit\":\"packets\",\"most\":1048576}\n",
        csv: "2,limit,,,,,,,,,,,,,,,,,,,,,,,,,\"packets\",1048576,,,,\n",
    },
    ReportEnd {
        text: "script line 2 octet 12 NameTwice\n",
        status: 8,
        ended: "ended 2 script line 2 octet 12 NameTwice\n",
        sums: FINISHED,
        denied: "",
        json: "{\"report\":2,\"line\":\"script\",\"at\":2,\"octet\":12,\"kind\":\"NameTwice\"}\n",
        csv: "2,script,,,,,,,,,,,,,,12,,,,,,,,,\"NameTwice\",2,,,,,,\n",
    },
    ReportEnd {
        text: "flow 1 a\n",
        status: 8,
        ended: "ended 2 unfinished\n",
        sums: UNFINISHED,
        denied: "unfinished 2\n",
        json: "{\"report\":2,\"line\":\"flow\",\"flow\":1,\"input\":\"a\"}\n{\"report\":2,\"line\":\"unfinished\"}\n",
        csv: "2,flow,,,,,1,\"a\",,,,,,,,,,,,,,,,,,,,,,,,\n2,unfinished,,,,,,,,,,,,,,,,,,,,,,,,,,,,,,\n",
    },
    ReportEnd {
        text: "",
        status: 8,
        ended: "ended 2 unfinished\n",
        sums: UNFINISHED,
        denied: "unfinished 2\n",
        json: "{\"report\":2,\"line\":\"unfinished\"}\n",
        csv: "2,unfinished,,,,,,,,,,,,,,,,,,,,,,,,,,,,,,\n",
    },
];

/// The texts one behind the other.
fn joined(rt: &impl Abort, alloc: Global, first: &str, second: &str) -> Vec<u8> {
    let mut text = Vec::new(alloc);
    text.extend_from_slice(first.as_bytes())
        .expect(rt, "memory");
    text.extend_from_slice(second.as_bytes())
        .expect(rt, "memory");
    text
}

/// A folder with this report, and one that ends well.
fn folder_with(rt: &impl Abort, alloc: Global, text: &str) -> MemoryDepot {
    let mut depot = MemoryDepot::new(alloc, &[], 1_000_000).expect(rt, "memory");
    depot.put("good", b"done\n").expect(rt, "memory");
    depot.put("last", text.as_bytes()).expect(rt, "memory");
    depot
}

/// Asks for this report, which follows one that ends well.
fn asks_for(rt: &impl Abort, alloc: Global, words: &[String], text: &str, wanted: (u8, &[u8])) {
    let mut depot = folder_with(rt, alloc, text);
    let mut sink = stream(rt, alloc, &[]);
    let ended = report(alloc, words, &mut depot, &mut sink);
    same(rt, text, (ended, sink.bytes()), wanted);
}

/// Asks for it by these words, the first of which is `-e`, and by the others alone. What is printed has two parts.
fn tells_end(rt: &impl Abort, alloc: Global, line: &str, end: &ReportEnd, parts: (&str, &str)) {
    let words = words_in(rt, alloc, line);
    let printed = joined(rt, alloc, parts.0, parts.1);
    asks_for(rt, alloc, &words, end.text, (end.status, &printed));
    if let [_, others @ ..] = words.as_slice() {
        asks_for(rt, alloc, others, end.text, (0, &printed));
    }
}

fn tells_end_each_way(rt: &impl Abort, alloc: Global, end: &ReportEnd) {
    let json = ("{\"report\":1,\"line\":\"done\"}\n", end.json);
    tells_end(
        rt,
        alloc,
        "-e summary good last",
        end,
        (end.ended, end.sums),
    );
    tells_end(rt, alloc, "-e denied good last", end, (end.denied, ""));
    tells_end(rt, alloc, "-e json good last", end, json);
    tells_end(rt, alloc, "-e csv good last", end, (GOOD_ROWS, end.csv));
}

#[test]
fn tells_ends(rt: HostRuntime) {
    let alloc = rt.alloc();
    for end in ENDS {
        tells_end_each_way(&rt, alloc, end);
    }
}

/// Words, the reads and the writes that fail, by their numbers, the status, and what is printed.
const FAILING: &[(&str, u32, u32, u8, &str)] = &[
    ("denied whole", 1, 0, 3, ""),
    ("denied whole", 2, 0, 3, ""),
    (
        "denied whole",
        3,
        0,
        3,
        "packet 1.2 denied 3 Unlabelled hop 1 node gate versions 3\n",
    ),
    ("-e denied whole", 0, 1, 4, ""),
    ("-e summary passed", 0, 1, 4, ""),
    ("denied other", 0, 1, 2, ""),
    (
        "summary whole quiet",
        4,
        0,
        3,
        "refused 1.2 gate DoiExists\n",
    ),
    ("-s site csv whole", 1, 0, 3, ""),
    ("-s site csv whole", 2, 0, 3, ""),
    (
        "-s site denied whole",
        5,
        0,
        3,
        "packet 1.2 denied 3 Unlabelled hop 1 node gate versions 3\n",
    ),
    ("-s whole csv whole", 0, 1, 2, ""),
];

/// Makes a call of which one read and one write fail.
fn fails_so(rt: &impl Abort, alloc: Global, line: &str, read: u32, write: u32, wanted: (u8, &str)) {
    let mut depot = folder(rt, alloc, &[read], 1_000_000);
    let mut sink = stream(rt, alloc, &[write]);
    ends_so(rt, alloc, line, &mut depot, &mut sink, wanted);
}

#[test]
fn reads_and_writes_fail(rt: HostRuntime) {
    let alloc = rt.alloc();
    for &(line, read, write, status, printed) in FAILING {
        fails_so(&rt, alloc, line, read, write, (status, printed));
    }
}
