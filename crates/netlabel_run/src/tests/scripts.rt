//! Scripts checked: worked scripts with their replies, each kind of fault, limits at both sides, and calls that fail.

use super::{answers, folder, run};
use mls_label::write_decimal;
use std::alloc::{AllocError, Global};
use std::process::Abort;
use std::sync::Wait;
use std::thread::Threads;

/// A script with a reply of each kind, under the name `s`.
const REPLIES: &str =
    "node a\ncipsov4 add trans doi:8 tags:1 levels:0=5,1=5\nmap add default protocol:cipsov4,8\ncipso add pass tags:1 doi:16\nmap add default protocol:cipsov4,16\ncipsov4 del doi:16\ncipsov4 list\n";

const REPLIED: &str =
    "command 1 a NotOneToOne\ncommand 2 a DoiUnknown\ncommand 3 a done\ncommand 4 a done\ncommand 5 a DoiInUse\ncommand 6 a listed 1\n  cipsov4 add pass doi:16 tags:1\nok 1 nodes 6 commands 0 flows\n";

/// Scripts, and the status and the report of each.
const SCRIPTS: [(&str, u8, &str); 17] = [
    (REPLIES, 0, REPLIED),
    ("", 0, "ok 0 nodes 0 commands 0 flows\n"),
    // Each node has tables of its own, and a flow is counted and not run.
    (
        "node a\nunlbl accept on\nnode b\nunlbl list\nnode a\nunlbl list\nflow x - receive:b,eth0",
        0,
        "command 1 a done\ncommand 2 b listed 1\n  unlbl accept off\ncommand 3 a listed 1\n  unlbl accept on\nok 2 nodes 3 commands 1 flows\n",
    ),
    ("map list", 2, "script line 1 octet 0 NoNode\n"),
    (
        "node a\nunlbl accept on on",
        2,
        "script line 2 octet 16 Extra\n",
    ),
    (
        "node a\nmap add default",
        2,
        "script line 2 octet 15 Missing\n",
    ),
    ("node a\u{1}", 2, "script line 1 octet 6 Octet\n"),
    (
        "node a\nreading levels:0=5",
        2,
        "script line 2 octet 0 NotIncreasing\n",
    ),
    (
        "node a\nreading categories:1=5,1=6",
        2,
        "script line 2 octet 0 NotDistinct\n",
    ),
    (
        "node a\nreading\nreading",
        2,
        "script line 3 octet 0 ReadingTwice\n",
    ),
    ("node a\nfrob x", 2, "script line 2 octet 0 Word\n"),
    (
        "node a\nflow x - receive:b,eth0",
        2,
        "script line 2 octet 9 UnknownNode\n",
    ),
    (
        "node a\nflow x - receive:a,e receive:a,e",
        2,
        "script line 2 octet 9 HopOrder\n",
    ),
    // The commands above a fault aren't answered.
    (
        "node a\nunlbl accept on\ncipsov4 add pass doi:0 tags:1",
        2,
        "script line 3 octet 17 Value\n",
    ),
    (
        "node r\nflow a.pcap a.pcap receive:r,eth0",
        2,
        "script line 2 octet 12 NameTwice\n",
    ),
    // The script's own name.
    (
        "node r\nflow a.pcap s receive:r,eth0",
        2,
        "script line 2 octet 12 NameTwice\n",
    ),
    (
        "node r\nflow s - receive:r,eth0",
        0,
        "ok 1 nodes 0 commands 1 flows\n",
    ),
];

/// A script in the making: some text, then so many times a front, the number from 1 and a back. Then its status, and the end of its
/// report.
type Grown = (
    &'static str,
    &'static str,
    u64,
    &'static str,
    u8,
    &'static str,
);

/// Limits at both sides.
const LIMITS: [Grown; 10] = [
    (
        "",
        "node n",
        32,
        "\n",
        0,
        "ok 32 nodes 0 commands 0 flows\n",
    ),
    ("", "node n", 33, "\n", 7, "limit nodes 32\n"),
    (
        "node r\nflow x -",
        " forward:r,e,e,d",
        16,
        "",
        0,
        "ok 1 nodes 0 commands 1 flows\n",
    ),
    (
        "node r\nflow x -",
        " forward:r,e,e,d",
        17,
        "",
        7,
        "limit hops 16\n",
    ),
    (
        "node r\n",
        "flow x - receive:r,e",
        256,
        "\n",
        0,
        "ok 1 nodes 0 commands 256 flows\n",
    ),
    (
        "node r\n",
        "flow x - receive:r,e",
        257,
        "\n",
        7,
        "limit flows 256\n",
    ),
    ("", "#", 16_384, "\n", 0, "ok 0 nodes 0 commands 0 flows\n"),
    ("", "#", 16_385, "\n", 7, "limit lines 16384\n"),
    (
        "node r\n",
        "range add interface:e",
        64,
        " range:s0\n",
        0,
        "command 64 r done\nok 1 nodes 64 commands 0 flows\n",
    ),
    (
        "node r\n",
        "range add interface:e",
        65,
        " range:s0\n",
        0,
        "command 65 r TableFull\nok 1 nodes 65 commands 0 flows\n",
    ),
];

fn grown(
    alloc: Global,
    head: &str,
    front: &str,
    count: u64,
    back: &str,
) -> Result<Vec<u8>, AllocError> {
    let mut text = Vec::from_slice(alloc, head.as_bytes())?;
    for number in 0..count {
        text.extend_from_slice(front.as_bytes())?;
        write_decimal(number, &mut text)?;
        text.extend_from_slice(back.as_bytes())?;
    }
    Ok(text)
}

/// Whether `check` on this script ends with this status and prints this report, where the write of this number fails (0: none).
fn checks<R: Abort + Threads + Wait + Sync>(
    rt: &R,
    alloc: Global,
    text: &[u8],
    write: u32,
    status: u8,
    report: &str,
) -> bool {
    let mut depot = folder(rt, alloc, 0, 4096, "s", text);
    answers(
        rt,
        alloc,
        "check s",
        &mut depot,
        write,
        status,
        report.as_bytes(),
    )
}

#[test]
fn checks_scripts(rt: HostRuntime) {
    let alloc = rt.alloc();
    for (script, status, report) in SCRIPTS {
        assert!(rt;
            checks(&rt, alloc, script.as_bytes(), 0, status, report),
            "of {script}"
        );
    }
    // Where a write fails, the event that came first keeps its status.
    assert!(rt; checks(&rt, alloc, REPLIES.as_bytes(), 1, 4, ""));
    assert!(rt; checks(&rt, alloc, b"map list", 1, 2, ""));
}

/// The status of `check` on this script, where its report ends so.
fn ends<R: Abort + Threads + Wait + Sync>(
    rt: &R,
    alloc: Global,
    text: &[u8],
    end: &str,
) -> Option<u8> {
    let mut depot = folder(rt, alloc, 0, 4096, "s", text);
    let (status, printed) = run(rt, alloc, "check s", &mut depot, 0);
    printed.ends_with(end.as_bytes()).then_some(status)
}

/// Whether `check` on a script of so many blanks ends with this status and prints this report.
fn checks_blanks<R: Abort + Threads + Wait + Sync>(
    rt: &R,
    alloc: Global,
    count: usize,
    status: u8,
    report: &str,
) -> bool {
    let text = vec![in alloc; b' '; count].expect(rt, "there is memory");
    checks(rt, alloc, &text, 0, status, report)
}

#[test]
fn keeps_to_the_limits_of_scripts(rt: HostRuntime) {
    let alloc = rt.alloc();
    for (head, front, count, back, status, end) in LIMITS {
        let text = grown(alloc, head, front, count, back).expect(&rt, "there is memory");
        let found = ends(&rt, alloc, &text, end);
        assert_eq!(rt; found, Some(status), "of {count} times {front}");
    }
    // 1,048,576 octets, and one more.
    let none = "ok 0 nodes 0 commands 0 flows\n";
    assert!(rt; checks_blanks(&rt, alloc, 1_048_576, 0, none));
    assert!(rt; checks_blanks(&rt, alloc, 1_048_577, 7, "limit octets 1048576\n"));
}
