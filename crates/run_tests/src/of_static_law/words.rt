//! Words, versions of the tables, and calls that fail.

use super::{USAGE, answers, told};

/// Nodes a, g and b, with eight commands above the first flow and two above the second one.
const SCRIPT: &str =
    "node a\nrange add interface:eth1 range:s0-s2:c1\nnode g\nunlbl accept on\nunlbl add interface:eth0 address:10.0.0.0/8 label:s2:c1.c3\nunlbl add interface:eth9 address:10.0.0.0/8 label:s0\nrange add interface:eth2 range:s0-s3:c0.c3\nnode b\nunlbl accept on\nunlbl add interface:eth3 address:10.0.0.0/8 label:s3:c0.c3\nunlbl add interface:eth4 address:10.0.0.0/8 label:s3\nflow one.pcap - send:a,app_t,eth1,s1 forward:g,eth0,eth2,any receive:b,eth3\nnode b\nunlbl del interface:eth3 address:10.0.0.0/8\nunlbl add interface:eth3 address:10.0.0.0/8 label:s2\nflow one.pcap - send:a,app_t,eth1,s1 forward:g,eth9,eth2,any receive:b,eth4\nflow one.pcap - receive:b,eth4\n";

/// Words, the status and what is printed.
const ROWS: [(&str, u8, &str); 16] = [
    ("s 1", 0, "hop 1 2 covered\nhop 2 3 covered\ncovered\n"),
    (
        "s 2",
        0,
        "hop 1 2 uncovered entry 1\nhop 2 3 uncovered entry 0\nuncovered\n",
    ),
    ("s 3", 0, "covered\n"),
    (
        "s 1 8,8,8",
        0,
        "hop 1 2 covered\nhop 2 3 covered\ncovered\n",
    ),
    (
        "s 1 8,8,9",
        0,
        "hop 1 2 covered\nhop 2 3 covered\ncovered\n",
    ),
    (
        "s 1 8,8,10",
        0,
        "hop 1 2 covered\nhop 2 3 uncovered entry 1\nuncovered\n",
    ),
    (
        "s 1 8,9,10",
        0,
        "hop 1 2 covered\nhop 2 3 uncovered entry 1\nuncovered\n",
    ),
    ("s 1 8,8,11", 2, "script line 0 octet 0 BadVersions\n"),
    ("s 1 7,8,8", 2, "script line 0 octet 0 BadVersions\n"),
    ("s 1 9,8,9", 2, "script line 0 octet 0 BadVersions\n"),
    ("s 1 8,8", 2, "script line 0 octet 0 BadVersions\n"),
    ("s 1 8,8,8,8", 2, "script line 0 octet 0 BadVersions\n"),
    ("s 0", 2, "script line 0 octet 0 NoFlow\n"),
    ("s 4", 2, "script line 0 octet 0 NoFlow\n"),
    ("s 4 8", 2, "script line 0 octet 0 NoFlow\n"),
    ("t 1", 3, ""),
];

/// Words that are no form.
const NO_FORMS: [&str; 13] = [
    "s",
    "s 1 8,8,8 8",
    "s 01",
    "s one",
    "s -1",
    "s 4294967296",
    "-s 1",
    "s 1 ",
    "s 1 8,",
    "s 1 8,08,8",
    "#s 1",
    "cover s 1",
    "",
];

#[test]
fn answers_by_flow_and_versions(rt: HostRuntime) {
    for (words, status, wanted) in ROWS {
        assert!(rt;
            answers(&rt, rt.alloc(), words, SCRIPT, status, wanted),
            "{words}"
        );
    }
}

#[test]
fn tells_its_forms(rt: HostRuntime) {
    for words in NO_FORMS {
        assert!(rt;
            answers(&rt, rt.alloc(), words, SCRIPT, 1, USAGE),
            "{words}"
        );
    }
}

#[test]
fn tells_what_fails(rt: HostRuntime) {
    let (status, printed) = told(&rt, rt.alloc(), "s 1", SCRIPT, 2, 0);
    assert!(rt; status == 3 && printed.is_empty());
    let (status, printed) = told(&rt, rt.alloc(), "s 1", SCRIPT, 0, 1);
    assert!(rt; status == 4 && printed.is_empty());
    let (status, printed) = told(&rt, rt.alloc(), "s 1", SCRIPT, 0, 2);
    assert!(rt; status == 4 && printed.as_slice() == "hop 1 2".as_bytes());
    assert!(rt;
        answers(
            &rt,
            rt.alloc(),
            "s 1",
            "node a\nfrob\n",
            2,
            "script line 2 octet 0 Word\n"
        )
    );
}
