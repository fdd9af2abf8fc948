//! Reports of worked scripts, as they are and with one place changed.

use super::answers;
use std::alloc::Global;
use std::process::Abort;
use worked_values::scripts::{CROSSED, CROSSING, EXCHANGE};

/// What stands in a report, what stands there in its place, and what is answered: the first line that isn't good, 0 where all are.
type Change = (&'static str, &'static str, u32);

/// One node, three flows, and a command in front of the third.
const LATE: &str = "node r
unlbl accept on
unlbl add default address:0.0.0.0/0 label:s1:c2
map add default protocol:unlbl
receiver add address:10.0.0.2 domain:sink_t level:s1:c2
flow one.pcap - receive:r,eth0
flow one.pcap - receive:r,eth0
receiver del address:10.0.0.2
flow one.pcap - receive:r,eth0
";

const LATE_REPORT: &str = "command 1 r done
command 2 r done
command 3 r done
command 4 r done
flow 1 one.pcap
packet 1.1 delivered s1:c2 to 10.0.0.2 versions 4
end 1 packets 1 passed 1 denied 0
flow 2 one.pcap
packet 2.1 delivered s1:c2 to 10.0.0.2 versions 4
end 2 packets 1 passed 1 denied 0
command 5 r done
flow 3 one.pcap
packet 3.1 denied 10 NoReceiver hop 1 node r versions 5
end 3 packets 1 passed 0 denied 1
done
";

/// Of its second flow the packet may have met the command behind it; that of the first may not have, and that of the third has.
const LATE_CHANGES: [Change; 9] = [
    ("", "", 0),
    (
        "packet 2.1 delivered s1:c2 to 10.0.0.2 versions 4\nend 2 packets 1 passed 1 denied 0",
        "packet 2.1 denied 10 NoReceiver hop 1 node r versions 5\nend 2 packets 1 passed 0 denied 1",
        0,
    ),
    (
        "packet 3.1 denied 10 NoReceiver hop 1 node r versions 5",
        "packet 3.1 delivered s1:c2 to 10.0.0.2 versions 4",
        13,
    ),
    (
        "packet 1.1 delivered s1:c2 to 10.0.0.2 versions 4",
        "packet 1.1 denied 10 NoReceiver hop 1 node r versions 5",
        6,
    ),
    (
        "packet 2.1 delivered s1:c2 to 10.0.0.2 versions 4",
        "packet 2.1 delivered s1:c2 to 10.0.0.2 versions 5",
        9,
    ),
    (
        "packet 2.1 delivered s1:c2 to 10.0.0.2 versions 4",
        "packet 2.1 denied 10 NoReceiver hop 1 node r versions 5",
        10,
    ),
    ("packet 2.1 delivered s1:c2 to 10.0.0.2 versions 4\n", "", 9),
    ("flow 3 one.pcap\n", "", 12),
    ("node r versions 5", "node r versions 6", 13),
];

/// Octets of lines and their ends.
const OCTET_CHANGES: [Change; 14] = [
    ("command 1 r done", "command 1 r Exists", 1),
    ("command 1 r done\n", "command 1 r done\r\n", 1),
    ("command 1 r done\n", "command 1 r done", 1),
    ("command 1 r done\n", "command 1 r done\n\n", 2),
    ("flow 1 one.pcap", "flow 1 two.pcap", 5),
    ("s1:c2 to", "s1:c3 to", 6),
    ("versions 4\n", "versions 04\n", 6),
    ("versions 4\n", "versions 4 \n", 6),
    ("versions 4\n", "versions 4,4\n", 6),
    ("versions 4\n", "versions -\n", 6),
    ("\ndone\n", "\n", 15),
    ("\ndone\n", "\ndone", 15),
    ("\ndone\n", "\ndone\nx", 16),
    ("\ndone\n", "\ndone\n\n", 16),
];

/// The report with one place changed.
fn changed(rt: &impl Abort, alloc: Global, report: &str, from: &str, to: &str) -> String {
    let (front, behind) = report.split_once(from).expect(rt, "what is changed");
    format!(in alloc; "{front}{to}{behind}").expect(rt, "there is memory")
}

/// Whether a report with this change is answered so, for so many workers.
fn is_judged(
    rt: &impl Abort,
    alloc: Global,
    line: &str,
    script: &str,
    report: &str,
    change: (&str, &str, u32),
) -> bool {
    let (from, to, bad) = change;
    let report = changed(rt, alloc, report, from, to);
    if bad == 0 {
        return answers(rt, alloc, line, script, report.as_str(), 0, "yes\n");
    }
    let text = format!(in alloc; "no line {bad}\n").expect(rt, "there is memory");
    answers(rt, alloc, line, script, report.as_str(), 8, text.as_str())
}

#[test]
fn judges_the_flows_of_a_report(rt: HostRuntime) {
    for change in LATE_CHANGES {
        assert!(rt; is_judged(&rt, rt.alloc(), "s r 4", LATE, LATE_REPORT, change));
    }
}

#[test]
fn judges_each_octet_of_a_report(rt: HostRuntime) {
    for change in OCTET_CHANGES {
        assert!(rt; is_judged(&rt, rt.alloc(), "s r 1", LATE, LATE_REPORT, change));
    }
}

/// Two flows over a capture without a packet.
const EMPTY: &str = "node r
flow empty.pcap - receive:r,eth0
flow empty.pcap - receive:r,eth0
";

const EMPTY_REPORT: &str = "flow 1 empty.pcap
end 1 packets 0 passed 0 denied 0
flow 2 empty.pcap
end 2 packets 0 passed 0 denied 0
done
";

const EMPTY_CHANGES: [Change; 4] = [
    ("", "", 0),
    ("packets 0", "packets 1", 2),
    ("done\n", "", 5),
    (EMPTY_REPORT, "", 1),
];

/// A report of an empty script, and whether it is one.
const NO_FLOWS: [(&str, u8, &str); 4] = [
    ("done\n", 0, "yes\n"),
    ("", 8, "no line 1\n"),
    ("done", 8, "no line 1\n"),
    ("done\ndone\n", 8, "no line 2\n"),
];

#[test]
fn judges_reports_without_packets(rt: HostRuntime) {
    for change in EMPTY_CHANGES {
        assert!(rt; is_judged(&rt, rt.alloc(), "s r 16", EMPTY, EMPTY_REPORT, change));
    }
    for (report, status, text) in NO_FLOWS {
        assert!(rt; answers(&rt, rt.alloc(), "s r 2", "", report, status, text));
    }
}

/// The worked script of four nodes with one category, its first flow alone over this capture, and commands that exchange two categories.
fn exchanging(rt: &impl Abort, alloc: Global, capture: &str) -> String {
    let (nodes, flows) = CROSSING.split_once("flow one.pcap").expect(rt, "a flow");
    let flow = flows.lines().next().expect(rt, "a flow");
    let (front, back) = flow.split_once("s2:c1,c3").expect(rt, "a label");
    format!(in alloc; "{nodes}flow {capture}{front}s2:c1{back}\n{EXCHANGE}").expect(
        rt,
        "there is memory",
    )
}

/// A report of it, with these lines of packets, and so many of them passed and denied.
fn exchanged(rt: &impl Abort, alloc: Global, capture: &str, packets: &str, counts: &str) -> String {
    let (replies, _) = CROSSED.split_once("flow 1").expect(rt, "a flow");
    format!(in alloc;
        "{replies}flow 1 {capture}\n{packets}\nend 1 {counts}\ncommand 16 h done\ncommand 17 h done\ncommand 18 h done\ncommand 19 h done\ndone\n"
    ).expect(rt, "there is memory")
}

/// The number of workers, the lines of packets, what stands in the flow's `end` line, and what is answered.
type Exchange = (u32, &'static str, &'static str, u8, &'static str);

/// One packet, whose hops may meet later commands than those before them, and no earlier ones.
const ONE: [Exchange; 7] = [
    (
        1,
        "packet 1.1 delivered s2:c7 to 10.0.0.2 versions 15,15,15,15",
        "packets 1 passed 1 denied 0",
        0,
        "yes\n",
    ),
    (
        1,
        "packet 1.1 delivered s2:c8 to 10.0.0.2 versions 15,15,19,19",
        "packets 1 passed 1 denied 0",
        0,
        "yes\n",
    ),
    (
        1,
        "packet 1.1 denied 13 NoMap hop 3 node h versions 15,15,17",
        "packets 1 passed 0 denied 1",
        0,
        "yes\n",
    ),
    (
        1,
        "packet 1.1 delivered s2:c7 to 10.0.0.2 versions 15,19,15,15",
        "packets 1 passed 1 denied 0",
        8,
        "no line 17\n",
    ),
    (
        1,
        "packet 1.1 delivered s2:c7 to 10.0.0.2 versions 15,15,19,19",
        "packets 1 passed 1 denied 0",
        8,
        "no line 17\n",
    ),
    (
        1,
        "packet 1.1 delivered s2:c8 to 10.0.0.2 versions 15,15,20,20",
        "packets 1 passed 1 denied 0",
        8,
        "no line 17\n",
    ),
    (
        1,
        "packet 1.1 delivered s2:c7 to 10.0.0.2 versions 15,15,15",
        "packets 1 passed 1 denied 0",
        8,
        "no line 17\n",
    ),
];

/// Two packets: the versions of one worker's packets don't fall, those of two workers' may.
const TWO: [Exchange; 5] = [
    (
        1,
        "packet 1.1 delivered s2:c7 to 10.0.0.2 versions 15,15,15,15\npacket 1.2 delivered s2:c8 to 10.0.0.2 versions 15,15,19,19",
        "packets 2 passed 2 denied 0",
        0,
        "yes\n",
    ),
    (
        1,
        "packet 1.1 delivered s2:c8 to 10.0.0.2 versions 15,15,19,19\npacket 1.2 delivered s2:c7 to 10.0.0.2 versions 15,15,15,15",
        "packets 2 passed 2 denied 0",
        8,
        "no line 18\n",
    ),
    (
        2,
        "packet 1.1 delivered s2:c8 to 10.0.0.2 versions 15,15,19,19\npacket 1.2 delivered s2:c7 to 10.0.0.2 versions 15,15,15,15",
        "packets 2 passed 2 denied 0",
        0,
        "yes\n",
    ),
    (
        2,
        "packet 1.2 delivered s2:c7 to 10.0.0.2 versions 15,15,15,15\npacket 1.1 delivered s2:c7 to 10.0.0.2 versions 15,15,15,15",
        "packets 2 passed 2 denied 0",
        8,
        "no line 17\n",
    ),
    (
        2,
        "packet 1.1 delivered s2:c7 to 10.0.0.2 versions 15,15,15,15",
        "packets 1 passed 1 denied 0",
        8,
        "no line 18\n",
    ),
];

/// Whether a report with these lines of packets is answered so.
fn is_exchanged(rt: &impl Abort, alloc: Global, capture: &str, case: Exchange) -> bool {
    let (workers, packets, counts, status, text) = case;
    let script = exchanging(rt, alloc, capture);
    let report = exchanged(rt, alloc, capture, packets, counts);
    let line = format!(in alloc; "s r {workers}").expect(rt, "there is memory");
    answers(
        rt,
        alloc,
        line.as_str(),
        script.as_str(),
        report.as_str(),
        status,
        text,
    )
}

#[test]
fn judges_versions_of_packets(rt: HostRuntime) {
    for case in ONE {
        assert!(rt; is_exchanged(&rt, rt.alloc(), "one.pcap", case));
    }
    for case in TWO {
        assert!(rt; is_exchanged(&rt, rt.alloc(), "two.pcap", case));
    }
}

/// A capture in pcapng, which is judged as one in libpcap's format is, and a capture with a frame that isn't IP, which names no versions.
const SITE: &str = "node fw
cipsov4 add pass doi:16 tags:1,2,5
map add default address:10.0.0.0/8 protocol:cipsov4,16
unlbl accept on
receiver add address:10.0.0.2 domain:httpd_t level:s2:c0.c5
flow one.pcapng - receive:fw,eth0
flow site.pcap out.pcap forward:fw,eth0,eth1,httpd_t
";

const SITE_REPORT: &str = "command 1 fw done
command 2 fw done
command 3 fw done
command 4 fw done
flow 1 one.pcapng
packet 1.1 denied 4 NoStatic hop 1 node fw versions 4
end 1 packets 1 passed 0 denied 1
flow 2 site.pcap
packet 2.1 denied 22 NotIp hop 0 node - versions -
packet 2.2 sent cipsov4,16 versions 4
packet 2.3 denied 4 NoStatic hop 1 node fw versions 4
packet 2.4 denied 4 NoStatic hop 1 node fw versions 4
end 2 packets 4 passed 1 denied 3
done
";

const SITE_CHANGES: [Change; 5] = [
    ("", "", 0),
    ("node - versions -", "node - versions 4", 9),
    ("hop 0 node -", "hop 1 node fw", 9),
    ("sent cipsov4,16", "sent cipsov4,17", 10),
    ("flow 1 one.pcapng", "flow 1 one.pcap", 5),
];

#[test]
fn judges_captures_of_both_formats(rt: HostRuntime) {
    for change in SITE_CHANGES {
        assert!(rt; is_judged(&rt, rt.alloc(), "s r 3", SITE, SITE_REPORT, change));
    }
}

/// A text in which each capture has the name of the one in pcapng with the same packets.
fn in_pcapng(rt: &impl Abort, alloc: Global, text: &str) -> String {
    let mut named = String::new(alloc);
    let mut rest = text;
    for _ in 0..text.len() {
        let Some((front, behind)) = rest.split_once(".pcap") else {
            break;
        };
        named.push_str(front).expect(rt, "there is memory");
        named.push_str(".pcapng").expect(rt, "there is memory");
        rest = behind;
    }
    named.push_str(rest).expect(rt, "there is memory");
    named
}

#[test]
fn judges_flows_over_captures_in_pcapng(rt: HostRuntime) {
    let alloc = rt.alloc();
    for (script, report, changes) in [
        (LATE, LATE_REPORT, LATE_CHANGES.as_slice()),
        (EMPTY, EMPTY_REPORT, EMPTY_CHANGES.as_slice()),
    ] {
        let script = in_pcapng(&rt, alloc, script);
        let report = in_pcapng(&rt, alloc, report);
        for (from, to, bad) in changes {
            let from = in_pcapng(&rt, alloc, from);
            let to = in_pcapng(&rt, alloc, to);
            let change = (from.as_str(), to.as_str(), *bad);
            assert!(rt;
                is_judged(
                    &rt,
                    alloc,
                    "s r 4",
                    script.as_str(),
                    report.as_str(),
                    change
                ),
                "{from}"
            );
        }
    }
}
