//! Flows of scripts that run: worked scripts with their reports and captures, captures of both formats cut at each octet, each of their
//! faults, and calls that fail. Packets are made by hand from RFC 791, RFC 8200, FIPS 188 and RFC 5570, their checksums by RFC 1071 and RFC 1624.

use super::three::{BOTH, Change, Three};
use super::{USAGE, words_of};
use crate::outcome::Outcome;
use crate::top::netlabel;
use call_report::Seen;
use label_flow::{Gate, OpenGate};
use net_io::{DepotCall, MemoryDepot, MemorySink};
use std::alloc::Global;
use std::process::Abort;
use std::str::from_utf8;
use std::sync::Wait;
use std::thread::Threads;
use worked_values::octets_of;
use worked_values::scripts::{CROSSED, CROSSING};

/// Captures: a name, and the octets in hexadecimal. All but the last are of link type 101. An unlabelled packet from 10.0.0.1 to 10.0.0.2 once,
/// twice, and three times without the last six octets; none; one with a CIPSO option, and the same with one hop left; a wrong magic; and
/// Ethernet with ARP, the labelled packet behind a tag of IEEE 802.1Q, and one from 192.168.7.9 and one from 172.16.0.1 without a label.
const FILES: &str = "one.pcap
d4c3b2a1020004000000000000000000000004006500000001000000000000001c0000001c0000004500001c00004000
401126cf0a0000010a00000203e800350008e7be

two.pcap
d4c3b2a1020004000000000000000000000004006500000001000000000000001c0000001c0000004500001c00004000
401126cf0a0000010a00000203e800350008e7be02000000000000001c0000001c0000004500001c00004000401126cf
0a0000010a00000203e800350008e7be

cut.pcap
d4c3b2a1020004000000000000000000000004006500000001000000000000001c0000001c0000004500001c00004000
401126cf0a0000010a00000203e800350008e7be02000000000000001c0000001c0000004500001c00004000401126cf
0a0000010a00000203e800350008e7be03000000000000001c0000001c0000004500001c00004000401126cf0a000001
0a00000203e8

empty.pcap
d4c3b2a10200040000000000000000000000040065000000

p.pcap
d4c3b2a10200040000000000000000000000040065000000010000000000000028000000280000004800002800000000
40118ca00a0000010a000002860b0000001001050002500003e8003500080000

old.pcap
d4c3b2a10200040000000000000000000000040065000000010000000000000028000000280000004800002800000000
0111cba00a0000010a000002860b0000001001050002500003e8003500080000

bad.pcap
00c3b2a10200040000000000000000000000040065000000

site.pcap
d4c3b2a1020004000000000000000000ffff00000100000000ca9a3b000000002a0000002a0000000200000000020200
00000001080600010800060400010200000000010a0000010000000000000a00000201ca9a3b000000003a0000003a00
0000020000000002020000000001810000640800480000280000000040118ca00a0000010a000002860b000000100105
0002500003e800350008000002ca9a3b000000003d0000003d00000002000000000202000000000108004500002f0000
4000401168d8c0a807090a00003503e80035001b25520001010000010000000000000161000001000103ca9a3b000000
002a0000002a00000002000000000202000000000108004500001c00004000401184beac1000010a00000203e8003500
0845ae";

/// The front of a capture whose one packet has 65,535 octets: up to the packet's addresses.
const LONG_FRONT: &str =
    "d4c3b2a102000400000000000000000000000400650000000100000000000000ffff0000ffff00004500ffff00000000
401166eb0a0000010a000002";

/// The words, the script `s`, and behind `--` the status and the report.
const RUNS: &str = "run s
# site
node fw
netlabelctl mgmt protocols
netlabelctl cipsov4 add pass doi:16 tags:1,2,5
netlabelctl map del default
netlabelctl map add default address:10.0.0.0/8 protocol:cipsov4,16
netlabelctl map add default address:192.168.7.0/24 protocol:unlbl
netlabelctl unlbl accept on
netlabelctl unlbl add interface:eth0 address:192.168.7.0/24 label:system_u:object_r:netlabel_peer_t:s0
receiver add address:10.0.0.2 domain:httpd_t level:s2:c0.c5
receiver add address:10.0.0.53 domain:named_t level:s0
range add interface:eth0 range:s0-s3:c0.c1023
flow site.pcap - receive:fw,eth0
--
0
command 1 fw listed 3
  unlbl
  cipsov4
  calipso
command 2 fw done
command 3 fw MapUnknown
command 4 fw done
command 5 fw done
command 6 fw done
command 7 fw done
command 8 fw done
command 9 fw done
command 10 fw done
flow 1 site.pcap
packet 1.1 denied 22 NotIp hop 0 node - versions -
packet 1.2 delivered s2:c1,c3 to 10.0.0.2 versions 10
packet 1.3 delivered s0 to 10.0.0.53 versions 10
packet 1.4 denied 4 NoStatic hop 1 node fw versions 10
end 1 packets 4 passed 2 denied 2
done

run s
# site
node fw
netlabelctl mgmt protocols
netlabelctl cipsov4 add pass doi:16 tags:1,2,5
netlabelctl map del default
netlabelctl map add default address:10.0.0.0/8 protocol:cipsov4,16
netlabelctl map add default address:192.168.7.0/24 protocol:unlbl
netlabelctl unlbl accept on
netlabelctl unlbl add interface:eth0 address:192.168.7.0/24 label:system_u:object_r:netlabel_peer_t:s0
receiver add address:10.0.0.2 domain:httpd_t level:s2:c0.c5
receiver add address:10.0.0.53 domain:named_t level:s0
range add interface:eth0 range:s0-s3:c0.c1023
flow site.pcap o.pcap forward:fw,eth0,eth1,any
--
0
command 1 fw listed 3
  unlbl
  cipsov4
  calipso
command 2 fw done
command 3 fw MapUnknown
command 4 fw done
command 5 fw done
command 6 fw done
command 7 fw done
command 8 fw done
command 9 fw done
command 10 fw done
flow 1 site.pcap
packet 1.1 denied 22 NotIp hop 0 node - versions -
packet 1.2 sent cipsov4,16 versions 10
packet 1.3 sent cipsov4,16 versions 10
packet 1.4 denied 4 NoStatic hop 1 node fw versions 10
end 1 packets 4 passed 2 denied 2
done

run s
node r
flow empty.pcap - receive:r,eth0
flow empty.pcap - receive:r,eth0
--
0
flow 1 empty.pcap
end 1 packets 0 passed 0 denied 0
flow 2 empty.pcap
end 2 packets 0 passed 0 denied 0
done

run s
--
0
done

run s -w 16
node f
cipsov4 add pass doi:16 tags:1
cipsov4 add trans doi:3 tags:1 levels:2=2
map add default protocol:cipsov4,3
node a
cipsov4 add pass doi:8 tags:1
map add default protocol:cipsov4,8
node g
cipsov4 add pass doi:16 tags:1
calipso add pass doi:9
map add default protocol:calipso,9
pair add address4:10.0.0.1 address6:fd00::1
pair add address4:10.0.0.2 address6:fd00::2
flow p.pcap - forward:f,eth0,eth1,any
flow old.pcap - forward:f,eth0,eth1,any
flow p.pcap - forward:g,eth0,eth1,any
flow long.pcap - send:a,app_t,eth0,s2:c1
flow p.pcap - send:a,app_t,eth0,s2:c1
flow one.pcap - send:a,app_t,eth0,s2:c240
--
0
command 1 f done
command 2 f done
command 3 f done
command 4 a done
command 5 a done
command 6 g done
command 7 g done
command 8 g done
command 9 g done
command 10 g done
flow 1 p.pcap
packet 1.1 denied 15 Inexpressible hop 1 node f versions 10
end 1 packets 1 passed 0 denied 1
flow 2 old.pcap
packet 2.1 denied 18 Expired hop 1 node f versions 10
end 2 packets 1 passed 0 denied 1
flow 3 p.pcap
packet 3.1 denied 21 NotCrossable NoChecksum hop 1 node g versions 10
end 3 packets 1 passed 0 denied 1
flow 4 long.pcap
packet 4.1 denied 17 TooLong hop 1 node a versions 10
end 4 packets 1 passed 0 denied 1
flow 5 p.pcap
packet 5.1 denied 14 AlreadyLabelled octet 20 hop 1 node a versions 10
end 5 packets 1 passed 0 denied 1
flow 6 one.pcap
packet 6.1 denied 15 Inexpressible hop 1 node a versions 10
end 6 packets 1 passed 0 denied 1
done

run s
node a
cipsov4 add pass doi:16 tags:1,2,5
map add default protocol:cipsov4,16
receiver add address:10.0.0.2 domain:sink_t level:s2:c1-s2:c0.c5
node b
cipsov4 add pass doi:16 tags:1,2,5
map add default protocol:cipsov4,16
receiver add address:10.0.0.2 domain:sink_t level:s2:c2-s2:c0.c5
node c
cipsov4 add pass doi:16 tags:1,2,5
map add default protocol:cipsov4,16
receiver add address:10.0.0.2 domain:sink_t level:s3-s3:c0.c5
node d
cipsov4 add pass doi:16 tags:1,2,5
map add default protocol:cipsov4,16
receiver add address:10.0.0.2 domain:sink_t level:s2:c2-s2:c2
node e
unlbl accept on
unlbl add default address:0.0.0.0/0 label:s0-s1:c2
map add default protocol:unlbl
receiver add address:10.0.0.2 domain:sink_t level:s1-s1:c2
node f
unlbl accept on
unlbl add default address:0.0.0.0/0 label:s0-s1:c2
map add default protocol:unlbl
receiver add address:10.0.0.2 domain:sink_t level:s1:c2
flow p.pcap - receive:a,eth0
flow p.pcap - receive:b,eth0
flow p.pcap - receive:c,eth0
flow p.pcap - receive:d,eth0
flow one.pcap - receive:e,eth0
flow one.pcap - receive:f,eth0
--
0
command 1 a done
command 2 a done
command 3 a done
command 4 b done
command 5 b done
command 6 b done
command 7 c done
command 8 c done
command 9 c done
command 10 d done
command 11 d done
command 12 d done
command 13 e done
command 14 e done
command 15 e done
command 16 e done
command 17 f done
command 18 f done
command 19 f done
command 20 f done
flow 1 p.pcap
packet 1.1 delivered s2:c1,c3 to 10.0.0.2 versions 20
end 1 packets 1 passed 1 denied 0
flow 2 p.pcap
packet 2.1 denied 23 BelowRange hop 1 node b versions 20
end 2 packets 1 passed 0 denied 1
flow 3 p.pcap
packet 3.1 denied 23 BelowRange hop 1 node c versions 20
end 3 packets 1 passed 0 denied 1
flow 4 p.pcap
packet 4.1 denied 12 NotDominated hop 1 node d versions 20
end 4 packets 1 passed 0 denied 1
flow 5 one.pcap
packet 5.1 denied 23 BelowRange hop 1 node e versions 20
end 5 packets 1 passed 0 denied 1
flow 6 one.pcap
packet 6.1 delivered s1:c2 to 10.0.0.2 versions 20
end 6 packets 1 passed 1 denied 0
done

run s -w 1
node r
unlbl accept on
unlbl add default address:0.0.0.0/0 label:s1:c2
map add default protocol:unlbl
receiver add address:10.0.0.2 domain:sink_t level:s1:c2
flow cut.pcap - receive:r,eth0
--
5
command 1 r done
command 2 r done
command 3 r done
command 4 r done
flow 1 cut.pcap
packet 1.1 delivered s1:c2 to 10.0.0.2 versions 4
packet 1.2 delivered s1:c2 to 10.0.0.2 versions 4
capture 1 octet 150 Short

run s
node r
unlbl accept on
flow absent.pcap o.pcap receive:r,eth0
flow one.pcap - receive:r,eth0
--
3
command 1 r done
flow 1 absent.pcap

run s
node r
flow empty.pcap - receive:r,eth0
unlbl accept on
flow bad.pcap o.pcap receive:r,eth0
unlbl accept off
--
5
flow 1 empty.pcap
end 1 packets 0 passed 0 denied 0
command 1 r done
flow 2 bad.pcap
capture 2 octet 0 Magic

run s
node a
cipsov4 add pass doi:0 tags:1
--
2
script line 2 octet 17 Value

run s
node r
flow a.pcap a.pcap receive:r,eth0
--
2
script line 2 octet 12 NameTwice

run s
node r
flow one.pcap s receive:r,eth0
--
2
script line 2 octet 14 NameTwice

run s
node r
flow one.pcap - forward:r,e,e,d forward:r,e,e,d forward:r,e,e,d forward:r,e,e,d forward:r,e,e,d forward:r,e,e,d forward:r,e,e,d forward:r,e,e,d forward:r,e,e,d forward:r,e,e,d forward:r,e,e,d forward:r,e,e,d forward:r,e,e,d forward:r,e,e,d forward:r,e,e,d forward:r,e,e,d forward:r,e,e,d
--
7
limit hops 16

run s
node n1
node n2
node n3
node n4
node n5
node n6
node n7
node n8
node n9
node n10
node n11
node n12
node n13
node n14
node n15
node n16
node n17
node n18
node n19
node n20
node n21
node n22
node n23
node n24
node n25
node n26
node n27
node n28
node n29
node n30
node n31
node n32
node n33
--
7
limit nodes 32

run absent
--
3";

/// Words that are no form.
const NO_FORMS: [&str; 9] = [
    "run",
    "run s -w",
    "run s -w 0",
    "run s -w 17",
    "run s -w 01",
    "run s -w 4 4",
    "run s s",
    "run -s",
    "run s -v 4",
];

/// The captures that its flows leave, and that of a border that forwards: the last of its two packets has the label `s0` in a tag of four octets.
const FAR: &str =
    "d4c3b2a1020004000000000000000000000004006500000001000000000000002c0000002c0000004900002c00004000
3e119c890a0000010a000002860e0000000a0208000c00040005000003e800350008e7be";

const HALF: &str =
    "d4c3b2a1020004000000000000000000000004006500000001000000000000004000000040000000600000000018003f
fd000000000000000000000000000001fd0000000000000000000000000000021101070c00000009010214b350000000
03e80035000801bd";

const FORWARDED: &str =
    "d4c3b2a1020004000000000000000000000004006500000001ca9a3b0000000028000000280000004800002800000000
3f118da00a0000010a000002860b0000001001050002500003e800350008000002ca9a3b000000003b0000003b000000
4800003b000040003f11dfadc0a807090a000035860a0000001001040000000003e80035001b25520001010000010000
0000000001610000010001";

/// Packets of every source get one label, and a receiver has it too.
pub const ONE_LABEL: &str = "node r
unlbl accept on
unlbl add default address:0.0.0.0/0 label:s1:c2
map add default protocol:unlbl
receiver add address:10.0.0.2 domain:sink_t level:s1:c2
";

pub const ONE_LABEL_REPLIES: &str = "command 1 r done
command 2 r done
command 3 r done
command 4 r done
";

const DELIVERED: &str = "packet 1.1 delivered s1:c2 to 10.0.0.2 versions 4
packet 1.2 delivered s1:c2 to 10.0.0.2 versions 4
packet 1.3 delivered s1:c2 to 10.0.0.2 versions 4
";

/// What a call leaves.
#[derive(Drop)]
pub struct Ran {
    pub status: u8,
    pub printed: Vec<u8>,
    pub seen: Seen,
    pub depot: MemoryDepot,
}

/// Calls the program with the words of a line, over a stream by sevens whose write of this number fails (0: none).
pub fn call<G: Gate + Sync, R: Threads + Wait + Sync + Abort>(
    rt: &R,
    alloc: Global,
    line: &str,
    depot: MemoryDepot,
    write: u32,
    gate: &G,
) -> Ran {
    let mut depot = depot;
    let words = words_of(rt, alloc, line);
    let mut sink = MemorySink::new(alloc, &[write], 7).expect(rt, "there is memory");
    let Outcome { status, seen } = netlabel(rt, alloc, &words, &mut depot, &mut sink, gate);
    let printed = Vec::from_slice(alloc, sink.bytes()).expect(rt, "there is memory");
    Ran {
        status,
        printed,
        seen,
        depot,
    }
}

/// Puts a file into a folder.
pub fn put(rt: &impl Abort, depot: &mut MemoryDepot, name: &str, octets: &[u8]) {
    depot.put(name, octets).expect(rt, "there is memory");
}

/// A folder with the script `s`, where the call of this number fails (0: none). All is moved in pieces of seven octets.
pub fn folder(rt: &impl Abort, alloc: Global, script: &str, fails: u32) -> MemoryDepot {
    let mut depot = MemoryDepot::new(alloc, &[fails], 7).expect(rt, "there is memory");
    put(rt, &mut depot, "s", script.as_bytes());
    depot
}

/// That folder with all captures, without a call that fails.
fn whole_folder(rt: &impl Abort, alloc: Global, script: &str) -> MemoryDepot {
    let mut depot = folder(rt, alloc, script, 0);
    for file in FILES.split("\n\n") {
        let (name, text) = file.split_once('\n').expect(rt, "a file");
        let octets = octets_of(alloc, text).expect(rt, "there is memory");
        put(rt, &mut depot, name, &octets);
    }
    let mut long = octets_of(alloc, LONG_FRONT).expect(rt, "there is memory");
    let rest = vec![in alloc; 0u8; 65_515].expect(rt, "there is memory");
    long.extend_from_slice(&rest).expect(rt, "there is memory");
    put(rt, &mut depot, "long.pcap", &long);
    depot
}

/// The status and the report, as a case has them.
pub fn text_of(rt: &impl Abort, alloc: Global, ran: &Ran) -> String {
    let status = ran.status;
    let printed = from_utf8(&ran.printed).expect(rt, "a text");
    format!(in alloc; "{status}\n{printed}").expect(rt, "there is memory")
}

#[test]
fn runs_scripts(rt: HostRuntime) {
    let alloc = rt.alloc();
    for case in RUNS.split("\n\n") {
        let (asked, wanted) = case.split_once("\n--\n").expect(&rt, "a case");
        let (line, script) = asked.split_once('\n').unwrap_or((asked, ""));
        let depot = whole_folder(&rt, alloc, script);
        let ran = call(&rt, alloc, line, depot, 0, &OpenGate);
        let text = text_of(&rt, alloc, &ran);
        assert_eq!(rt; text.as_str().strip_suffix('\n'), Some(wanted), "{asked}");
        assert!(rt; ran.status == 0 || ran.depot.get("o.pcap").is_none());
    }
    for line in NO_FORMS {
        let ran = call(&rt, alloc, line, folder(&rt, alloc, "", 0), 0, &OpenGate);
        assert_eq!(rt; ran.status, 1, "{line}");
        assert_eq!(rt; ran.printed.as_slice(), USAGE.as_bytes(), "{line}");
    }
}

/// What a file of the folder holds is what these lines in hexadecimal say.
pub fn holds(rt: &impl Abort, alloc: Global, ran: &Ran, name: &str, text: &str) -> bool {
    let octets = ran.depot.get(name).expect(rt, "a file");
    octets
        == octets_of(alloc, text)
            .expect(rt, "there is memory")
            .as_slice()
}

/// The script of the second case of the table, whose flow has an output, with its status and report.
pub fn forwarding(rt: &impl Abort) -> (&'static str, &'static str) {
    let case = RUNS.split("\n\n").nth(1).expect(rt, "a case");
    let (asked, wanted) = case.split_once("\n--\n").expect(rt, "a case");
    let (_, script) = asked.split_once('\n').expect(rt, "a script");
    (script, wanted)
}

#[test]
fn makes_captures(rt: HostRuntime) {
    let alloc = rt.alloc();
    let depot = whole_folder(&rt, alloc, CROSSING);
    let ran = call(&rt, alloc, "run s", depot, 0, &OpenGate);
    assert_eq!(rt; ran.status, 0);
    assert_eq!(rt; ran.printed.as_slice(), CROSSED.as_bytes());
    assert!(rt; holds(&rt, alloc, &ran, "far.pcap", FAR));
    assert!(rt; holds(&rt, alloc, &ran, "half.pcap", HALF));
    let flows = ran.seen.flows();
    assert!(rt; flows.len() == 2 && flows[0].len() == 1 && flows[1].len() == 1);
    assert!(rt; flows[0].packet(0) == [15, 15, 15, 15].as_slice());
    assert!(rt; flows[1].packet(0) == [15, 15].as_slice());
    let (script, _) = forwarding(&rt);
    let depot = whole_folder(&rt, alloc, script);
    let ran = call(&rt, alloc, "run s -w 3", depot, 0, &OpenGate);
    assert!(rt; holds(&rt, alloc, &ran, "o.pcap", FORWARDED));
}

/// A script of that label with this line behind it.
pub fn with_line(rt: &impl Abort, alloc: Global, line: &str) -> String {
    format!(in alloc; "{ONE_LABEL}{line}\n").expect(rt, "there is memory")
}

/// The lines of so many of the three packets.
fn delivered(packets: usize) -> &'static str {
    DELIVERED.get(..50 * packets.min(3)).unwrap_or("")
}

/// The status and the report with a capture of so many octets.
fn cut_report(rt: &impl Abort, alloc: Global, three: &Three, octets: usize) -> String {
    let count = three.packets_in(octets);
    let lines = delivered(count);
    let text = if three.is_whole(octets) {
        format!(in alloc;
            "0\n{ONE_LABEL_REPLIES}flow 1 one.pcap\n{lines}end 1 packets {count} passed {count} denied 0\ndone\n"
        )
    } else {
        format!(in alloc;
            "5\n{ONE_LABEL_REPLIES}flow 1 one.pcap\n{lines}capture 1 octet {octets} Short\n"
        )
    };
    text.expect(rt, "there is memory")
}

/// The octets of a capture of three packets.
fn octets_in(rt: &impl Abort, alloc: Global, three: &Three) -> Vec<u8> {
    octets_of(alloc, three.digits).expect(rt, "there is memory")
}

/// The worked script with an output, over this capture, where the call of this number to the folder fails, and the write of this number.
fn passing<R: Threads + Wait + Sync + Abort>(
    rt: &R,
    alloc: Global,
    capture: &[u8],
    fails: u32,
    write: u32,
) -> Ran {
    let script = with_line(rt, alloc, "flow one.pcap o.pcap receive:r,eth0");
    let mut depot = folder(rt, alloc, script.as_str(), fails);
    put(rt, &mut depot, "one.pcap", capture);
    call(rt, alloc, "run s", depot, write, &OpenGate)
}

/// Whether the output is a capture of so many of the three packets, or there is none where the capture's beginning is broken.
fn passed(rt: &impl Abort, alloc: Global, ran: &Ran, three: &Three, packets: usize) -> bool {
    let octets = octets_in(rt, alloc, three);
    ran.depot.get("o.pcap") == octets.get(..three.length_of(packets))
}

/// Whether this report and this output are left of so many octets of that capture.
fn runs_cut<R: Threads + Wait + Sync + Abort>(
    rt: &R,
    alloc: Global,
    three: &Three,
    octets: usize,
) -> bool {
    let capture = octets_in(rt, alloc, three);
    let ran = passing(rt, alloc, capture.get(..octets).unwrap_or(&[]), 0, 0);
    let text = text_of(rt, alloc, &ran);
    let wanted = cut_report(rt, alloc, three, octets);
    let made = if octets < three.beginning() {
        ran.depot.get("o.pcap").is_none()
    } else {
        passed(rt, alloc, &ran, three, three.packets_in(octets))
    };
    made && text.as_str() == wanted.as_str()
}

#[test]
fn runs_a_cut_capture_up_to_its_end(rt: HostRuntime) {
    for three in BOTH {
        for octets in 0..=three.length_of(3) {
            assert!(rt;
                runs_cut(&rt, rt.alloc(), &three, octets),
                "of {octets} octets"
            );
        }
    }
}

/// The octets of that capture with one of them changed.
fn changed_octets(rt: &impl Abort, alloc: Global, three: &Three, change: &Change) -> Vec<u8> {
    let (octet, value, _, _) = *change;
    let mut capture = octets_in(rt, alloc, three);
    if let Some(changed) = capture.get_mut(octet) {
        *changed = value;
    }
    capture
}

/// Whether the fault of that capture with an octet changed is told behind the packets in front of it, which pass.
fn runs_changed<R: Threads + Wait + Sync + Abort>(
    rt: &R,
    alloc: Global,
    three: &Three,
    change: &Change,
) -> bool {
    let (octet, _, packets, told) = *change;
    let capture = changed_octets(rt, alloc, three, change);
    let ran = passing(rt, alloc, &capture, 0, 0);
    let lines = delivered(packets);
    let wanted = format!(in alloc;
        "5\n{ONE_LABEL_REPLIES}flow 1 one.pcap\n{lines}capture 1 {told}\n"
    ).expect(rt, "there is memory");
    let made = if octet < three.beginning() {
        ran.depot.get("o.pcap").is_none()
    } else {
        passed(rt, alloc, &ran, three, packets)
    };
    made && text_of(rt, alloc, &ran).as_str() == wanted.as_str()
}

#[test]
fn tells_the_first_fault_of_a_capture(rt: HostRuntime) {
    for three in BOTH {
        for change in three.changes {
            let (octet, value, _, _) = *change;
            assert!(rt;
                runs_changed(&rt, rt.alloc(), &three, change),
                "with {octet} as {value}"
            );
        }
    }
}

/// The report is some first octets of the whole one, and so is the output.
fn is_a_beginning(rt: &impl Abort, alloc: Global, three: &Three, ran: &Ran) -> bool {
    let whole = cut_report(rt, alloc, three, three.length_of(3));
    let whole = whole.as_str().strip_prefix("0\n").expect(rt, "a status");
    whole.as_bytes().starts_with(&ran.printed)
        && octets_in(rt, alloc, three).starts_with(ran.depot.get("o.pcap").unwrap_or(&[]))
}

/// As many packets have versions as have a line.
fn all_seen_are_printed(rt: &impl Abort, ran: &Ran) -> bool {
    let printed = from_utf8(&ran.printed).expect(rt, "a text");
    let lines = printed.lines().filter(|line| line.starts_with("packet "));
    let seen = match ran.seen.flows() {
        [flow] => flow.len(),
        _ => 0,
    };
    lines.count() == seen
}

/// The report ends before the flow's `end` line.
fn has_no_end(rt: &impl Abort, ran: &Ran) -> bool {
    let printed = from_utf8(&ran.printed).expect(rt, "a text");
    !printed.lines().any(|line| line.starts_with("end "))
}

/// How many calls to the folder there are, each of which is told where it fails.
fn calls_that_fail<R: Threads + Wait + Sync + Abort>(rt: &R, alloc: Global, three: &Three) -> u32 {
    let capture = octets_in(rt, alloc, three);
    for number in 1..1000u32 {
        let ran = passing(rt, alloc, &capture, number, 0);
        let status = match ran.depot.failed() {
            Some(DepotCall::Append) => 4,
            Some(_) => 3,
            None => 0,
        };
        assert_eq!(rt; ran.status, status, "at call {number}");
        assert!(rt; is_a_beginning(rt, alloc, three, &ran), "at call {number}");
        let holds = if status == 4 {
            has_no_end(rt, &ran)
        } else {
            all_seen_are_printed(rt, &ran)
        };
        assert!(rt; holds, "at call {number}");
        if status == 0 {
            return number - 1;
        }
    }
    0
}

/// The last call ends the output, which is whole where that fails.
fn tells_the_last_call<R: Threads + Wait + Sync + Abort>(
    rt: &R,
    alloc: Global,
    three: &Three,
    last: u32,
) {
    let capture = octets_in(rt, alloc, three);
    let ran = passing(rt, alloc, &capture, last, 0);
    assert_eq!(rt; ran.status, 4);
    assert!(rt; has_no_end(rt, &ran) && all_seen_are_printed(rt, &ran));
    assert!(rt; ran.depot.get("o.pcap") == Some(capture.as_slice()));
}

#[test]
fn tells_each_call_that_fails(rt: HostRuntime) {
    for three in BOTH {
        // The script and the capture are read, and the output is written, by sevens.
        let calls = calls_that_fail(&rt, rt.alloc(), &three);
        assert!(rt; calls > 60);
        tells_the_last_call(&rt, rt.alloc(), &three, calls);
    }
}

/// How many writes of the report there are, each of which is told where it fails.
fn writes_that_fail<R: Threads + Wait + Sync + Abort>(rt: &R, alloc: Global, three: &Three) -> u32 {
    let capture = octets_in(rt, alloc, three);
    for number in 1..1000u32 {
        let ran = passing(rt, alloc, &capture, 0, number);
        assert!(rt; is_a_beginning(rt, alloc, three, &ran), "at write {number}");
        if ran.status == 0 {
            return number - 1;
        }
        assert_eq!(rt; ran.status, 4, "at write {number}");
        assert!(rt; number > 1 || ran.printed.is_empty());
    }
    0
}

/// How many writes fail in the line of a broken capture, which keep its status; one before that line is a write's own fault.
fn writes_that_keep_5<R: Threads + Wait + Sync + Abort>(
    rt: &R,
    alloc: Global,
    three: &Three,
    change: &Change,
) -> u32 {
    let (_, _, _, told) = *change;
    let capture = changed_octets(rt, alloc, three, change);
    let whole = passing(rt, alloc, &capture, 0, 0);
    let line = format!(in alloc; "capture 1 {told}\n").expect(rt, "there is memory");
    let before = whole.printed.strip_suffix(line.as_str().as_bytes());
    let before = before.expect(rt, "a line of the capture");
    let mut kept = 0u32;
    for number in 1..1000u32 {
        let ran = passing(rt, alloc, &capture, 0, number);
        assert!(rt;
            whole.printed.starts_with(&ran.printed),
            "at write {number}"
        );
        let status = if ran.printed.len() < before.len() {
            4
        } else {
            5
        };
        assert_eq!(rt; ran.status, status, "at write {number}");
        if ran.printed.len() == whole.printed.len() {
            return kept;
        }
        if status == 5 {
            kept = kept.saturating_add(1);
        }
    }
    0
}

#[test]
fn a_broken_capture_keeps_its_status_where_its_line_is_not_written(rt: HostRuntime) {
    for three in BOTH {
        for change in three.changes {
            assert!(rt; writes_that_keep_5(&rt, rt.alloc(), &three, change) > 2);
        }
    }
}

#[test]
fn tells_each_write_that_fails(rt: HostRuntime) {
    let alloc = rt.alloc();
    for three in BOTH {
        // The report has 273 octets.
        assert_eq!(rt; writes_that_fail(&rt, alloc, &three), 39);
    }
    // An event that came first keeps its status where its line isn't printed.
    let script = "node a\ncipsov4 add pass doi:0 tags:1";
    let ran = call(
        &rt,
        alloc,
        "run s",
        folder(&rt, alloc, script, 0),
        1,
        &OpenGate,
    );
    assert!(rt; ran.status == 2 && ran.printed.is_empty());
}
