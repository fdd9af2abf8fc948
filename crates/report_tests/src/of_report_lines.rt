use call_report::*;
use mls_label::Label;
use std::process::Abort;

/// Lines, and their forms or the octets at fault.
const LINES: [(&str, Result<Form, usize>); 54] = [
    (
        "packet 1.1 delivered s0 to 10.9.0.2 versions 7,7",
        Ok(Form::Delivered),
    ),
    (
        "packet 1.2 delivered s2:c1,c3 to 2001:db8::1 versions 7",
        Ok(Form::Delivered),
    ),
    (
        "packet 1.2 delivered s255:c1,c2,c4.c6,c65534 to 10.9.0.2 versions 7",
        Ok(Form::Delivered),
    ),
    ("packet 3.12 sent unlbl versions 5", Ok(Form::Sent)),
    (
        "packet 3.12 sent calipso,4294967295 versions 5",
        Ok(Form::Sent),
    ),
    ("packet 3.12 sent cipsov4,16 versions 5", Ok(Form::Sent)),
    (
        "packet 1.2 denied 3 Unlabelled hop 1 node gate versions 7",
        Ok(Form::DeniedPlain),
    ),
    (
        "packet 1.2 denied 5 UnknownDoi octet 22 hop 1 node gate versions 7",
        Ok(Form::DeniedOctet),
    ),
    (
        "packet 1.2 denied 8 CategoryUnmapped category 240 hop 1 node g versions 7",
        Ok(Form::DeniedCategory),
    ),
    (
        "packet 1.2 denied 21 NotCrossable Fragment hop 1 node g versions 7",
        Ok(Form::DeniedCause),
    ),
    (
        "packet 1.2 denied 22 NotIp hop 0 node - versions -",
        Ok(Form::DeniedFrame),
    ),
    ("command 1 gate done", Ok(Form::Done)),
    ("command 2 gate DoiExists", Ok(Form::Refused)),
    ("command 3 gate listed 2", Ok(Form::Listed)),
    ("flow 1 office.pcap", Ok(Form::Flow)),
    ("end 1 packets 6 passed 2 denied 4", Ok(Form::End)),
    ("capture 2 octet 116 Trailer", Ok(Form::Capture)),
    ("limit packets 1048576", Ok(Form::Limit)),
    ("script line 2 octet 12 NameTwice", Ok(Form::Script)),
    ("done", Ok(Form::Finished)),
    ("ok 2 nodes 7 commands 1 flows", Ok(Form::Ok)),
    (
        "ok 0 nodes 0 commands 18446744073709551615 flows",
        Ok(Form::Ok),
    ),
    ("", Err(0)),
    ("done ", Err(5)),
    ("packet", Err(6)),
    (
        "packet 1.1 delivered s0:c3.c2 to 10.9.0.2 versions 7",
        Err(21),
    ),
    (
        "packet 1.1 delivered s0:c2,c1 to 10.9.0.2 versions 7",
        Err(21),
    ),
    (
        "packet 1.1 delivered s0:c1,c1 to 10.9.0.2 versions 7",
        Err(21),
    ),
    (
        "packet 1.1 delivered s0:c1.c1 to 10.9.0.2 versions 7",
        Err(21),
    ),
    (
        "packet 1.1 delivered s0:c1.c2 to 10.9.0.2 versions 7",
        Err(21),
    ),
    (
        "packet 1.1 delivered s0:c1,c2,c3 to 10.9.0.2 versions 7",
        Err(21),
    ),
    (
        "packet 1.1 delivered s0:c01 to 10.9.0.2 versions 7",
        Err(21),
    ),
    ("packet 1.1 delivered s00 to 10.9.0.2 versions 7", Err(21)),
    ("packet 1.1 delivered s0 to 10.9.0.2 versions -", Err(45)),
    ("packet 3.12 sent cipsov4,0 versions 5", Err(17)),
    ("packet 3.12 sent calipso,4294967296 versions 5", Err(17)),
    ("packet 3.12 sent unlbl versions -", Err(32)),
    (
        "packet 1.2 denied 3 Unlabelled hop 1 node gate versions -",
        Err(56),
    ),
    (
        "packet 1.2 denied 22 NotIp hop 1 node gate versions 7",
        Err(31),
    ),
    (
        "packet 1.2 denied 22 NotIp hop 0 node gate versions -",
        Err(38),
    ),
    (
        "packet 1.2 denied 22 NotIp hop 0 node - versions 7",
        Err(49),
    ),
    ("packet 1.1 delivered s0 to 10.9.0.256 versions 7", Err(27)),
    ("packet 1 delivered", Err(7)),
    (
        "packet 1.2 denied 4 Unlabelled hop 1 node gate versions 7",
        Err(20),
    ),
    (
        "packet 1.2 denied 5 UnknownDoi hop 1 node gate versions 7",
        Err(31),
    ),
    (
        "packet 1.2 denied 3 Unlabelled hop 1 node gate versions 7,",
        Err(56),
    ),
    ("end 01 packets", Err(4)),
    ("command 1 gate Done", Err(15)),
    ("command 1 gate done 2", Err(20)),
    ("ok 02 nodes 7 commands 1 flows", Err(3)),
    ("ok 2 nodes 7 commands 1 flow", Err(24)),
    ("ok 2 nodes 7 commands", Err(21)),
    ("ok 2 nodes 7 commands 1 flows 1", Err(30)),
    ("ok 2 nodes 18446744073709551616 commands 1 flows", Err(11)),
];

#[test]
fn reads_lines(rt: HostRuntime) {
    let mut label = Label::lowest();
    for (line, form) in LINES {
        assert_eq!(rt; read_line(line.as_bytes(), &mut label), form);
    }
}
