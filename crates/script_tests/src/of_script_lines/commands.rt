//! Commands of each form, copied and written.

use super::said_by;
use crate::checks::same;
use script_lines::{Command, Row, command_of, write_step};
use std::alloc::Global;
use std::process::Abort;

/// Lines, and what their commands are written as.
const FORMS: &[(&str, &str)] = &[
    (
        "cipsov4 add pass tags:1 doi:16",
        "cipsov4 add pass doi:16 tags:1",
    ),
    (
        "cipso add trans categories:1=2,3=4 levels:0=5 tags:2,1,5,5,1 doi:4294967295",
        "cipsov4 add trans doi:4294967295 tags:2,1,5,5,1 levels:0=5 categories:1=2,3=4",
    ),
    ("calipso add pass doi:9", "calipso add pass doi:9"),
    (
        "calipso add trans levels:2=7 doi:9",
        "calipso add trans doi:9 levels:2=7",
    ),
    ("cipsov4 del doi:1", "cipsov4 del doi:1"),
    ("calipso del doi:1", "calipso del doi:1"),
    ("cipsov4 list", "cipsov4 list"),
    ("cipso list doi:8", "cipsov4 list doi:8"),
    ("calipso list", "calipso list"),
    ("calipso list doi:8", "calipso list doi:8"),
    (
        "map add protocol:unlbl default",
        "map add default protocol:unlbl",
    ),
    (
        "map add address:10.1.2.3/16 protocol:cipso,8 domain:web_t",
        "map add domain:web_t address:10.1.0.0/16 protocol:cipsov4,8",
    ),
    (
        "map add domain:d protocol:calipso,8",
        "map add domain:d protocol:calipso,8",
    ),
    ("map del default", "map del default"),
    (
        "map del address:::1/64 domain:d",
        "map del domain:d address:::/64",
    ),
    ("map list", "map list"),
    ("unlbl accept on", "unlbl accept on"),
    ("unlbl accept off", "unlbl accept off"),
    (
        "unlbl add label:u:r:t:s1-s2:c1 address:10.0.0.1 interface:eth0",
        "unlbl add interface:eth0 address:10.0.0.1/32 label:s1-s2:c1",
    ),
    (
        "unlbl add default address:::/0 label:s3:c1,c0",
        "unlbl add default address:::/0 label:s3:c0,c1",
    ),
    (
        "unlbl del address:0.0.0.0/0 default",
        "unlbl del default address:0.0.0.0/0",
    ),
    ("unlbl list", "unlbl list"),
    (
        "receiver add level:s0-s3:c0.c5 domain:sink_t address:10.0.0.2",
        "receiver add address:10.0.0.2 domain:sink_t level:s3:c0.c5",
    ),
    (
        "receiver add address:fd00::1 domain:d level:s1-s1",
        "receiver add address:fd00::1 domain:d level:s1-s1",
    ),
    (
        "receiver del address:10.0.0.2",
        "receiver del address:10.0.0.2",
    ),
    (
        "range add range:s0-s3 interface:eth0",
        "range add interface:eth0 range:s0-s3",
    ),
    ("range add default range:s1", "range add default range:s1"),
    ("range del interface:eth0", "range del interface:eth0"),
    ("range del default", "range del default"),
    (
        "pair add address6:FD00:0::1 address4:10.0.0.1",
        "pair add address4:10.0.0.1 address6:fd00::1",
    ),
    ("pair del address4:10.0.0.1", "pair del address4:10.0.0.1"),
    ("mgmt version", "mgmt version"),
    ("mgmt protocols", "mgmt protocols"),
];

/// The command of a line.
fn command(rt: &impl Abort, alloc: Global, line: &str) -> Command {
    let said = said_by(rt, alloc, line).expect(rt, "said");
    command_of(said.row, said.fields).expect(rt, "command")
}

/// The written form.
fn written(rt: &impl Abort, alloc: Global, command: &Command) -> Vec<u8> {
    let mut out = Vec::new(alloc);
    write_step(command, &mut out).expect(rt, "memory");
    out
}

fn copied(rt: &impl Abort, alloc: Global, line: &str) -> Command {
    let command = command(rt, alloc, line);
    command.copy(alloc).expect(rt, "memory")
}

/// The written form of a copy.
fn writes(rt: &impl Abort, alloc: Global, line: &str, form: &str) {
    let out = written(rt, alloc, &copied(rt, alloc, line));
    same(rt, line, out.as_slice(), form.as_bytes());
}

#[test]
fn reads_copies_and_writes_each_form(rt: HostRuntime) {
    for &(line, form) in FORMS {
        writes(&rt, rt.alloc(), line, form);
    }
}

#[test]
fn readings_are_no_commands(rt: HostRuntime) {
    let said = said_by(&rt, rt.alloc(), "reading categories:1=2").expect(&rt, "said");
    assert_eq!(rt; said.row, Row::Reading);
    assert!(rt; command_of(said.row, said.fields).is_none());
}
