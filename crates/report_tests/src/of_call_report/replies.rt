//! Worked replies.

use call_report::write_reply;
use domain_map::read_name;
use node_tables::{Network, Reply};
use script_lines::{Command, Step};
use std::alloc::Global;
use std::process::Abort;

/// The reply to this command at a fresh node.
fn answered(rt: &impl Abort, alloc: Global, command: Command) -> Reply {
    let mut network = Network::fresh(alloc, 1).expect(rt, "there is memory");
    network
        .apply(&Step { node: 0, command })
        .expect(rt, "there is memory")
}

// A listing, a change and a refusal.
#[test]
fn prints_replies(rt: HostRuntime) {
    let alloc = rt.alloc();
    let name = read_name(b"fw.a").expect(&rt, "a name");
    let listed = answered(&rt, alloc, Command::MgmtProtocols);
    let done = answered(&rt, alloc, Command::AcceptOn);
    let refused = answered(
        &rt,
        alloc,
        Command::MapDel {
            domain: None,
            prefix: None,
        },
    );
    let mut out = Vec::new(alloc);
    write_reply(1, &name, &listed, &mut out).expect(&rt, "there is memory");
    write_reply(2, &name, &done, &mut out).expect(&rt, "there is memory");
    write_reply(16384, &name, &refused, &mut out).expect(&rt, "there is memory");
    let wanted =
        b"command 1 fw.a listed 3\n  unlbl\n  cipsov4\n  calipso\ncommand 2 fw.a done\ncommand 16384 fw.a MapUnknown\n";
    assert_eq!(rt; out.as_slice(), wanted.as_slice());
}
