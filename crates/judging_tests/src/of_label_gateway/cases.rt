//! What the lines of a worked packet say: a name; the node, the interfaces and the domain; the packet; then what comes of it.

use super::name;
use super::nodes::{NODES, node};
use domain_map::Name;
use label_gateway::{Passed, forward};
use node_tables::Network;
use packet_label::Stop;
use std::alloc::Global;
use std::process::Abort;
use worked_values::octets_of;

/// A line of a case, counted from 0.
pub(super) fn line_of<'a>(rt: &impl Abort, case: &'a str, place: usize) -> &'a str {
    case.lines().nth(place).expect(rt, "a line")
}

/// A name of a case's second line.
fn name_of(rt: &impl Abort, case: &str, place: usize) -> Name {
    let word = line_of(rt, case, 1).split(' ').nth(place);
    name(rt, word.expect(rt, "a name"))
}

/// The node of a case's second line.
fn node_of(rt: &impl Abort, alloc: Global, case: &str) -> Network {
    let name = line_of(rt, case, 1).split(' ').next();
    let name = name.expect(rt, "a node");
    let (_, commands) = NODES
        .iter()
        .find(|node| node.0 == name)
        .expect(rt, "a node");
    node(rt, alloc, commands)
}

/// Forwards the packet of a case.
pub(super) fn forward_case(
    rt: &impl Abort,
    alloc: Global,
    case: &str,
    out: &mut Vec<u8>,
) -> Result<Passed, Stop> {
    let network = node_of(rt, alloc, case);
    assert!(rt; network.nodes() == 1);
    let packet = octets_of(alloc, line_of(rt, case, 2)).expect(rt, "memory");
    let (from, to) = (name_of(rt, case, 1), name_of(rt, case, 2));
    forward(
        network.node(0),
        &from,
        &to,
        &name_of(rt, case, 3),
        &packet,
        out,
    )
}
