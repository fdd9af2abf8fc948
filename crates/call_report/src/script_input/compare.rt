//! Neighbouring hops of a flow compared, each with the tables of its version and the reading of its node.

ghost use Rattle.std.specs.Prelude.{◌≡◌, ◌<◌, ◌≤◌, ℕ, List, All, length, IfOk, OnOk};
ghost use Rattle.label_commands.specs.declared.flow_lines.hop.Hop.{Hop as HopValue};
ghost use Rattle.label_commands.specs.flow_lines.Hop.{node_of};
ghost use Rattle.label_commands.specs.Sound.{IsSoundScript};
ghost use Rattle.label_flow.specs.packet_walk.Walk.{Rises, tables_of};
ghost use Rattle.label_flow.specs.flow_access.Labels.{reading_at};
ghost use Rattle.label_flow.specs.flow_access.Valid.{plan_of};
ghost use Rattle.call_report.specs.script_input.Neighbours.{EachTwo, hop_in};

use label_commands::{Hop, Reading, Script};
use label_flow::StepTables;
use mls_label::OutOfMemory;
use node_tables::{Network, Tables};
use std::alloc::Global;

/// A hop of a flow, with the tables of its node under a version and the node's reading.
#[derive(Drop)]
pub struct HopAt<'a> {
    pub hop: &'a Hop,
    pub tables: &'a Tables,
    pub reading: &'a Reading,
}

/// A question on two neighbouring hops of a flow, and what is printed of the answers.
pub trait Compares {
    /// What two hops come to.
    type Found: Drop;

    ghost use Rattle.std.specs.Prelude.{◌≡◌, ◌++◌, ℕ, List, OnOk};
    ghost use Rattle.call_report.specs.script_input.Neighbours.{HopState, hop_with};

    /// This is found of two neighbouring hops.
    ghost finds: { HopState → HopState → Self.Found → Type 0 };

    /// What is printed of all that was found, from the first two hops to the last two.
    ghost text: { List Self.Found → List ℕ };

    /// Compares a hop with the next one.
    fn compare(&self, left: &HopAt<'_>, right: &HopAt<'_>) -> Self::Found
        ensures { finds
            (hop_with left.now.hop.now left.now.tables.now left.now.reading.now)
            (hop_with right.now.hop.now right.now.tables.now right.now.reading.now) result };

    /// Appends the text of what was found; some of it where memory runs out.
    fn append(&self, found: &[Self::Found], lines: &mut Vec<u8>) -> Result<(), OutOfMemory>
        ensures { OnOk result (lines.new.items ≡ lines.old.items ++ text found.now) };
}

/// What every two neighbouring hops come to, from the first two to the last two. Two states of the tables go forward, one a hop behind the other,
/// so that each command is carried out twice at most and no tables are copied.
pub(crate) fn compare_hops<C: Compares>(
    alloc: Global,
    by: &C,
    script: &Script,
    hops: &[Hop],
    versions: &[u32],
) -> Result<Vec<C::Found>, OutOfMemory>
    requires sound { (own : List ℕ) × IsSoundScript own script.now }
    requires nodes { All (λ (hop : HopValue). node_of hop < length script.now.nodes) hops.now }
    requires some { 0 < length hops.now }
    requires each { length versions.now ≡ length hops.now }
    requires rises { Rises 0 (length script.now.steps) versions.now }
    ensures { IfOk result (λ found. EachTwo C.finds (plan_of script.now) script.now.readings
        hops.now versions.now found.items) }
{
    let mut found = Vec::new(alloc);
    let steps = script.steps.as_slice();
    let mut left = StepTables::fresh(alloc, script.nodes.len(), steps)?;
    let mut right = StepTables::fresh(alloc, script.nodes.len(), steps)?;
    let mut place = 1;
    while place < hops.len() {
        left.forward_to(versions[place - 1])?;
        right.forward_to(versions[place])?;
        let (front, behind) = (&hops[place - 1], &hops[place]);
        found.push(compare(by, script, left.network(), front, right.network(), behind))?;
        place += 1;
    }
    Ok(found)
}

/// What two hops come to, the left one under one state of all tables and the right one under another.
fn compare<C: Compares>(
    by: &C,
    script: &Script,
    left_tables: &Network,
    left: &Hop,
    right_tables: &Network,
    right: &Hop,
) -> C::Found
    requires readings { length script.now.readings ≡ length script.now.nodes }
    requires left { (length left_tables.now ≡ length script.now.nodes)
        × (node_of left.now < length script.now.nodes) }
    requires right { (length right_tables.now ≡ length script.now.nodes)
        × (node_of right.now < length script.now.nodes) }
    ensures { C.finds
        (hop_in left_tables.now script.now.readings left.now)
        (hop_in right_tables.now script.now.readings right.now) result }
{
    by.compare(
        &hop_at(script, left_tables, left),
        &hop_at(script, right_tables, right),
    )
}

/// A hop with the tables and the reading of its node.
fn hop_at<'a>(script: &'a Script, network: &'a Network, hop: &'a Hop) -> HopAt<'a>
    requires readings { length script.now.readings ≡ length script.now.nodes }
    requires node { (length network.now ≡ length script.now.nodes)
        × (node_of hop.now < length script.now.nodes) }
    ensures hop { result.hop.now ≡ hop.now }
    ensures tables { result.tables.now ≡ tables_of network.now (node_of hop.now) }
    ensures reading { result.reading.now ≡ reading_at script.now.readings hop.now }
{
    let node = node_of(hop);
    HopAt {
        hop,
        tables: network.node(node),
        reading: &script.readings.as_slice()[node],
    }
}

/// The number of a hop's node.
fn node_of(hop: &Hop) -> usize
    ensures { result ≡ node_of hop.now }
{
    match hop {
        Hop::Send { node, .. } | Hop::Forward { node, .. } | Hop::Receive { node, .. } => *node,
    }
}
