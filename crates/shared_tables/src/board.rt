//! Making a board.

ghost use Rattle.std.specs.Prelude.{◌≡◌, ◌≤◌, ◌<◌, [], length, drop, All, IfOk};
ghost use Rattle.std.specs.Arc.{arc_value};
ghost use Rattle.left_right.specs.Sides.{view};
ghost use Rattle.shared_tables.specs.Plan.{network_after};
ghost use Rattle.shared_tables.specs.inside.Name.{board_name};
ghost use Rattle.shared_tables.specs.inside.Rule.{known};

use crate::plan::Plan;
use crate::publisher::{Publisher, publish};
use crate::rule::{Learns, Rule, Tells, View};
use crate::state::{Advance, State};
use crate::viewer::Viewer;
use left_right::writer::Writer;
use mls_label::OutOfMemory;
use node_tables::Network;
use std::alloc::Global;
use std::sync::{Arc, Wait};

/// What a publisher and its viewers share. No value of it is made.
pub struct Board;

impl Board {
    /// Opens a board at a version of a plan, on copies of a network that has the tables of that version, for so many viewers. It may
    /// wait: where a viewer's place is refused, it closes what it opened. After an error the plan's share is dropped.
    pub fn begin<R: Wait>(
        rt: &R,
        alloc: Global,
        network: &Network,
        plan: Arc<Plan>,
        version: u32,
        viewers: usize,
    ) -> Result<(Publisher, Vec<Viewer>), OutOfMemory>
        requires viewers { (0 < viewers) × (viewers ≤ 16) }
        requires version { version ≤ length (arc_value plan).steps }
        requires network { network.now ≡ network_after (arc_value plan) version }
        ensures publisher { IfOk result
            (λ begun. (begun.0.plan ≡ arc_value plan) × (begun.0.version ≡ version)) }
        ensures viewers { IfOk result
            (λ begun. (length begun.1.items ≡ viewers)
            × All
            (λ viewer. viewer
            ≡ record {
              board = begun.0.board;
              plan = arc_value plan;
              seen = version;
            }) begun.1.items) }
    {
        let writer = open(alloc, network, &plan, version, viewers)?;
        // With nothing pending this tells the writer its own version.
        let (mut writer, published) = publish(writer, rt);
        if published.is_err() {
            drop(writer.take(rt));
            return Err(OutOfMemory);
        }
        match seats(alloc, &mut writer, viewers) {
            Ok(all) => Ok((Publisher::of(writer), all)),
            Err(_) => {
                drop(writer.take(rt));
                Err(OutOfMemory)
            }
        }
    }
}

// The two copies, which aren't shown to the writer itself yet.
fn open(
    alloc: Global,
    network: &Network,
    plan: &Arc<Plan>,
    version: u32,
    viewers: usize,
) -> Result<Writer<State, Advance, View, Rule>, OutOfMemory>
    requires within { version ≤ length (arc_value plan.now).steps }
    requires network { network.now ≡ network_after (arc_value plan.now) version }
    requires viewers { (0 < viewers) × (viewers ≤ 16) }
    ensures state { IfOk result
        (λ writer. (arc_value writer.desk.shown.value.plan ≡ arc_value plan.now)
        × (writer.desk.shown.value.version ≡ version)) }
    ensures pending { IfOk result (λ writer. drop writer.behind writer.log.items ≡ []) }
{
    let first = state_of(network, plan, version)?;
    let second = state_of(network, plan, version)?;
    Writer::new(alloc, first, second, viewers).map_err(|_| OutOfMemory)
}

// A state with a network of its own.
fn state_of(network: &Network, plan: &Arc<Plan>, version: u32) -> Result<State, OutOfMemory>
    requires within { version ≤ length (arc_value plan.now).steps }
    requires network { network.now ≡ network_after (arc_value plan.now) version }
    ensures { IfOk result
        (λ state. (arc_value state.plan ≡ arc_value plan.now) × (state.version ≡ version)) }
{
    let network = network.copy()?;
    let plan = Arc::try_clone(plan).map_err(|_| OutOfMemory)?;
    Ok(State {
        plan,
        version,
        network,
    })
}

// A place for each viewer.
fn seats(
    alloc: Global,
    writer: &mut Writer<State, Advance, View, Rule>,
    viewers: usize,
) -> Result<Vec<Viewer>, OutOfMemory>
    requires { view writer.old.desk.place ≡ known
        (arc_value writer.old.desk.shown.value.plan) writer.old.desk.shown.value.version }
    ensures kept { (writer.new.desk.shown.value ≡ writer.old.desk.shown.value)
        ×
        (drop writer.new.behind writer.new.log.items ≡ drop writer.old.behind writer.old.log.items)
        × (view writer.new.desk.place ≡ view writer.old.desk.place) }
    ensures count { IfOk result (λ all. length all.items ≡ viewers) }
    ensures each { IfOk result
        (λ all. All
        (λ viewer. viewer
        ≡ record {
          board = board_name;
          plan = arc_value writer.old.desk.shown.value.plan;
          seen = writer.old.desk.shown.value.version;
        }) all.items) }
{
    let mut all = Vec::new(alloc);
    for _ in 0..viewers {
        let viewer = place(writer)?;
        all.push(viewer).map_err(|_| OutOfMemory)?;
    }
    Ok(all)
}

// A place for a viewer, which knows what the writer knows.
fn place(writer: &mut Writer<State, Advance, View, Rule>) -> Result<Viewer, OutOfMemory>
    requires { view writer.old.desk.place ≡ known
        (arc_value writer.old.desk.shown.value.plan) writer.old.desk.shown.value.version }
    ensures kept { (writer.new.desk.shown.value ≡ writer.old.desk.shown.value)
        ×
        (drop writer.new.behind writer.new.log.items ≡ drop writer.old.behind writer.old.log.items)
        × (view writer.new.desk.place ≡ view writer.old.desk.place) }
    ensures viewer { IfOk result
        (λ viewer. viewer
        ≡ record {
          board = board_name;
          plan = arc_value writer.old.desk.shown.value.plan;
          seen = writer.old.desk.shown.value.version;
        }) }
{
    let Ok(mut reader) = writer.factory().reader() else {
        return Err(OutOfMemory);
    };
    reader.learn::<Learns>(writer.tell::<Tells>());
    Ok(Viewer::of(reader, writer.published().version))
}
