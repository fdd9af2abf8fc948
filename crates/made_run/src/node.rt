//! The node that receives made packets, and the flow to it.

ghost use Rattle.std.specs.Prelude.{◌≡◌, ◌<◌, Some, length, All, IfOk};
ghost use Rattle.domain_map.specs.address_text.Name.{name_of_text};
ghost use Rattle.script_lines.specs.command_values.Ranges.{range_below};
ghost use Rattle.node_tables.specs.Steps.{tables_after};
ghost use Rattle.made_run.specs.Network.{receiver_level};
ghost use Rattle.made_run.specs.inside.Node.{made_steps, made_hops, IsOpen};

use domain_map::{Address, Name, read_name};
use label_commands::{FileName, FlowLine, Hop, Route, read_file_name};
use mls_label::{Label, OutOfMemory, Tag};
use mls_range::{KeptRange, Range};
use node_tables::Network;
use script_lines::{Command, Doi, MapProtocol, Step, Tags};
use shared_tables::{Board, Plan, Publisher, Viewer};
use std::alloc::Global;
use std::sync::Wait;

/// How many workers judge the packets.
const WORKERS: usize = 4;

/// How many commands set the node up.
pub(crate) const STEPS: u32 = 3;

// A text that is a name.
fn fixed_name(text: &[u8]) -> Name
    requires { name_of_text text.now ≡ Some text.now }
    ensures { result ≡ text.now }
{
    match read_name(text) {
        Some(name) => name,
        None => unreachable!(),
    }
}

// The receiver's level.
fn receiver_level() -> Label
    ensures { result ≡ receiver_level }
{
    let mut level = Label::lowest();
    level.level = 2;
    level.cats.insert_run(0, 13);
    level
}

// All labels that the receiver may have.
fn receiver_range(alloc: Global) -> Result<KeptRange, OutOfMemory>
    ensures { IfOk result (λ range. range ≡ range_below receiver_level) }
{
    let mut range = Range::lowest();
    range.assign_ends(&Label::lowest(), &receiver_level());
    KeptRange::of(alloc, &range)
}

// The commands that set the node up.
fn made_steps(alloc: Global) -> Result<Vec<Step>, OutOfMemory>
    ensures { IfOk result (λ steps. steps.items ≡ made_steps) }
{
    let doi = Doi::of(16);
    let tags = Tags::of(alloc, &[Tag::One])?;
    let range = receiver_range(alloc)?;
    let mut steps = Vec::with_capacity(alloc, STEPS as usize)?;
    let command = Command::CipsoAddPass { doi, tags };
    steps.push(Step { node: 0, command })?;
    let command = Command::MapAdd {
        domain: None,
        prefix: None,
        protocol: MapProtocol::cipso(doi),
    };
    steps.push(Step { node: 0, command })?;
    let command = Command::ReceiverAdd {
        address: Address::V4([10, 0, 0, 2]),
        domain: fixed_name(b"sink_t"),
        range,
    };
    steps.push(Step { node: 0, command })?;
    Ok(steps)
}

// One node after these steps.
fn network_after(alloc: Global, steps: &[Step]) -> Result<Network, OutOfMemory>
    requires { All (λ step. step.node < 1) steps.now }
    ensures { IfOk result (λ network. network ≡ tables_after 1 steps.now (length steps.now)) }
{
    let mut network = Network::fresh(alloc, 1)?;
    for step in steps {
        let _reply = network.apply(step)?;
    }
    Ok(network)
}

/// Opens a board at the version that the node is set up under, with a viewer for each worker.
pub(crate) fn open_board<R: Wait>(
    rt: &R,
    alloc: Global,
) -> Result<(Publisher, Vec<Viewer>), OutOfMemory>
    ensures { IfOk result (λ begun. IsOpen begun.0 begun.1.items) }
{
    let steps = made_steps(alloc)?;
    let network = network_after(alloc, &steps)?;
    let plan = Plan::from_steps(alloc, steps, 1)?;
    Board::begin(rt, alloc, &network, plan, STEPS, WORKERS)
}

// A name in place of an input's: nothing is read.
fn no_input(alloc: Global) -> Result<FileName, OutOfMemory> {
    match read_file_name(alloc, b"made")? {
        Some(name) => Ok(name),
        None => unreachable!(),
    }
}

/// The flow to the node, at which its one hop receives.
pub(crate) fn made_flow(alloc: Global) -> Result<FlowLine, OutOfMemory>
    ensures { IfOk result (λ flow. flow.hops ≡ made_hops) }
{
    let interface = fixed_name(b"eth0");
    let mut hops = Vec::with_capacity(alloc, 1)?;
    hops.push(Hop::Receive { node: 0, interface })?;
    Ok(FlowLine {
        input: no_input(alloc)?,
        output: None,
        hops: Route::of(hops),
        before: STEPS,
    })
}
