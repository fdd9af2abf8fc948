//! Boards of small plans, with ample memory.

ghost use Rattle.std.specs.Prelude.{◌≡◌, ◌+◌, ◌<◌, ◌≤◌, ◌^◌, All, length};
ghost use Rattle.std.specs.Arc.{arc_value};
ghost use Rattle.node_tables.specs.Steps.{step_applied, tables_after};
ghost use Rattle.script_lines.specs.declared.command.Step.{Step as StepValue};
ghost use Rattle.shared_tables.specs.Plan.{network_after};

use crate::checks::same;
use mls_label::Proto;
use node_tables::Network;
use script_lines::Step;
use shared_tables::*;
use std::alloc::Global;
use std::process::Abort;
use std::sync::{Arc, Wait};
use std::thread::join;
use worked_networks::steps_of;

/// Commands to one node. The fifth lists lines, and the sixth is refused.
static LINES: [(usize, &str); 7] = [
    (0, "cipsov4 add pass doi:16 tags:1"),
    (0, "map add default protocol:cipsov4,16"),
    (
        0,
        "receiver add address:10.0.0.2 domain:sink_t level:s2:c0.c5",
    ),
    (0, "unlbl accept on"),
    (0, "unlbl list"),
    (0, "cipsov4 del doi:16"),
    (0, "unlbl accept off"),
];

fn plan_of(rt: &impl Abort, alloc: Global, lines: &[(usize, &str)]) -> Arc<Plan>
    requires { length lines.now < 2 ^ 32 }
    ensures { ((arc_value result).nodes ≡ 1)
        × (length (arc_value result).steps ≡ length lines.now) }
{
    let steps = steps_of(alloc, 1, lines).expect(rt, "commands");
    Plan::from_steps(alloc, steps, 1).expect(rt, "memory")
}

fn fresh(rt: &impl Abort, alloc: Global, plan: &Arc<Plan>) -> Network
    requires { (arc_value plan.now).nodes ≡ 1 }
    ensures { result ≡ network_after (arc_value plan.now) 0 }
{
    Network::fresh(alloc, 1).expect(rt, "memory")
}

// A board with one viewer.
fn begun<R: Wait + Abort>(
    rt: &R,
    alloc: Global,
    network: &Network,
    plan: Arc<Plan>,
    version: u32,
) -> (Publisher, Viewer)
    requires version { version ≤ length (arc_value plan).steps }
    requires network { network.now ≡ network_after (arc_value plan) version }
    ensures publisher { (result.0.plan ≡ arc_value plan) × (result.0.version ≡ version) }
    ensures viewer { result.1
        ≡ record { board = result.0.board; plan = arc_value plan; seen = version } }
{
    let Ok((publisher, mut viewers)) = Board::begin(rt, alloc, network, plan, version, 1) else {
        panic!(rt; "memory")
    };
    let viewer = viewers.pop().expect(rt, "a viewer");
    (publisher, viewer)
}

// Which version a viewer finds, whether the node defines the DOI there, and whether it accepts unlabelled packets.
fn looked(rt: &impl Abort, viewer: &mut Viewer) -> (u32, bool, bool)
    requires { viewer.old.plan.nodes ≡ 1 }
    ensures kept { (viewer.new.board ≡ viewer.old.board) × (viewer.new.plan ≡ viewer.old.plan) }
    ensures seen { viewer.old.seen ≤ result.0 }
{
    viewer
        .look(
            |version, network| -> (u32, bool, bool)
                requires { 0 < length network.now }
                ensures { result.0 ≡ version }
            {
                let tables = network.node(0);
                (
                    version,
                    tables.dois().find(Proto::Cipso, 16).is_some(),
                    tables.accepts(),
                )
            },
        )
        .expect(rt, "a look")
}

// The next step is published.
fn steps<R: Wait + Abort>(rt: &R, publisher: &mut Publisher)
    requires { publisher.old.version < length publisher.old.plan.steps }
    ensures { publisher.new ≡ record publisher.old { version = publisher.old.version + 1 } }
{
    publisher.step(rt).expect(rt, "memory");
}

// The next look finds this.
fn finds(rt: &impl Abort, viewer: &mut Viewer, wanted: (u32, bool, bool))
    requires { viewer.old.plan.nodes ≡ 1 }
    ensures { (viewer.new.board ≡ viewer.old.board) × (viewer.new.plan ≡ viewer.old.plan) }
{
    same(rt, wanted, looked(rt, viewer), wanted);
}

// After a step and the note of it the next look gives version 1 and the tables after that step.
#[test]
fn a_viewer_learns_of_a_step(rt: HostRuntime) {
    let plan = plan_of(&rt, rt.alloc(), &LINES);
    let network = fresh(&rt, rt.alloc(), &plan);
    let (mut publisher, mut viewer) = begun(&rt, rt.alloc(), &network, plan, 0);
    finds(&rt, &mut viewer, (0, false, false));
    steps(&rt, &mut publisher);
    viewer.learn(publisher.tell());
    same(&rt, "seen", viewer.seen(), 1);
    finds(&rt, &mut viewer, (1, true, false));
    publisher.close(&rt);
}

// The tables after this step.
fn advanced(rt: &impl Abort, network: Network, step: &Step) -> Network
    requires { step.now.node < length network }
    ensures { result ≡ step_applied network step.now }
{
    let mut network = network;
    match network.advance(step) {
        Ok(()) => network,
        Err(_) => panic!(rt; "memory"),
    }
}

// The tables after two steps.
fn after_two(rt: &impl Abort, alloc: Global, steps: &[Step]) -> Network
    requires nodes { All (λ (step : StepValue). step.node < 1) steps.now }
    requires two { 2 ≤ length steps.now }
    ensures { result ≡ tables_after 1 steps.now 2 }
{
    let network = Network::fresh(alloc, 1).expect(rt, "memory");
    match steps {
        [first, second, ..] => {
            let network = advanced(rt, network, first);
            advanced(rt, network, second)
        }
        _ => unreachable!(),
    }
}

// A board at version 2 of these steps, of which the first six are planned.
fn begun_at_two<R: Wait + Abort>(rt: &R, alloc: Global, shared: &SharedSteps) -> (Publisher, Viewer)
    requires nodes { All (λ (step : StepValue). step.node < 1) shared.now }
    requires six { 6 ≤ length shared.now }
    ensures publisher { (result.0.plan.nodes ≡ 1)
        × (length result.0.plan.steps ≡ 6)
        × (result.0.version ≡ 2) }
    ensures viewer { (result.1.board ≡ result.0.board) × (result.1.plan ≡ result.0.plan) }
{
    let network = after_two(rt, alloc, shared.as_slice());
    let plan = Plan::of_first(alloc, shared, 6, 1).expect(rt, "memory");
    begun(rt, alloc, &network, plan, 2)
}

// The other four of six steps.
fn goes_on<R: Wait + Abort>(rt: &R, publisher: &mut Publisher, viewer: &mut Viewer)
    requires nodes { viewer.old.plan.nodes ≡ 1 }
    requires steps { publisher.old.version + 4 ≤ length publisher.old.plan.steps }
{
    finds(rt, viewer, (2, true, false));
    steps(rt, publisher);
    steps(rt, publisher);
    finds(rt, viewer, (4, true, true));
    steps(rt, publisher);
    finds(rt, viewer, (5, true, true));
    steps(rt, publisher);
    finds(rt, viewer, (6, true, true));
}

// A listing and a refusal are versions too. A board goes on with the tables of the steps before, and ends in front of a step that its plan leaves out.
#[test]
fn each_step_is_a_version(rt: HostRuntime) {
    let alloc = rt.alloc();
    let lines = steps_of(alloc, 1, &LINES).expect(&rt, "commands");
    let shared = SharedSteps::of(alloc, lines).expect(&rt, "memory");
    let (mut publisher, mut viewer) = begun_at_two(&rt, alloc, &shared);
    same(
        &rt,
        "versions",
        (publisher.version(), viewer.seen()),
        (2, 2),
    );
    goes_on(&rt, &mut publisher, &mut viewer);
    publisher.close(&rt);
}

fn steps_twice<R: Wait + Abort>(rt: &R, publisher: &mut Publisher)
    requires { publisher.old.version + 1 < length publisher.old.plan.steps }
{
    steps(rt, publisher);
    steps(rt, publisher);
}

fn looks_twice(rt: &impl Abort, viewer: &mut Viewer) -> (u32, u32)
    requires { viewer.old.plan.nodes ≡ 1 }
{
    (looked(rt, viewer).0, looked(rt, viewer).0)
}

// A publisher and a viewer, each in a thread of its own.
#[test]
fn looks_go_beside_steps(rt: HostRuntime) {
    let plan = plan_of(&rt, rt.alloc(), &LINES);
    let network = fresh(&rt, rt.alloc(), &plan);
    let (mut publisher, mut viewer) = begun(&rt, rt.alloc(), &network, plan, 0);
    let ((), versions) = join(
        &rt,
        || steps_twice(&rt, &mut publisher),
        || looks_twice(&rt, &mut viewer),
    );
    assert!(rt; versions.0 <= versions.1 && versions.1 <= 2);
    publisher.close(&rt);
}
