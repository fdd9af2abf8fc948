// Rounds of one packet again and again, with ample memory.

ghost use Rattle.std.specs.Prelude.{◌≡◌, ◌<◌, ◌≤◌, ◌^◌, length, All, IfSome};
ghost use Rattle.std.specs.Arc.{arc_value};
ghost use Rattle.label_commands.specs.flow_lines.Hop.{node_of};
ghost use Rattle.shared_tables.specs.Plan.{network_after};

use domain_map::{Address, read_name};
use label_commands::{FlowLine, Flows, NodeNames, read_flow};
use label_flow::*;
use node_tables::Network;
use script_lines::{Step, command_of, read_said, words_into};
use shared_tables::{Board, Plan, Publisher, Viewer};
use std::alloc::Global;
use std::process::Abort;
use std::sync::atomic::{AtomicU64, Ordering};
use std::sync::{Arc, Wait};
use std::thread::{Threads, yield_now};
use worked_networks::steps_of;
use worked_values::octets_of;
use worked_values::packets::LABELLED_4;

static LINES: [(usize, &str); 4] = [
    (0, "cipsov4 add pass doi:16 tags:1"),
    (0, "map add default protocol:cipsov4,16"),
    (
        0,
        "receiver add address:10.0.0.2 domain:sink_t level:s2:c0.c5",
    ),
    (0, "unlbl accept on"),
];

const TWO_HOPS: &str = "in out forward:r,eth0,eth1,any receive:r,eth1";

const ONE_HOP: &str = "in out receive:r,eth0";

/// Three packets of the second batch are taken.
const STOPPING: Supply = Supply {
    packets: 1030,
    at_once: 1024,
    stops_at: 1027,
};

/// Two batches of two packets.
const TWO_AND_TWO: Supply = Supply {
    packets: 4,
    at_once: 2,
    stops_at: u64::MAX,
};

const LIMIT: u64 = 1_000_000_000;

const TURNS_OF_A_LOOK: u64 = 20_000;

/// So many packets, each with its number behind it. What became of them is counted.
#[derive(Drop)]
struct Copies {
    alloc: Global,
    made: u64,
    last: u64,
    /// How many come in a batch.
    at_once: u64,
    due: u64,
    hops: usize,
    stop: Option<u8>,
    /// Where the feed stops, if it does.
    stops_at: u64,
    taken: u64,
    /// How many were delivered as `s2:c1,c3` to 10.0.0.2.
    delivered: u64,
    /// How many came with the octets of another number.
    astray: u64,
    versions: Vec<u32>,
}

// A packet with its number behind its length, in two octets.
fn numbered(alloc: Global, number: u64) -> Option<PacketIn>
    ensures { IfSome result (λ packet. length packet.bytes ≤ 262144) }
{
    let mut bytes = octets_of(alloc, LABELLED_4).ok()?;
    if bytes.len() != 40 {
        return None;
    }
    bytes.push((number / 256 % 256) as u8).ok()?;
    bytes.push((number % 256) as u8).ok()?;
    let bytes = Octets::of(bytes);
    Some(PacketIn { bytes, is_ip: true })
}

fn fill(alloc: Global, batch: &mut Vec<PacketIn>, from: u64, count: usize) -> Option<()>
    ensures some { IfSome result (λ done. length batch.new.items ≡ count) }
    ensures short { All (λ packet. length packet.bytes ≤ 262144) batch.new.items }
{
    batch.clear();
    let mut made = 0;
    while made < count {
        let packet = numbered(alloc, from.wrapping_add(made as u64))?;
        batch.push(packet).ok()?;
        made += 1;
    }
    Some(())
}

impl Feed for Copies {
    type Stop = u8;

    ghost use Rattle.std.specs.Prelude.{None, true};

    ghost left = { λ _. None };

    ghost ended = { λ _. true };

    ghost due = { λ feed. feed.due };

    ghost stop = { λ feed. feed.stop };

    ghost hops = { λ feed. feed.hops };

    ghost ready = { λ _. Unit {0} };

    ghost took = { λ _ _ _. Unit {0} };

    fn fetch(&mut self, batch: &mut Vec<PacketIn>) -> Result<bool, u8> {
        let left = self.last.saturating_sub(self.made);
        let count = left.min(self.at_once).min(1024) as usize;
        if fill(self.alloc, batch, self.made, count).is_none() {
            self.stop = Some(1);
            self.due = 0;
            return Err(1);
        }
        self.made = self.made.wrapping_add(count as u64);
        self.due = count as u64;
        Ok(count > 0)
    }

    fn accept(&mut self, walked: &Walked, packet: &[u8]) -> Result<(), u8> {
        self.due -= 1;
        if self.taken == self.stops_at
            || self
                .versions
                .extend_from_slice(walked.versions.as_slice())
                .is_err()
        {
            self.stop = Some(2);
            self.due = 0;
            return Err(2);
        }
        if is_expected(walked) {
            self.delivered = self.delivered.wrapping_add(1);
        }
        if number_of(packet) != Some(self.taken) {
            self.astray = self.astray.wrapping_add(1);
        }
        self.taken = self.taken.wrapping_add(1);
        Ok(())
    }
}

fn is_expected(walked: &Walked) -> bool {
    match &walked.end {
        End::Delivered { label, receiver } => {
            label.level == 2
                && label.cats.count() == 2
                && label.cats.contains(1)
                && label.cats.contains(3)
                && *receiver == Address::V4([10, 0, 0, 2])
        }
        _ => false,
    }
}

fn number_of(packet: &[u8]) -> Option<u64> {
    let high = packet.get(40)?;
    let low = packet.get(41)?;
    Some(u64::from(*high) * 256 + u64::from(*low))
}

// Waits for a flag, with a limit of turns.
fn wait_for(flag: &AtomicU64, failed: &AtomicU64) {
    for _ in 0..LIMIT {
        if flag.load(Ordering::SeqCst) > 0 {
            return;
        }
        yield_now();
    }
    failed.store(1, Ordering::SeqCst);
}

// The step waits for the second hop's look to be called, and that look for the step.
#[derive(Drop)]
struct Handshake {
    looked: AtomicU64,
    stepped: AtomicU64,
    failed: AtomicU64,
}

impl Gate for Handshake {
    fn before_look(&self, _worker: u32, _packet: u64, hop: u32) {
        if hop == 2 {
            self.looked.store(1, Ordering::SeqCst);
            wait_for(&self.stepped, &self.failed);
        }
    }

    fn before_step(&self, version: u32) {
        if version == 4 {
            wait_for(&self.looked, &self.failed);
        }
    }

    fn after_step(&self, version: u32) {
        if version == 4 {
            self.stepped.store(1, Ordering::SeqCst);
        }
    }
}

// Each of two workers waits for the other's first look.
#[derive(Drop)]
struct Pair {
    first: AtomicU64,
    second: AtomicU64,
    failed: AtomicU64,
}

impl Gate for Pair {
    fn before_look(&self, worker: u32, packet: u64, hop: u32) {
        if hop == 1 && worker == 0 && packet == 1 {
            self.first.store(1, Ordering::SeqCst);
            wait_for(&self.second, &self.failed);
        }
        if hop == 1 && worker == 1 && packet == 2 {
            self.second.store(1, Ordering::SeqCst);
            wait_for(&self.first, &self.failed);
        }
    }

    fn before_step(&self, _version: u32) {}

    fn after_step(&self, _version: u32) {}
}

// The step waits until the first worker's first look is surely over, and the second worker's first look for the step. Looks are counted.
#[derive(Drop)]
struct Apart {
    looks: AtomicU64,
    first: AtomicU64,
    stepped: AtomicU64,
    failed: AtomicU64,
}

impl Gate for Apart {
    fn before_look(&self, _worker: u32, packet: u64, _hop: u32) {
        self.looks.fetch_add(1, Ordering::SeqCst);
        if packet == 1 {
            self.first.store(1, Ordering::SeqCst);
        }
        if packet == 2 {
            wait_for(&self.stepped, &self.failed);
        }
    }

    fn before_step(&self, version: u32) {
        if version == 4 {
            wait_for(&self.first, &self.failed);
            // Nothing tells that a look is over: it follows its call at once.
            for _ in 0..TURNS_OF_A_LOOK {
                yield_now();
            }
        }
    }

    fn after_step(&self, version: u32) {
        if version == 4 {
            self.stepped.store(1, Ordering::SeqCst);
        }
    }
}

fn flow_of(rt: &impl Abort, alloc: Global, line: &str) -> FlowLine
    ensures { All (λ hop. node_of hop < 1) result.hops }
{
    let mut names = NodeNames::empty(alloc);
    let name = read_name(b"r").expect(rt, "a name");
    names.add(name).expect(rt, "memory");
    assert!(rt; names.len() == 1);
    let mut words = Vec::new(alloc);
    words_into(line.as_bytes(), &mut words).expect(rt, "memory");
    let flows = Flows::empty(alloc);
    let Ok(flow) = read_flow("own", &names, &flows, 0, line.len(), &words) else {
        panic!(rt; "a flow")
    };
    flow
}

fn plan_of(rt: &impl Abort, alloc: Global) -> Arc<Plan>
    ensures { ((arc_value result).nodes ≡ 1) × (length (arc_value result).steps ≡ 4) }
{
    let steps = steps_of(alloc, 1, &LINES).expect(rt, "commands");
    Plan::from_steps(alloc, steps, 1).expect(rt, "memory")
}

fn begun<R: Wait + Abort>(
    rt: &R,
    alloc: Global,
    plan: Arc<Plan>,
    viewers: usize,
) -> (Publisher, Vec<Viewer>)
    requires viewers { (0 < viewers) × (viewers ≤ 16) }
    requires plan { (arc_value plan).nodes ≡ 1 }
    ensures publisher { (result.0.plan ≡ arc_value plan) × (result.0.version ≡ 0) }
    ensures viewers { (length result.1.items ≡ viewers)
        × All (λ viewer. viewer
        ≡ record { board = result.0.board; plan = arc_value plan; seen = 0 }) result.1.items }
{
    let network = fresh(rt, alloc, &plan);
    Board::begin(rt, alloc, &network, plan, 0, viewers).expect(rt, "memory")
}

fn fresh(rt: &impl Abort, alloc: Global, plan: &Arc<Plan>) -> Network
    requires { (arc_value plan.now).nodes ≡ 1 }
    ensures { result ≡ network_after (arc_value plan.now) 0 }
{
    Network::fresh(alloc, 1).expect(rt, "memory")
}

// A publisher at version 0 behind so many steps.
fn stepped<R: Wait + Abort>(rt: &R, publisher: Publisher, version: u32) -> Publisher
    requires steps { version ≤ length publisher.plan.steps }
    requires first { publisher.version ≡ 0 }
    ensures { (result.board ≡ publisher.board)
        × (result.plan ≡ publisher.plan)
        × (result.version ≡ version) }
{
    let mut publisher = publisher;
    while publisher.version() < version {
        publisher.step(rt).expect(rt, "memory");
    }
    publisher
}

// So many packets, how many come in a batch, and where the feed stops, if it does.
#[derive(Clone, Copy)]
struct Supply {
    packets: u64,
    at_once: u64,
    stops_at: u64,
}

// A feed that gives so many packets and doesn't stop.
fn all(packets: u64) -> Supply
    ensures { result.packets ≡ packets }
{
    Supply {
        packets,
        at_once: 1024,
        stops_at: u64::MAX,
    }
}

// A round up to version 4, over a board that is at this version.
fn run<G: Gate + Sync, R: Threads + Wait + Sync + Abort>(
    rt: &R,
    alloc: Global,
    version: u32,
    workers: usize,
    line: &str,
    supply: Supply,
    gate: &G,
) -> (Copies, bool)
    requires version { version ≤ 4 }
    requires workers { (0 < workers) × (workers ≤ 16) }
    requires packets { supply.packets < 2 ^ 32 }
{
    let flow = flow_of(rt, alloc, line);
    let (publisher, mut viewers) = begun(rt, alloc, plan_of(rt, alloc), workers);
    let mut publisher = stepped(rt, publisher, version);
    let mut feed = Copies {
        alloc,
        made: 0,
        last: supply.packets,
        at_once: supply.at_once,
        due: 0,
        hops: flow.hops.hops().len(),
        stop: None,
        stops_at: supply.stops_at,
        taken: 0,
        delivered: 0,
        astray: 0,
        versions: Vec::new(alloc),
    };
    let went = round(
        rt,
        alloc,
        &mut publisher,
        viewers.as_mut_slice(),
        4,
        &flow,
        &mut feed,
        gate,
    );
    let is_whole = went.is_ok() && publisher.version() == 4;
    publisher.close(rt);
    (feed, is_whole)
}

#[test]
fn the_handshake_passes(rt: HostRuntime) {
    let gate = Handshake {
        looked: AtomicU64::new(0),
        stepped: AtomicU64::new(0),
        failed: AtomicU64::new(0),
    };
    let (feed, went) = run(&rt, rt.alloc(), 3, 1, TWO_HOPS, all(1), &gate);
    assert!(rt; went && gate.failed.load(Ordering::SeqCst) == 0);
    assert!(rt; feed.delivered == 1 && feed.versions.as_slice() == [3, 4].as_slice());
}

#[test]
fn two_workers_have_lawful_versions(rt: HostRuntime) {
    let gate = Handshake {
        looked: AtomicU64::new(0),
        stepped: AtomicU64::new(0),
        failed: AtomicU64::new(0),
    };
    let (feed, went) = run(&rt, rt.alloc(), 3, 2, TWO_HOPS, all(2), &gate);
    assert!(rt; went && gate.failed.load(Ordering::SeqCst) == 0 && feed.delivered == 2);
    let versions = feed.versions.as_slice();
    assert!(rt; versions.len() == 4 && versions[1] == 4 && versions[3] == 4);
    assert!(rt; versions[0] >= 3 && versions[2] >= 3);
}

#[test]
fn the_second_handshake_passes(rt: HostRuntime) {
    let gate = Pair {
        first: AtomicU64::new(0),
        second: AtomicU64::new(0),
        failed: AtomicU64::new(0),
    };
    let (feed, went) = run(&rt, rt.alloc(), 4, 2, TWO_HOPS, all(2), &gate);
    assert!(rt; went && gate.failed.load(Ordering::SeqCst) == 0);
    assert!(rt; feed.delivered == 2 && feed.versions.as_slice() == [4, 4, 4, 4].as_slice());
}

// The second batch is ordered from what each worker has seen itself, one of them version 3 and the other 4: so no packet is judged twice.
#[test]
fn each_worker_goes_on_from_what_it_saw(rt: HostRuntime) {
    let gate = Apart {
        looks: AtomicU64::new(0),
        first: AtomicU64::new(0),
        stepped: AtomicU64::new(0),
        failed: AtomicU64::new(0),
    };
    let (feed, went) = run(&rt, rt.alloc(), 3, 2, ONE_HOP, TWO_AND_TWO, &gate);
    assert!(rt; went && gate.failed.load(Ordering::SeqCst) == 0 && feed.delivered == 4);
    assert!(rt; gate.looks.load(Ordering::SeqCst) == 4);
    let versions = feed.versions.as_slice();
    assert!(rt; versions.len() == 4 && versions[0] >= 3);
    assert!(rt; versions[1] == 4 && versions[2] == 4 && versions[3] == 4);
}

// Three batches and three workers: each packet comes back once, in its place.
#[test]
fn batches_keep_their_order(rt: HostRuntime) {
    let (feed, went) = run(&rt, rt.alloc(), 3, 3, ONE_HOP, all(2049), &OpenGate);
    assert!(rt; went && feed.taken == 2049 && feed.delivered == 2049 && feed.astray == 0);
    let (feed, went) = run(&rt, rt.alloc(), 4, 2, ONE_HOP, STOPPING, &OpenGate);
    assert!(rt; !went && feed.taken == 1027 && feed.stop == Some(2) && feed.due == 0);
}
