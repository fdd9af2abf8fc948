//! The tables of all nodes, going forward step by step.

ghost use Rattle.std.specs.Prelude.{◌≡◌, ◌+◌, ◌<◌, ◌≤◌, ◌^◌, All, length, IfOk, OnOk, OnErr};
ghost use Rattle.label_commands.specs.flow_lines.Hop.{node_of};
ghost use Rattle.shared_tables.specs.Plan.{network_after};
ghost use Rattle.label_flow.specs.packet_walk.inside.Hop.{HasJudged};

use crate::packet_walk::hop::hop_into;
use crate::packet_walk::room::Lent;
use label_commands::Hop;
use mls_label::OutOfMemory;
use node_tables::Network;
use script_lines::Step;
use std::alloc::Global;
use std::marker::Model;

/// The tables of so many nodes after the first of some steps. They only go forward, so that each step is made once, and without its reply.
#[derive(Drop)]
pub struct StepTables<'a> {
    nodes: usize,
    steps: &'a [Step],
    version: u32,
    network: Network,
}

impl<'a> Model for StepTables<'a> {
    ghost use Rattle.std.specs.Prelude.{◌≡◌, ◌<◌, ◌≤◌, ◌^◌, All, length};
    ghost use Rattle.node_tables.specs.Steps.{tables_after};
    ghost use Rattle.label_flow.specs.packet_walk.Stepping.{TablesAt};

    ghost Value = { TablesAt };

    ghost view = { λ t. record {
      plan = record { nodes = t.nodes; steps = t.steps.now };
      version = t.version;
    } };

    ghost invariant = { λ t. (t.version ≤ length t.steps.now) × (length t.steps.now < 2 ^ 32)
        × All (λ step. step.node < t.nodes) t.steps.now
        × (t.network ≡ tables_after t.nodes t.steps.now t.version) };
}

impl<'a> StepTables<'a> {
    /// The tables before the first step.
    pub fn fresh(
        alloc: Global,
        nodes: usize,
        steps: &'a [Step],
    ) -> Result<StepTables<'a>, OutOfMemory>
        requires inside { All (λ step. step.node < nodes) steps.now }
        requires few { length steps.now < 2 ^ 32 }
        ensures { IfOk result (λ tables.
            tables ≡ record { plan = record { nodes = nodes; steps = steps.now }; version = 0 }) }
    {
        let network = Network::fresh(alloc, nodes)?;
        Ok(StepTables {
            nodes,
            steps,
            version: 0,
            network,
        })
    }

    /// How many steps were made.
    pub fn version(&self) -> u32
        ensures { result ≡ self.now.version }
    {
        self.version
    }

    /// The tables of all nodes after these steps.
    pub fn network(&self) -> &Network
        ensures { result.now ≡ network_after self.now.plan self.now.version }
    {
        &self.network
    }

    // Makes the next step. After an error nothing has changed.
    fn step(&mut self) -> Result<(), OutOfMemory>
        requires { self.old.version < length self.old.plan.steps }
        ensures ok { OnOk result (self.new ≡ record self.old { version = self.old.version + 1 }) }
        ensures err { OnErr result (self.new ≡ self.old) }
    {
        let StepTables {
            nodes: _,
            steps,
            version,
            network,
        } = self;
        network.advance(&steps[*version as usize])?;
        *version += 1;
        Ok(())
    }

    /// Makes the steps up to this version. Where memory runs out, some of them are made.
    pub fn forward_to(&mut self, version: u32) -> Result<(), OutOfMemory>
        requires later { self.old.version ≤ version }
        requires within { version ≤ length self.old.plan.steps }
        ensures plan { self.new.plan ≡ self.old.plan }
        ensures ok { OnOk result (self.new.version ≡ version) }
        ensures between { (self.old.version ≤ self.new.version) × (self.new.version ≤ version) }
    {
        while self.version() < version {
            self.step()?;
        }
        Ok(())
    }

    /// One hop of a packet under this version: what is lent brings back what the hop gives, its label and its octets.
    pub(crate) fn judge_under(
        &mut self,
        version: u32,
        hop: &Hop,
        packet: &[u8],
        lent: &mut Lent,
    ) -> Result<(), OutOfMemory>
        requires later { self.old.version ≤ version }
        requires within { version ≤ length self.old.plan.steps }
        requires node { node_of hop.now < self.old.plan.nodes }
        ensures plan { self.new.plan ≡ self.old.plan }
        ensures ok { OnOk result
            (HasJudged self.old.plan self.old.version version hop.now packet.now
            lent.new.given lent.new.labels.local lent.new.octets.items) }
        ensures at { OnOk result (self.new.version ≡ version) }
        ensures between { (self.old.version ≤ self.new.version) × (self.new.version ≤ version) }
    {
        self.forward_to(version)?;
        let tables = self.network();
        lent.given = hop_into(tables, hop, packet, &mut lent.labels, &mut lent.octets);
        Ok(())
    }
}
