//! The nodes of a script.

ghost use Rattle.std.specs.Prelude.{◌≡◌, ◌<◌, ℕ, List, Some, length, slice_get, replicate, IfOk, IsOk, OnOk, OnErr};
ghost use Rattle.node_tables.specs.declared.reply.Reply.TheVariants.{Listed};
ghost use Rattle.node_tables.specs.Tables.{fresh};
ghost use Rattle.node_tables.specs.Steps.{step_applied, step_reply};

use crate::reply::Reply;
use crate::tables::Tables;
use mls_label::OutOfMemory;
use script_lines::Step;
use std::alloc::Global;
use std::marker::Model;

/// The nodes of a script with their tables. Contracts see the list of these.
#[derive(Drop)]
pub struct Network {
    nodes: Vec<Tables>,
}

impl Model for Network {
    ghost use Rattle.std.specs.Prelude.{List};
    ghost use Rattle.node_tables.specs.Tables.{TableState};

    ghost Value = { List TableState };

    ghost view = { λ n. n.nodes.items };
}

impl Network {
    /// So many nodes to which no command was given.
    pub fn fresh(alloc: Global, nodes: usize) -> Result<Network, OutOfMemory>
        ensures { IfOk result (λ network. network ≡ replicate nodes fresh) }
    {
        let mut tables = Vec::with_capacity(alloc, nodes)?;
        for _node in 0..nodes {
            tables.push(Tables::fresh(alloc))?;
        }
        Ok(Network { nodes: tables })
    }

    /// An equal network.
    pub fn copy(&self) -> Result<Network, OutOfMemory>
        ensures { IfOk result (λ copy. copy ≡ self.now) }
    {
        let nodes = copies(*self.nodes.allocator(), &self.nodes)?;
        Ok(Network { nodes })
    }

    /// How many nodes there are.
    pub fn nodes(&self) -> usize
        ensures { result ≡ length self.now }
    {
        self.nodes.len()
    }

    /// The tables of a node, by its place in the script's list.
    pub fn node(&self, i: usize) -> &Tables
        requires { i < length self.now }
        ensures { slice_get self.now i ≡ Some result.now }
    {
        &self.nodes[i]
    }

    /// Carries out a step at its node, and gives the reply. A step that is refused changes no table, and neither does a listing.
    /// After an error nothing has changed.
    pub fn apply(&mut self, step: &Step) -> Result<Reply, OutOfMemory>
        requires { step.now.node < length self.old }
        ensures reply { IfOk result (λ reply. step_reply self.old step.now ≡ Some reply) }
        ensures tables { OnOk result (self.new ≡ step_applied self.old step.now) }
        ensures err { OnErr result (self.new ≡ self.old) }
    {
        self.nodes[step.node].obey(&step.command)
    }

    /// Carries out a step as `apply` does, without a reply: it takes no memory for the lines of a listing. After an error nothing has
    /// changed.
    pub fn advance(&mut self, step: &Step) -> Result<(), OutOfMemory>
        requires { step.now.node < length self.old }
        ensures tables { OnOk result (self.new ≡ step_applied self.old step.now) }
        ensures listing { (lines : List (List ℕ))
            → step_reply self.old step.now ≡ Some (Listed lines) → IsOk result }
        ensures err { OnErr result (self.new ≡ self.old) }
    {
        self.nodes[step.node].change(&step.command)
    }
}

fn copies(alloc: Global, nodes: &[Tables]) -> Result<Vec<Tables>, OutOfMemory>
    ensures { IfOk result (λ copies. copies.items ≡ nodes.now) }
{
    let mut copies = Vec::with_capacity(alloc, nodes.len())?;
    for tables in nodes {
        copies.push(tables.copy()?)?;
    }
    Ok(copies)
}
