//! The definition of a DOI that a script leaves at its first node.

ghost use Rattle.std.specs.Prelude.{◌≡◌, ◌<◌, All, length, IfOk};
ghost use Rattle.std.specs.Option.{option_copied};
ghost use Rattle.script_lines.specs.declared.command.Step.{Step as StepValue};
ghost use Rattle.ripso_border_run.specs.Definition.{last_tables, first_definition};

use doi_table::{DoiDef, Proto};
use label_commands::Script;
use mls_label::OutOfMemory;
use node_tables::Network;
use std::alloc::Global;

/// The tables of a script's nodes, once all its commands were carried out.
pub(crate) fn last_tables(alloc: Global, script: &Script) -> Result<Network, OutOfMemory>
    requires { All (λ (step : StepValue). step.node < length script.now.nodes) script.now.steps }
    ensures { IfOk result (λ network. network ≡ last_tables script.now) }
{
    let mut network = Network::fresh(alloc, script.nodes.len())?;
    let steps = script.steps.as_slice();
    let mut done = 0;
    while done < steps.len() {
        network.advance(&steps[done])?;
        done += 1;
    }
    Ok(network)
}

/// What the first node defines a DOI as.
pub(crate) fn first_definition(network: &Network, doi: u32) -> Option<&DoiDef>
    ensures { option_copied result ≡ first_definition network.now doi }
{
    if network.nodes() == 0 {
        return None;
    }
    network.node(0).dois().find(Proto::Cipso, doi)
}
