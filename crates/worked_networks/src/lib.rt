//! Test material, for tests alone: commands by their lines, and nodes to which they were given.
#![tactic(auto)]

ghost use Rattle.std.specs.Prelude.{◌≡◌, ◌<◌, length, All, IfSome};

use node_tables::{Network, Reply};
use script_lines::{Step, command_of, read_said, words_into};
use std::alloc::Global;

/// The command of a line as a step at this node. None where the line is no command, or memory lacks.
pub fn step_of(alloc: Global, node: usize, line: &str) -> Option<Step>
    ensures { IfSome result (λ step. step.node ≡ node) }
{
    let mut words = Vec::new(alloc);
    words_into(line.as_bytes(), &mut words).ok()?;
    let said = read_said(alloc, false, &words, line.len()).ok()?;
    let command = command_of(said.row, said.fields)?;
    Some(Step { node, command })
}

/// The steps of these lines, each with its node, which is below this number. None where a line is no command, or memory lacks.
pub fn steps_of(alloc: Global, nodes: usize, lines: &[(usize, &str)]) -> Option<Vec<Step>>
    ensures count { IfSome result (λ steps. length steps.items ≡ length lines.now) }
    ensures nodes { IfSome result (λ steps. All (λ step. step.node < nodes) steps.items) }
{
    let mut steps = Vec::new(alloc);
    for entry in lines {
        let step = step_of(alloc, entry.0, entry.1)?;
        if step.node >= nodes {
            return None;
        }
        steps.push(step).ok()?;
    }
    Some(steps)
}

/// What the first node answers to the command of this line. None where there is no node, the line is no command, or memory lacks.
pub fn obey(alloc: Global, line: &str, network: &mut Network) -> Option<Reply> {
    let step = step_of(alloc, 0, line)?;
    if network.nodes() == 0 {
        return None;
    }
    network.apply(&step).ok()
}

/// One node to which these commands were given, or the first of them that it did not carry out.
pub fn node_after<'a>(alloc: Global, lines: &[&'a str]) -> Result<Network, &'a str> {
    let mut network = Network::fresh(alloc, 1).map_err(|_| "memory")?;
    for line in lines {
        let reply = obey(alloc, line, &mut network);
        if !matches!(reply, Some(Reply::Done)) {
            return Err(line);
        }
    }
    Ok(network)
}
