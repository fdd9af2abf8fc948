//! Flow lines.

ghost use Rattle.std.specs.Prelude.{◌≡◌, IfOk, IfErr, Ok};
ghost use Rattle.script_lines.specs.Stop.{IsStopOf};
ghost use Rattle.label_commands.specs.flow_lines.Flow.{read_input, read_output, read_route, read_behind_input, read_flow, is_taken};

use crate::flow_lines::file_name::{FileName, read_file_name};
use crate::flow_lines::flows::Flows;
use crate::flow_lines::hop_text::read_hops;
use crate::flow_lines::node_names::NodeNames;
use crate::flow_lines::route::Route;
use script_lines::{LineStop, ScriptKind, Word};
use std::alloc::Global;

/// A flow of packets.
#[derive(Debug, Drop)]
pub struct FlowLine {
    /// The capture that is read.
    pub input: FileName,
    /// The capture that is written, if there is one.
    pub output: Option<FileName>,
    /// What each node does with a packet.
    pub hops: Route,
    /// How many commands stand above the line.
    pub before: u32,
}

#[tactic(auto, unfolding(crate::specs::flow_lines::Flow::read_flow))]
/// Reads the words behind `flow` on a line of `end` octets: the name of the input, that of the output or `-`, and 1 to 16 hops.
/// `own` is the script's own name, `nodes` and `flows` are those of the lines above, and `before` counts their commands.
///
/// The first fault from left to right is answered, in one word in this order: a word that is no hop, a value that isn't in its
/// form, a node that no line above names, a hop out of order, a name that is an output twice, both input and output, or an output
/// and the script's own; and behind all words, at the line's length, one that is missing. A seventeenth hop passes the limit.
pub fn read_flow(
    own: &str,
    nodes: &NodeNames,
    flows: &Flows,
    before: u32,
    end: usize,
    words: &[Word],
) -> Result<FlowLine, LineStop>
    ensures ok { IfOk result
        (λ flow. read_flow own.now nodes.now flows.now before end words.now ≡ Ok flow) }
    ensures stop { IfErr result
        (IsStopOf (read_flow own.now nodes.now flows.now before end words.now)) }
{
    let [word, behind @ ..] = words else {
        return Err(LineStop::at(end, ScriptKind::Missing));
    };
    let input = read_input(flows, word)?;
    read_behind_input(own, nodes, flows, before, end, input, behind)
}

fn read_behind_input(
    own: &str,
    nodes: &NodeNames,
    flows: &Flows,
    before: u32,
    end: usize,
    input: FileName,
    words: &[Word],
) -> Result<FlowLine, LineStop>
    ensures ok { IfOk result
        (λ flow. read_behind_input own.now nodes.now flows.now before end input words.now
        ≡ Ok flow) }
    ensures stop { IfErr result
        (IsStopOf (read_behind_input own.now nodes.now flows.now before end input words.now)) }
{
    let [word, behind @ ..] = words else {
        return Err(LineStop::at(end, ScriptKind::Missing));
    };
    let output = read_output(own, flows, &input, word)?;
    let hops = read_route(flows.allocator(), nodes, end, behind)?;
    Ok(FlowLine {
        input,
        output,
        hops,
        before,
    })
}

fn read_input(flows: &Flows, word: &Word) -> Result<FileName, LineStop>
    ensures ok { IfOk result (λ input. read_input flows.now word.now ≡ Ok input) }
    ensures stop { IfErr result (IsStopOf (read_input flows.now word.now)) }
{
    let Some(name) = read_file_name(flows.allocator(), word.text())? else {
        return Err(LineStop::at(word.at(), ScriptKind::Value));
    };
    if flows.is_output(&name) {
        return Err(LineStop::at(word.at(), ScriptKind::NameTwice));
    }
    Ok(name)
}

fn read_output(
    own: &str,
    flows: &Flows,
    input: &FileName,
    word: &Word,
) -> Result<Option<FileName>, LineStop>
    ensures ok { IfOk result
        (λ output. read_output own.now flows.now input.now word.now ≡ Ok output) }
    ensures stop { IfErr result (IsStopOf (read_output own.now flows.now input.now word.now)) }
{
    if word.text() == b"-".as_slice() {
        return Ok(None);
    }
    let Some(name) = read_file_name(flows.allocator(), word.text())? else {
        return Err(LineStop::at(word.at(), ScriptKind::Value));
    };
    if is_taken(own, flows, input, &name) {
        return Err(LineStop::at(word.at(), ScriptKind::NameTwice));
    }
    Ok(Some(name))
}

/// Whether a name is the script's own, the flow's input, or a name of a flow above.
fn is_taken(own: &str, flows: &Flows, input: &FileName, name: &FileName) -> bool
    ensures { result ≡ is_taken own.now flows.now input.now name.now }
{
    name.text() == own || name == input || flows.is_input(name) || flows.is_output(name)
}

fn read_route(
    alloc: Global,
    nodes: &NodeNames,
    end: usize,
    words: &[Word],
) -> Result<Route, LineStop>
    ensures ok { IfOk result (λ route. read_route nodes.now end words.now ≡ Ok route) }
    ensures stop { IfErr result (IsStopOf (read_route nodes.now end words.now)) }
{
    if words.is_empty() {
        return Err(LineStop::at(end, ScriptKind::Missing));
    }
    let hops = read_hops(alloc, nodes, words)?;
    Ok(Route::of(hops))
}
