//! Reading the hops of a flow.

ghost use Rattle.std.specs.Prelude.{◌≡◌, ◌≤◌, ◌∷◌, ◌++◌, [], ◌==◌, length, true, MatchOption, IfOk, IfErr, OnOk, Ok, Err, position, option_copied};
ghost use Rattle.std.specs.List.{slice_split};
ghost use Rattle.mls_range.specs.LabelText.{comma};
ghost use Rattle.script_lines.specs.Stop.{IsStopOf};
ghost use Rattle.label_commands.specs.flow_lines.HopText.{behind_prefix, comma_parts, send_of_parts, forward_of_parts, receive_of_parts, node_number, numbered, read_hop};
ghost use Rattle.label_commands.specs.flow_lines.Flow.{next_hop, read_hops};
ghost use Rattle.label_commands.specs.flow_lines.inside.Names.{HasThreeNames, LacksThreeNames};

use crate::flow_lines::hop::Hop;
use crate::flow_lines::node_names::NodeNames;
use domain_map::{Name, read_name};
use mls_label::{KeptLabel, Label, OutOfMemory};
use mls_range::read_label_into;
use script_lines::{LimitName, LineStop, ScriptKind, Word};
use std::alloc::Global;

/// The most hops of a flow.
const MOST_HOPS: usize = 16;

/// Reads words as hops: `send:<node>,<domain>,<interface>,<label>`, `forward:<node>,<from>,<to>,<domain>` or
/// `receive:<node>,<interface>`. `send` stands only first and `receive` only last. Refused are at their word, in this order: a
/// seventeenth (the limit), a word of another kind, a value that isn't in its form, a node that isn't named, a hop out of order.
pub fn read_hops(alloc: Global, nodes: &NodeNames, words: &[Word]) -> Result<Vec<Hop>, LineStop>
    ensures ok { IfOk result (λ hops. read_hops nodes.now 0 words.now ≡ Ok hops.items) }
    ensures stop { IfErr result (IsStopOf (read_hops nodes.now 0 words.now)) }
{
    let mut hops = Vec::new(alloc);
    let mut rest = words;
    while let [word, behind @ ..] = rest {
        let hop = next_hop(alloc, nodes, hops.len(), behind.is_empty(), word)?;
        add_hop(&mut hops, hop)?;
        rest = behind;
    }
    Ok(hops)
}

fn add_hop(hops: &mut Vec<Hop>, hop: Hop) -> Result<(), OutOfMemory>
    ensures { OnOk result (hops.new.items ≡ hops.old.items ++ hop ∷ []) }
{
    hops.push(hop)?;
    Ok(())
}

/// The hop behind `count` others.
fn next_hop(
    alloc: Global,
    nodes: &NodeNames,
    count: usize,
    is_last: bool,
    word: &Word,
) -> Result<Hop, LineStop>
    ensures ok { IfOk result (λ hop. next_hop nodes.now count is_last word.now ≡ Ok hop) }
    ensures stop { IfErr result (IsStopOf (next_hop nodes.now count is_last word.now)) }
{
    if count == MOST_HOPS {
        return Err(LineStop::Limit(LimitName::Hops));
    }
    read_hop(alloc, nodes, count == 0, is_last, word)
}

#[tactic(auto, unfolding(crate::specs::flow_lines::HopText::read_hop))]
fn read_hop(
    alloc: Global,
    nodes: &NodeNames,
    is_first: bool,
    is_last: bool,
    word: &Word,
) -> Result<Hop, LineStop>
    ensures ok { IfOk result (λ hop. read_hop nodes.now is_first is_last word.now ≡ Ok hop) }
    ensures stop { IfErr result (IsStopOf (read_hop nodes.now is_first is_last word.now)) }
{
    let at = word.at();
    if let Some(text) = behind(word.text(), b"send:") {
        return read_send(alloc, nodes, at, is_first, text);
    }
    if let Some(text) = behind(word.text(), b"forward:") {
        return read_forward(nodes, at, text);
    }
    if let Some(text) = behind(word.text(), b"receive:") {
        return read_receive(nodes, at, is_last, text);
    }
    Err(LineStop::at(at, ScriptKind::Word))
}

/// What follows a beginning of the text.
fn behind<'a>(text: &'a [u8], prefix: &[u8]) -> Option<&'a [u8]>
    ensures { option_copied result ≡ behind_prefix prefix.now text.now }
{
    text.strip_prefix(prefix)
}

fn read_send(
    alloc: Global,
    nodes: &NodeNames,
    at: usize,
    fits: bool,
    text: &[u8],
) -> Result<Hop, LineStop>
    ensures ok { IfOk result
        (λ hop. numbered nodes.now at fits (send_of_parts (comma_parts text.now)) ≡ Ok hop) }
    ensures stop { IfErr result
        (IsStopOf (numbered nodes.now at fits (send_of_parts (comma_parts text.now)))) }
{
    let Some(front) = three_names(text) else {
        return Err(LineStop::at(at, ScriptKind::Value));
    };
    let mut label = Label::lowest();
    let Ok(()) = read_label_into(front.rest, &mut label) else {
        return Err(LineStop::at(at, ScriptKind::Value));
    };
    let node = number_of(nodes, at, fits, &front.first)?;
    let label = KeptLabel::of(alloc, &label)?;
    Ok(Hop::Send {
        node,
        domain: front.second,
        interface: front.third,
        label,
    })
}

fn read_forward(nodes: &NodeNames, at: usize, text: &[u8]) -> Result<Hop, LineStop>
    ensures ok { IfOk result
        (λ hop. numbered nodes.now at true (forward_of_parts (comma_parts text.now)) ≡ Ok hop) }
    ensures stop { IfErr result
        (IsStopOf (numbered nodes.now at true (forward_of_parts (comma_parts text.now)))) }
{
    let Some(front) = three_names(text) else {
        return Err(LineStop::at(at, ScriptKind::Value));
    };
    let Some(domain) = read_name(front.rest) else {
        return Err(LineStop::at(at, ScriptKind::Value));
    };
    let node = number_of(nodes, at, true, &front.first)?;
    Ok(Hop::Forward {
        node,
        from: front.second,
        to: front.third,
        domain,
    })
}

fn read_receive(nodes: &NodeNames, at: usize, fits: bool, text: &[u8]) -> Result<Hop, LineStop>
    ensures ok { IfOk result
        (λ hop. numbered nodes.now at fits (receive_of_parts (comma_parts text.now)) ≡ Ok hop) }
    ensures stop { IfErr result
        (IsStopOf (numbered nodes.now at fits (receive_of_parts (comma_parts text.now)))) }
{
    let Some((node, rest)) = split_comma(text) else {
        return Err(LineStop::at(at, ScriptKind::Value));
    };
    let Some(name) = read_name(node) else {
        return Err(LineStop::at(at, ScriptKind::Value));
    };
    let Some(interface) = read_name(rest) else {
        return Err(LineStop::at(at, ScriptKind::Value));
    };
    let node = number_of(nodes, at, fits, &name)?;
    Ok(Hop::Receive { node, interface })
}

/// The number of a hop's node, where the hop fits in the flow.
fn number_of(nodes: &NodeNames, at: usize, fits: bool, name: &Name) -> Result<usize, LineStop>
    ensures ok { IfOk result (λ number. node_number nodes.now at fits name.now ≡ Ok number) }
    ensures stop { IfErr result (IsStopOf (node_number nodes.now at fits name.now)) }
{
    let Some(number) = nodes.number_of(name) else {
        return Err(LineStop::at(at, ScriptKind::UnknownNode));
    };
    if !fits {
        return Err(LineStop::at(at, ScriptKind::HopOrder));
    }
    Ok(number)
}

/// Three names, each in front of a comma, and what stands behind the third comma.
#[derive(Drop)]
struct ThreeNames<'a> {
    first: Name,
    second: Name,
    third: Name,
    rest: &'a [u8],
}

fn three_names(text: &[u8]) -> Option<ThreeNames<'_>>
    ensures { MatchOption result (LacksThreeNames text.now)
        (λ front. HasThreeNames text.now front.first front.second front.third front.rest.now) }
{
    let parts = three_parts(text)?;
    let first = read_name(parts.first)?;
    let second = read_name(parts.second)?;
    let third = read_name(parts.third)?;
    Some(ThreeNames {
        first,
        second,
        third,
        rest: parts.rest,
    })
}

/// The parts in front of the first three commas, and what stands behind the third.
#[derive(Drop)]
struct ThreeParts<'a> {
    first: &'a [u8],
    second: &'a [u8],
    third: &'a [u8],
    rest: &'a [u8],
}

fn three_parts(text: &[u8]) -> Option<ThreeParts<'_>>
    ensures { MatchOption result (length (comma_parts text.now) ≤ 3)
        (λ parts. comma_parts text.now ≡ parts.first.now ∷ parts.second.now ∷ parts.third.now
        ∷ comma_parts parts.rest.now) }
{
    let (first, behind_first) = split_comma(text)?;
    let (second, behind_second) = split_comma(behind_first)?;
    let (third, rest) = split_comma(behind_second)?;
    Some(ThreeParts {
        first,
        second,
        third,
        rest,
    })
}

/// The parts of a text in front of the first comma and behind it.
fn split_comma(text: &[u8]) -> Option<(&[u8], &[u8])>
    ensures { MatchOption result (comma_parts text.now ≡ text.now ∷ [])
        (λ parts. comma_parts text.now ≡ parts.0.now ∷ comma_parts parts.1.now) }
{
    let place = comma_in(text)?;
    Some((&text[..place], &text[place + 1..]))
}

fn comma_in(text: &[u8]) -> Option<usize>
    ensures { result ≡ position (λ octet. octet == comma) text.now }
{
    text.iter().position(|octet| *octet == b',')
}
