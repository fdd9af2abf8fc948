//! Lines of flows and of their packets.

ghost use Rattle.std.specs.Prelude.{◌≡◌, ◌++◌, codes, OnOk, OnErr};
ghost use Rattle.std.specs.Fmt.{decimal};
ghost use Rattle.label_commands.specs.flow_lines.Hop.{node_of};
ghost use Rattle.call_report.specs.Lines.Flow.{flow_line, carrier_text, hop_node, versions_text, end_text, flow_end_line};
ghost use Rattle.call_report.specs.inside.Versions.{versions_behind};
ghost use Rattle.call_report.specs.inside.Extends.{Extends};

use crate::denial::{append_delivered, append_denied};
use crate::whole::all_or_nothing;
use domain_map::{Name, write_address};
use label_commands::{FileName, Hop};
use label_flow::End;
use mls_label::{OutOfMemory, write_decimal};
use packet_label::Carrier;

/// Appends the line with which the flow of this number begins, with the capture that it reads. After an error `line` is as it was.
pub fn write_flow(flow: u64, input: &FileName, line: &mut Vec<u8>) -> Result<(), OutOfMemory>
    ensures ok { OnOk result (line.new.items ≡ line.old.items ++ flow_line flow input.now) }
    ensures err { OnErr result (line.new.items ≡ line.old.items) }
{
    let before = line.len();
    let written = append_flow(flow, input, line);
    all_or_nothing(written, before, line)
}

/// Appends it, or a part of it where memory runs out.
#[tactic(auto, unfolding(crate::specs::Lines::Flow::flow_line))]
fn append_flow(flow: u64, input: &FileName, line: &mut Vec<u8>) -> Result<(), OutOfMemory>
    ensures ok { OnOk result (line.new.items ≡ line.old.items ++ flow_line flow input.now) }
    ensures err { OnErr result (Extends line.old.items line.new.items) }
{
    line.extend_from_slice(b"flow ")?;
    write_decimal(flow, line)?;
    line.extend_from_slice(b" ")?;
    line.extend_from_slice(input.text().as_bytes())?;
    line.push(b'\n')?;
    Ok(())
}

/// Appends how a walk ended.
pub(crate) fn append_end(
    names: &[Name],
    hops: &[Hop],
    end: &End,
    line: &mut Vec<u8>,
) -> Result<(), OutOfMemory>
    ensures ok { OnOk result
        (line.new.items ≡ line.old.items ++ end_text names.now hops.now end.now) }
    ensures err { OnErr result (Extends line.old.items line.new.items) }
{
    match end {
        End::Delivered { label, receiver } => {
            append_delivered(label, line)?;
            line.extend_from_slice(b" to ")?;
            write_address(receiver, line)
        }
        End::Sent { carrier } => {
            line.extend_from_slice(b"sent ")?;
            append_carrier(*carrier, line)
        }
        End::Denied { hop, denial } => {
            append_denied(denial, line)?;
            append_hop(*hop, line)?;
            append_hop_node(names, hops, *hop, line)
        }
    }
}

/// Appends what carries a label.
fn append_carrier(carrier: Carrier, line: &mut Vec<u8>) -> Result<(), OutOfMemory>
    ensures ok { OnOk result (line.new.items ≡ line.old.items ++ carrier_text carrier) }
    ensures err { OnErr result (Extends line.old.items line.new.items) }
{
    match carrier {
        Carrier::Unlabelled => line.extend_from_slice(b"unlbl")?,
        Carrier::Cipso { doi } => {
            line.extend_from_slice(b"cipsov4,")?;
            write_decimal(u64::from(doi), line)?;
        }
        Carrier::Calipso { doi } => {
            line.extend_from_slice(b"calipso,")?;
            write_decimal(u64::from(doi), line)?;
        }
    }
    Ok(())
}

/// Appends the number of a hop, at once where it has one digit, and the word for its node.
#[tactic(auto, using(std::proofs::lemmas::Fmt::decimal_digit))]
fn append_hop(hop: u32, line: &mut Vec<u8>) -> Result<(), OutOfMemory>
    ensures ok { OnOk result
        (line.new.items ≡ line.old.items ++ (codes " hop " ++ decimal hop ++ codes " node ")) }
    ensures err { OnErr result (Extends line.old.items line.new.items) }
{
    if hop < 10 {
        let digit = b'0' + hop as u8;
        line.extend_from_slice(&[
            b' ', b'h', b'o', b'p', b' ', digit, b' ', b'n', b'o', b'd', b'e', b' ',
        ])?;
        return Ok(());
    }
    line.extend_from_slice(b" hop ")?;
    write_decimal(u64::from(hop), line)?;
    line.extend_from_slice(b" node ")?;
    Ok(())
}

/// Appends the name of the node that judges at a hop, counted from 1; `-` at hop 0.
fn append_hop_node(
    names: &[Name],
    hops: &[Hop],
    hop: u32,
    line: &mut Vec<u8>,
) -> Result<(), OutOfMemory>
    ensures ok { OnOk result (line.new.items ≡ line.old.items ++ hop_node names.now hops.now hop) }
    ensures err { OnErr result (Extends line.old.items line.new.items) }
{
    if hop == 0 {
        line.extend_from_slice(b"-")?;
        return Ok(());
    }
    let Some(judge) = hops.get(hop as usize - 1) else {
        return Ok(());
    };
    let Some(name) = names.get(node_of(judge)) else {
        return Ok(());
    };
    line.extend_from_slice(name.text())?;
    Ok(())
}

/// The number of a hop's node.
fn node_of(hop: &Hop) -> usize
    ensures { result ≡ node_of hop.now }
{
    match hop {
        Hop::Send { node, .. } | Hop::Forward { node, .. } | Hop::Receive { node, .. } => *node,
    }
}

/// Appends versions, joined by commas; `-` for none.
pub(crate) fn append_versions(versions: &[u32], line: &mut Vec<u8>) -> Result<(), OutOfMemory>
    ensures ok { OnOk result (line.new.items ≡ line.old.items ++ versions_text versions.now) }
    ensures err { OnErr result (Extends line.old.items line.new.items) }
{
    let [first, behind @ ..] = versions else {
        line.extend_from_slice(b"-")?;
        return Ok(());
    };
    write_decimal(u64::from(*first), line)?;
    append_behind(behind, line)
}

/// Appends versions, each behind a comma.
fn append_behind(versions: &[u32], line: &mut Vec<u8>) -> Result<(), OutOfMemory>
    ensures ok { OnOk result (line.new.items ≡ line.old.items ++ versions_behind versions.now) }
    ensures err { OnErr result (Extends line.old.items line.new.items) }
{
    let mut rest = versions;
    while let [version, behind @ ..] = rest {
        line.extend_from_slice(b",")?;
        write_decimal(u64::from(*version), line)?;
        rest = behind;
    }
    Ok(())
}

/// Appends the line behind a flow: how many packets it had, how many of them were delivered or sent, and how many denied.
/// After an error `line` is as it was.
pub fn write_flow_end(
    flow: u64,
    packets: u64,
    passed: u64,
    denied: u64,
    line: &mut Vec<u8>,
) -> Result<(), OutOfMemory>
    ensures ok { OnOk result
        (line.new.items ≡ line.old.items ++ flow_end_line flow packets passed denied) }
    ensures err { OnErr result (line.new.items ≡ line.old.items) }
{
    let before = line.len();
    let written = append_flow_end(flow, packets, passed, denied, line);
    all_or_nothing(written, before, line)
}

/// Appends it, or a part of it where memory runs out.
#[tactic(auto, unfolding(crate::specs::Lines::Flow::flow_end_line))]
fn append_flow_end(
    flow: u64,
    packets: u64,
    passed: u64,
    denied: u64,
    line: &mut Vec<u8>,
) -> Result<(), OutOfMemory>
    ensures ok { OnOk result
        (line.new.items ≡ line.old.items ++ flow_end_line flow packets passed denied) }
    ensures err { OnErr result (Extends line.old.items line.new.items) }
{
    line.extend_from_slice(b"end ")?;
    write_decimal(flow, line)?;
    line.extend_from_slice(b" packets ")?;
    write_decimal(packets, line)?;
    line.extend_from_slice(b" passed ")?;
    write_decimal(passed, line)?;
    line.extend_from_slice(b" denied ")?;
    write_decimal(denied, line)?;
    line.push(b'\n')?;
    Ok(())
}
