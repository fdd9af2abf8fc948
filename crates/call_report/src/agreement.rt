//! Lines of agreement: whether two neighbouring hops of a flow agree, whether all do, and why none are compared.

ghost use Rattle.std.specs.Prelude.{◌≡◌, ◌+◌, ◌<◌, ◌^◌, ◌++◌, OnOk, OnErr};
ghost use Rattle.call_report.specs.Lines.Agreement.{proto_name, level_or_category, number_of_difference, found_text, hops_line, agreement_line, no_flow_line, bad_versions_line};
ghost use Rattle.call_report.specs.inside.Extends.{Extends};

use crate::whole::all_or_nothing;
use label_flow::Disagree;
use mls_label::{OutOfMemory, Proto, write_decimal};

/// Appends the line that tells what the hop of this number, counted from 1, and the next one come to: that they agree, or their first
/// difference. After an error `line` is as it was.
pub fn write_hops(
    left: usize,
    found: Option<Disagree>,
    line: &mut Vec<u8>,
) -> Result<(), OutOfMemory>
    requires { left + 1 < 2 ^ 64 }
    ensures ok { OnOk result (line.new.items ≡ line.old.items ++ hops_line left found) }
    ensures err { OnErr result (line.new.items ≡ line.old.items) }
{
    let before = line.len();
    let written = append_hops(left, found, line);
    all_or_nothing(written, before, line)
}

/// Appends it, or a part of it where memory runs out.
#[tactic(auto, unfolding(crate::specs::Lines::Agreement::hops_line))]
fn append_hops(left: usize, found: Option<Disagree>, line: &mut Vec<u8>) -> Result<(), OutOfMemory>
    requires { left + 1 < 2 ^ 64 }
    ensures ok { OnOk result (line.new.items ≡ line.old.items ++ hops_line left found) }
    ensures err { OnErr result (Extends line.old.items line.new.items) }
{
    line.extend_from_slice(b"hop ")?;
    write_decimal(left as u64, line)?;
    line.extend_from_slice(b" ")?;
    write_decimal(left as u64 + 1, line)?;
    line.extend_from_slice(b" ")?;
    append_found(found, line)?;
    line.push(b'\n')?;
    Ok(())
}

/// Appends what two nodes come to.
fn append_found(found: Option<Disagree>, line: &mut Vec<u8>) -> Result<(), OutOfMemory>
    ensures ok { OnOk result (line.new.items ≡ line.old.items ++ found_text found) }
    ensures err { OnErr result (Extends line.old.items line.new.items) }
{
    let Some(difference) = found else {
        line.extend_from_slice(b"agree")?;
        return Ok(());
    };
    line.extend_from_slice(b"disagree ")?;
    append_number(difference, line)?;
    line.extend_from_slice(b" ")?;
    write_decimal(u64::from(difference.left), line)?;
    line.extend_from_slice(b" ")?;
    write_decimal(u64::from(difference.right), line)?;
    Ok(())
}

/// Appends which number on the wire has two meanings.
fn append_number(difference: Disagree, line: &mut Vec<u8>) -> Result<(), OutOfMemory>
    ensures ok { OnOk result
        (line.new.items ≡ line.old.items ++ number_of_difference difference) }
    ensures err { OnErr result (Extends line.old.items line.new.items) }
{
    line.extend_from_slice(proto_name(difference.proto).as_bytes())?;
    line.extend_from_slice(b" ")?;
    write_decimal(u64::from(difference.doi), line)?;
    line.extend_from_slice(b" ")?;
    line.extend_from_slice(level_or_category(difference.level).as_bytes())?;
    line.extend_from_slice(b" ")?;
    write_decimal(u64::from(difference.wire), line)?;
    Ok(())
}

/// The name of a protocol, as commands have it.
fn proto_name(proto: Proto) -> &'static str
    ensures { result.now ≡ proto_name proto }
{
    match proto {
        Proto::Cipso => "cipsov4",
        Proto::Calipso => "calipso",
    }
}

/// What a number on the wire is.
fn level_or_category(level: bool) -> &'static str
    ensures { result.now ≡ level_or_category level }
{
    if level { "level" } else { "category" }
}

/// Whether every two neighbouring hops agree.
#[tactic(auto, unfolding(crate::specs::Lines::Agreement::agreement_line))]
pub fn agree_or_disagree(agree: bool) -> &'static [u8]
    ensures { result.now ≡ agreement_line agree }
{
    if agree { b"agree\n" } else { b"disagree\n" }
}

/// The script has no flow of this number.
#[tactic(auto, unfolding(crate::specs::Lines::Agreement::no_flow_line))]
pub fn no_flow() -> &'static [u8]
    ensures { result.now ≡ no_flow_line }
{
    b"script line 0 octet 0 NoFlow\n"
}

/// The versions are none that a packet of the flow can have.
#[tactic(auto, unfolding(crate::specs::Lines::Agreement::bad_versions_line))]
pub fn bad_versions() -> &'static [u8]
    ensures { result.now ≡ bad_versions_line }
{
    b"script line 0 octet 0 BadVersions\n"
}
