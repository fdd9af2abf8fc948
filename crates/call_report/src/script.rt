//! Lines of scripts: how much a script has, its first fault, or a limit that it passes.

ghost use Rattle.std.specs.Prelude.{◌≡◌, ◌++◌, [], ◌∷◌, codes, OnOk, OnErr};
ghost use Rattle.call_report.specs.Lines.Script.{script_kind_name, script_line, limit_name, limit_line, script_stop_line, ok_line};
ghost use Rattle.call_report.specs.inside.Extends.{Extends};

use crate::parts::append_octet;
use crate::whole::all_or_nothing;
use label_commands::{LimitName, ScriptFault, ScriptKind, ScriptStop};
use mls_label::{OutOfMemory, write_decimal};

/// Appends the line that tells why a text is no script; nothing for want of memory. After an error `line` is as it was.
pub fn write_script_stop(stop: ScriptStop, line: &mut Vec<u8>) -> Result<(), OutOfMemory>
    ensures ok { OnOk result (line.new.items ≡ line.old.items ++ script_stop_line stop) }
    ensures err { OnErr result (line.new.items ≡ line.old.items) }
{
    let before = line.len();
    let written = append_script_stop(stop, line);
    all_or_nothing(written, before, line)
}

/// Appends it, or a part of it where memory runs out.
fn append_script_stop(stop: ScriptStop, line: &mut Vec<u8>) -> Result<(), OutOfMemory>
    ensures ok { OnOk result (line.new.items ≡ line.old.items ++ script_stop_line stop) }
    ensures err { OnErr result (Extends line.old.items line.new.items) }
{
    match stop {
        ScriptStop::Fault(fault) => append_script_fault(fault, line),
        ScriptStop::Limit { what, number } => append_limit(what, number, line),
        ScriptStop::OutOfMemory => Ok(()),
    }
}

/// Appends the line of a script's first fault.
#[tactic(auto, unfolding(crate::specs::Lines::Script::script_line))]
fn append_script_fault(fault: ScriptFault, line: &mut Vec<u8>) -> Result<(), OutOfMemory>
    ensures ok { OnOk result (line.new.items ≡ line.old.items ++ script_line fault) }
    ensures err { OnErr result (Extends line.old.items line.new.items) }
{
    line.extend_from_slice(b"script line ")?;
    write_decimal(u64::from(fault.line), line)?;
    append_octet(fault.octet as u64, line)?;
    append_last(script_kind_name(fault.kind), line)
}

/// Appends the last word of a line.
fn append_last(word: &str, line: &mut Vec<u8>) -> Result<(), OutOfMemory>
    ensures ok { OnOk result
        (line.new.items ≡ line.old.items ++ (codes " " ++ word.now ++ 10 ∷ [])) }
    ensures err { OnErr result (Extends line.old.items line.new.items) }
{
    line.extend_from_slice(b" ")?;
    line.extend_from_slice(word.as_bytes())?;
    line.push(b'\n')?;
    Ok(())
}

/// The name under which a fault is reported.
fn script_kind_name(kind: ScriptKind) -> &'static str
    ensures { result.now ≡ script_kind_name kind }
{
    match kind {
        ScriptKind::Octet => "Octet",
        ScriptKind::Word => "Word",
        ScriptKind::NoNode => "NoNode",
        ScriptKind::Value => "Value",
        ScriptKind::UnknownNode => "UnknownNode",
        ScriptKind::HopOrder => "HopOrder",
        ScriptKind::NameTwice => "NameTwice",
        ScriptKind::Extra => "Extra",
        ScriptKind::Missing => "Missing",
        ScriptKind::ReadingTwice => "ReadingTwice",
        ScriptKind::NotIncreasing => "NotIncreasing",
        ScriptKind::NotDistinct => "NotDistinct",
    }
}

/// Appends the line of a limit that is passed, and its number.
#[tactic(auto, unfolding(crate::specs::Lines::Script::limit_line))]
fn append_limit(what: LimitName, number: u32, line: &mut Vec<u8>) -> Result<(), OutOfMemory>
    ensures ok { OnOk result (line.new.items ≡ line.old.items ++ limit_line what number) }
    ensures err { OnErr result (Extends line.old.items line.new.items) }
{
    line.extend_from_slice(b"limit ")?;
    line.extend_from_slice(limit_name(what).as_bytes())?;
    line.extend_from_slice(b" ")?;
    write_decimal(u64::from(number), line)?;
    line.push(b'\n')?;
    Ok(())
}

/// The name under which a limit is reported.
fn limit_name(what: LimitName) -> &'static str
    ensures { result.now ≡ limit_name what }
{
    match what {
        LimitName::Octets => "octets",
        LimitName::Lines => "lines",
        LimitName::Nodes => "nodes",
        LimitName::Flows => "flows",
        LimitName::Hops => "hops",
    }
}

/// Appends the line behind all replies: how much the script has. After an error `line` is as it was.
pub fn write_ok(
    nodes: usize,
    commands: usize,
    flows: usize,
    line: &mut Vec<u8>,
) -> Result<(), OutOfMemory>
    ensures ok { OnOk result (line.new.items ≡ line.old.items ++ ok_line nodes commands flows) }
    ensures err { OnErr result (line.new.items ≡ line.old.items) }
{
    let before = line.len();
    let written = append_ok(nodes, commands, flows, line);
    all_or_nothing(written, before, line)
}

/// Appends it, or a part of it where memory runs out.
#[tactic(auto, unfolding(crate::specs::Lines::Script::ok_line))]
fn append_ok(
    nodes: usize,
    commands: usize,
    flows: usize,
    line: &mut Vec<u8>,
) -> Result<(), OutOfMemory>
    ensures ok { OnOk result (line.new.items ≡ line.old.items ++ ok_line nodes commands flows) }
    ensures err { OnErr result (Extends line.old.items line.new.items) }
{
    line.extend_from_slice(b"ok ")?;
    write_decimal(nodes as u64, line)?;
    line.extend_from_slice(b" nodes ")?;
    write_decimal(commands as u64, line)?;
    line.extend_from_slice(b" commands ")?;
    write_decimal(flows as u64, line)?;
    line.extend_from_slice(b" flows\n")?;
    Ok(())
}
