//! Labels of unlabelled packets by commands.

ghost use Rattle.std.specs.Prelude.{◌≡◌, ◌∷◌, ◌++◌, [], IfOk, OnOk, option_copied, if◌then◌else◌};
ghost use Rattle.script_lines.specs.declared.command.Command.TheVariants.{AcceptOn, AcceptOff};
ghost use Rattle.node_tables.specs.Listing.{static_line, static_lines};
ghost use Rattle.node_tables.specs.Change.{label_added, label_deleted};
ghost use Rattle.node_tables.specs.inside.Turns.{Turns};

use crate::key::key_of;
use crate::list_text::ListText;
use crate::reply::Refusal;
use crate::stop::Stop;
use domain_map::{Name, Prefix, StaticFault, StaticMap};
use mls_label::OutOfMemory;
use mls_range::{KeptRange, Range};
use script_lines::Command;
use std::alloc::Global;

/// Adds the labels of an interface and a prefix that have none.
pub fn add_labels(
    statics: &mut StaticMap,
    interface: &Option<Name>,
    prefix: Prefix,
    range: &Range,
) -> Result<(), Stop>
    ensures { Turns
        (label_added statics.old interface.now prefix range.now) statics.old statics.new result }
{
    match statics.add(interface.as_ref(), prefix, range.low(), range.high()) {
        Ok(()) => Ok(()),
        Err(StaticFault::Exists) => Err(Stop::Refused(Refusal::StaticExists)),
        Err(StaticFault::Full) => Err(Stop::Refused(Refusal::TableFull)),
        Err(StaticFault::OutOfMemory) => Err(Stop::OutOfMemory),
    }
}

/// Takes out the labels of an interface and a prefix.
pub fn del_labels(
    statics: &mut StaticMap,
    interface: &Option<Name>,
    prefix: Prefix,
) -> Result<(), Stop>
    ensures { Turns
        (label_deleted statics.old interface.now prefix) statics.old statics.new result }
{
    match statics.del(interface.as_ref(), prefix) {
        Ok(()) => Ok(()),
        Err(_) => Err(Stop::Refused(Refusal::StaticUnknown)),
    }
}

/// The line of the acceptance, then those of all labels.
pub fn list_labels(
    alloc: Global,
    accepts: bool,
    statics: &StaticMap,
) -> Result<ListText, OutOfMemory>
    ensures { IfOk result (λ lines. lines ≡ static_lines accepts statics.now) }
{
    let mut lines = ListText::empty(alloc);
    lines.push_command(acceptance(accepts))?;
    let mut range = Range::lowest();
    for i in 0..statics.count() {
        let (interface, prefix, low, high) = statics.entry(i);
        range.assign_ends(low, high);
        push_labels(&mut lines, alloc, interface, prefix, &range)?;
    }
    Ok(lines)
}

/// The command that makes the acceptance what it is.
fn acceptance(accepts: bool) -> Command
    ensures { result ≡ (if accepts then AcceptOn else AcceptOff) }
{
    if accepts {
        Command::AcceptOn
    } else {
        Command::AcceptOff
    }
}

fn push_labels(
    lines: &mut ListText,
    alloc: Global,
    interface: Option<&Name>,
    prefix: Prefix,
    range: &Range,
) -> Result<(), OutOfMemory>
    ensures { OnOk result
        (lines.new ≡ lines.old
        ++ static_line
        (record {
          interface = option_copied interface.entry;
          prefix = prefix;
          low = range.now.low;
          high = range.now.high;
        }) ∷ []) }
{
    let command = Command::UnlblAdd {
        interface: key_of(interface),
        prefix,
        range: KeptRange::of(alloc, range)?,
    };
    lines.push_command(command)
}
