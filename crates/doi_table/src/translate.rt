//! A label under a definition, from local to remote numbers and back.

ghost use Rattle.std.specs.Prelude.{◌≡◌, Ok, Err, OnOk, IfErr};
ghost use Rattle.doi_table.specs.Translation.{label_by, wire_label, local_label};
ghost use Rattle.doi_table.specs.inside.Sorted.{IsServing};

use crate::definition::{Direction, DoiDef};
use crate::numbers::{apply, level};
use crate::unmapped::Unmapped;
use mls_label::Label;

/// The label that goes on the wire for a local one. A definition that passes all numbers refuses nothing.
pub fn to_wire(def: &DoiDef, label: &Label) -> Result<Label, Unmapped>
    ensures { result ≡ wire_label def.now label.now }
{
    let mut wire = Label::lowest();
    to_wire_into(def, label, &mut wire)?;
    Ok(wire)
}

/// The local label of one on the wire. A definition that passes all numbers refuses nothing.
pub fn to_local(def: &DoiDef, label: &Label) -> Result<Label, Unmapped>
    ensures { result ≡ local_label def.now label.now }
{
    let mut local = Label::lowest();
    to_local_into(def, label, &mut local)?;
    Ok(local)
}

/// `to_wire` into a label that is lent, which is any label after an error.
pub fn to_wire_into(def: &DoiDef, label: &Label, into: &mut Label) -> Result<(), Unmapped>
    ensures ok { OnOk result (wire_label def.now label.now ≡ Ok into.new) }
    ensures err { IfErr result (λ why. wire_label def.now label.now ≡ Err why) }
{
    if !def.plan.trans {
        into.assign(label);
        return Ok(());
    }
    translate(def.outward(), label, into)
}

/// `to_local` into a label that is lent, which is any label after an error.
pub fn to_local_into(def: &DoiDef, label: &Label, into: &mut Label) -> Result<(), Unmapped>
    ensures ok { OnOk result (local_label def.now label.now ≡ Ok into.new) }
    ensures err { IfErr result (λ why. local_label def.now label.now ≡ Err why) }
{
    if !def.plan.trans {
        into.assign(label);
        return Ok(());
    }
    translate(def.inward(), label, into)
}

// Fills `into` with the label's level and categories by the pairs of one direction.
fn translate(way: &Direction, label: &Label, into: &mut Label) -> Result<(), Unmapped>
    requires { IsServing way.now.levels.items way.now.cats.items }
    ensures ok { OnOk result
        (label_by way.now.levels.items way.now.cats.items label.now ≡ Ok into.new) }
    ensures err { IfErr result
        (λ why. label_by way.now.levels.items way.now.cats.items label.now ≡ Err why) }
{
    let Some(level) = level(&way.levels, label.level) else {
        return Err(Unmapped::Level);
    };
    into.level = level;
    match apply(&way.cats, &label.cats, &mut into.cats) {
        Ok(()) => Ok(()),
        Err(c) => Err(Unmapped::Category(c)),
    }
}
