//! Definitions of DOIs by commands.

ghost use Rattle.std.specs.Prelude.{◌≡◌, ◌<◌, ◌∷◌, ◌++◌, [], length, unwrap_or, IfOk, OnOk};
ghost use Rattle.doi_table.specs.Definition.{AreBelow, IsPlan};
ghost use Rattle.node_tables.specs.Listing.{some_pairs, definition_command, definition_line, definition_lines};
ghost use Rattle.node_tables.specs.Change.{definition_added, definition_deleted};
ghost use Rattle.node_tables.specs.Effect.{pass_plan, trans_plan};
ghost use Rattle.node_tables.specs.inside.Turns.{Turns};
ghost use Rattle.node_tables.specs.inside.Kept.{IsGiven, AreGiven};

use crate::list_text::ListText;
use crate::reply::Refusal;
use crate::stop::Stop;
use doi_table::{DoiDef, DoiFault, DoiPlan, DoiTable, Listed};
use domain_map::DomainMap;
use mls_label::{OutOfMemory, Proto, Tag};
use script_lines::{CategoryPairs, Command, Doi, LevelPairs, Tags};
use std::alloc::Global;

/// A plan under which the numbers on the wire are the node's own.
pub fn pass_plan(alloc: Global, tags: &[Tag]) -> Result<DoiPlan, OutOfMemory>
    ensures value { IfOk result (λ plan. plan ≡ pass_plan tags.now) }
    ensures plan { IfOk result IsPlan }
{
    Ok(DoiPlan {
        trans: false,
        tags: listed(alloc, tags)?,
        levels: listed(alloc, &[])?,
        cats: listed(alloc, &[])?,
    })
}

/// A plan that translates by these pairs.
pub fn trans_plan(
    alloc: Global,
    tags: &[Tag],
    levels: &LevelPairs,
    categories: &Option<CategoryPairs>,
) -> Result<DoiPlan, OutOfMemory>
    ensures value { IfOk result (λ plan. plan ≡ trans_plan tags.now levels.now categories.now) }
    ensures plan { IfOk result IsPlan }
    ensures levels { OnOk result (0 < length levels.now) }
{
    let levels = listed(alloc, levels.as_slice())?;
    let cats = listed_categories(alloc, categories)?;
    Ok(DoiPlan {
        trans: true,
        tags: listed(alloc, tags)?,
        levels,
        cats,
    })
}

fn listed_categories(
    alloc: Global,
    categories: &Option<CategoryPairs>,
) -> Result<Listed<(u16, u16)>, OutOfMemory>
    ensures value { IfOk result (λ cats. cats ≡ unwrap_or categories.now []) }
    ensures below { IfOk result (AreBelow 65535) }
{
    match categories {
        Some(pairs) => listed(alloc, pairs.as_slice()),
        None => listed(alloc, &[]),
    }
}

fn listed<T: Copy>(alloc: Global, items: &[T]) -> Result<Listed<T>, OutOfMemory>
    ensures { IfOk result (λ list. list ≡ items.now) }
{
    let items = Vec::from_slice(alloc, items)?;
    Ok(Listed::from_vec(items))
}

/// Defines a DOI that isn't defined.
pub fn define(dois: &mut DoiTable, proto: Proto, doi: Doi, plan: &DoiPlan) -> Result<(), Stop>
    requires { IsPlan plan.now }
    ensures { Turns (definition_added dois.old proto doi plan.now) dois.old dois.new result }
{
    match dois.add(proto, doi.get(), plan) {
        Ok(()) => Ok(()),
        Err(DoiFault::Exists) => Err(Stop::Refused(Refusal::DoiExists)),
        Err(DoiFault::TooManyPairs) => Err(Stop::Refused(Refusal::TooManyPairs)),
        Err(DoiFault::NotOneToOne) => Err(Stop::Refused(Refusal::NotOneToOne)),
        Err(DoiFault::Full) => Err(Stop::Refused(Refusal::TableFull)),
        Err(DoiFault::OutOfMemory) => Err(Stop::OutOfMemory),
    }
}

/// Takes out the definition of a DOI that no entry of the map names.
pub fn forget(dois: &mut DoiTable, map: &DomainMap, proto: Proto, doi: Doi) -> Result<(), Stop>
    ensures { Turns (definition_deleted dois.old map.now proto doi) dois.old dois.new result }
{
    let doi = doi.get();
    if dois.find(proto, doi).is_some() && map.names_doi(proto, doi) {
        return Err(Stop::Refused(Refusal::DoiInUse));
    }
    match dois.del(proto, doi) {
        Ok(()) => Ok(()),
        Err(_) => Err(Stop::Refused(Refusal::DoiUnknown)),
    }
}

/// The lines of a protocol's definitions.
pub fn list_definitions(
    alloc: Global,
    dois: &DoiTable,
    proto: Proto,
) -> Result<ListText, OutOfMemory>
    requires { AreGiven dois.now }
    ensures { IfOk result (λ lines. lines ≡ definition_lines dois.now proto) }
{
    let mut lines = ListText::empty(alloc);
    for i in 0..dois.count() {
        let (of, doi, def) = dois.entry(i);
        push_definition_of(&mut lines, alloc, proto, of, doi, def)?;
    }
    Ok(lines)
}

/// Adds the line of a definition if it is of the protocol.
fn push_definition_of(
    lines: &mut ListText,
    alloc: Global,
    proto: Proto,
    of: Proto,
    doi: u32,
    def: &DoiDef,
) -> Result<(), OutOfMemory>
    requires { IsGiven (of, doi) def.now }
    ensures { OnOk result
        (lines.new ≡ lines.old ++ definition_lines (((of, doi), def.now) ∷ []) proto) }
{
    if proto != of {
        return Ok(());
    }
    push_definition(lines, alloc, of, doi, def)
}

/// Adds the line of a definition.
pub fn push_definition(
    lines: &mut ListText,
    alloc: Global,
    proto: Proto,
    doi: u32,
    def: &DoiDef,
) -> Result<(), OutOfMemory>
    requires { IsGiven (proto, doi) def.now }
    ensures { OnOk result (lines.new ≡ lines.old ++ definition_line ((proto, doi), def.now) ∷ []) }
{
    let command = definition_command(alloc, proto, Doi::of(doi), def)?;
    lines.push_command(command)
}

/// The command that defines a DOI so.
fn definition_command(
    alloc: Global,
    proto: Proto,
    doi: Doi,
    def: &DoiDef,
) -> Result<Command, OutOfMemory>
    requires { IsGiven (proto, doi) def.now }
    ensures { IfOk result (λ command. command ≡ definition_command proto doi def.now) }
{
    match (proto, def.plan().trans) {
        (Proto::Cipso, false) => Ok(Command::CipsoAddPass {
            doi,
            tags: Tags::of(alloc, def.tags())?,
        }),
        (Proto::Cipso, true) => Ok(Command::CipsoAddTrans {
            doi,
            tags: Tags::of(alloc, def.tags())?,
            levels: level_pairs(alloc, def)?,
            categories: some_pairs(alloc, def)?,
        }),
        (Proto::Calipso, false) => Ok(Command::CalipsoAddPass { doi }),
        (Proto::Calipso, true) => Ok(Command::CalipsoAddTrans {
            doi,
            levels: level_pairs(alloc, def)?,
            categories: some_pairs(alloc, def)?,
        }),
    }
}

fn level_pairs(alloc: Global, def: &DoiDef) -> Result<LevelPairs, OutOfMemory>
    requires { 0 < length def.now.levels }
    ensures { IfOk result (λ pairs. pairs ≡ def.now.levels) }
{
    LevelPairs::of(alloc, def.plan().levels.as_slice())
}

fn some_pairs(alloc: Global, def: &DoiDef) -> Result<Option<CategoryPairs>, OutOfMemory>
    ensures { IfOk result (λ pairs. pairs ≡ some_pairs def.now.cats) }
{
    let pairs = def.plan().cats.as_slice();
    if pairs.is_empty() {
        return Ok(None);
    }
    Ok(Some(CategoryPairs::of(alloc, pairs)?))
}
