//! A plan that was found one-to-one, with its pairs sorted for both directions.

ghost use Rattle.std.specs.Prelude.{◌≡◌, ℕ, ◌<◌, ◌≤◌, length, true, false, Some, None, IfOk, IfErr, IfSome, IfNone, OnOk, IsPermutation, if◌then◌else◌, ◌&&◌};
ghost use Rattle.mls_label.specs.Cats.{Ascends};
ghost use Rattle.doi_table.specs.Pairs.{number_by, firsts, flipped, are_distinct};
ghost use Rattle.doi_table.specs.Definition.{AreBelow, IsPlan, IsDefinition, is_plan_one_to_one, number_in};
ghost use Rattle.doi_table.specs.Table.{MayAnswer};
ghost use Rattle.doi_table.specs.inside.Sorted.{IsSorted, AreDirections, Serves};
ghost use Rattle.doi_table.specs.declared.fault.DoiFault.TheVariants.{NotOneToOne};

use crate::fault::DoiFault;
use crate::numbers::{Pair, level, number};
use crate::plan::DoiPlan;
use crate::sorted::{sorted, turned, widened};
use mls_label::{OutOfMemory, Tag};
use std::alloc::Global;
use std::marker::Model;

/// A definition: a plan whose pairs are one-to-one. Its type keeps that.
#[derive(Drop)]
pub struct DoiDef {
    pub(crate) plan: DoiPlan,
    pub(crate) sorted: BothWays,
}

/// The pairs of a plan sorted for both directions.
#[derive(Drop)]
pub struct BothWays {
    /// By their local numbers.
    pub outward: Direction,
    /// Turned round, by their remote numbers.
    pub inward: Direction,
}

/// The pairs of one direction in ascending order of the numbers that they lead from.
#[derive(Drop)]
pub struct Direction {
    pub levels: Vec<Pair>,
    pub cats: Vec<Pair>,
}

impl Model for DoiDef {
    ghost use Rattle.doi_table.specs.declared.plan.DoiPlan.{DoiPlan};

    ghost Value = { DoiPlan };

    ghost use Rattle.doi_table.specs.inside.Sorted.{IsKept};

    ghost view = { λ d. d.plan };

    ghost invariant = { λ d. IsKept d.plan
        d.sorted.outward.levels.items d.sorted.outward.cats.items
        d.sorted.inward.levels.items d.sorted.inward.cats.items };
}

impl DoiDef {
    pub(crate) fn of(alloc: Global, plan: &DoiPlan) -> Result<DoiDef, DoiFault>
        requires is_plan { IsPlan plan.now }
        requires few { length plan.now.cats ≤ 1952 }
        ensures ok { IfOk result (λ def. def ≡ plan.now) }
        ensures one_to_one { OnOk result (is_plan_one_to_one plan.now ≡ true) }
        ensures err { IfErr result (λ fault. MayAnswer fault
            (if is_plan_one_to_one plan.now then None else Some NotOneToOne)) }
    {
        let sorted = both_ways(alloc, plan)?;
        let plan = plan.copy()?;
        Ok(DoiDef { plan, sorted })
    }

    /// The plan that the definition is.
    pub fn plan(&self) -> &DoiPlan
        ensures value { result.now ≡ self.now }
        ensures definition { IsDefinition self.now }
    {
        &self.plan
    }

    /// The tags that a CIPSO option of this DOI may have, the preferred first.
    pub fn tags(&self) -> &[Tag]
        ensures { result.now ≡ self.now.tags }
    {
        self.plan.tags.as_slice()
    }

    /// A copy.
    pub fn copy(&self) -> Result<DoiDef, OutOfMemory>
        ensures { IfOk result (λ copy. copy ≡ self.now) }
    {
        let plan = self.plan.copy()?;
        let outward = self.sorted.outward.copy()?;
        let inward = self.sorted.inward.copy()?;
        Ok(DoiDef {
            plan,
            sorted: BothWays { outward, inward },
        })
    }

    /// The sorted pairs from local to remote numbers.
    pub(crate) fn outward(&self) -> &Direction
        ensures { Serves self.now.levels self.now.cats result.now.levels.items
            result.now.cats.items }
    {
        &self.sorted.outward
    }

    /// The sorted pairs from remote to local numbers.
    pub(crate) fn inward(&self) -> &Direction
        ensures { Serves (flipped self.now.levels) (flipped self.now.cats)
            result.now.levels.items result.now.cats.items }
    {
        &self.sorted.inward
    }

    /// The local level of a level on the wire, or `None` where it has none.
    pub fn local_level(&self, wire: u8) -> Option<u8>
        ensures { result ≡ number_in self.now.trans (flipped self.now.levels) wire }
    {
        if !self.plan.trans {
            return Some(wire);
        }
        level(&self.inward().levels, wire)
    }

    /// The local category of a category on the wire, or `None` where it has none.
    pub fn local_category(&self, wire: u16) -> Option<u16>
        ensures { result ≡ number_in self.now.trans (flipped self.now.cats) wire }
    {
        if !self.plan.trans {
            return Some(wire);
        }
        number(&self.inward().cats, wire)
    }

    /// The pairs of levels, the local number first, in ascending order of it.
    pub fn levels_by_local(&self) -> &[(u16, u16)]
        ensures pairs { IsPermutation self.now.levels result.now }
        ensures same { (n : ℕ) → number_by self.now.levels n ≡ number_by result.now n }
        ensures ascending { Ascends 0 256 (firsts result.now) }
        ensures below { AreBelow 256 result.now }
    {
        &self.outward().levels
    }

    /// The pairs of categories, the local number first, in ascending order of it.
    pub fn cats_by_local(&self) -> &[(u16, u16)]
        ensures pairs { IsPermutation self.now.cats result.now }
        ensures same { (n : ℕ) → number_by self.now.cats n ≡ number_by result.now n }
        ensures ascending { Ascends 0 65535 (firsts result.now) }
        ensures below { AreBelow 65535 result.now }
    {
        &self.outward().cats
    }

    /// The pairs of levels, the remote number first, in ascending order of it.
    pub fn levels_by_wire(&self) -> &[(u16, u16)]
        ensures pairs { IsPermutation (flipped self.now.levels) result.now }
        ensures same { (n : ℕ) → number_by (flipped self.now.levels) n ≡ number_by result.now n }
        ensures ascending { Ascends 0 256 (firsts result.now) }
        ensures below { AreBelow 256 result.now }
    {
        &self.inward().levels
    }

    /// The pairs of categories, the remote number first, in ascending order of it.
    pub fn cats_by_wire(&self) -> &[(u16, u16)]
        ensures pairs { IsPermutation (flipped self.now.cats) result.now }
        ensures same { (n : ℕ) → number_by (flipped self.now.cats) n ≡ number_by result.now n }
        ensures ascending { Ascends 0 65535 (firsts result.now) }
        ensures below { AreBelow 65535 result.now }
    {
        &self.inward().cats
    }
}

impl Direction {
    fn copy(&self) -> Result<Direction, OutOfMemory>
        ensures levels { IfOk result (λ copy. copy.levels.items ≡ self.now.levels.items) }
        ensures cats { IfOk result (λ copy. copy.cats.items ≡ self.now.cats.items) }
    {
        Ok(Direction {
            levels: copied(&self.levels)?,
            cats: copied(&self.cats)?,
        })
    }
}

fn copied(pairs: &Vec<Pair>) -> Result<Vec<Pair>, OutOfMemory>
    ensures { IfOk result (λ copy. copy.items ≡ pairs.now.items) }
{
    let copy = Vec::from_slice(*pairs.allocator(), pairs.as_slice())?;
    Ok(copy)
}

// The plan's pairs sorted for both directions, which they are where they are one-to-one.
fn both_ways(alloc: Global, plan: &DoiPlan) -> Result<BothWays, DoiFault>
    ensures ok { IfOk result (λ ways. AreDirections plan.now
        ways.outward.levels.items ways.outward.cats.items
        ways.inward.levels.items ways.inward.cats.items) }
    ensures levels { OnOk result (AreBelow 256 plan.now.levels) }
    ensures err { IfErr result (λ fault. MayAnswer fault
        (if is_plan_one_to_one plan.now then None else Some NotOneToOne)) }
{
    let levels = widened(alloc, plan.levels.as_slice())?;
    let cats = Vec::from_slice(alloc, plan.cats.as_slice())?;
    let back_levels = turned(alloc, &levels)?;
    let back_cats = turned(alloc, &cats)?;
    let Some(outward) = both_sorted(levels, cats) else {
        return Err(DoiFault::NotOneToOne);
    };
    let Some(inward) = both_sorted(back_levels, back_cats) else {
        return Err(DoiFault::NotOneToOne);
    };
    Ok(BothWays { outward, inward })
}

fn both_sorted(levels: Vec<Pair>, cats: Vec<Pair>) -> Option<Direction>
    ensures levels { IfSome result (λ d. IsSorted levels.items d.levels.items) }
    ensures cats { IfSome result (λ d. IsSorted cats.items d.cats.items) }
    ensures none { IfNone result
        ((are_distinct (firsts levels.items) && are_distinct (firsts cats.items)) ≡ false) }
{
    let levels = sorted(levels)?;
    let cats = sorted(cats)?;
    Some(Direction { levels, cats })
}
