//! What a command says of a DOI.

ghost use Rattle.std.specs.Prelude.{◌≡◌, ◌↔◌, IsTrue, IfOk};
ghost use Rattle.doi_table.specs.Definition.{AreBelow, IsPlan};

use crate::listed::Listed;
use mls_label::{OutOfMemory, Tag};

/// What the numbers of a DOI mean at a node. Where `trans` is false the numbers on the wire are the node's own, and there are no
/// pairs. A CALIPSO plan has no tags.
#[derive(Drop)]
pub struct DoiPlan {
    pub trans: bool,
    /// The tags that a CIPSO option of this DOI may have, the preferred first.
    pub tags: Listed<Tag>,
    /// Pairs of levels, the local number first.
    pub levels: Listed<(u8, u8)>,
    /// Pairs of categories, the local number first.
    pub cats: Listed<(u16, u16)>,
}

impl DoiPlan {
    /// Whether the plan may be given to `DoiTable::add`: its categories are below 65535, and it has no pairs where all numbers pass.
    pub fn is_plan(&self) -> bool
        ensures { IsTrue result ↔ IsPlan self.now }
    {
        let levels = self.levels.as_slice();
        let cats = self.cats.as_slice();
        (self.trans || (levels.is_empty() && cats.is_empty())) && are_categories(cats)
    }

    /// A copy.
    pub fn copy(&self) -> Result<DoiPlan, OutOfMemory>
        ensures { IfOk result (λ copy. copy ≡ self.now) }
    {
        Ok(DoiPlan {
            trans: self.trans,
            tags: self.tags.copy()?,
            levels: self.levels.copy()?,
            cats: self.cats.copy()?,
        })
    }
}

fn are_categories(pairs: &[(u16, u16)]) -> bool
    ensures { IsTrue result ↔ AreBelow 65535 pairs.now }
{
    pairs.iter().all(|pair| pair.0 < 65535 && pair.1 < 65535)
}
