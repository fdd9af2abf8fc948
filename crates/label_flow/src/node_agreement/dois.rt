//! The DOIs of a protocol in ascending order, which a table of definitions doesn't keep.

ghost use Rattle.std.specs.Prelude.{◌≡◌, ℕ, ◌<◌, ◌≤◌, None, IfSome, IfNone};
ghost use Rattle.doi_table.specs.Table.{definition_of};
ghost use Rattle.label_flow.specs.node_agreement.inside.Found.{IsFloor};

use doi_table::DoiTable;
use mls_label::Proto;

/// The lowest DOI of the protocol that is defined and isn't below `from`.
pub fn next_doi(dois: &DoiTable, proto: Proto, from: u64) -> Option<u32>
    ensures some { IfSome result (λ doi. from ≤ doi) }
    ensures lowest { IfSome result
        (λ doi. (n : ℕ) → from ≤ n → n < doi → definition_of dois.now proto n ≡ None) }
    ensures none { IfNone result ((n : ℕ) → from ≤ n → definition_of dois.now proto n ≡ None) }
{
    let mut lowest = None;
    for i in 0..dois.count() {
        let (other, doi, _) = dois.entry(i);
        if other == proto {
            lowest = lower(lowest, from, doi);
        }
    }
    lowest
}

// The lower of two DOIs, of which the second counts where it isn't below `from`.
fn lower(lowest: Option<u32>, from: u64, doi: u32) -> Option<u32>
    requires { IfSome lowest (λ low. from ≤ low) }
    ensures above { IfSome result (λ low. from ≤ low) }
    ensures kept { (n : ℕ) → IsFloor from lowest n → IsFloor from result n }
    ensures floor { IsFloor from result doi }
{
    if u64::from(doi) < from {
        return lowest;
    }
    match lowest {
        Some(low) => Some(if low <= doi { low } else { doi }),
        None => Some(doi),
    }
}
