//! Whether two nodes agree.

ghost use Rattle.std.specs.Prelude.{◌≡◌, IfSome, IfNone};
ghost use Rattle.label_flow.specs.declared.node_agreement.disagree.Disagree.{Disagree};
ghost use Rattle.label_flow.specs.node_agreement.Agreement.{Agree};
ghost use Rattle.label_flow.specs.node_agreement.First.{IsFirst};
ghost use Rattle.label_flow.specs.node_agreement.inside.Found.{IsFirstAmong};

use crate::node_agreement::categories::first_category;
use crate::node_agreement::difference::Difference;
use crate::node_agreement::disagree::Disagree;
use crate::node_agreement::dois::next_doi;
use crate::node_agreement::ends::{Ends, Nodes};
use crate::node_agreement::levels::first_level;
use label_commands::Reading;
use mls_label::Proto;
use node_tables::Tables;

/// `None` where two nodes agree: under each protocol and DOI that both define, each level and each category on the wire that the
/// protocol can carry and that both have a local number for means the same to both, by their readings. CIPSO can carry the categories
/// 0 to 65534 (FIPS 188), CALIPSO 0 to 1951 (RFC 5570). Else the first difference: CIPSO before CALIPSO, DOIs ascending, levels before
/// categories, numbers on the wire ascending. It takes no memory, and a time for the pairs and namings that there are.
pub fn agrees(
    left: &Tables,
    right: &Tables,
    left_reading: &Reading,
    right_reading: &Reading,
) -> Option<Disagree>
    ensures agree { IfNone result (Agree left.now right.now left_reading.now right_reading.now) }
    ensures first { IfSome result (IsFirst left.now right.now left_reading.now right_reading.now) }
{
    let nodes = Nodes {
        left,
        right,
        left_reading,
        right_reading,
    };
    match first_of(&nodes, Proto::Cipso) {
        Some(found) => Some(found),
        None => first_of(&nodes, Proto::Calipso),
    }
}

// The first difference of a protocol.
fn first_of(nodes: &Nodes<'_>, proto: Proto) -> Option<Disagree>
    ensures { IsFirstAmong (λ (e : Disagree). e.proto ≡ proto)
        nodes.now.left.now nodes.now.right.now nodes.now.left_reading.now
        nodes.now.right_reading.now result }
{
    let mut from = 0;
    while let Some(doi) = next_doi(nodes.left.dois(), proto, from) {
        let found = first_under(nodes, proto, doi);
        if found.is_some() {
            return found;
        }
        from = u64::from(doi) + 1;
    }
    None
}

// The first difference under a DOI.
fn first_under(nodes: &Nodes<'_>, proto: Proto, doi: u32) -> Option<Disagree>
    ensures { IsFirstAmong (λ (e : Disagree). (e.proto ≡ proto) × (e.doi ≡ doi))
        nodes.now.left.now nodes.now.right.now nodes.now.left_reading.now
        nodes.now.right_reading.now result }
{
    let Some(left) = nodes.left.dois().find(proto, doi) else {
        return None;
    };
    let Some(right) = nodes.right.dois().find(proto, doi) else {
        return None;
    };
    let ends = Ends {
        left,
        right,
        left_reading: nodes.left_reading,
        right_reading: nodes.right_reading,
    };
    if let Some(found) = first_level(&ends) {
        return Some(told(proto, doi, true, found));
    }
    match first_category(&ends, proto) {
        Some(found) => Some(told(proto, doi, false, found)),
        None => None,
    }
}

fn told(proto: Proto, doi: u32, level: bool, found: Difference) -> Disagree
    ensures { result
        ≡ record {
          proto = proto;
          doi = doi;
          level = level;
          wire = found.wire;
          left = found.left;
          right = found.right;
        } }
{
    Disagree {
        proto,
        doi,
        level,
        wire: found.wire,
        left: found.left,
        right: found.right,
    }
}
