//! Receivers.

use domain_map::Name;
use mls_label::Label;

/// Who receives at an address: the domain whose map has to agree, and the labels that it may have, from a low end to its level,
/// which dominates it.
#[derive(Drop)]
pub struct Receiver {
    pub domain: Name,
    pub low: Label,
    pub level: Label,
}
