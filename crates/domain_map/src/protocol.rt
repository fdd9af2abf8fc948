//! The protocols of a map.

ghost use Rattle.std.specs.Prelude.{◌≡◌};
ghost use Rattle.domain_map.specs.Protocol.{has_doi};

use mls_label::Proto;

/// How traffic is sent: without a label, or with one in a CIPSO or CALIPSO option under a DOI.
#[derive(Clone, Copy, Debug, PartialEq, Eq)]
pub enum Protocol {
    Unlbl,
    Cipso { doi: u32 },
    Calipso { doi: u32 },
}

impl Protocol {
    /// Whether it is the protocol of this DOI.
    pub fn has_doi(&self, proto: Proto, doi: u32) -> bool
        ensures { result ≡ has_doi proto doi self.now }
    {
        match (proto, self) {
            (Proto::Cipso, Protocol::Cipso { doi: named }) => doi == *named,
            (Proto::Calipso, Protocol::Calipso { doi: named }) => doi == *named,
            _ => false,
        }
    }
}
