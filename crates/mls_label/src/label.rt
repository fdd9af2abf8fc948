//! Labels, and what the formats on the wire share: the tags of a CIPSO option.

ghost use Rattle.std.specs.Prelude.{◌≡◌, ◌↔◌, [], IsTrue};
ghost use Rattle.mls_label.specs.Label.{Dominates};

use crate::CatSet;

/// A label: a level from 0 to 255 and a set of categories from 0 to 65534 (SELinux MLS).
#[derive(Debug, Drop)]
pub struct Label {
    pub level: u8,
    pub cats: CatSet,
}

impl Label {
    /// The label of level 0 without a category.
    pub fn lowest() -> Label
        ensures { result ≡ record { level = 0; cats = [] } }
    {
        Label {
            level: 0,
            cats: CatSet::empty(),
        }
    }

    /// Whether whoever has this label may have what is labelled `other`: the level is at least the other's, and each of the other's
    /// categories is one of this label's.
    pub fn dominates(&self, other: &Label) -> bool
        ensures { IsTrue result ↔ Dominates self.now other.now }
    {
        other.level <= self.level && other.cats.is_subset(&self.cats)
    }

    /// Whether both labels have the same level and the same categories.
    pub fn same(&self, other: &Label) -> bool
        ensures { IsTrue result ↔ (self.now ≡ other.now) }
    {
        self.level == other.level && self.cats.same(&other.cats)
    }

    /// A copy.
    pub fn copy(&self) -> Label
        ensures { result ≡ self.now }
    {
        let mut copy = Label::lowest();
        copy.assign(self);
        copy
    }

    /// Becomes the other label. It costs what the other has, where a move costs all the room.
    pub fn assign(&mut self, from: &Label)
        ensures { self.new ≡ from.now }
    {
        self.level = from.level;
        self.cats.assign(&from.cats);
    }
}

/// The tags of a CIPSO option that carry a label here: types 1, 2 and 5 of the CIPSO draft 2.2 and FIPS 188.
#[derive(Clone, Copy, Debug, PartialEq, Eq)]
pub enum Tag {
    /// A bitmap of categories.
    One,
    /// The categories one by one.
    Two,
    /// Ranges of categories.
    Five,
}

/// The protocols that carry a label in a packet.
#[derive(Clone, Copy, Debug, PartialEq, Eq, Hash)]
pub enum Proto {
    /// The option of type 134 in an IPv4 header (FIPS 188 and the CIPSO draft 2.2).
    Cipso,
    /// The option of type 7 in an IPv6 Hop-by-Hop header (RFC 5570).
    Calipso,
}
