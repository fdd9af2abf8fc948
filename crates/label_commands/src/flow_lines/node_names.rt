//! The nodes that a script names.

ghost use Rattle.std.specs.Prelude.{◌≡◌, [], length, position, IfOk, OnErr, OnOk, Some};
ghost use Rattle.std.specs.Str.{bytes_eq};
ghost use Rattle.indexmap.specs.IndexSet.{insert_key};

use domain_map::Name;
use indexmap::IndexSet;
use mls_label::OutOfMemory;
use std::alloc::Global;
use std::marker::Model;

/// Names of nodes in the order in which they came first. A name is found by its hash. Contracts see them as a list.
#[derive(Drop)]
pub struct NodeNames {
    names: IndexSet<Name>,
}

impl Model for NodeNames {
    ghost use Rattle.std.specs.Prelude.{List, ℕ};

    ghost Value = { List (List ℕ) };

    ghost view = { λ n. n.names.keys };
}

impl NodeNames {
    /// No name.
    pub fn empty(alloc: Global) -> NodeNames
        ensures { result ≡ [] }
    {
        NodeNames {
            names: IndexSet::new(alloc),
        }
    }

    /// How many names there are.
    pub fn len(&self) -> usize
        ensures { result ≡ length self.now }
    {
        self.names.len()
    }

    /// The names, each at its number.
    pub fn as_slice(&self) -> &[Name]
        ensures { result.now ≡ self.now }
    {
        self.names.as_slice()
    }

    /// The number of a name.
    pub fn number_of(&self, name: &Name) -> Option<usize>
        ensures { result ≡ position (bytes_eq name.now) self.now }
    {
        self.names.get_index_of(name)
    }

    /// Gives the number of a name, which is put behind the others where it is new. After an error nothing has changed.
    pub fn add(&mut self, name: Name) -> Result<usize, OutOfMemory>
        ensures names { OnOk result (self.new ≡ insert_key bytes_eq self.old name) }
        ensures number { IfOk result (λ number. position (bytes_eq name) self.new ≡ Some number) }
        ensures err { OnErr result (self.new ≡ self.old) }
    {
        let (number, _is_new) = self.names.insert_full(name)?;
        Ok(number)
    }
}
