//! What a border goes by.

use doi_table::DoiDef;

/// Which way packets cross a border.
#[derive(Clone, Copy, Debug, PartialEq, Eq)]
pub enum Way {
    /// Option 130 becomes a CIPSO option.
    In,
    /// A CIPSO option becomes option 130.
    Out,
}

/// What a border goes by.
#[derive(Drop)]
pub struct Border<'a> {
    pub way: Way,
    /// The DOI of the CIPSO options, which isn't 0.
    pub doi: u32,
    /// What the DOI is defined as: its remote numbers are classification levels and flags of option 130, and its local ones go into
    /// the CIPSO options.
    pub definition: &'a DoiDef,
}
