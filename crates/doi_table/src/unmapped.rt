//! What a definition has no number for.

/// Why a label has no translation: the level is tested first.
#[derive(Clone, Copy, Debug, PartialEq, Eq)]
pub enum Unmapped {
    /// The level has no pair.
    Level,
    /// The least category of the label that has no pair.
    Category(u16),
}
