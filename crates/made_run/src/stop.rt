//! What stops the making of a capture.

/// Why a capture isn't whole.
#[derive(Clone, Copy, Debug, PartialEq, Eq)]
pub enum MadeStop {
    /// The file couldn't be made.
    Create,
    /// An append to it has failed.
    Append,
    /// Memory ran out.
    OutOfMemory,
}
