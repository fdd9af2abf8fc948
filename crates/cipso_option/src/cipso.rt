use mls_label::{Label, Tag};

/// What an option says.
#[derive(Debug, Drop)]
pub struct Cipso {
    /// The domain of interpretation, which gives the label its meaning; never 0 in an option that was read.
    pub doi: u32,
    /// The tag that carried the label.
    pub tag: Tag,
    pub label: Label,
}
