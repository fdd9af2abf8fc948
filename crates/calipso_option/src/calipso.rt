use mls_label::Label;

/// What an option says.
#[derive(Debug, Drop)]
pub struct Calipso {
    /// The domain of interpretation, which gives the label its meaning; never 0 in an option that was read.
    pub doi: u32,
    pub label: Label,
}
