/// What stands at an octet of a list of options.
#[derive(Clone, Copy, Debug, Drop)]
pub enum Step {
    /// The list ends here.
    End,
    /// An option of so many octets.
    Option(usize),
    /// No whole option.
    Broken,
}

/// What a walk found. Places are octets of the packet.
#[derive(Debug, Drop)]
pub struct Found<'a> {
    /// The first label option, with its place.
    pub label: Option<(usize, &'a [u8])>,
    /// The place of the second label option.
    pub second: Option<usize>,
    /// The place of the first Jumbo Payload option.
    pub jumbo: Option<usize>,
    /// Whether there is an option that is neither padding nor a label.
    pub has_others: bool,
}
