/// Why octets are no packet with a label or without. Octets are counted from the packet's first.
#[derive(Clone, Copy, Debug, PartialEq, Eq)]
pub enum CarryFault {
    /// A header is wrong at this octet.
    Header { octet: usize },
    /// The label option is wrong at this octet, or a second one stands there.
    Option { octet: usize },
}
