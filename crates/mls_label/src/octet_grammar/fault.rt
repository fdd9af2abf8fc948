/// What is wrong at an octet.
#[derive(Clone, Copy, Debug, PartialEq, Eq)]
pub enum WireKind {
    /// The octet doesn't fit: no member of the grammar begins with the octets up to it.
    Octet,
    /// The octets end early: they begin a member and are none.
    End,
}

/// The first fault of an octet string under a grammar.
#[derive(Clone, Copy, Debug, PartialEq, Eq)]
pub struct WireFault {
    /// The place, counted in octets from 0; for `End` it is the string's length.
    pub octet: usize,
    pub kind: WireKind,
}
