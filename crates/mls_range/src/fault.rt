use mls_label::{WireFault, WireKind};

/// What is wrong with a text.
#[derive(Clone, Copy, Debug, PartialEq, Eq)]
pub enum TextKind {
    /// The octet doesn't fit: no text of the form begins with the octets up to it.
    Grammar,
    /// The text ends early: it begins a text of the form and is none.
    End,
    /// At the first octet of a term: with its categories the set needs more than 1,952 runs.
    TooManyRuns,
    /// At the first octet of a range's high label: it doesn't dominate the low one.
    NotOrdered,
}

/// The first fault of a text.
#[derive(Clone, Copy, Debug, PartialEq, Eq)]
pub struct TextFault {
    /// The place, counted in octets from 0; for `End` it is the text's length.
    pub octet: usize,
    pub kind: TextKind,
}

/// The fault of a grammar at the same octet.
impl From<WireFault> for TextFault {
    ghost use Rattle.std.specs.Prelude.{◌≡◌};
    ghost use Rattle.mls_range.specs.inside.Told.{text_fault};

    ghost from_gives = { λ fault made. made ≡ text_fault fault };

    fn from(fault: WireFault) -> TextFault {
        let kind = match fault.kind {
            WireKind::Octet => TextKind::Grammar,
            WireKind::End => TextKind::End,
        };
        TextFault {
            octet: fault.octet,
            kind,
        }
    }
}
