//! Classification levels.

ghost use Rattle.std.specs.Prelude.{◌≡◌};
ghost use Rattle.ripso_option.specs.Rules.{is_class};

/// Whether an octet is a classification level (RFC 1108): Top Secret, Secret, Confidential, Unclassified or one of
/// the four that are reserved.
pub(crate) fn is_class(octet: u8) -> bool
    ensures { result ≡ is_class octet }
{
    matches!(octet, 0x01 | 0x3D | 0x5A | 0x96 | 0x66 | 0xCC | 0xAB | 0xF1)
}
