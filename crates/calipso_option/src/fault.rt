use mls_label::WireFault;

/// Why no option was read.
#[derive(Clone, Copy, Debug, PartialEq, Eq)]
pub enum CalipsoFault {
    /// No option has this octet there, whatever its checksum, or the octets end early.
    Wire(WireFault),
    /// All but the checksum is as it should be (RFC 5570, section 5.1). The stored one stands at octets 8 and 9.
    BadChecksum { stored: u16, computed: u16 },
}

impl From<WireFault> for CalipsoFault {
    ghost use Rattle.std.specs.Prelude.{◌≡◌};
    ghost use Rattle.calipso_option.specs.declared.fault.CalipsoFault.TheVariants.{Wire};

    ghost from_gives = { λ fault made. made ≡ Wire fault };

    fn from(fault: WireFault) -> CalipsoFault {
        CalipsoFault::Wire(fault)
    }
}
