// The label option that a packet is written with.

ghost use Rattle.std.specs.Prelude.{◌≡◌, ◌++◌, length, OnOk};
ghost use Rattle.std.specs.Option.{option_copied};
ghost use Rattle.ip_headers.specs.inside.Write.{octets_or_none};

use std::alloc::AllocError;

/// How long it is; 0 where there is none.
pub fn label_size(option: Option<&[u8]>) -> usize
    ensures { result ≡ length (octets_or_none (option_copied option.entry)) }
{
    match option {
        Some(octets) => octets.len(),
        None => 0,
    }
}

/// Writes it at the end.
pub fn push_label(option: Option<&[u8]>, out: &mut Vec<u8>) -> Result<(), AllocError>
    ensures { OnOk result
        (out.new.items ≡ out.old.items ++ octets_or_none (option_copied option.entry)) }
{
    match option {
        Some(octets) => out.extend_from_slice(octets),
        None => Ok(()),
    }
}
