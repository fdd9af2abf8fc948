//! Texts that are appended whole or not at all.

ghost use Rattle.std.specs.Prelude.{◌≡◌, take, OnOk, OnErr};

use mls_label::OutOfMemory;

/// Takes away again what was appended behind the first `before` octets, where it wasn't written whole.
pub(crate) fn all_or_nothing(
    written: Result<(), OutOfMemory>,
    before: usize,
    out: &mut Vec<u8>,
) -> Result<(), OutOfMemory>
    ensures answer { result ≡ written }
    ensures ok { OnOk result (out.new.items ≡ out.old.items) }
    ensures err { OnErr result (out.new.items ≡ take before out.old.items) }
{
    if written.is_err() {
        out.truncate(before);
    }
    written
}
