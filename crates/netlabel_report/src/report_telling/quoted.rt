//! Texts in quotes.

ghost use Rattle.std.specs.Prelude.{◌≡◌, ◌++◌, OnOk};
ghost use Rattle.std.specs.List.{flat_map};
ghost use Rattle.netlabel_report.specs.report_telling.Quoted.{marked, quoted};

use mls_label::OutOfMemory;

/// Appends a text in quotes, each quote and each mark in it behind a mark.
pub(crate) fn append_quoted(mark: u8, text: &[u8], out: &mut Vec<u8>) -> Result<(), OutOfMemory>
    ensures { OnOk result (out.new.items ≡ out.old.items ++ quoted mark text.now) }
{
    out.push(b'"')?;
    append_octets(mark, text, out)?;
    out.push(b'"')?;
    Ok(())
}

fn append_octets(mark: u8, text: &[u8], out: &mut Vec<u8>) -> Result<(), OutOfMemory>
    ensures { OnOk result (out.new.items ≡ out.old.items ++ flat_map (marked mark) text.now) }
{
    let mut rest = text;
    while let [octet, behind @ ..] = rest {
        append_octet(mark, *octet, out)?;
        rest = behind;
    }
    Ok(())
}

fn append_octet(mark: u8, octet: u8, out: &mut Vec<u8>) -> Result<(), OutOfMemory>
    ensures { OnOk result (out.new.items ≡ out.old.items ++ marked mark octet) }
{
    if octet == b'"' || octet == mark {
        out.push(mark)?;
    }
    out.push(octet)?;
    Ok(())
}
