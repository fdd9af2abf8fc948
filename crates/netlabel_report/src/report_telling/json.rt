//! A line as a record of JSON.

ghost use Rattle.std.specs.Prelude.{◌≡◌, ◌++◌, OnOk};
ghost use Rattle.call_report.specs.report_lines.Line.{line_words};
ghost use Rattle.netlabel_report.specs.report_telling.Json.{string_text, member_name, versions_list, member_text, members_text, record_begin, script_member, json_text, listed_json, unfinished_json};

use crate::report_telling::quoted::append_quoted;
use call_report::{Field, Form, Slot, first_word, parts_at};
use mls_label::{OutOfMemory, write_decimal};

/// What stands in front of a quote in a text, and in front of itself (RFC 8259, section 7).
const MARK: u8 = b'\\';

/// Appends a line of this form, of the report of this number, as a record, with the line in the script at which its command stands.
#[tactic(auto, unfolding(crate::specs::report_telling::Json::json_text))]
pub fn write_json(
    at: Option<u64>,
    report: u64,
    form: Form,
    line: &[u8],
    out: &mut Vec<u8>,
) -> Result<(), OutOfMemory>
    ensures { OnOk result (out.new.items ≡ out.old.items ++ json_text at report form line.now) }
{
    begin_record(report, form.name(), out)?;
    append_members(form.slots(), line, out)?;
    append_script_line(at, out)?;
    out.extend_from_slice(b"}\n")?;
    Ok(())
}

fn append_script_line(at: Option<u64>, out: &mut Vec<u8>) -> Result<(), OutOfMemory>
    ensures { OnOk result (out.new.items ≡ out.old.items ++ script_member at) }
{
    if let Some(line) = at {
        append_name(Field::Line, out)?;
        write_decimal(line, out)?;
    }
    Ok(())
}

/// Appends a listed line as a record.
#[tactic(auto, unfolding(crate::specs::report_telling::Json::listed_json))]
pub fn write_listed_json(report: u64, line: &[u8], out: &mut Vec<u8>) -> Result<(), OutOfMemory>
    ensures { OnOk result (out.new.items ≡ out.old.items ++ listed_json report line.now) }
{
    begin_record(report, b"listed", out)?;
    out.extend_from_slice(b",\"text\":")?;
    append_quoted(MARK, line, out)?;
    out.extend_from_slice(b"}\n")?;
    Ok(())
}

/// Appends that a report isn't finished.
#[tactic(auto, unfolding(crate::specs::report_telling::Json::unfinished_json))]
pub fn write_unfinished_json(report: u64, out: &mut Vec<u8>) -> Result<(), OutOfMemory>
    ensures { OnOk result (out.new.items ≡ out.old.items ++ unfinished_json report) }
{
    begin_record(report, b"unfinished", out)?;
    out.extend_from_slice(b"}\n")?;
    Ok(())
}

fn begin_record(report: u64, name: &[u8], out: &mut Vec<u8>) -> Result<(), OutOfMemory>
    ensures { OnOk result (out.new.items ≡ out.old.items ++ record_begin report name.now) }
{
    out.extend_from_slice(b"{\"report\":")?;
    write_decimal(report, out)?;
    out.extend_from_slice(b",\"line\":\"")?;
    out.extend_from_slice(name)?;
    out.extend_from_slice(b"\"")?;
    Ok(())
}

/// Appends what the words of a line say.
fn append_members(slots: &[Slot], line: &[u8], out: &mut Vec<u8>) -> Result<(), OutOfMemory>
    ensures { OnOk result (out.new.items
        ≡ out.old.items ++ members_text slots.now (line_words line.now)) }
{
    let mut slots = slots;
    let mut text = line;
    let mut more = true;
    while let [slot, others @ ..] = slots {
        if !more {
            return Ok(());
        }
        let word = first_word(text);
        append_member(*slot, word.text, out)?;
        text = word.rest;
        more = word.more;
        slots = others;
    }
    Ok(())
}

fn append_member(slot: Slot, word: &[u8], out: &mut Vec<u8>) -> Result<(), OutOfMemory>
    ensures { OnOk result (out.new.items ≡ out.old.items ++ member_text slot word.now) }
{
    match slot {
        Slot::Fixed { .. } => Ok(()),
        Slot::Tag { field, .. } => append_text(field, word, out),
        Slot::Number { field } | Slot::Zero { field } => append_number(field, word, out),
        Slot::Text { field, .. } => append_text(field, word, out),
        Slot::Place => append_place(word, out),
        Slot::Versions => append_versions(word, out),
        Slot::NoVersions => append_versions(b"", out),
    }
}

fn append_name(field: Field, out: &mut Vec<u8>) -> Result<(), OutOfMemory>
    ensures { OnOk result (out.new.items ≡ out.old.items ++ member_name field) }
{
    out.extend_from_slice(b",\"")?;
    out.extend_from_slice(field.name())?;
    out.extend_from_slice(b"\":")?;
    Ok(())
}

fn append_number(field: Field, number: &[u8], out: &mut Vec<u8>) -> Result<(), OutOfMemory>
    ensures { OnOk result (out.new.items
        ≡ out.old.items ++ (member_name field ++ number.now)) }
{
    append_name(field, out)?;
    out.extend_from_slice(number)?;
    Ok(())
}

fn append_text(field: Field, text: &[u8], out: &mut Vec<u8>) -> Result<(), OutOfMemory>
    ensures { OnOk result (out.new.items
        ≡ out.old.items ++ (member_name field ++ string_text text.now)) }
{
    append_name(field, out)?;
    append_quoted(MARK, text, out)
}

fn append_place(word: &[u8], out: &mut Vec<u8>) -> Result<(), OutOfMemory>
    ensures { OnOk result (out.new.items ≡ out.old.items ++ member_text Slot.Place word.now) }
{
    let (flow, number) = parts_at(word, b'.');
    append_number(Field::Flow, flow, out)?;
    append_number(Field::Number, number, out)
}

/// Appends versions as a list.
fn append_versions(word: &[u8], out: &mut Vec<u8>) -> Result<(), OutOfMemory>
    ensures { OnOk result (out.new.items ≡ out.old.items ++ member_text Slot.Versions word.now) }
{
    append_name(Field::Versions, out)?;
    out.push(b'[')?;
    out.extend_from_slice(word)?;
    out.push(b']')?;
    Ok(())
}
