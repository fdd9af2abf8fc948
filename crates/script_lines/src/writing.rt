//! The one written form of a command.

ghost use Rattle.std.specs.Prelude.{◌≡◌, ◌++◌, All, map, OnOk, OnErr};
ghost use Rattle.std.specs.List.{join_with_byte};
ghost use Rattle.script_lines.specs.Form.{with_translations, form_of};
ghost use Rattle.script_lines.specs.Fields.{is_given};
ghost use Rattle.script_lines.specs.Value.{key_by, value_text, word_of, IsValue};
ghost use Rattle.script_lines.specs.Command.{command_text, IsCommand};
ghost use Rattle.script_lines.specs.inside.Extends.{Extends};
ghost use Rattle.script_lines.specs.inside.Written.{behind_space, spaced_words};

use crate::command::Command;
use crate::form::Slot;
use crate::parameter::Parameter;
use crate::shown::Shown;
use crate::values::append_value;
use mls_label::OutOfMemory;

/// Appends the command's one written form, without a line end. After an error `out` is as it was.
pub fn write_step(command: &Command, out: &mut Vec<u8>) -> Result<(), OutOfMemory>
    ensures ok { OnOk result (out.new.items ≡ out.old.items ++ command_text command.now) }
    ensures command { OnOk result (IsCommand command.now) }
    ensures err { OnErr result (out.new.items ≡ out.old.items) }
{
    let before = out.len();
    let written = append_command(command, out);
    if written.is_err() {
        out.truncate(before);
    }
    written
}

/// Appends the command's text, or a part of it where memory runs out.
fn append_command(command: &Command, out: &mut Vec<u8>) -> Result<(), OutOfMemory>
    ensures ok { OnOk result (out.new.items ≡ out.old.items ++ command_text command.now) }
    ensures command { OnOk result (IsCommand command.now) }
    ensures err { OnErr result (Extends out.old.items out.new.items) }
{
    let form = command.row().form();
    append_fixed(form.fixed, out)?;
    append_parameters(form.slots, &Shown::of(command), out)
}

/// Appends fixed words with spaces between.
fn append_fixed(fixed: &[&str], out: &mut Vec<u8>) -> Result<(), OutOfMemory>
    ensures ok { OnOk result
        (out.new.items ≡ out.old.items ++ join_with_byte 32 (map (λ word. word.now) fixed.now)) }
    ensures err { OnErr result (Extends out.old.items out.new.items) }
{
    let [first, others @ ..] = fixed else {
        return Ok(());
    };
    out.extend_from_slice(first.as_bytes())?;
    let mut rest = others;
    while let [word, behind @ ..] = rest {
        out.push(b' ')?;
        out.extend_from_slice(word.as_bytes())?;
        rest = behind;
    }
    Ok(())
}

/// Appends the words of those parameters that are given, each behind a space.
fn append_parameters(
    slots: &[Slot],
    fields: &Shown<'_>,
    out: &mut Vec<u8>,
) -> Result<(), OutOfMemory>
    ensures ok { OnOk result (out.new.items ≡ out.old.items ++ spaced_words slots.now fields.now) }
    ensures values { OnOk result (All (λ slot. IsValue slot.parameter fields.now) slots.now) }
    ensures err { OnErr result (Extends out.old.items out.new.items) }
{
    let mut rest = slots;
    while let [slot, behind @ ..] = rest {
        append_parameter(slot.parameter, fields, out)?;
        rest = behind;
    }
    Ok(())
}

/// Appends the word of a parameter behind a space, if it is given.
fn append_parameter(
    parameter: Parameter,
    fields: &Shown<'_>,
    out: &mut Vec<u8>,
) -> Result<(), OutOfMemory>
    ensures ok { OnOk result
        (out.new.items ≡ out.old.items ++ behind_space (word_of parameter fields.now)) }
    ensures value { OnOk result (IsValue parameter fields.now) }
    ensures err { OnErr result (Extends out.old.items out.new.items) }
{
    if !fields.has(parameter) {
        return Ok(());
    }
    out.push(b' ')?;
    out.extend_from_slice(fields.key(parameter).as_bytes())?;
    append_value(parameter, fields, out)
}
