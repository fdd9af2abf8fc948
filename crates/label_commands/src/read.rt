//! Reading a script.

ghost use Rattle.std.specs.Prelude.{◌≡◌, IfOk, IfErr, Ok};
ghost use Rattle.std.specs.Str.Lines.{lines};
ghost use Rattle.script_lines.specs.Form.{with_translations};
ghost use Rattle.label_commands.specs.Above.{nothing_above};
ghost use Rattle.label_commands.specs.Script.{read_lines, IsScript, IsScriptStop};
ghost use Rattle.label_commands.specs.inside.Stops.{IsStopOfLines};

use crate::draft::Draft;
use crate::limit::SCRIPT_LIMIT;
use crate::script::Script;
use crate::stop::{ScriptStop, passed, stop_at};
use script_lines::{LimitName, next_line};
use std::alloc::Global;

/// Reads a text as a script, whose own name no flow may write to. The first fault or passed limit is answered: the limit of octets
/// before all lines, and on a line its octets first, then the other limits, then its words from left to right.
#[tactic(auto, unfolding(crate::specs::Script::read_text))]
pub fn read_script(alloc: Global, text: &[u8], own_name: &str) -> Result<Script, ScriptStop>
    ensures ok { IfOk result (IsScript with_translations own_name.now text.now) }
    ensures stop { IfErr result (IsScriptStop with_translations own_name.now text.now) }
{
    if text.len() > SCRIPT_LIMIT {
        return Err(passed(LimitName::Octets));
    }
    let draft = read_lines(alloc, text, own_name)?;
    let script = draft.finish()?;
    Ok(script)
}

fn read_lines(alloc: Global, text: &[u8], own: &str) -> Result<Draft, ScriptStop>
    ensures ok { IfOk result
        (λ draft. read_lines with_translations own.now nothing_above 1
        (lines text.now) ≡ Ok draft) }
    ensures stop { IfErr result
        (IsStopOfLines (read_lines with_translations own.now nothing_above 1 (lines text.now))) }
{
    let mut draft = Draft::empty(alloc);
    let mut words = Vec::new(alloc);
    let mut number = 1;
    let mut rest = text;
    while let Some((line, behind)) = next_line(rest) {
        if let Err(stop) = draft.read_line(own, number, line, &mut words) {
            return Err(stop_at(number, stop));
        }
        number += 1;
        rest = behind;
    }
    Ok(draft)
}
