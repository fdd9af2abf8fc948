//! What becomes of a line: what it is, how it is told, and what it counts for.

ghost use Rattle.std.specs.Prelude.{◌≡◌, ◌++◌, not, drop, None, OnOk, IfOk, if◌then◌else◌};
ghost use Rattle.std.specs.List.{position};
ghost use Rattle.call_report.specs.report_lines.Line.{line_form};
ghost use Rattle.netlabel_report.specs.report_telling.Taking.{Standing, is_printable, listed_stop, form_kind, line_kind, is_denial_form, form_text, listed_text, line_text, unfinished_text, counted, has_place, with_tally, with_denied, one_line, after_form, after_line, after_end, no_report_text};
ghost use Rattle.netlabel_report.specs.report_telling.Counts.{risen};

use crate::report_telling::commands::{Commands, number_told};
use crate::report_telling::counts::{DenialPlace, Progress, Tallies, risen};
use crate::report_telling::csv::{write_csv, write_listed_csv, write_unfinished_csv};
use crate::report_telling::json::{write_json, write_listed_json, write_unfinished_json};
use crate::report_telling::summary::{write_ended, write_refused};
use crate::report_telling::way::{Manner, Way};
use call_report::{Field, Form, read_line, told_word};
use domain_map::read_name;
use mls_label::{Label, OutOfMemory, write_decimal};

/// What a line is.
#[derive(Clone, Copy)]
pub enum LineKind {
    /// A line of a listing, behind two spaces.
    Listed,
    Of { form: Form },
}

/// What a line is, or the octet at fault. A report's last line has nothing behind it, as many listed lines come as were told, and where there is a
/// script each answer is that of one of its commands.
pub fn line_kind(
    commands: &Commands,
    progress: &Progress,
    line: &[u8],
    label: &mut Label,
) -> Result<LineKind, usize>
    ensures { result ≡ line_kind commands.now progress.now line.now }
{
    if progress.finished {
        return Err(0);
    }
    if progress.due == 0 {
        return form_kind(commands, line, label);
    }
    match listed_stop(line) {
        Some(octet) => Err(octet),
        None => Ok(LineKind::Listed),
    }
}

fn form_kind(commands: &Commands, line: &[u8], label: &mut Label) -> Result<LineKind, usize>
    ensures { result ≡ form_kind commands.now line.now (line_form line.now) }
{
    match read_line(line, label) {
        Ok(form) => match commands.stranger_at(form, line) {
            Some(octet) => Err(octet),
            None => Ok(LineKind::Of { form }),
        },
        Err(octet) => Err(octet),
    }
}

/// The first octet that a listed line can't have: two spaces stand in front of printable ASCII.
fn listed_stop(line: &[u8]) -> Option<usize>
    ensures { result ≡ listed_stop line.now }
{
    match line {
        [] => Some(0),
        [first] => { if *first == b' ' { Some(1) } else { Some(0) } }
        [first, second, ..] => {
            if *first != b' ' {
                return Some(0);
            }
            if *second != b' ' {
                return Some(1);
            }
            first_unprintable(line)
        }
    }
}

fn first_unprintable(line: &[u8]) -> Option<usize>
    ensures { result ≡ position (λ octet. not (is_printable octet)) line.now }
{
    line.iter().position(|octet| !is_printable(*octet))
}

fn is_printable(octet: u8) -> bool
    ensures { result ≡ is_printable octet }
{
    matches!(octet, b' '..=b'~')
}

/// Appends how a line is told.
pub fn tell_line(
    manner: &Manner,
    report: u64,
    kind: LineKind,
    line: &[u8],
    out: &mut Vec<u8>,
) -> Result<(), OutOfMemory>
    ensures { OnOk result (out.new.items
        ≡ out.old.items ++ line_text manner.now report kind line.now) }
{
    match kind {
        LineKind::Listed => tell_listed(manner.way, report, line, out),
        LineKind::Of { form } => {
            let at = manner.commands.answered_at(form, line);
            tell_form(manner.way, at, report, form, line, out)
        }
    }
}

fn tell_listed(way: Way, report: u64, line: &[u8], out: &mut Vec<u8>) -> Result<(), OutOfMemory>
    ensures { OnOk result (out.new.items ≡ out.old.items ++ listed_text way report line.now) }
{
    match way {
        Way::Summary | Way::Denied => Ok(()),
        Way::Json => write_listed_json(report, behind(line, 2), out),
        Way::Csv => write_listed_csv(report, behind(line, 2), out),
    }
}

/// What stands behind the first octets.
fn behind(text: &[u8], count: usize) -> &[u8]
    ensures { result.now ≡ drop count text.now }
{
    if count <= text.len() {
        &text[count..]
    } else {
        b""
    }
}

fn tell_form(
    way: Way,
    at: Option<u64>,
    report: u64,
    form: Form,
    line: &[u8],
    out: &mut Vec<u8>,
) -> Result<(), OutOfMemory>
    ensures { OnOk result (out.new.items
        ≡ out.old.items ++ form_text way at report form line.now) }
{
    match way {
        Way::Summary => add_up(at, report, form, line, out),
        Way::Denied => tell_denied(form, line, out),
        Way::Json => write_json(at, report, form, line, out),
        Way::Csv => write_csv(at, report, form, line, out),
    }
}

/// Appends what the table has of a line where it stands: a command that was refused, or what stopped a run.
fn add_up(
    at: Option<u64>,
    report: u64,
    form: Form,
    line: &[u8],
    out: &mut Vec<u8>,
) -> Result<(), OutOfMemory>
    ensures { OnOk result (out.new.items
        ≡ out.old.items ++ form_text Way.Summary at report form line.now) }
{
    match form {
        Form::Refused => write_refused(at, report, behind(line, 8), out),
        Form::Capture | Form::Limit | Form::Script => write_ended(report, line, out),
        _ => Ok(()),
    }
}

fn tell_denied(form: Form, line: &[u8], out: &mut Vec<u8>) -> Result<(), OutOfMemory>
    ensures { OnOk result (out.new.items
        ≡ out.old.items ++ form_text Way.Denied None 0 form line.now) }
{
    if is_denial_form(form) {
        out.extend_from_slice(line)?;
        out.push(b'\n')?;
    }
    Ok(())
}

fn is_denial_form(form: Form) -> bool
    ensures { result ≡ is_denial_form form }
{
    match form {
        Form::DeniedPlain
        | Form::DeniedOctet
        | Form::DeniedCategory
        | Form::DeniedCause
        | Form::DeniedFrame => true,
        _ => false,
    }
}

/// Counts a line.
pub fn count_line(
    kind: LineKind,
    line: &[u8],
    progress: &mut Progress,
    tallies: &mut Tallies,
) -> Result<(), OutOfMemory>
    ensures { OnOk result (record { progress = progress.new; tallies = tallies.new }
        ≡ after_line kind line.now
        (record { progress = progress.old; tallies = tallies.old })) }
{
    progress.line = risen(progress.line);
    match kind {
        LineKind::Listed => {
            progress.due = progress.due.saturating_sub(1);
            Ok(())
        }
        LineKind::Of { form } => {
            count_form(form, line, progress);
            if is_denial_form(form) {
                return count_denied(form, line, progress, tallies);
            }
            Ok(())
        }
    }
}

fn count_form(form: Form, line: &[u8], progress: &mut Progress)
    ensures { progress.new ≡ counted form line.now progress.old }
{
    match form {
        Form::Delivered => progress.delivered = risen(progress.delivered),
        Form::Sent => progress.sent = risen(progress.sent),
        Form::DeniedPlain
        | Form::DeniedOctet
        | Form::DeniedCategory
        | Form::DeniedCause
        | Form::DeniedFrame => progress.denied = risen(progress.denied),
        Form::Done => progress.commands = risen(progress.commands),
        Form::Refused => {
            progress.commands = risen(progress.commands);
            progress.refused = risen(progress.refused);
        }
        Form::Listed => {
            progress.commands = risen(progress.commands);
            progress.due = number_told(Field::Lines, form, line);
        }
        Form::Flow | Form::End => {}
        Form::Capture | Form::Limit | Form::Script => {
            progress.stopped = risen(progress.stopped);
            progress.finished = true;
        }
        Form::Finished | Form::Ok => progress.finished = true,
    }
}

fn count_denied(
    form: Form,
    line: &[u8],
    progress: &mut Progress,
    tallies: &mut Tallies,
) -> Result<(), OutOfMemory>
    ensures { OnOk result (record { progress = progress.new; tallies = tallies.new }
        ≡ with_denied form line.now
        (record { progress = progress.old; tallies = tallies.old })) }
{
    if !tally_denied(form, line, tallies)? {
        progress.elsewhere = risen(progress.elsewhere);
    }
    Ok(())
}

/// Counts a packet that was denied in its tally, and tells whether it was counted.
fn tally_denied(form: Form, line: &[u8], tallies: &mut Tallies) -> Result<bool, OutOfMemory>
    ensures counted { IfOk result (λ counted. counted ≡ has_place form line.now tallies.old) }
    ensures tallies { IfOk result (λ counted. tallies.new
        ≡ (if counted then with_tally form line.now tallies.old else tallies.old)) }
{
    let Some(name) = read_name(told_word(Field::Name, form.slots(), line)) else {
        return Ok(false);
    };
    let Some(node) = read_name(told_word(Field::Node, form.slots(), line)) else {
        return Ok(false);
    };
    let place = DenialPlace {
        reason: number_told(Field::Denial, form, line),
        hop: number_told(Field::Hop, form, line),
        node,
    };
    tallies.count(place, name)
}

/// Appends that a report isn't finished, where it isn't.
pub fn tell_end(way: Way, report: u64, finished: bool, out: &mut Vec<u8>) -> Result<(), OutOfMemory>
    ensures { OnOk result (out.new.items ≡ out.old.items ++ unfinished_text way report finished) }
{
    if finished {
        return Ok(());
    }
    match way {
        Way::Summary => write_ended(report, b"unfinished", out),
        Way::Denied => {
            out.extend_from_slice(b"unfinished ")?;
            write_decimal(report, out)?;
            out.push(b'\n')?;
            Ok(())
        }
        Way::Json => write_unfinished_json(report, out),
        Way::Csv => write_unfinished_csv(report, out),
    }
}

/// Counts a report that was read to its end.
pub fn count_end(progress: &mut Progress)
    ensures { progress.new ≡ after_end progress.old }
{
    progress.reports = risen(progress.reports);
    if !progress.finished {
        progress.unfinished = risen(progress.unfinished);
    }
    progress.line = 0;
    progress.due = 0;
    progress.finished = false;
}

/// Appends where a text is no report.
#[tactic(auto, unfolding(crate::specs::report_telling::Taking::no_report_text))]
pub fn write_fault(progress: &Progress, octet: usize, out: &mut Vec<u8>) -> Result<(), OutOfMemory>
    ensures { OnOk result (out.new.items ≡ out.old.items ++ no_report_text progress.now octet) }
{
    out.extend_from_slice(b"report ")?;
    write_decimal(risen(progress.reports), out)?;
    out.extend_from_slice(b" line ")?;
    write_decimal(risen(progress.line), out)?;
    out.extend_from_slice(b" octet ")?;
    write_decimal(octet as u64, out)?;
    out.push(b'\n')?;
    Ok(())
}
