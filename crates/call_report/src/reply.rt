//! Replies as they are printed.

ghost use Rattle.std.specs.Prelude.{◌≡◌, ◌++◌, OnOk, OnErr};
ghost use Rattle.node_tables.specs.declared.reply.Reply.TheVariants.{Listed};
ghost use Rattle.call_report.specs.Lines.Parts.{line_of};
ghost use Rattle.call_report.specs.Lines.Reply.{listed_lines, answer_text, reply_text};
ghost use Rattle.call_report.specs.inside.Extends.{Extends};

use crate::whole::all_or_nothing;
use domain_map::Name;
use mls_label::{OutOfMemory, write_decimal};
use node_tables::{ListText, Reply};

/// Appends the reply to the step of this number, counted from 1, at the node of this name: a line, and the lines of a listing.
/// After an error `out` is as it was.
pub fn write_reply(
    number: u64,
    node: &Name,
    reply: &Reply,
    out: &mut Vec<u8>,
) -> Result<(), OutOfMemory>
    ensures ok { OnOk result
        (out.new.items ≡ out.old.items ++ reply_text number node.now reply.now) }
    ensures err { OnErr result (out.new.items ≡ out.old.items) }
{
    let before = out.len();
    let written = append_reply(number, node, reply, out);
    all_or_nothing(written, before, out)
}

/// Appends a reply, or a part of it where memory runs out.
#[tactic(auto, unfolding(crate::specs::Lines::Reply::reply_text))]
fn append_reply(
    number: u64,
    node: &Name,
    reply: &Reply,
    out: &mut Vec<u8>,
) -> Result<(), OutOfMemory>
    ensures ok { OnOk result
        (out.new.items ≡ out.old.items ++ reply_text number node.now reply.now) }
    ensures err { OnErr result (Extends out.old.items out.new.items) }
{
    out.extend_from_slice(b"command ")?;
    write_decimal(number, out)?;
    out.extend_from_slice(b" ")?;
    out.extend_from_slice(node.text())?;
    out.extend_from_slice(b" ")?;
    append_answer(reply, out)?;
    Ok(())
}

/// Appends a reply behind the number and the node of its step.
fn append_answer(reply: &Reply, out: &mut Vec<u8>) -> Result<(), OutOfMemory>
    ensures ok { OnOk result (out.new.items ≡ out.old.items ++ answer_text reply.now) }
    ensures err { OnErr result (Extends out.old.items out.new.items) }
{
    match reply {
        Reply::Done => append_line(b"", b"done", out),
        Reply::Listed(lines) => append_listing(lines, out),
        Reply::Refused(why) => append_line(b"", why.name().as_bytes(), out),
    }
}

/// Appends a text behind some octets, and the end of its line.
fn append_line(front: &[u8], text: &[u8], out: &mut Vec<u8>) -> Result<(), OutOfMemory>
    ensures ok { OnOk result (out.new.items ≡ out.old.items ++ line_of (front.now ++ text.now)) }
    ensures err { OnErr result (Extends out.old.items out.new.items) }
{
    out.extend_from_slice(front)?;
    out.extend_from_slice(text)?;
    out.push(b'\n')?;
    Ok(())
}

/// Appends how many lines a listing has, and then these.
fn append_listing(lines: &ListText, out: &mut Vec<u8>) -> Result<(), OutOfMemory>
    ensures ok { OnOk result (out.new.items ≡ out.old.items ++ answer_text (Listed lines.now)) }
    ensures err { OnErr result (Extends out.old.items out.new.items) }
{
    out.extend_from_slice(b"listed ")?;
    write_decimal(lines.count() as u64, out)?;
    out.push(b'\n')?;
    append_lines(lines, out)
}

fn append_lines(lines: &ListText, out: &mut Vec<u8>) -> Result<(), OutOfMemory>
    ensures ok { OnOk result (out.new.items ≡ out.old.items ++ listed_lines lines.now) }
    ensures err { OnErr result (Extends out.old.items out.new.items) }
{
    let mut written = 0;
    while written < lines.count() {
        append_line(b"  ", lines.line(written), out)?;
        written += 1;
    }
    Ok(())
}
