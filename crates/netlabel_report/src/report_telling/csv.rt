//! A line as a record of CSV.

ghost use Rattle.std.specs.Prelude.{◌≡◌, ◌++◌, OnOk};
ghost use Rattle.netlabel_report.specs.report_telling.Quoted.{quoted};
ghost use Rattle.netlabel_report.specs.report_telling.Csv.{columns, heading, cell_text, cell_in, cells_text, row_begin, csv_text, listed_csv, unfinished_csv};

use crate::report_telling::quoted::append_quoted;
use call_report::{Field, Form, is_field, told_word, whole_number};
use mls_label::{OutOfMemory, write_decimal};

/// What stands in front of a quote in a text (RFC 4180, section 2).
const MARK: u8 = b'"';

/// The columns between the name of the line and the text of a listed one.
const COLUMNS: [Field; 29] = [
    Field::Step,
    Field::Node,
    Field::Answer,
    Field::Lines,
    Field::Flow,
    Field::Input,
    Field::Number,
    Field::Became,
    Field::Label,
    Field::Receiver,
    Field::Carrier,
    Field::Denial,
    Field::Name,
    Field::Octet,
    Field::Category,
    Field::Cause,
    Field::Hop,
    Field::Versions,
    Field::Packets,
    Field::Passed,
    Field::Denied,
    Field::Capture,
    Field::Kind,
    Field::Line,
    Field::Limit,
    Field::Most,
    Field::Nodes,
    Field::Commands,
    Field::Flows,
];

#[tactic(auto, unfolding(crate::specs::report_telling::Csv::columns))]
fn columns() -> &'static [Field]
    ensures { result.now ≡ columns }
{
    &COLUMNS
}

/// The names of the columns.
#[tactic(auto, unfolding(crate::specs::report_telling::Csv::heading))]
pub fn heading() -> &'static [u8]
    ensures { result.now ≡ heading }
{
    b"report,line,step,node,answer,lines,flow,input,number,became,label,receiver,carrier,denial,name,octet,category,cause,hop,versions,packets,passed,denied,capture,kind,at,limit,most,nodes,commands,flows,text\n"
}

/// Appends a line of this form, of the report of this number, as a record, with the line in the script at which its command stands.
#[tactic(auto, unfolding(crate::specs::report_telling::Csv::csv_text))]
pub fn write_csv(
    at: Option<u64>,
    report: u64,
    form: Form,
    line: &[u8],
    out: &mut Vec<u8>,
) -> Result<(), OutOfMemory>
    ensures { OnOk result (out.new.items ≡ out.old.items ++ csv_text at report form line.now) }
{
    begin_record(report, form.name(), out)?;
    append_cells(at, form, line, out)?;
    out.extend_from_slice(b",\n")?;
    Ok(())
}

/// Appends a listed line as a record.
#[tactic(auto, unfolding(crate::specs::report_telling::Csv::listed_csv))]
pub fn write_listed_csv(report: u64, line: &[u8], out: &mut Vec<u8>) -> Result<(), OutOfMemory>
    ensures { OnOk result (out.new.items ≡ out.old.items ++ listed_csv report line.now) }
{
    begin_record(report, b"listed", out)?;
    out.extend_from_slice(b",,,,,,,,,,,,,,,,,,,,,,,,,,,,,,")?;
    append_quoted(MARK, line, out)?;
    out.push(b'\n')?;
    Ok(())
}

/// Appends that a report isn't finished.
#[tactic(auto, unfolding(crate::specs::report_telling::Csv::unfinished_csv))]
pub fn write_unfinished_csv(report: u64, out: &mut Vec<u8>) -> Result<(), OutOfMemory>
    ensures { OnOk result (out.new.items ≡ out.old.items ++ unfinished_csv report) }
{
    begin_record(report, b"unfinished", out)?;
    out.extend_from_slice(b",,,,,,,,,,,,,,,,,,,,,,,,,,,,,,")?;
    out.push(b'\n')?;
    Ok(())
}

fn begin_record(report: u64, name: &[u8], out: &mut Vec<u8>) -> Result<(), OutOfMemory>
    ensures { OnOk result (out.new.items ≡ out.old.items ++ row_begin report name.now) }
{
    write_decimal(report, out)?;
    out.push(b',')?;
    out.extend_from_slice(name)?;
    Ok(())
}

fn append_cells(
    at: Option<u64>,
    form: Form,
    line: &[u8],
    out: &mut Vec<u8>,
) -> Result<(), OutOfMemory>
    ensures { OnOk result (out.new.items ≡ out.old.items ++ cells_text columns at form line.now) }
{
    let mut fields = columns();
    while let [field, others @ ..] = fields {
        out.push(b',')?;
        append_cell_in(at, *field, form, line, out)?;
        fields = others;
    }
    Ok(())
}

/// Appends the cell of a column.
fn append_cell_in(
    at: Option<u64>,
    field: Field,
    form: Form,
    line: &[u8],
    out: &mut Vec<u8>,
) -> Result<(), OutOfMemory>
    ensures { OnOk result (out.new.items ≡ out.old.items ++ cell_in at field form line.now) }
{
    match at {
        Some(number) => {
            if is_field(Field::Line, field) {
                write_decimal(number, out)?;
                return Ok(());
            }
            append_cell(told_word(field, form.slots(), line), out)
        }
        None => append_cell(told_word(field, form.slots(), line), out),
    }
}

/// Appends nothing for nothing, a number as it is, and each other text in quotes.
fn append_cell(text: &[u8], out: &mut Vec<u8>) -> Result<(), OutOfMemory>
    ensures { OnOk result (out.new.items ≡ out.old.items ++ cell_text text.now) }
{
    if text.is_empty() {
        return Ok(());
    }
    if whole_number(text).is_some() {
        out.extend_from_slice(text)?;
        return Ok(());
    }
    append_quoted(MARK, text, out)
}
