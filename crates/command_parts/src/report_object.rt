//! A report as one JSON object.

ghost use Rattle.std.specs.Prelude.{◌≡◌, ◌++◌, ◌∷◌, [], List, ℕ, IfOk, OnOk};
ghost use Rattle.command_parts.specs.ReportObjects.{lines_of, list_text, string_text, report_object as object_by};

use std::alloc::{AllocError, Global};

/// Appends a line in quotation marks.
fn put_quoted(text: &mut Vec<u8>, line: &[u8]) -> Result<(), AllocError>
    ensures { OnOk result (text.new.items ≡ text.old.items ++ string_text line.now) }
{
    text.push(b'"')?;
    text.extend_from_slice(line)?;
    text.push(b'"')?;
    Ok(())
}

/// Appends a line to a list of lines in quotation marks.
fn put_line(list: &mut Vec<u8>, line: &[u8]) -> Result<(), AllocError>
    ensures { (lines : List (List ℕ)) → list.old.items ≡ list_text lines
        → OnOk result (list.new.items ≡ list_text (lines ++ line.now ∷ [])) }
{
    if list.as_slice().is_empty() {
        return put_quoted(list, line);
    }
    list.push(b',')?;
    put_quoted(list, line)
}

/// The lines of a report in quotation marks, with commas between them.
fn lines_list(alloc: Global, report: &[u8]) -> Result<Vec<u8>, AllocError>
    ensures { IfOk result (λ list. list.items ≡ list_text (lines_of report.now)) }
{
    let mut list = Vec::new(alloc);
    let end = report.len().saturating_sub(1);
    for line in report[..end].split(|byte| *byte == b'\n') {
        put_line(&mut list, line)?;
    }
    Ok(list)
}

/// One object with the one member `report`, the list of the report's lines, and LF. `AllocError`: out of memory.
pub fn report_object(alloc: Global, report: &[u8]) -> Result<Vec<u8>, AllocError>
    ensures { IfOk result (λ object. object.items ≡ object_by report.now) }
{
    let list = lines_list(alloc, report)?;
    let mut object = Vec::from_slice(alloc, b"{\"report\":[")?;
    object.extend_from_slice(&list)?;
    object.extend_from_slice(b"]}\n")?;
    Ok(object)
}
