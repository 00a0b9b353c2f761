// What is said of one of several files, as JSON.

ghost use Rattle.std.specs.Prelude.{◌≡◌, ◌++◌, OnOk, [], codes};
ghost use Rattle.fit_grammar.specs.Calls.Output.{WritesText};
ghost use Rattle.fit_text.specs.Json.{string_json};
ghost use Rattle.fit_text.specs.Pen.{Puts};
ghost use Rattle.fit_files.specs.Exports.Checked.{checked_json, found_json, member_json, number_json, summary_json};

use fit_activity::Summary;
use fit_base::{Arch, BaseType, FieldValue};
use fit_grammar::WriteFailed;
use fit_text::{Pen, put_json_string};
use std::io::Write;

/// Prints an object with the name of a file, and its summary or why it has none, on a line. A text ends before its first zero byte.
// Not inlined: its pen would take stack in every caller.
#[inline(never)]
pub fn print_checked<O: Write>(
    name: &str,
    checked: Result<Summary, &str>,
    out: &mut O,
) -> Result<(), WriteFailed>
    ensures { WritesText (O.contents out.old) (O.contents out.new) result
        (checked_json name.now checked.entry) }
{
    let mut pen = Pen::new(out);
    let done = put_checked(&mut pen, name, checked);
    let _ = pen.into_writer();
    done
}

fn put_checked<O: Write>(
    pen: &mut Pen<'_, O>,
    name: &str,
    checked: Result<Summary, &str>,
) -> Result<(), WriteFailed>
    ensures puts { Puts pen.old pen.new result (checked_json name.now checked.entry) }
    ensures none { OnOk result (pen.new.waiting ≡ []) }
{
    pen.put(b"{\"file\":")?;
    put_text(pen, name)?;
    put_found(pen, checked)?;
    pen.put(b"}\n")?;
    pen.flush()
}

fn put_found<O: Write>(
    pen: &mut Pen<'_, O>,
    checked: Result<Summary, &str>,
) -> Result<(), WriteFailed>
    ensures { Puts pen.old pen.new result (found_json checked.entry) }
{
    match checked {
        Ok(summary) => put_summary(pen, summary),
        Err(fault) => put_fault(pen, fault),
    }
}

fn put_fault<O: Write>(pen: &mut Pen<'_, O>, fault: &str) -> Result<(), WriteFailed>
    ensures { Puts pen.old pen.new result (codes ",\"fault\":" ++ string_json fault.now) }
{
    pen.put(b",\"fault\":")?;
    put_text(pen, fault)
}

fn put_text<O: Write>(pen: &mut Pen<'_, O>, text: &str) -> Result<(), WriteFailed>
    ensures { Puts pen.old pen.new result (string_json text.now) }
{
    let field = FieldValue::new(BaseType::String.code(), Arch::Little, text.as_bytes());
    put_json_string(pen, &field)
}

// The values of the line of a summary.
fn put_summary<O: Write>(pen: &mut Pen<'_, O>, summary: Summary) -> Result<(), WriteFailed>
    ensures { Puts pen.old pen.new result (summary_json summary) }
{
    put_member(pen, b"records", Some(summary.records))?;
    put_member(pen, b"laps", Some(summary.laps))?;
    put_member(pen, b"sessions", Some(summary.sessions))?;
    put_member(pen, b"start", summary.start)?;
    put_member(pen, b"elapsed_ms", summary.elapsed_ms)?;
    put_member(pen, b"timer_ms", summary.timer_ms)?;
    put_member(pen, b"distance_cm", summary.distance_cm)
}

fn put_member<O: Write>(
    pen: &mut Pen<'_, O>,
    name: &[u8],
    number: Option<u32>,
) -> Result<(), WriteFailed>
    ensures { Puts pen.old pen.new result (member_json name.now number) }
{
    pen.put(b",\"")?;
    pen.put(name)?;
    pen.put(b"\":")?;
    put_number(pen, number)
}

fn put_number<O: Write>(pen: &mut Pen<'_, O>, number: Option<u32>) -> Result<(), WriteFailed>
    ensures { Puts pen.old pen.new result (number_json number) }
{
    match number {
        Some(number) => pen.put_number(u64::from(number)),
        None => pen.put(b"null"),
    }
}
