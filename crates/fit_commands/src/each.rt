// Subcommands over several files. They go on after one that is refused.

ghost use Rattle.std.specs.Prelude.{◌≡◌, ◌<◌, ◌≤◌, ◌++◌, ℕ, List, String, length, map, string_bytes, IfErr, IfOk, IfSome, OnOk, true, false};
ghost use Rattle.fit_grammar.specs.Calls.Output.{WritesText};
ghost use Rattle.fit_commands.specs.Each.{AddsTable, AreNamesOf, ChecksAll, ChecksEach, IsFoundLine, IsStopped, TablesAll, TablesEach, left_out_by, name_cell, named_line, refused_by};
ghost use Rattle.fit_files.specs.Exports.Checked.{checked_json};
ghost use Rattle.fit_table.specs.Cells.{byte_cell};
ghost use Rattle.fit_commands.specs.declared.fault.Fault.TheVariants.{Refused};
ghost use Rattle.fit_commands.specs.Reading.{IsFileFault};
ghost use Rattle.fit_commands.specs.Reported.{SumsUpNamed};

use crate::fault::{Fault, none_refused};
use crate::input::{MOST_BYTES, fault_of_report, open_file, read_input, reported};
use fit_activity::Summary;
use fit_files::{ReportFault, SummaryLine, print_checked, sum_up_input, table_head, table_input};
use fit_grammar::Sink;
use fit_places::NamedFiles;
use fit_table::Layout;
use fit_words::{Names, ShownWord, text_of_word};
use std::alloc::{AllocError, Global};
use std::fmt::Display;
use std::io::Write;

/// Checks each file, and prints a line for it, or with `json` an object: its name, and its summary or why it is none. If some are none,
/// the fault is `Refused` with their number.
pub fn check_each<F: NamedFiles + AllocGlobal, O: Write>(
    files: &F,
    names: &Names<'_>,
    json: bool,
    out: &mut O,
) -> Result<(), Fault<'static>>
    ensures lines { ChecksEach json (F.held files.now) (map (λ word. word.now) names.now.all.items)
        (O.contents out.old) (O.contents out.new) result }
{
    let all = all_names(files, names)?;
    none_refused(check_all(files, all.as_slice(), json, out)?)
}

// Checks the files of these names, and prints a line for each. Returns how many are refused.
fn check_all<F: NamedFiles + AllocGlobal, O: Write>(
    files: &F,
    names: &[String],
    json: bool,
    out: &mut O,
) -> Result<usize, Fault<'static>>
    ensures lines { ChecksAll json (F.held files.now) (map string_bytes names.now) (O.contents out.old)
        (O.contents out.new) result }
    ensures fault { IfErr result IsStopped }
{
    let mut refused: usize = 0;
    let mut rest = names;
    while let [first, more @ ..] = rest {
        let name = first.as_str();
        let found = sum_up_file(files, name);
        print_found(files.alloc(), json, name, &found, out)?;
        refused += refused_in(&found);
        rest = more;
    }
    Ok(refused)
}

// 1 if a file was refused.
fn refused_in(found: &Result<Summary, Fault<'_>>) -> usize
    ensures { result ≡ refused_by found.now }
{
    match found {
        Ok(_) => 0,
        Err(_) => 1,
    }
}

/// Prints one table of all files, the first column of which has their names. A line on `err` says why one is left out. If some are,
/// the fault is `Refused` with their number.
pub fn table_each<F: NamedFiles + AllocGlobal, O: Write, E: Write>(
    files: &F,
    names: &Names<'_>,
    layout: &Layout<'_>,
    out: &mut O,
    err: &mut E,
) -> Result<(), Fault<'static>>
    requires { length layout.now.fields.now ≤ 128 }
    ensures lines { TablesEach layout.now (F.held files.now) (map (λ word. word.now) names.now.all.items)
        (O.contents out.old) (O.contents out.new) result }
{
    let all = all_names(files, names)?;
    let Ok(()) = table_head(layout, b"file,", out) else {
        return Err(Fault::Write("-"));
    };
    none_refused(table_all(files, all.as_slice(), layout, out, err)?)
}

// 1 if a file was left out.
fn left_out_in(added: bool) -> usize
    ensures { result ≡ left_out_by added }
{
    if added { 0 } else { 1 }
}

// Adds the lines of the files of these names to a table. Returns how many are left out.
fn table_all<F: NamedFiles + AllocGlobal, O: Write, E: Write>(
    files: &F,
    names: &[String],
    layout: &Layout<'_>,
    out: &mut O,
    err: &mut E,
) -> Result<usize, Fault<'static>>
    requires { length layout.now.fields.now ≤ 128 }
    ensures lines { TablesAll layout.now (F.held files.now) (map string_bytes names.now) (O.contents out.old)
        (O.contents out.new) result }
    ensures fault { IfErr result IsStopped }
{
    let mut left_out: usize = 0;
    let mut rest = names;
    while let [first, more @ ..] = rest {
        let name = first.as_str();
        let added = add_table(files, name, layout, out, err)?;
        left_out += left_out_in(added);
        rest = more;
    }
    Ok(left_out)
}

// The summary of the file of this name.
fn sum_up_file<'a, F: NamedFiles + AllocGlobal>(
    files: &F,
    name: &'a str,
) -> Result<Summary, Fault<'a>>
    ensures { SumsUpNamed (F.held files.now name.now) name.entry result }
{
    let mut file = open_regular(files, name)?;
    reported(name, sum_up_input(files.alloc(), &mut file, MOST_BYTES))
}

// Opens the file of this name, if it is a regular file: anything else, such as a named pipe, might be waited for without end.
fn open_regular<'a, F: NamedFiles>(files: &F, name: &'a str) -> Result<F::File, Fault<'a>>
    ensures held { IfOk result (λ file. F.File.remaining file ≡ F.held files.now name.now) }
    ensures fault { IfErr result (IsFileFault name.entry) }
{
    if files.is_special(name) {
        return Err(Fault::Read(name));
    }
    open_file(files, name)
}

// Prints what was found of the file of this name.
fn print_found<O: Write>(
    alloc: Global,
    json: bool,
    name: &str,
    found: &Result<Summary, Fault<'_>>,
    out: &mut O,
) -> Result<(), Fault<'static>>
    ensures line { (line : List ℕ) × IsFoundLine json name.now found.now line
        × WritesText (O.contents out.old) (O.contents out.new) result line }
    ensures fault { IfErr result IsStopped }
{
    match found {
        Ok(summary) if json => print_object(name, Ok(*summary), out),
        Ok(summary) => print_named(alloc, "", name, &SummaryLine(*summary), out),
        Err(fault) => {
            let text = format!(in alloc; "{fault}")?;
            if json {
                print_object(name, Err(text.as_str()), out)
            } else {
                print_named(alloc, "", name, &text.as_str(), out)
            }
        }
    }
}

fn print_object<O: Write>(
    name: &str,
    found: Result<Summary, &str>,
    out: &mut O,
) -> Result<(), Fault<'static>>
    ensures line { WritesText (O.contents out.old) (O.contents out.new) result
        (checked_json name.now found.entry) }
    ensures fault { IfErr result IsStopped }
{
    print_checked(name, found, out).map_err(|_| Fault::Write("-"))
}

// Adds the lines of one file to the table. Returns whether it was read.
fn add_table<F: NamedFiles + AllocGlobal, O: Write, E: Write>(
    files: &F,
    name: &str,
    layout: &Layout<'_>,
    out: &mut O,
    err: &mut E,
) -> Result<bool, Fault<'static>>
    requires { length layout.now.fields.now ≤ 128 }
    ensures lines { AddsTable layout.now (F.held files.now name.now) name.now
        (O.contents out.old) (O.contents out.new) result }
    ensures fault { IfErr result IsStopped }
{
    let front = first_cell(files.alloc(), name)?;
    let mut file = match open_regular(files, name) {
        Ok(file) => file,
        Err(fault) => {
            let _ = print_named(files.alloc(), "fitrec: ", name, &fault, err);
            return Ok(false);
        }
    };
    let front = Some(front.as_slice());
    match table_input(files.alloc(), &mut file, MOST_BYTES, layout, front, out) {
        Ok(()) => Ok(true),
        Err(ReportFault::Output) => Err(Fault::Write("-")),
        Err(fault) => {
            let fault = fault_of_report(name, fault);
            let _ = print_named(files.alloc(), "fitrec: ", name, &fault, err);
            Ok(false)
        }
    }
}

// A name as the first cell of a line, with its comma.
fn first_cell(alloc: Global, name: &str) -> Result<Vec<u8>, AllocError>
    ensures { IfOk result (λ cell. cell.items ≡ name_cell name.now) }
{
    let mut cell = Vec::new(alloc);
    cell.push(b'"')?;
    for byte in name.bytes() {
        push_doubled(&mut cell, byte)?;
    }
    cell.extend_from_slice(b"\",")?;
    Ok(cell)
}

// Adds a byte to a cell between quotation marks.
fn push_doubled(cell: &mut Vec<u8>, byte: u8) -> Result<(), AllocError>
    ensures { OnOk result (cell.new.items ≡ cell.old.items ++ byte_cell true byte) }
{
    if byte == b'"' {
        cell.push(byte)?;
    }
    cell.push(byte)?;
    Ok(())
}

// Prints a line on the file of this name.
fn print_named<L: Display, O: Write>(
    alloc: Global,
    front: &str,
    name: &str,
    line: &L,
    out: &mut O,
) -> Result<(), Fault<'static>>
    ensures line { IfSome (L.output line.now) (λ text.
        WritesText (O.contents out.old) (O.contents out.new) result
        (named_line front.now name.now text)) }
    ensures fault { IfErr result IsStopped }
{
    let text = format!(in alloc; "{front}{}: {line}\n", ShownWord(name))?;
    let done = out.put(text.as_str().as_bytes());
    done.map_err(|_| Fault::Write("-"))
}

// All names, with those that standard input lists in the place of the first `-`.
fn all_names<F: NamedFiles + AllocGlobal>(
    files: &F,
    names: &Names<'_>,
) -> Result<Vec<String>, Fault<'static>>
    ensures names { IfOk result (λ all. AreNamesOf (map (λ word. word.now) names.now.all.items)
        (map string_bytes all.items)) }
    ensures fault { IfErr result IsStopped }
{
    let mut listed = Vec::new(files.alloc());
    if names.all.as_slice().contains(&"-") {
        let mut from = files.standard_input();
        listed = read_input(files.alloc(), "-", &mut from)?;
    }
    Ok(names_with(files.alloc(), names, listed.as_slice())?)
}

fn names_with(
    alloc: Global,
    names: &Names<'_>,
    mut listed: &[u8],
) -> Result<Vec<String>, AllocError>
    ensures { IfOk result (λ all. AreNamesOf (map (λ word. word.now) names.now.all.items)
        (map string_bytes all.items)) }
{
    let end = if names.null { 0 } else { b'\n' };
    let mut all = Vec::new(alloc);
    let mut rest = names.all.as_slice();
    while let [word, more @ ..] = rest {
        if *word == "-" {
            push_listed(alloc, &mut all, listed, end)?;
            listed = &[];
        } else {
            all.push(String::from_str(alloc, *word)?)?;
        }
        rest = more;
    }
    Ok(all)
}

// Adds the names that are listed, each with this end.
fn push_listed(
    alloc: Global,
    all: &mut Vec<String>,
    listed: &[u8],
    end: u8,
) -> Result<(), AllocError>
    ensures { OnOk result ((own : List (List ℕ))
        × (map string_bytes all.new.items ≡ map string_bytes all.old.items ++ own)) }
{
    for line in listed.split(|byte| *byte == end) {
        if !line.is_empty() {
            all.push(text_of_word(alloc, line)?)?;
        }
    }
    Ok(())
}
