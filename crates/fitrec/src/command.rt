// The program as one call: words in, text out, and the exit status.
//
// `fit_words` reads the words, and `fit_commands` does what they request with files and folders. All share `status`, which prints a fault.

ghost use Rattle.std.specs.Prelude.{◌≤◌};

use clap::error::ErrorKind;
use fit_commands::{
    Chosen, Fault, NotChosen, NotShift, check_each, check_file, export_file, join_parts,
    make_plain, make_shifted, print_version, record_folder, repair_folder, replay_script,
    salvage_file, save_folder, shift_by, show_file, simulate_script, split_file, table_each,
    table_file, table_of_all, verify_folder,
};
use fit_files::ExportForm;
use fit_places::SystemFiles;
use fit_scripts::read_choices;
use fit_words::{
    Names, Request, ShiftForm, TableForm, no_choices, no_name, no_seconds, no_shift, no_start,
    read_words, too_many_fields,
};
use std::alloc::Global;
use std::convert::AsStr;
use std::io::Write;

/// Runs the command of the words after the program's name. Its text goes to `out`. A fault is one line on `err`, and a text on wrong
/// words, or help, goes there too. Returns the exit status: 0, 1 after a fault, or 2 if the words are no command or request help.
pub fn command<S: AsStr, O: Write, E: Write>(
    rt: &HostRuntime,
    words: &[S],
    out: &mut O,
    err: &mut E,
) -> u8
    ensures { result ≤ 2 }
{
    let files = &mut SystemFiles(rt);
    let request = match read_words(rt.alloc(), words) {
        Ok(request) => request,
        Err(refusal) => return refused(refusal, err),
    };
    match request {
        Request::Show {
            file,
            utc,
            json,
            profile,
            gpx,
        } => match (gpx, json) {
            (true, _) => status(export_file(files, file, ExportForm::Gpx, out), err),
            (false, true) => status(
                export_file(files, file, ExportForm::Json { profile, utc }, out),
                err,
            ),
            (false, false) => status(show_file(files, file, utc, out), err),
        },
        Request::Check { file } => status(check_file(files, file, out), err),
        Request::CheckEach { names, json } => status(check_each(files, &names, json, out), err),
        Request::Table { file, form } => table_chosen(files, file, &form, out, err),
        Request::TableEach { names, form } => { table_each_chosen(files, &names, &form, out, err) }
        Request::Replay {
            script,
            folder,
            checked,
        } => status(replay_script(rt, files, script, folder, checked, out), err),
        Request::Record { folder, every } => record_chosen(rt, folder, every, out, err),
        Request::Save {
            folder,
            to,
            earlier,
        } => {
            let done = save_folder(files, folder, to, earlier, out, err);
            status(done, err)
        }
        Request::Repair { folder, verify } => {
            if verify {
                status(verify_folder(rt, folder, out).map(|_| ()), err)
            } else {
                status(repair_folder(rt, folder, out), err)
            }
        }
        Request::Salvage { file, to, form } => {
            let done = salvage_file(files, file, to, &form, out, err);
            status(done, err)
        }
        Request::Split { file, folder, all } => status(
            split_file(files, file, folder, all, out),
            err,
        ),
        Request::Plain { file, to } => status(make_plain(files, file, to, out), err),
        Request::Join {
            to,
            first,
            others,
            as_given,
        } => status(
            join_parts(files, first, others.as_slice(), as_given, to, out),
            err,
        ),
        Request::Shift { file, to, form } => shift_chosen(files, file, to, &form, out, err),
        Request::Simulate {
            script,
            choices,
            checked,
        } => simulate_chosen(files, script, choices, checked, out, err),
        Request::Version => status(print_version(out), err),
    }
}

// How many seconds of the ride are between two commits of a recording, if no word gives another number.
const SECONDS_BETWEEN_COMMITS: u32 = 10;

// Records the lines of standard input. The folder is opened only if the word for the seconds between commits is a number. By 0 there is a
// commit at the end alone.
fn record_chosen<O: Write, E: Write>(
    rt: &HostRuntime,
    folder: &str,
    every: Option<&str>,
    out: &mut O,
    err: &mut E,
) -> u8
    ensures { result ≤ 2 }
{
    let seconds = match every {
        None => Some(SECONDS_BETWEEN_COMMITS),
        Some(word) => match word.parse::<u32>() {
            Ok(0) => None,
            Ok(seconds) => Some(seconds),
            Err(_) => return refused_by(no_seconds(rt.alloc(), word), err),
        },
    };
    status(record_folder(rt, folder, seconds, out), err)
}

// Prints the table of a file. It is read only if the words name messages and fields.
fn table_chosen<O: Write, E: Write>(
    files: &SystemFiles<'_>,
    file: &str,
    form: &TableForm<'_>,
    out: &mut O,
    err: &mut E,
) -> u8
    ensures { result ≤ 2 }
{
    match Chosen::of(form) {
        Ok(chosen) if form.profile && form.fields.is_none() => {
            let done = table_of_all(files, file, &chosen.layout(form), out, err);
            status(done, err)
        }
        Ok(chosen) => status(table_file(files, file, &chosen.layout(form), out), err),
        Err(why) => not_chosen(files.alloc(), why, err),
    }
}

// Prints one table of several files. They are read only if the words name messages and fields.
fn table_each_chosen<O: Write, E: Write>(
    files: &SystemFiles<'_>,
    names: &Names<'_>,
    form: &TableForm<'_>,
    out: &mut O,
    err: &mut E,
) -> u8
    ensures { result ≤ 2 }
{
    match Chosen::of(form) {
        Ok(chosen) => {
            let done = table_each(files, names, &chosen.layout(form), out, err);
            status(done, err)
        }
        Err(why) => not_chosen(files.alloc(), why, err),
    }
}

// Prints the text on words that name no messages or fields.
fn not_chosen<E: Write>(alloc: Global, why: NotChosen<'_>, err: &mut E) -> u8
    ensures { result ≤ 2 }
{
    let text = match why {
        NotChosen::Message(word) => no_name(alloc, "--message <NAME>", word),
        NotChosen::Field(word) => no_name(alloc, "--fields <NAMES>", word),
        NotChosen::TooMany => too_many_fields(alloc),
    };
    refused_by(text, err)
}

// Moves the times of a file. It is read only if the words say how.
fn shift_chosen<O: Write, E: Write>(
    files: &mut SystemFiles<'_>,
    file: &str,
    to: &str,
    form: &ShiftForm<'_>,
    out: &mut O,
    err: &mut E,
) -> u8
    ensures { result ≤ 2 }
{
    match shift_by(form) {
        Ok(by) => status(make_shifted(files, file, to, by, out), err),
        Err(NotShift::By(word)) => refused_by(no_shift(files.alloc(), word), err),
        Err(NotShift::Start(word)) => refused_by(no_start(files.alloc(), word), err),
    }
}

// Simulates a script. It is read only if the word for its choices spells bytes.
fn simulate_chosen<O: Write, E: Write>(
    files: &SystemFiles<'_>,
    script: &str,
    choices: &str,
    checked: bool,
    out: &mut O,
    err: &mut E,
) -> u8
    ensures { result ≤ 2 }
{
    match read_choices(files.alloc(), choices) {
        Ok(Some(bytes)) => {
            let done = simulate_script(files, script, bytes.as_slice(), checked, out);
            status(done, err)
        }
        Ok(None) => refused_by(no_choices(files.alloc(), choices), err),
        Err(_) => status(Err(Fault::NoMemory), err),
    }
}

// Prints the text on a word that is no value of its option; or that there is no memory for it.
fn refused_by<E: Write>(text: Result<clap::Error, clap::Error>, err: &mut E) -> u8
    ensures { result ≤ 2 }
{
    refused(text.unwrap_or_else(|refusal| refusal), err)
}

// Prints the text on words that are no command, or help, and returns the exit status.
fn refused<E: Write>(refusal: clap::Error, err: &mut E) -> u8
    ensures { result ≤ 2 }
{
    match refusal.kind() {
        ErrorKind::OutOfMemory => status(Err(Fault::NoMemory), err),
        _ => {
            let _ = write!(err, "{refusal}");
            2
        }
    }
}

// Prints a line on the fault, if there is one, and returns the exit status.
fn status<E: Write>(done: Result<(), Fault<'_>>, err: &mut E) -> u8
    ensures { result ≤ 1 }
{
    match done {
        Ok(()) => 0,
        Err(fault) => {
            let _ = writeln!(err, "fitrec: {fault}");
            1
        }
    }
}
