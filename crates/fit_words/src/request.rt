// What a command line requests.

ghost use Rattle.std.specs.Prelude.{◌≡◌, ◌∷◌, map, codes, IfOk, IfSome};
ghost use Rattle.clap.specs.Words.{found_of};
ghost use Rattle.fit_words.specs.Requests.{IsAskedBy, IsEachAskedBy, IsForm, names_in};

use clap::ArgMatches;
use std::alloc::{AllocError, Global};

/// What a command line requests: a subcommand with its words.
#[derive(Drop)]
pub enum Request<'a> {
    Show {
        file: &'a str,
        utc: bool,
        json: bool,
        /// Only with `json`.
        profile: bool,
        /// Only without the others.
        gpx: bool,
    },
    Check {
        file: &'a str,
    },
    CheckEach {
        names: Names<'a>,
        json: bool,
    },
    Table {
        file: &'a str,
        form: TableForm<'a>,
    },
    TableEach {
        names: Names<'a>,
        form: TableForm<'a>,
    },
    Replay {
        script: &'a str,
        folder: &'a str,
        checked: bool,
    },
    Record {
        folder: &'a str,
        /// The word of `--commit`, if it is there.
        every: Option<&'a str>,
    },
    Save {
        folder: &'a str,
        to: &'a str,
        earlier: bool,
    },
    Repair {
        folder: &'a str,
        verify: bool,
    },
    Salvage {
        file: &'a str,
        to: &'a str,
        form: SalvageForm<'a>,
    },
    Split {
        file: &'a str,
        folder: &'a str,
        all: bool,
    },
    Plain {
        file: &'a str,
        to: &'a str,
    },
    Shift {
        file: &'a str,
        to: &'a str,
        form: ShiftForm<'a>,
    },
    Join {
        to: &'a str,
        /// The names of the parts, as they are given.
        first: &'a str,
        others: Vec<&'a str>,
        as_given: bool,
    },
    Simulate {
        script: &'a str,
        choices: &'a str,
        checked: bool,
    },
    Version,
}

/// The names of several files.
#[derive(Drop)]
pub struct Names<'a> {
    pub all: Vec<&'a str>,
    /// Whether names on standard input end with zero bytes.
    pub null: bool,
}

/// How a table is written.
#[derive(Clone, Copy)]
pub struct TableForm<'a> {
    pub utc: bool,
    pub raw: bool,
    pub profile: bool,
    /// The word of `--message`, if it is there.
    pub message: Option<&'a str>,
    /// The word of `--fields`, if it is there.
    pub fields: Option<&'a str>,
}

/// What is kept of a damaged file, and how it is written.
#[derive(Clone, Copy)]
pub struct SalvageForm<'a> {
    pub all: bool,
    pub plain: bool,
    pub skip: bool,
    /// The word of `--like`, if it is there. Only with `skip`.
    pub like: Option<&'a str>,
    pub finish: bool,
}

/// How the times of a file are moved: one of both words is there.
#[derive(Clone, Copy)]
pub struct ShiftForm<'a> {
    /// The word of `--by`, if it is there.
    pub by: Option<&'a str>,
    /// The word of `--start`, if it is there.
    pub start: Option<&'a str>,
}

// The request that the words after the program's name make.
pub(crate) fn request_in<'a>(
    alloc: Global,
    matches: &ArgMatches<'a>,
) -> Result<Option<Request<'a>>, AllocError> {
    match matches.subcommand() {
        Some(("join", of_name)) => join_of(alloc, of_name),
        Some((name, of_name)) if of_name.get_flag("each") => each_of(alloc, name, of_name),
        Some((name, of_name)) => Ok(request_of(name, of_name)),
        None => Ok(None),
    }
}

// The request that the words of the subcommand with this name make, which takes several files.
fn each_of<'a>(
    alloc: Global,
    name: &str,
    matches: &ArgMatches<'a>,
) -> Result<Option<Request<'a>>, AllocError>
    ensures { IfOk result (λ request.
        IfSome request (IsEachAskedBy name.now (found_of matches.now))) }
{
    let Some(first) = matches.get_str("FILE") else {
        return Ok(None);
    };
    let names = Names {
        all: names_of(alloc, first, matches.get_strs("MORE"))?,
        null: matches.get_flag("null"),
    };
    match name {
        "check" => {
            let json = matches.get_flag("json");
            Ok(Some(Request::CheckEach { names, json }))
        }
        "table" => Ok(Some(Request::TableEach {
            names,
            form: form_of(matches),
        })),
        _ => Ok(None),
    }
}

// The request of the subcommand `join`.
fn join_of<'a>(alloc: Global, matches: &ArgMatches<'a>) -> Result<Option<Request<'a>>, AllocError>
    ensures { IfOk result (λ request.
        IfSome request (IsAskedBy (codes "join") (found_of matches.now))) }
{
    let (Some(to), Some(first)) = (matches.get_str("OUT"), matches.get_str("IN")) else {
        return Ok(None);
    };
    let others = words_of(alloc, matches.get_strs("MORE"))?;
    let as_given = matches.get_flag("as-given");
    Ok(Some(Request::Join {
        to,
        first,
        others,
        as_given,
    }))
}

// The names of several files.
fn names_of<'a>(
    alloc: Global,
    first: &'a str,
    more: Option<&[&'a str]>,
) -> Result<Vec<&'a str>, AllocError>
    ensures { IfOk result
        (λ names. map (λ name. name.now) names.items ≡ first.now ∷ names_in more.entry) }
{
    let mut names = Vec::new(alloc);
    names.push(first)?;
    if let Some(more) = more {
        names.extend_from_slice(more)?;
    }
    Ok(names)
}

// These words, if there are any.
fn words_of<'a>(alloc: Global, words: Option<&[&'a str]>) -> Result<Vec<&'a str>, AllocError>
    ensures { IfOk result (λ all. map (λ word. word.now) all.items ≡ names_in words.entry) }
{
    let mut all = Vec::new(alloc);
    if let Some(words) = words {
        all.extend_from_slice(words)?;
    }
    Ok(all)
}

// How a table is written.
fn form_of<'a>(matches: &ArgMatches<'a>) -> TableForm<'a>
    ensures { IsForm (found_of matches.now) result }
{
    TableForm {
        utc: matches.get_flag("utc"),
        raw: matches.get_flag("raw"),
        profile: matches.get_flag("profile"),
        message: matches.get_str("message"),
        fields: matches.get_str("fields"),
    }
}

// The request that the words of the subcommand with this name make.
fn request_of<'a>(name: &str, matches: &ArgMatches<'a>) -> Option<Request<'a>>
    ensures { IfSome result (IsAskedBy name.now (found_of matches.now)) }
{
    match name {
        "show" => show_of(matches),
        "check" => check_of(matches),
        "table" => table_of(matches),
        "replay" => replay_of(matches),
        "record" => record_of(matches),
        "save" => save_of(matches),
        "repair" => repair_of(matches),
        "salvage" => salvage_of(matches),
        "split" => split_of(matches),
        "plain" => plain_of(matches),
        "shift" => shift_of(matches),
        "simulate" => simulate_of(matches),
        "version" => Some(Request::Version),
        _ => None,
    }
}

fn show_of<'a>(matches: &ArgMatches<'a>) -> Option<Request<'a>>
    ensures { IfSome result (IsAskedBy (codes "show") (found_of matches.now)) }
{
    Some(Request::Show {
        file: matches.get_str("FILE")?,
        utc: matches.get_flag("utc"),
        json: matches.get_flag("json"),
        profile: matches.get_flag("profile"),
        gpx: matches.get_flag("gpx"),
    })
}

fn check_of<'a>(matches: &ArgMatches<'a>) -> Option<Request<'a>>
    ensures { IfSome result (IsAskedBy (codes "check") (found_of matches.now)) }
{
    Some(Request::Check {
        file: matches.get_str("FILE")?,
    })
}

fn table_of<'a>(matches: &ArgMatches<'a>) -> Option<Request<'a>>
    ensures { IfSome result (IsAskedBy (codes "table") (found_of matches.now)) }
{
    Some(Request::Table {
        file: matches.get_str("FILE")?,
        form: form_of(matches),
    })
}

fn replay_of<'a>(matches: &ArgMatches<'a>) -> Option<Request<'a>>
    ensures { IfSome result (IsAskedBy (codes "replay") (found_of matches.now)) }
{
    Some(Request::Replay {
        script: matches.get_str("SCRIPT")?,
        folder: matches.get_str("FOLDER")?,
        checked: matches.get_flag("checked"),
    })
}

fn record_of<'a>(matches: &ArgMatches<'a>) -> Option<Request<'a>>
    ensures { IfSome result (IsAskedBy (codes "record") (found_of matches.now)) }
{
    Some(Request::Record {
        folder: matches.get_str("FOLDER")?,
        every: matches.get_str("commit"),
    })
}

fn save_of<'a>(matches: &ArgMatches<'a>) -> Option<Request<'a>>
    ensures { IfSome result (IsAskedBy (codes "save") (found_of matches.now)) }
{
    Some(Request::Save {
        folder: matches.get_str("FOLDER")?,
        to: matches.get_str("OUT")?,
        earlier: matches.get_flag("earlier"),
    })
}

fn repair_of<'a>(matches: &ArgMatches<'a>) -> Option<Request<'a>>
    ensures { IfSome result (IsAskedBy (codes "repair") (found_of matches.now)) }
{
    Some(Request::Repair {
        folder: matches.get_str("FOLDER")?,
        verify: matches.get_flag("verify"),
    })
}

fn salvage_of<'a>(matches: &ArgMatches<'a>) -> Option<Request<'a>>
    ensures { IfSome result (IsAskedBy (codes "salvage") (found_of matches.now)) }
{
    Some(Request::Salvage {
        file: matches.get_str("IN")?,
        to: matches.get_str("OUT")?,
        form: SalvageForm {
            all: matches.get_flag("all"),
            plain: matches.get_flag("plain"),
            skip: matches.get_flag("skip"),
            like: matches.get_str("like"),
            finish: matches.get_flag("finish"),
        },
    })
}

fn split_of<'a>(matches: &ArgMatches<'a>) -> Option<Request<'a>>
    ensures { IfSome result (IsAskedBy (codes "split") (found_of matches.now)) }
{
    let all = matches.get_flag("all");
    Some(Request::Split {
        file: matches.get_str("IN")?,
        folder: matches.get_str("FOLDER")?,
        all,
    })
}

fn plain_of<'a>(matches: &ArgMatches<'a>) -> Option<Request<'a>>
    ensures { IfSome result (IsAskedBy (codes "plain") (found_of matches.now)) }
{
    Some(Request::Plain {
        file: matches.get_str("IN")?,
        to: matches.get_str("OUT")?,
    })
}

fn shift_of<'a>(matches: &ArgMatches<'a>) -> Option<Request<'a>>
    ensures { IfSome result (IsAskedBy (codes "shift") (found_of matches.now)) }
{
    Some(Request::Shift {
        file: matches.get_str("IN")?,
        to: matches.get_str("OUT")?,
        form: ShiftForm {
            by: matches.get_str("by"),
            start: matches.get_str("start"),
        },
    })
}

fn simulate_of<'a>(matches: &ArgMatches<'a>) -> Option<Request<'a>>
    ensures { IfSome result (IsAskedBy (codes "simulate") (found_of matches.now)) }
{
    Some(Request::Simulate {
        script: matches.get_str("SCRIPT")?,
        choices: matches.get_str("choices").unwrap_or(""),
        checked: matches.get_flag("checked"),
    })
}
