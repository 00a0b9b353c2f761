//! The command line of `fitrec`: the words it takes, the requests they make, and the errors for all others.
//!
//! `read_words` reads the words after the program's name. `request` turns the words of a subcommand into a request, `subcommands`
//! has the help line and the words of each subcommand, and `arguments` has the help of each word. `ShownWord` is a word as a message
//! shows it, and `text` has what stands for a word that is not UTF-8. This crate depends on `clap` alone.
//!
//! The contracts use the definitions of `specs/`.
//!
//! Proved: which words make which request. The texts of errors and help are those of `clap`. Trusted beside the kit is that an argument of
//! the system is what was typed.
#![tactic(auto)]

mod arguments;
mod request;
mod shown;
mod subcommands;
mod text;

use clap::error::ErrorKind;
use clap::{ArgMatches, Command, Error};
use request::request_in;
pub use request::{Names, Request, SalvageForm, ShiftForm, TableForm};
pub use shown::ShownWord;
use std::alloc::{AllocError, Global};
use std::convert::AsStr;
use subcommands::fitrec_command;
pub use text::text_of_word;

/// Reads the words after the program's name. An `Error` carries the text to print: help, or what is wrong. It has each word as
/// `ShownWord` shows it.
pub fn read_words<'a, S: AsStr>(alloc: Global, words: &'a [S]) -> Result<Request<'a>, Error> {
    match request_of_words(alloc, words) {
        Ok(request) => Ok(request),
        Err(refusal) => Err(shown_refusal(alloc, words, refusal)?),
    }
}

fn request_of_words<'a, S: AsStr>(alloc: Global, words: &'a [S]) -> Result<Request<'a>, Error> {
    let mut fitrec = fitrec_command(alloc)?;
    let matches = fitrec.try_get_matches_from_mut(words)?;
    request_or_refusal(alloc, &mut fitrec, &matches)
}

fn request_or_refusal<'a>(
    alloc: Global,
    fitrec: &mut Command<'a>,
    matches: &ArgMatches<'a>,
) -> Result<Request<'a>, Error> {
    match request_in(alloc, matches)? {
        Some(request) => Ok(request),
        None => Err(fitrec.error(ErrorKind::MissingSubcommand, "no command")?),
    }
}

// The refusal of these words as they are shown, which takes the place of this one. What is wrong with a word stays wrong with it.
fn shown_refusal<S: AsStr>(alloc: Global, words: &[S], refusal: Error) -> Result<Error, Error> {
    let shown = shown_words(alloc, words)?;
    match request_of_words(alloc, shown.as_slice()) {
        Ok(_) => Ok(refusal),
        Err(of_shown) => Ok(of_shown),
    }
}

fn shown_words<S: AsStr>(alloc: Global, words: &[S]) -> Result<Vec<String>, AllocError> {
    let mut shown: Vec<String> = Vec::new(alloc);
    for word in words {
        let text = word.as_str();
        shown.push(format!(in alloc; "{}", ShownWord(text))?)?;
    }
    Ok(shown)
}

/// The error for a word of `--choices` that is not an even number of hexadecimal digits.
pub fn no_choices(alloc: Global, word: &str) -> Result<Error, Error> {
    let why = format!(in alloc;
        "invalid value '{}' for '--choices <HEX>': it is no even number of hexadecimal digits",
        ShownWord(word)
    )?;
    value_error(alloc, why.as_str())
}

/// The error for a word of `--message`, or for one of the names in `--fields`, that names nothing.
pub fn no_name(alloc: Global, option: &str, word: &str) -> Result<Error, Error> {
    let why = format!(in alloc;
        "invalid value '{}' for '{option}': show names messages and fields",
        ShownWord(word)
    )?;
    value_error(alloc, why.as_str())
}

/// The error for a word of `--fields` with more names than a table has columns.
pub fn too_many_fields(alloc: Global) -> Result<Error, Error> {
    value_error(
        alloc,
        "invalid value for '--fields <NAMES>': a table has at most 128 columns",
    )
}

/// The error for a word of `--commit` that is not a number of seconds.
pub fn no_seconds(alloc: Global, word: &str) -> Result<Error, Error> {
    let why = format!(in alloc;
        "invalid value '{}' for '--commit <SECONDS>': it is no number from 0 to 4294967295",
        ShownWord(word)
    )?;
    value_error(alloc, why.as_str())
}

/// The error for a word of `--by` that is not a number of seconds.
pub fn no_shift(alloc: Global, word: &str) -> Result<Error, Error> {
    let why = format!(in alloc;
        "invalid value '{}' for '--by <SECONDS>': it is no whole number from -4294967294 to 4294967294",
        ShownWord(word)
    )?;
    value_error(alloc, why.as_str())
}

/// The error for a word of `--start` that is not a time.
pub fn no_start(alloc: Global, word: &str) -> Result<Error, Error> {
    let why = format!(in alloc;
        "invalid value '{}' for '--start <TIME>': it is no date and time with a zone, such as 2026-05-01T08:00:00Z, and no number below 4294967295",
        ShownWord(word)
    )?;
    value_error(alloc, why.as_str())
}

// The error for a word that is no value of its option.
fn value_error(alloc: Global, why: &str) -> Result<Error, Error> {
    let mut fitrec = fitrec_command(alloc)?;
    Ok(fitrec.error(ErrorKind::ValueValidation, why)?)
}
